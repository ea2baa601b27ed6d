// The calls by value on a present state that keeps the rules.
ghost use Rattle.std.specs.Prelude.{◌≡◌, true, length};
ghost use Rattle.refusal.specs.Refusal.{answer_of};
ghost use Rattle.job.specs.Job.{job_of};
ghost use Rattle.job.specs.Writing.{write_job};
ghost use Rattle.job.specs.Fits.{header_in_range};
ghost use Rattle.schedule.specs.Plan.{plan, bytes_written, output_after};
ghost use Rattle.open_memory.specs.Memory.{hazard_given, is_open_job};
ghost use Rattle.open_job.specs.Parts.{admitted};
ghost use Rattle.open_job.specs.Calls.{under_rules, add_to, withdraw_from, reach_under, test_state, kept_job};

use super::KeptState;
use super::kept::{is_used, state_of};
use job::read::Places;
use job::{Hazard, Header, NamedHazard, StoredJob};
use open_memory::GivenHazard;
use open_memory::places::{place_of, put_in, stands_at, taken_out};
use open_memory::rules::stored_hazard;
use planning::accept::side_behind;
use planning::near::stands_near;
use planning::window::Window;
use refusal::Refusal;
use schedule::plan::plan_side;
use schedule::reply::Written;
use withdrawal::reach::hazard_reach;
use withdrawal::reply::Reach;

// A present state that keeps the rules. Only a test of the memory gives one.
#[derive(Clone, Copy)]
pub struct OpenJob {
    pub state: StoredJob,
    pub ghost keeps_rules: { is_open_job state ≡ true },
}

// Tests a hazard that is to stand under `name`: 4 outside its ranges, 5 too near to the barrier; each returns the name.
#[inline(never)]
fn admitted(header: Header, name: u16, hazard: GivenHazard) -> Result<NamedHazard, Refusal>
    requires { header_in_range header ≡ true }
    ensures { answer_of result ≡ admitted header name (hazard_given hazard) }
{
    match stored_hazard(header, hazard) {
        Some(stored) => {
            if stands_near(header, stored) {
                Err(Refusal::NearBarrier(name as usize))
            } else {
                Ok(stored.named(name))
            }
        }
        None => Err(Refusal::HazardRange(name as usize)),
    }
}

impl OpenJob {
    // Adds a hazard under a name. Refuses 12 where the name stands already, 15 where 256 hazards stand, 4 and 5 by the hazard's own tests, in this
    // order.
    pub fn add(self, name: u16, hazard: GivenHazard) -> Result<StoredJob, Refusal>
        ensures { answer_of result ≡ add_to self.state name (hazard_given hazard) }
    {
        let job = self.state;
        let at = place_of(job, name);
        if stands_at(job, at, name) {
            return Err(Refusal::Name(name as usize));
        }
        let header = job.header;
        let full = 256 <= header.count;
        if full {
            return Err(Refusal::Full);
        }
        let new = admitted(header, name, hazard)?;
        Ok(put_in(job, at, new))
    }

    // Withdraws the hazard under a name. Refuses 12 where the name does not stand.
    pub fn withdraw(self, name: u16) -> Result<StoredJob, Refusal>
        ensures { answer_of result ≡ withdraw_from self.state name }
    {
        let job = self.state;
        let at = place_of(job, name);
        if stands_at(job, at, name) {
            Ok(taken_out(job, at))
        } else {
            Err(Refusal::Name(usize::from(name)))
        }
    }

    // Writes the schedule of a side into the output; a refusal writes nothing. A state that keeps the rules passes the test of its hazards again.
    pub fn schedule(self, side: u64, out: &mut [u8]) -> Result<Written, Refusal>
        ensures reply { answer_of result ≡ bytes_written (plan (write_job (job_of self.state)) side (length out.old)) }
        ensures out_after { out.new ≡ output_after (plan (write_job (job_of self.state)) side (length out.old)) out.old }
    {
        if 1 < side {
            return Err(Refusal::Argument);
        }
        let job = self.state;
        let header = job.header;
        let mut keys: [u64; 256] = [0; 256];
        let mut ends: [u64; 256] = [0; 256];
        let mut source = Places {
            places: &job.hazards[..],
        };
        let read = side_behind(
            &mut source,
            header,
            side,
            Window::All,
            &mut keys[..],
            &mut ends[..],
        )?;
        plan_side(
            out,
            &mut keys,
            &ends[..],
            read.count,
            read.overhangs,
            read.continuity,
        )
    }

    // How far the withdrawal of the hazard under a name would reach. Refuses 12 where the name does not stand.
    pub fn reach(self, name: u16) -> Result<Reach, Refusal>
        ensures { answer_of result ≡ reach_under self.state name }
    {
        let job = self.state;
        let at = place_of(job, name);
        if stands_at(job, at, name) {
            let header = job.header;
            Ok(hazard_reach(header, Hazard::from(job.hazards[at])))
        } else {
            Err(Refusal::Name(name as usize))
        }
    }

    // Tests the number of a state: 13 above 7.
    pub fn test_state(&self, number: u64) -> Result<(), Refusal>
        ensures { answer_of result ≡ test_state number }
    {
        test_state(true, number)
    }

    // The state that was found under a number, with the header of the present state. Refuses 13 for a number above 7, and where nothing is kept.
    pub fn return_to(&self, number: u64, kept: KeptState) -> Result<StoredJob, Refusal>
        ensures { answer_of result ≡ kept_job self.now.state.header number kept }
    {
        return_to(true, self.state.header, number, kept)
    }
}

// Tests the number of a state: 13 above 7. `passed` says whether the memory keeps the rules; where it does not, 3 with 0 comes first.
pub fn test_state(passed: bool, number: u64) -> Result<(), Refusal>
    ensures { answer_of result ≡ under_rules passed (test_state number) }
{
    if !passed {
        return Err(Refusal::HeaderRange(0));
    }
    if number <= 7 {
        Ok(())
    } else {
        Err(Refusal::State)
    }
}

// The state that was found under a number, with this header. Refuses as `test_state` does, and 13 where nothing is kept.
pub fn return_to(
    passed: bool,
    header: Header,
    number: u64,
    kept: KeptState,
) -> Result<StoredJob, Refusal>
    ensures { answer_of result ≡ under_rules passed (kept_job header number kept) }
{
    test_state(passed, number)?;
    if is_used(kept) {
        Ok(state_of(header, kept))
    } else {
        Err(Refusal::State)
    }
}
