// The calls on the parts of the memory, by value: the present state, whether all that is kept is sound (keeps the rules), and the one kept
// state that a return goes to. Each but opening tests the present state itself, so none asks anything of its caller.
ghost use Rattle.std.specs.Prelude.{◌≡◌, ◌&&◌, length};
ghost use Rattle.refusal.specs.Refusal.{answer_of, unless_refuse};
ghost use Rattle.refusal.specs.declared.Refusal.TheVariants.{HeaderRange};
ghost use Rattle.job.specs.Job.{job_of};
ghost use Rattle.job.specs.Reply.{read_opening};
ghost use Rattle.job.specs.Writing.{write_job};
ghost use Rattle.schedule.specs.Plan.{plan, bytes_written, output_after};
ghost use Rattle.open_memory.specs.Memory.{hazard_given, is_open_job};
ghost use Rattle.open_job.specs.Calls.{open_job, opens_with, under_rules, add_to, withdraw_from, reach_under, test_state, kept_job};

use super::tested::OpenJob;
use super::{KeptState, tested};
use job::read::read_opening;
use job::{Header, StoredJob};
use open_memory::GivenHazard;
use open_memory::rules::is_open_job;
use refusal::Refusal;
use schedule::reply::Written;
use withdrawal::reply::Reach;

// What opening reads of job bytes that carry no hazard: the header of the present state, in which none stands; whatever the memory held.
pub fn open(bytes: &[u8]) -> Result<Header, Refusal>
    ensures opening { answer_of result ≡ read_opening bytes.now }
    ensures opened_job { opens_with result ≡ open_job bytes.now }
{
    read_opening(bytes)
}

// Does the present state keep the rules, and all that is kept.
fn keeps_rules(sound: bool, job: StoredJob) -> bool
    ensures { result ≡ (is_open_job job && sound) }
{
    is_open_job(job) & sound
}

// A hazard is added under a name.
pub fn add(
    sound: bool,
    job: StoredJob,
    name: u16,
    hazard: GivenHazard,
) -> Result<StoredJob, Refusal>
    ensures { answer_of result ≡ under_rules (is_open_job job && sound) (add_to job name (hazard_given hazard)) }
{
    if keeps_rules(sound, job) {
        OpenJob { state: job }.add(name, hazard)
    } else {
        Err(Refusal::HeaderRange(0))
    }
}

// The hazard under a name is withdrawn.
pub fn withdraw(sound: bool, job: StoredJob, name: u16) -> Result<StoredJob, Refusal>
    ensures { answer_of result ≡ under_rules (is_open_job job && sound) (withdraw_from job name) }
{
    if keeps_rules(sound, job) {
        OpenJob { state: job }.withdraw(name)
    } else {
        Err(Refusal::HeaderRange(0))
    }
}

// The schedule of a side, written into the output; or the first refusal, and nothing written.
pub fn schedule(sound: bool, job: StoredJob, side: u64, out: &mut [u8]) -> Result<Written, Refusal>
    ensures reply { answer_of result ≡ bytes_written (under_rules (is_open_job job && sound) (plan (write_job (job_of job)) side (length out.old))) }
    ensures out_after { out.new ≡ output_after (under_rules (is_open_job job && sound) (plan (write_job (job_of job)) side (length out.old))) out.old }
{
    if keeps_rules(sound, job) {
        OpenJob { state: job }.schedule(side, out)
    } else {
        Err(Refusal::HeaderRange(0))
    }
}

// How far the withdrawal of the hazard under a name would reach.
pub fn reach(sound: bool, job: StoredJob, name: u16) -> Result<Reach, Refusal>
    ensures { answer_of result ≡ under_rules (is_open_job job && sound) (reach_under job name) }
{
    if keeps_rules(sound, job) {
        OpenJob { state: job }.reach(name)
    } else {
        Err(Refusal::HeaderRange(0))
    }
}

// The tests of a keep: the memory, 3 with 0; then the number, 13.
pub fn test_state(sound: bool, job: StoredJob, number: u64) -> Result<(), Refusal>
    ensures { answer_of result ≡ under_rules (is_open_job job && sound) (test_state number) }
{
    tested::test_state(keeps_rules(sound, job), number)
}

// A return to what was found under the number: the same tests, and 13 where nothing is kept.
pub fn return_to(
    sound: bool,
    job: StoredJob,
    number: u64,
    kept: KeptState,
) -> Result<StoredJob, Refusal>
    ensures { answer_of result ≡ under_rules (is_open_job job && sound) (kept_job job.header number kept) }
{
    tested::return_to(keeps_rules(sound, job), job.header, number, kept)
}
