// The calls on an open job in the caller's memory, over the functions by value. A refused call leaves the memory as it was. Every call but opening tests
// the whole memory first: 3 with 0 where it breaks the rules.
ghost use Rattle.std.specs.Prelude.{◌≡◌, true, IsOk, length};
ghost use Rattle.base.specs.Answer.{replied};
ghost use Rattle.base.specs.Choice.{all_of};
ghost use Rattle.refusal.specs.Refusal.{answer_of, unless_refuse};
ghost use Rattle.refusal.specs.declared.Refusal.TheVariants.{HeaderRange};
ghost use Rattle.schedule.specs.Plan.{bytes_written, output_after};
ghost use Rattle.open_memory.specs.Memory.{hazard_given};
ghost use Rattle.open_job.specs.States.{most_kept, are_open_states};
ghost use Rattle.open_job.specs.Parts.{passes};
ghost use Rattle.open_job.specs.Calls.{memory_after, open_states, add_in, withdraw_in, schedule_in, reach_in, keep_in, return_in};

use super::kept::{is_sound, kept_from, kept_under, nothing_kept};
use super::tested::OpenJob;
use super::{KeptState, OpenStates, calls};
use open_memory::GivenHazard;
use open_memory::places::empty_state;
use open_memory::rules::{Limits, limits_of, places_pass};
use refusal::Refusal;
use schedule::reply::Written;
use withdrawal::reply::Reach;

// Tests each kept state. A function of its own because the proof knows the length of an array only where the array is a parameter.
fn each_is_sound(limits: Limits, states: &[KeptState; 8], above: &u32) -> bool
    requires { above.now ≡ 65537 }
    ensures sound { result ≡ all_of (passes limits) states.now }
    ensures size { length states.now ≡ most_kept }
{
    for kept in states {
        if !is_sound(limits, kept, above) {
            return false;
        }
    }
    true
}

impl OpenStates {
    // Does the whole memory keep the rules, the present state and all that is kept.
    fn are_open_states(&self) -> bool
        ensures sound { result ≡ are_open_states self.now }
        ensures size { result ≡ true → length self.now.kept ≡ most_kept }
    {
        let header = self.present.header;
        let above: u32 = 65537;
        match limits_of(header) {
            Some(limits) => {
                if 256 < header.count {
                    return false;
                }
                if places_pass(limits, header.count as usize, &self.present.hazards, &above) {
                    each_is_sound(limits, &self.kept, &above)
                } else {
                    false
                }
            }
            None => false,
        }
    }

    // Tests the whole memory: 3 with 0 where it breaks the rules.
    fn test(&self) -> Result<(), Refusal>
        ensures sound { answer_of result ≡ unless_refuse (are_open_states self.now) (HeaderRange 0) }
        ensures size { IsOk result → length self.now.kept ≡ most_kept }
    {
        if self.are_open_states() {
            Ok(())
        } else {
            Err(Refusal::HeaderRange(0))
        }
    }

    // Opens the memory by job bytes that carry no hazard: no hazard stands, and nothing is kept.
    pub fn open(&mut self, bytes: &[u8]) -> Result<(), Refusal>
        ensures memory { self.new ≡ memory_after (open_states bytes.now) self.old }
        ensures reply { replied (answer_of result) ≡ replied (open_states bytes.now) }
    {
        let header = calls::open(bytes)?;
        self.present = empty_state(header);
        self.kept = [nothing_kept(); 8];
        Ok(())
    }

    // Adds a hazard under a name.
    pub fn add(&mut self, name: u16, hazard: GivenHazard) -> Result<(), Refusal>
        ensures memory { self.new ≡ memory_after (add_in self.old name (hazard_given hazard)) self.old }
        ensures reply { replied (answer_of result) ≡ replied (add_in self.old name (hazard_given hazard)) }
    {
        self.test()?;
        let present = OpenJob {
            state: self.present,
        };
        self.present = present.add(name, hazard)?;
        Ok(())
    }

    // Withdraws the hazard under a name.
    pub fn withdraw(&mut self, name: u16) -> Result<(), Refusal>
        ensures memory { self.new ≡ memory_after (withdraw_in self.old name) self.old }
        ensures reply { replied (answer_of result) ≡ replied (withdraw_in self.old name) }
    {
        self.test()?;
        let present = OpenJob {
            state: self.present,
        };
        self.present = present.withdraw(name)?;
        Ok(())
    }

    // Keeps the present state under a number 0 to 7, in place of what was kept there.
    pub fn keep(&mut self, number: u64) -> Result<(), Refusal>
        ensures memory { self.new ≡ memory_after (keep_in self.old number) self.old }
        ensures reply { replied (answer_of result) ≡ replied (keep_in self.old number) }
    {
        self.test()?;
        let present = OpenJob {
            state: self.present,
        };
        present.test_state(number)?;
        let new = kept_from(self.present);
        self.kept[number as usize] = new;
        Ok(())
    }

    // Goes back to the state that is kept under a number.
    pub fn return_to(&mut self, number: u64) -> Result<(), Refusal>
        ensures memory { self.new ≡ memory_after (return_in self.old number) self.old }
        ensures reply { replied (answer_of result) ≡ replied (return_in self.old number) }
    {
        self.test()?;
        let present = OpenJob {
            state: self.present,
        };
        let found = kept_under(&self.kept, number);
        self.present = present.return_to(number, found)?;
        Ok(())
    }

    // Writes the schedule of a side into the output; a refusal writes nothing.
    pub fn schedule(&self, side: u64, out: &mut [u8]) -> Result<Written, Refusal>
        ensures reply { answer_of result ≡ bytes_written (schedule_in self.now side (length out.old)) }
        ensures out_after { out.new ≡ output_after (schedule_in self.now side (length out.old)) out.old }
    {
        self.test()?;
        let present = OpenJob {
            state: self.present,
        };
        present.schedule(side, out)
    }

    // How far the withdrawal of the hazard under a name would reach.
    pub fn reach(&self, name: u16) -> Result<Reach, Refusal>
        ensures { answer_of result ≡ reach_in self.now name }
    {
        self.test()?;
        let present = OpenJob {
            state: self.present,
        };
        present.reach(name)
    }
}
