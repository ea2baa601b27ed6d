// The calls on an open job, which is changed in the caller's memory: thin shells that make C's reply of each answer.
ghost use Rattle.std.specs.Prelude.{◌≡◌, length};
ghost use Rattle.schedule.specs.Plan.{bytes_written, output_after};
ghost use Rattle.open_memory.specs.Memory.{hazard_given};
ghost use Rattle.open_job.specs.Calls.{memory_after, open_states, add_in, withdraw_in, schedule_in, reach_in, keep_in, return_in};
ghost use Rattle.base.specs.Answer.{replied};
ghost use Rattle.replies.specs.Interface.{reply_of, plan_reply_of, reach_reply_of};

use open_job::OpenStates;
use open_memory::GivenHazard;
use replies::{PlanReply, ReachReply, Reply};

pub fn barrier_open(job: &mut OpenStates, bytes: &[u8]) -> Reply
    ensures { (job.new ≡ memory_after (open_states bytes.now) job.old) × (result ≡ reply_of (replied (open_states bytes.now))) }
{
    Reply::from(job.open(bytes))
}

pub fn barrier_add(job: &mut OpenStates, name: u16, hazard: GivenHazard) -> Reply
    ensures { (job.new ≡ memory_after (add_in job.old name (hazard_given hazard)) job.old) × (result ≡ reply_of (replied (add_in job.old name (hazard_given hazard)))) }
{
    Reply::from(job.add(name, hazard))
}

pub fn barrier_withdraw(job: &mut OpenStates, name: u16) -> Reply
    ensures { (job.new ≡ memory_after (withdraw_in job.old name) job.old) × (result ≡ reply_of (replied (withdraw_in job.old name))) }
{
    Reply::from(job.withdraw(name))
}

pub fn barrier_keep(job: &mut OpenStates, state: u64) -> Reply
    ensures { (job.new ≡ memory_after (keep_in job.old state) job.old) × (result ≡ reply_of (replied (keep_in job.old state))) }
{
    Reply::from(job.keep(state))
}

pub fn barrier_return(job: &mut OpenStates, state: u64) -> Reply
    ensures { (job.new ≡ memory_after (return_in job.old state) job.old) × (result ≡ reply_of (replied (return_in job.old state))) }
{
    Reply::from(job.return_to(state))
}

pub fn barrier_open_schedule(job: &OpenStates, side: u64, out: &mut [u8]) -> PlanReply
    ensures { (result ≡ plan_reply_of (bytes_written (schedule_in job.now side (length out.old)))) × (out.new ≡ output_after (schedule_in job.now side (length out.old)) out.old) }
{
    PlanReply::from(job.schedule(side, out))
}

pub fn barrier_open_reach(job: &OpenStates, name: u16) -> ReachReply
    ensures { result ≡ reach_reply_of (reach_in job.now name) }
{
    ReachReply::from(job.reach(name))
}
