// The engine's C interface, for C to link: each call of crate `barrier_engine` under its own name, with its clauses again, and nothing else. A crate is
// built as a library or for C, not as both. include/barrier.h declares the calls, and names the archive libbarrier_engine.a.
#![tactic(auto)]

ghost use Rattle.std.specs.Prelude.{◌≡◌, length};
ghost use Rattle.schedule.specs.Plan.{plan, bytes_written, output_after};
ghost use Rattle.station_level.specs.Level.{level_at};
ghost use Rattle.corners.specs.Corners.{corners_of};
ghost use Rattle.clear_offset.specs.Offset.{smallest_offset};
ghost use Rattle.withdrawal.specs.Reach.{reach};
ghost use Rattle.panels.specs.Panels.{panels_for};
ghost use Rattle.queries.specs.Quantity.{quantity};
ghost use Rattle.queries.specs.Lookup.{lookup};
ghost use Rattle.queries.specs.Ranges.{quantities};
ghost use Rattle.replies.specs.Interface.{reply_of, plan_reply_of, record_of, quantities_of, corners_reply_of, smallest_of, reach_reply_of, layout_of, version};
ghost use Rattle.open_memory.specs.Memory.{hazard_given};
ghost use Rattle.open_job.specs.Calls.{memory_after, open_states, add_in, withdraw_in, schedule_in, reach_in, keep_in, return_in};
ghost use Rattle.base.specs.Answer.{replied};

use open_job::OpenStates;
use open_memory::GivenHazard;
use replies::{
    Corners, LayoutReply, PlanReply, Quantities, ReachReply, Record, Reply, SmallestOffset,
};

#[unsafe(no_mangle)]
pub extern "C" fn barrier_plan(job: &[u8], side: u64, out: &mut [u8]) -> PlanReply
    ensures value { result ≡ plan_reply_of (bytes_written (plan job.now side (length out.old))) }
    ensures out_after { out.new ≡ output_after (plan job.now side (length out.old)) out.old }
{
    barrier_engine::barrier_plan(job, side, out)
}

#[unsafe(no_mangle)]
pub extern "C" fn barrier_level(job: &[u8], side: u64, station: u64) -> Reply
    ensures { result ≡ reply_of (level_at job.now side station) }
{
    barrier_engine::barrier_level(job, side, station)
}

#[unsafe(no_mangle)]
pub extern "C" fn barrier_offset(job: &[u8], hazard: u64, longest: u64) -> SmallestOffset
    ensures { result ≡ smallest_of (smallest_offset job.now hazard longest) }
{
    barrier_engine::barrier_offset(job, hazard, longest)
}

#[unsafe(no_mangle)]
pub extern "C" fn barrier_reach(job: &[u8], hazard: u64) -> ReachReply
    ensures { result ≡ reach_reply_of (reach job.now hazard) }
{
    barrier_engine::barrier_reach(job, hazard)
}

#[unsafe(no_mangle)]
pub extern "C" fn barrier_quantity(schedule: &[u8], level: u64, p: u64, q: u64) -> Reply
    ensures { result ≡ reply_of (quantity schedule.now level p q) }
{
    barrier_engine::barrier_quantity(schedule, level, p, q)
}

#[unsafe(no_mangle)]
pub extern "C" fn barrier_lookup(right: &[u8], left: &[u8], side: u64, station: u64) -> Record
    ensures { result ≡ record_of (lookup right.now left.now side station) }
{
    barrier_engine::barrier_lookup(right, left, side, station)
}

#[unsafe(no_mangle)]
pub extern "C" fn barrier_quantities(schedule: &[u8], level: u64, ranges: &[u64]) -> Quantities
    ensures { result ≡ quantities_of (quantities schedule.now level ranges.now) }
{
    barrier_engine::barrier_quantities(schedule, level, ranges)
}

#[unsafe(no_mangle)]
pub extern "C" fn barrier_corners(
    job: &[u8],
    hazard: u64,
    sheet_station: u64,
    sheet_offset: u64,
) -> Corners
    ensures { result ≡ corners_reply_of (corners_of job.now hazard sheet_station sheet_offset) }
{
    barrier_engine::barrier_corners(job, hazard, sheet_station, sheet_offset)
}

#[unsafe(no_mangle)]
pub extern "C" fn barrier_layout(lengths: &[u64], run: u64, limit: u64) -> LayoutReply
    ensures { result ≡ layout_of (panels_for lengths.now run limit) }
{
    barrier_engine::barrier_layout(lengths, run, limit)
}

#[unsafe(no_mangle)]
pub extern "C" fn barrier_version() -> u32
    ensures { result ≡ version }
{
    barrier_engine::barrier_version()
}

#[unsafe(no_mangle)]
pub extern "C" fn barrier_open(job: &mut OpenStates, bytes: &[u8]) -> Reply
    ensures { (job.new ≡ memory_after (open_states bytes.now) job.old) × (result ≡ reply_of (replied (open_states bytes.now))) }
{
    barrier_engine::open::barrier_open(job, bytes)
}

#[unsafe(no_mangle)]
pub extern "C" fn barrier_add(job: &mut OpenStates, name: u16, hazard: GivenHazard) -> Reply
    ensures { (job.new ≡ memory_after (add_in job.old name (hazard_given hazard)) job.old) × (result ≡ reply_of (replied (add_in job.old name (hazard_given hazard)))) }
{
    barrier_engine::open::barrier_add(job, name, hazard)
}

#[unsafe(no_mangle)]
pub extern "C" fn barrier_withdraw(job: &mut OpenStates, name: u16) -> Reply
    ensures { (job.new ≡ memory_after (withdraw_in job.old name) job.old) × (result ≡ reply_of (replied (withdraw_in job.old name))) }
{
    barrier_engine::open::barrier_withdraw(job, name)
}

#[unsafe(no_mangle)]
pub extern "C" fn barrier_keep(job: &mut OpenStates, state: u64) -> Reply
    ensures { (job.new ≡ memory_after (keep_in job.old state) job.old) × (result ≡ reply_of (replied (keep_in job.old state))) }
{
    barrier_engine::open::barrier_keep(job, state)
}

#[unsafe(no_mangle)]
pub extern "C" fn barrier_return(job: &mut OpenStates, state: u64) -> Reply
    ensures { (job.new ≡ memory_after (return_in job.old state) job.old) × (result ≡ reply_of (replied (return_in job.old state))) }
{
    barrier_engine::open::barrier_return(job, state)
}

#[unsafe(no_mangle)]
pub extern "C" fn barrier_open_schedule(job: &OpenStates, side: u64, out: &mut [u8]) -> PlanReply
    ensures { (result ≡ plan_reply_of (bytes_written (schedule_in job.now side (length out.old)))) × (out.new ≡ output_after (schedule_in job.now side (length out.old)) out.old) }
{
    barrier_engine::open::barrier_open_schedule(job, side, out)
}

#[unsafe(no_mangle)]
pub extern "C" fn barrier_open_reach(job: &OpenStates, name: u16) -> ReachReply
    ensures { result ≡ reach_reply_of (reach_in job.now name) }
{
    barrier_engine::open::barrier_open_reach(job, name)
}
