// The engine's C interface, as a library, of which the C is made: numbers, slices as pointer and length, and replies as plain structs. Each call is a line
// over the crates below. include/barrier.h declares it, and crate `barrier_engine_c` exports it: no crate is both a library and built for C.
#![tactic(auto)]

pub mod open; // the calls on an open job

ghost use Rattle.std.specs.Prelude.{◌≡◌, length};
ghost use Rattle.schedule.specs.Plan.{plan, bytes_written, output_after};
ghost use Rattle.station_level.specs.Level.{level_at};
ghost use Rattle.corners.specs.Corners.{corners_of};
ghost use Rattle.clear_offset.specs.Offset.{smallest_offset};
ghost use Rattle.withdrawal.specs.Reach.{reach};
ghost use Rattle.panels.specs.Panels.{panels_for};
ghost use Rattle.queries.specs.Quantity.{quantity};
ghost use Rattle.queries.specs.Lookup.{lookup};
ghost use Rattle.queries.specs.Ranges.{quantities};
ghost use Rattle.replies.specs.Interface.{reply_of, plan_reply_of, record_of, quantities_of, corners_reply_of, smallest_of, reach_reply_of, layout_of, version};

use replies::{
    Corners, LayoutReply, PlanReply, Quantities, ReachReply, Record, Reply, SmallestOffset,
};

// The schedule of a side, written into `out`: the bytes written, and the greatest overhangs before A and behind B.
pub fn barrier_plan(job: &[u8], side: u64, out: &mut [u8]) -> PlanReply
    ensures value { result ≡ plan_reply_of (bytes_written (plan job.now side (length out.old))) }
    ensures out_after { out.new ≡ output_after (plan job.now side (length out.old)) out.old }
{
    PlanReply::from(schedule::plan::plan(job, side, out))
}

// The level that a job requires at a station of a side, 0 to 6, as value.
pub fn barrier_level(job: &[u8], side: u64, station: u64) -> Reply
    ensures { result ≡ reply_of (level_at job.now side station) }
{
    Reply::from(station_level::level::level(job, side, station))
}

// The smallest barrier offset whose adjacent approach of a hazard is no longer than wanted.
pub fn barrier_offset(job: &[u8], hazard: u64, longest: u64) -> SmallestOffset
    ensures { result ≡ smallest_of (smallest_offset job.now hazard longest) }
{
    SmallestOffset::from(clear_offset::offset::smallest_offset(job, hazard, longest))
}

// How far the withdrawal of a hazard reaches.
pub fn barrier_reach(job: &[u8], hazard: u64) -> ReachReply
    ensures { result ≡ reach_reply_of (reach job.now hazard) }
{
    ReachReply::from(withdrawal::reach::reach(job, hazard))
}

// How many millimetres of [p, q) the schedule's runs of the level, 1 to 6, have, as value. Refused: Argument (8), then Schedule (10).
pub fn barrier_quantity(schedule: &[u8], level: u64, p: u64, q: u64) -> Reply
    ensures { result ≡ reply_of (quantity schedule.now level p q) }
{
    Reply::from(queries::quantity::quantity(schedule, level, p, q))
}

// Where the record of the run that has the station is, in the schedule of the side asked for. Refused: Argument (8), then Schedule (10).
pub fn barrier_lookup(right: &[u8], left: &[u8], side: u64, station: u64) -> Record
    ensures { result ≡ record_of (lookup right.now left.now side station) }
{
    Record::from(queries::lookup::locate(right, left, side, station))
}

// The millimetres of each range p, q of `ranges` that have the level, 1 to 6, for up to 64 ranges. Refused: Argument (8), then Ranges
// (11), then Schedule (10).
pub fn barrier_quantities(schedule: &[u8], level: u64, ranges: &[u64]) -> Quantities
    ensures { result ≡ quantities_of (quantities schedule.now level ranges.now) }
{
    Quantities::from(queries::quantities::quantities(schedule, level, ranges))
}

// The corners of a hazard's adjacent approach, from the sheet corner.
pub fn barrier_corners(job: &[u8], hazard: u64, sheet_station: u64, sheet_offset: u64) -> Corners
    ensures { result ≡ corners_reply_of (corners_of job.now hazard sheet_station sheet_offset) }
{
    Corners::from(corners::call::corners(job, hazard, sheet_station, sheet_offset))
}

// Panels for one run: the smallest overrun among the layouts tried, its first layout, the tries made, and the floor.
pub fn barrier_layout(lengths: &[u64], run: u64, limit: u64) -> LayoutReply
    ensures { result ≡ layout_of (panels_for lengths.now run limit) }
{
    LayoutReply::from(panels::layout::layout(lengths, run, limit))
}

// Which engine is linked: 1,000,000 times the first number of its version, 1,000 times the second, and the third.
pub fn barrier_version() -> u32
    ensures { result ≡ version }
{
    3003002
}
