// Writing a run list as a schedule: its length in bytes, and its bytes into lent memory.
ghost use Rattle.std.specs.Prelude.{◌≡◌, ◌+◌, ◌≤◌, ◌<◌, length};
ghost use Rattle.number.specs.Number.{placed};
ghost use Rattle.runs.specs.RunList.{runs_of};
ghost use Rattle.schedule.specs.Schedule.{write_schedule, write_record};
ghost use Rattle.schedule.specs.Writing.{RecordFits, run_at};

use number::put_number;
use runs::listed::Runs;
use runs::{RunList, Stretch};

// Run i of the list.
fn run_at(list: &RunList, i: usize) -> Stretch
    requires { i < 512 }
    ensures { result ≡ run_at list.now i }
{
    Stretch {
        start: list.starts[i],
        end: list.ends[i],
        level: list.levels[i] as u32,
    }
}

// How many bytes the record of a run takes, behind a run that ended at `end`.
fn record_length(end: u64, run: Stretch) -> usize
    requires { RecordFits end run }
    ensures { result ≡ length (write_record end run) }
{
    number::group_count(run.start - end)
        + number::group_count(run.end - run.start)
        + number::group_count(run.level as u64)
}

// How many bytes the schedule takes.
pub fn schedule_length(runs: Runs) -> usize
    ensures { result ≡ length (write_schedule (runs_of runs.entry.list.now)) }
{
    let mut bytes = number::group_count(runs.list.count as u64);
    let mut end: u64 = 0;
    // By index, since a run stands in three arrays.
    for i in 0..runs.list.count {
        let run = run_at(runs.list, i);
        bytes += record_length(end, run);
        end = run.end;
    }
    bytes
}

// The record of a run from `at` on, behind a run that ended at `end`; the index behind it.
fn put_record(out: &mut [u8], at: usize, end: u64, run: Stretch) -> usize
    requires record_fits { RecordFits end run }
    requires room_for_record { at + length (write_record end run) ≤ length out.old }
    ensures value { result ≡ at + length (write_record end run) }
    ensures out_after { out.new ≡ placed out.old at (write_record end run) }
{
    let second = put_number(out, at, run.start - end);
    let third = put_number(out, second, run.end - run.start);
    // A level is a number of one byte.
    out[third] = run.level as u8;
    third + 1
}

// The schedule from the first byte on; its length.
pub fn put_schedule(out: &mut [u8], runs: Runs) -> usize
    requires { length (write_schedule (runs_of runs.list.now)) ≤ length out.old }
    ensures value { result ≡ length (write_schedule (runs_of runs.entry.list.now)) }
    ensures out_after { out.new ≡ placed out.old 0 (write_schedule (runs_of runs.entry.list.now)) }
{
    let mut at = put_number(out, 0, runs.list.count as u64);
    let mut end: u64 = 0;
    for i in 0..runs.list.count {
        let run = run_at(runs.list, i);
        at = put_record(out, at, end, run);
        end = run.end;
    }
    at
}
