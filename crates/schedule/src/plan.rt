// Plan: from a job in bytes to the schedule of a side in the lent output.
ghost use Rattle.std.specs.Prelude.{◌≡◌, true, ◌≤◌, ◌<◌, length};
ghost use Rattle.refusal.specs.Refusal.{answer_of};
ghost use Rattle.runs.specs.Required.{required_runs};
ghost use Rattle.runs.specs.RunList.{is_run_list, runs_of};
ghost use Rattle.runs.specs.Keys.{keyed_envelopes};
ghost use Rattle.runs.specs.Sweep.{AllSound};
ghost use Rattle.schedule.specs.Schedule.{write_schedule};
ghost use Rattle.schedule.specs.Plan.{fitted, bytes_written, output_after};
ghost use Rattle.schedule.specs.Plan as spec;

use super::reply::Written;
use super::write::{put_schedule, schedule_length};
use planning::Overhangs;
use planning::accept::side_of;
use planning::window::Window;
use refusal::Refusal;
use runs::RunList;
use runs::listed::Runs;
use runs::required::required_runs;

// The bytes that the schedule needs, counted where the room is less than a proved bound on the schedule of every road; with more, none lacks room.
fn bytes_needed(runs: Runs, room: usize) -> usize
    requires { length (write_schedule (runs_of runs.list.now)) ≤ 5624 }
    ensures { (result ≤ room → length (write_schedule (runs_of runs.entry.list.now)) ≤ room) × (room < result → result ≡ length (write_schedule (runs_of runs.entry.list.now))) }
{
    if 5624 <= room {
        return 0;
    }
    schedule_length(runs)
}

// The schedule of a run list from the output's first byte on; where it does not fit, nothing. The list comes by value, since
// its caller would copy it to lend it.
fn place(out: &mut [u8], list: RunList, overhangs: Overhangs) -> Result<Written, Refusal>
    requires run_list { is_run_list (runs_of list) ≡ true }
    requires written_bound { length (write_schedule (runs_of list)) ≤ 5624 }
    ensures reply { answer_of result ≡ bytes_written (fitted (write_schedule (runs_of list)) overhangs (length out.old)) }
    ensures out_after { out.new ≡ output_after (fitted (write_schedule (runs_of list)) overhangs (length out.old)) out.old }
{
    let runs = Runs { list: &list };
    let needed = bytes_needed(runs, out.len());
    if out.len() < needed {
        return Err(Refusal::Room(needed));
    }
    let bytes = put_schedule(out, runs);
    Ok(Written { overhangs, bytes })
}

// The schedule of a side, from its envelopes in two arrays and their overhangs; plan and an open job's schedule call share it.
pub fn plan_side(
    out: &mut [u8],
    keys: &mut [u64; 256],
    ends: &[u64],
    count: usize,
    overhangs: Overhangs,
    continuity: u64,
) -> Result<Written, Refusal>
    requires keys_len { length keys.old ≡ 256 }
    requires ends_len { length ends.now ≡ 256 }
    requires count_bound { count ≤ 256 }
    requires all_sound { AllSound (keyed_envelopes keys.old ends.now count) }
    requires written_bound { length (write_schedule (required_runs (keyed_envelopes keys.old ends.now count) continuity)) ≤ 5624 }
    ensures reply { answer_of result ≡ bytes_written (fitted (write_schedule (required_runs (keyed_envelopes keys.old ends.now count) continuity)) overhangs (length out.old)) }
    ensures out_after { out.new ≡ output_after (fitted (write_schedule (required_runs (keyed_envelopes keys.old ends.now count) continuity)) overhangs (length out.old)) out.old }
{
    place(out, required_runs(keys, ends, count, continuity), overhangs)
}

// The schedule of a side of the job, written into the output; or the first refusal, and nothing written.
pub fn plan(job: &[u8], side: u64, out: &mut [u8]) -> Result<Written, Refusal>
    ensures reply { answer_of result ≡ bytes_written (spec.plan job.now side (length out.old)) }
    ensures out_after { out.new ≡ output_after (spec.plan job.now side (length out.old)) out.old }
{
    if 1 < side {
        return Err(Refusal::Argument);
    }
    let mut keys: [u64; 256] = [0; 256];
    let mut ends: [u64; 256] = [0; 256];
    let read = side_of(job, side, Window::All, &mut keys[..], &mut ends[..])?;
    plan_side(
        out,
        &mut keys,
        &ends[..],
        read.count,
        read.overhangs,
        read.continuity,
    )
}
