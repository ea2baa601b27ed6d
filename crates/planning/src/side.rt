// From a job in bytes to the runs of a side.
ghost use Rattle.std.specs.Prelude.{◌≡◌, [], IfOk};
ghost use Rattle.base.specs.Stored.{accepted_or};
ghost use Rattle.runs.specs.Stored.{stored_runs};
ghost use Rattle.planning.specs.Reply.{accepted_runs, runs_answer};

use super::accept::side_of;
use super::window::Window;
use refusal::Refusal;
use runs::RunList;
use runs::required::required_runs;

// The runs of a side of the job that the bytes are, or the first refusal of 1 to 5 and 7. No hazard stands on a side above 1, so no run does.
pub fn side_runs(s: &[u8], side: u32) -> Result<RunList, Refusal>
    ensures answer { runs_answer result ≡ accepted_runs s.now side }
    ensures runs_stored { IfOk result (λ runs. runs ≡ stored_runs (accepted_or [] (accepted_runs s.now side))) }
{
    let mut keys: [u64; 256] = [0; 256];
    let mut ends: [u64; 256] = [0; 256];
    let read = side_of(s, side as u64, Window::All, &mut keys[..], &mut ends[..])?;
    Ok(required_runs(&mut keys, &ends[..], read.count, read.continuity))
}
