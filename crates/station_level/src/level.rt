// The call: from a job in bytes to the level that it requires at a station of a side.
ghost use Rattle.std.specs.Prelude.{◌≡◌};
ghost use Rattle.refusal.specs.Refusal.{answer_of};
ghost use Rattle.station_level.specs.Level as spec;

use super::nearest::required_level;
use planning::accept::side_of;
use planning::window::window_about;
use refusal::Refusal;

// The required level, 0 to 6; or the first refusal: plan's, without 9.
pub fn level(job: &[u8], side: u64, station: u64) -> Result<u32, Refusal>
    ensures { answer_of result ≡ spec.level_at job.now side station }
{
    if 1 < side {
        return Err(Refusal::Argument);
    }
    let mut keys: [u64; 256] = [0; 256];
    let mut ends: [u64; 256] = [0; 256];
    let window = window_about(station);
    let read = side_of(job, side, window, &mut keys[..], &mut ends[..])?;
    Ok(required_level(&keys[..], &ends[..], read.count, read.continuity, station))
}
