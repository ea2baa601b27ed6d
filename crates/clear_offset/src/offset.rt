// The call: from a job in bytes and a hazard index to the smallest offset.
ghost use Rattle.std.specs.Prelude.{◌≡◌};
ghost use Rattle.clear_offset.specs.Offset.{offset_reply};
ghost use Rattle.clear_offset.specs.Offset as spec;

use super::search::smallest_of;
use planning::accept::indexed_hazard;
use refusal::Refusal;

// The smallest barrier offset, from 0 to 20,000 mm, that leaves the deflection free before the hazard with this index and whose adjacent approach is
// no longer than wanted; None where every such offset has a longer one; or the first refusal: plan's, without 8 and 9, then 14.
pub fn smallest_offset(job: &[u8], hazard: u64, longest: u64) -> Result<Option<u64>, Refusal>
    ensures { offset_reply result ≡ spec.smallest_offset job.now hazard longest }
{
    let asked = indexed_hazard(job, hazard)?;
    if asked.header.zone <= asked.hazard.near as u64 {
        return Err(Refusal::Hazard);
    }
    Ok(smallest_of(asked.header, asked.hazard, longest))
}
