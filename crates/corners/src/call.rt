// The call: from a job in bytes to the corners of one hazard's adjacent approach.
ghost use Rattle.std.specs.Prelude.{◌≡◌, ◌<◌};
ghost use Rattle.refusal.specs.Refusal.{answer_of};
ghost use Rattle.corners.specs.Corners.{corners_of};
ghost use Rattle.corners.specs.Reply.{corners_as, corners_answer};
ghost use Rattle.corners.specs.Steps.{hazard_corners};

use super::points::{Sheet, approach_corners, approach_lengths};
use super::reply::Corners;
use planning::accept::indexed_hazard;
use planning::envelope::adjacent_traffic;
use planning::tested::Tested;
use refusal::Refusal;

// The corners of a hazard that adjacent traffic reaches.
fn hazard_corners(tested: Tested, sheet: Sheet) -> Corners
    requires { tested.hazard.near < tested.header.now.zone }
    ensures { result ≡ corners_as (hazard_corners sheet.station sheet.offset tested.entry.header.now tested.entry.hazard) }
{
    let traffic = adjacent_traffic(*tested.header, tested.hazard.side);
    let lengths = approach_lengths(tested, traffic);
    approach_corners(tested, traffic, lengths, sheet)
}

// The corners of a hazard's adjacent approach, counted from the sheet corner; or the first refusal. Adjacent traffic reaches the hazard where its near
// offset lies in the clear zone.
pub fn corners(
    job: &[u8],
    hazard: u64,
    sheet_station: u64,
    sheet_offset: u64,
) -> Result<Corners, Refusal>
    ensures { answer_of result ≡ corners_answer (corners_of job.now hazard sheet_station sheet_offset) }
{
    if (1000000000000 < sheet_station) | (1000000000000 < sheet_offset) {
        return Err(Refusal::Argument);
    }
    let asked = indexed_hazard(job, hazard)?;
    if asked.header.zone <= asked.hazard.near as u64 {
        return Err(Refusal::Hazard);
    }
    let sheet = Sheet {
        station: sheet_station,
        offset: sheet_offset,
    };
    let tested = Tested {
        header: &asked.header,
        hazard: asked.hazard,
    };
    Ok(hazard_corners(tested, sheet))
}
