// The envelope of one hazard, for the calls that ask how far its withdrawal reaches.
ghost use Rattle.std.specs.Prelude.{◌≡◌};
ghost use Rattle.job.specs.Fits.{HeaderFits, HazardFits};
ghost use Rattle.planning.specs.Own.{own_envelope};
ghost use Rattle.planning.specs.Rows.{Passed};

use super::envelope::CutEnvelope;
use super::tested::Tested;
use job::{Hazard, Header};

// The envelope, cut at the road's ends, of a hazard that passes the test for 5; none where nobody reaches it.
// The ranges stay clauses because docs/DESIGN.md names this function, whose arguments may not narrow.
pub fn own_envelope(header: Header, hazard: Hazard) -> Option<CutEnvelope>
    requires header_fits { HeaderFits header }
    requires hazard_fits { HazardFits header hazard }
    requires passed { Passed header hazard }
    ensures { result ≡ own_envelope header hazard }
{
    if header.zone <= hazard.near as u64 {
        return None;
    }
    let tested = Tested {
        header: &header,
        hazard,
    };
    Some(tested.cut_envelope())
}
