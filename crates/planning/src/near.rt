// Refusal 5.
ghost use Rattle.std.specs.Prelude.{◌≡◌};
ghost use Rattle.job.specs.Fits.{HeaderFits, HazardFits};
ghost use Rattle.planning.specs.Envelope.{stands_near};

use job::{Hazard, Header};

// A hazard that is reached, which it is if its near offset lies in the clear zone, and stands nearer than barrier offset and deflection allow.
// The ranges stay clauses because docs/DESIGN.md names this function, whose arguments may not narrow.
pub fn stands_near(header: Header, hazard: Hazard) -> bool
    requires header_fits { HeaderFits header }
    requires hazard_fits { HazardFits header hazard }
    ensures { result ≡ stands_near header hazard }
{
    let near = hazard.near as u64;
    (near < header.zone) && (near < header.offset + header.deflection)
}
