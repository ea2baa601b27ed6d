// A hazard that passes refusal 5, with its header.
ghost use Rattle.std.specs.Prelude.{◌≡◌, false};
ghost use Rattle.job.specs.Fits.{HeaderFits, HazardFits};
ghost use Rattle.planning.specs.Envelope.{stands_near};

use job::{Hazard, Header};

// A header and a hazard behind it, both in their ranges; the hazard passes refusal 5.
#[derive(Clone, Copy)]
pub struct Tested<'a> {
    pub header: &'a Header,
    pub hazard: Hazard,
    pub ghost header_fits: { HeaderFits header.now },
    pub ghost hazard_fits: { HazardFits header.now hazard },
    pub ghost passed: { stands_near header.now hazard ≡ false },
}
