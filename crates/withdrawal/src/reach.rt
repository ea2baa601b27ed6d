// The call, and what is told of one hazard.
ghost use Rattle.std.specs.Prelude.{◌≡◌};
ghost use Rattle.refusal.specs.Refusal.{answer_of};
ghost use Rattle.job.specs.Fits.{HeaderFits, HazardFits};
ghost use Rattle.planning.specs.Rows.{Passed};
ghost use Rattle.withdrawal.specs.Reach.{hazard_reach};
ghost use Rattle.withdrawal.specs.Reach as spec;

use super::reply::Reach;
use job::{Hazard, Header};
use planning::Overhangs;
use planning::accept::indexed_hazard;
use planning::envelope::CutEnvelope;
use planning::own::own_envelope;
use refusal::Refusal;

// Of a hazard of an accepted job: its envelope is lengthened by G at both ends, and cut again.
// The ranges stay clauses because docs/DESIGN.md names this function, whose arguments may not narrow.
pub fn hazard_reach(header: Header, hazard: Hazard) -> Reach
    requires header_fits { HeaderFits header }
    requires hazard_fits { HazardFits header hazard }
    requires passed { Passed header hazard }
    ensures { result ≡ hazard_reach header hazard }
{
    let side = hazard.side as u64;
    match own_envelope(header, hazard) {
        Some(CutEnvelope { stretch, overhangs }) => {
            let before = stretch.start.saturating_sub(header.continuity);
            Reach {
                side,
                start: stretch.start,
                end: stretch.end,
                overhangs,
                from: header.begin.max(before),
                to: (stretch.end + header.continuity).min(header.end),
            }
        }
        None => Reach {
            side,
            start: 0,
            end: 0,
            overhangs: Overhangs {
                before: 0,
                after: 0,
            },
            from: 0,
            to: 0,
        },
    }
}

// How far the withdrawal of the hazard with this index reaches; or the first refusal: plan's, without 8 and 9, then 14.
pub fn reach(job: &[u8], hazard: u64) -> Result<Reach, Refusal>
    ensures { answer_of result ≡ spec.reach job.now hazard }
{
    let asked = indexed_hazard(job, hazard)?;
    Ok(hazard_reach(asked.header, asked.hazard))
}
