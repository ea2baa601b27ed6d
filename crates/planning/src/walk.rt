// One walk over the hazards behind a header, from any source: each is tested as it comes, and given to a taker.
ghost use Rattle.std.specs.Prelude.{◌≡◌, ℕ, false, ◌+◌, ◌<◌, List, [], ◌∷◌, ◌++◌, length, IfOk};
ghost use Rattle.base.specs.Answer.{accepted};
ghost use Rattle.refusal.specs.Refusal.{answer_of};
ghost use Rattle.job.specs.declared.Header.{Header};
ghost use Rattle.job.specs.declared.Hazard.{Hazard};
ghost use Rattle.job.specs.Job.{Job};
ghost use Rattle.job.specs.Fits.{HeaderFits, HazardFits};
ghost use Rattle.planning.specs.Envelope.{stands_near};
ghost use Rattle.planning.specs.Walk.{near_behind, tests_of};

use super::near::stands_near;
use super::tested::Tested;
use job::read::Hazards;
use job::{Hazard, Header};
use refusal::Refusal;

// What a walk does with the hazards that pass refusal 5.
pub trait Taker {
    // It may be given the hazard with an index, and those behind it.
    ghost ready: { Self → Header → (index : ℕ) → Type 0 };
    // It has taken these hazards, which are the first.
    ghost took: { Self → Header → List Hazard → Type 0 };
    // It is the same taker, later.
    ghost same: { Self → Self → Type 0 };

    // The hazard with this index is given to it.
    fn take(&mut self, index: usize, tested: Tested)
        requires index_bound { index < tested.header.now.count }
        requires ready_old { ready self.old tested.header.now index }
        ensures took { (zs : List Hazard) → length zs ≡ index → took self.old tested.entry.header.now zs → took self.new tested.entry.header.now (zs ++ tested.entry.hazard ∷ []) }
        ensures ready_new { ready self.new tested.entry.header.now (index + 1) }
        ensures same { same self.old self.new };

    // A hazard that it is not given asks for no room.
    ghost passed_by: { (t : Self) (h : Header) (index : ℕ) → ready t h index → ready t h (index + 1) };

    ghost same_at_once: { (t : Self) → same t t };

    ghost same_later: { (a b c : Self) → same a b → same b c → same a c };
}

// One hazard more: it is given to the taker where it passes 5; the first that does not is held, because 7 is tested before 5.
// The ranges stay clauses because only a hazard that passes is a `Tested`.
#[inline(always)]
fn test<T: Taker>(
    header: &Header,
    index: usize,
    hazard: Hazard,
    near: Option<usize>,
    taker: &mut T,
) -> Option<usize>
    requires header_fits { HeaderFits header.now }
    requires hazard_fits { HazardFits header.now hazard }
    requires index_bound { index < header.now.count }
    requires ready_old { T.ready taker.old header.now index }
    ensures near { result ≡ near_behind (stands_near header.now hazard) index near }
    ensures took { stands_near header.now hazard ≡ false → (zs : List Hazard) → length zs ≡ index → T.took taker.old header.now zs → T.took taker.new header.now (zs ++ hazard ∷ []) }
    ensures ready_new { T.ready taker.new header.now (index + 1) }
    ensures same { T.same taker.old taker.new }
{
    if stands_near(*header, hazard) {
        if near.is_some() {
            return near;
        }
        return Some(index);
    }
    taker.take(index, Tested { header, hazard });
    near
}

// The hazards behind a header, in order: the first refusal of 4, 1 and 2, then 7, then 5; where none applies, the taker has taken them all.
// The header's ranges stay a clause because docs/DESIGN.md names this function, whose arguments may not narrow.
pub fn walk<S: Hazards, T: Taker>(
    source: &mut S,
    header: Header,
    taker: &mut T,
) -> Result<(), Refusal>
    requires header_fits { HeaderFits header }
    requires source_fits { S.fits source.old header }
    requires ready_old { T.ready taker.old header 0 }
    requires none_taken { T.took taker.old header [] }
    ensures answer { answer_of result ≡ tests_of header (S.rest source.old header header.count []) }
    ensures took { IfOk result (λ _. (j : Job) → S.rest source.old header header.count [] ≡ accepted j → T.took taker.new header j.hazards) }
    ensures ready_new { IfOk result (λ _. T.ready taker.new header header.count) }
    ensures same { T.same taker.old taker.new }
{
    let mut near = None;
    for i in 0..header.count as usize {
        let hazard = source.next(&header, i)?;
        near = test(&header, i, hazard, near, taker);
    }
    source.end()?;
    if let Some(index) = near {
        return Err(Refusal::NearBarrier(index));
    }
    Ok(())
}
