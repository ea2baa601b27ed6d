// What is taken of the hazards that a walk gives: the envelopes of a side, or the one hazard asked for.
ghost use Rattle.std.specs.Prelude.{◌≡◌, refl, length};
ghost use Rattle.std.proofs.Common.{◌∙◌};
ghost use Rattle.planning.specs.Envelope.{greater};
ghost use Rattle.planning.specs.Taker.{SideReady, side_took, asked_took, side_passed_by};

use super::Overhangs;
use super::tested::Tested;
use super::walk::Taker;
use super::window::Window;
use job::Hazard;
use runs::required::key_of;

// The envelopes of a side in a window, whose keys and ends are in the first `count` places of two lent arrays, and their greatest overhangs.
#[derive(Drop)]
pub struct SideTaker<'a> {
    pub keys: &'a mut [u64],
    pub ends: &'a mut [u64],
    pub count: usize,
    pub overhangs: Overhangs,
    // A number, not an enum: the definitions answer for every side, and a side above 1 has no envelopes.
    pub side: u64,
    pub window: Window,
}

// The hazard with an index, where there is one.
#[derive(Clone, Copy)]
pub struct Asked {
    pub index: u64,
    pub found: Option<Hazard>,
}

// The greater overhang, at each end by itself. Most envelopes hang over neither end, which is told at once.
fn greater_of(a: Overhangs, b: Overhangs) -> Overhangs
    ensures { result ≡ greater a b }
{
    if (b.before == 0) & (b.after == 0) {
        return a;
    }
    Overhangs {
        before: a.before.max(b.before),
        after: a.after.max(b.after),
    }
}

impl<'a> Taker for SideTaker<'a> {
    ghost ready = { λ t h index. SideReady t.keys.now t.ends.now t.count t.side h index };

    ghost took = { λ t h zs. side_took t.keys.now t.ends.now t.count t.overhangs t.side t.window h zs };

    ghost same = { λ a b. (a.keys.ghost_name ≡ b.keys.ghost_name) × (a.ends.ghost_name ≡ b.ends.ghost_name) × (a.side ≡ b.side) × (a.window ≡ b.window) × (length a.keys.now ≡ length b.keys.now) × (length a.ends.now ≡ length b.ends.now) };

    #[inline(always)]
    fn take(&mut self, index: usize, tested: Tested) {
        if let Some(envelope) = tested.side_envelope(self.side, self.window) {
            let stretch = envelope.stretch;
            let count = self.count;
            self.keys[count] = key_of(stretch.start, stretch.level as u8, count);
            self.ends[count] = stretch.end;
            self.count = count + 1;
            self.overhangs = greater_of(self.overhangs, envelope.overhangs);
        }
    }

    ghost passed_by = { λ t h index ready. side_passed_by ready };

    ghost same_at_once = { λ t. (refl, refl, refl, refl, refl, refl) };

    ghost same_later = { λ a b c e f. (e.0 ∙ f.0, e.1 ∙ f.1, e.2 ∙ f.2, e.3 ∙ f.3, e.4 ∙ f.4, e.5 ∙ f.5) };
}

impl Taker for Asked {
    ghost ready = { λ t h index. Unit {0} };

    ghost took = { λ t h zs. asked_took t.index t.found zs };

    ghost same = { λ a b. a.index ≡ b.index };

    fn take(&mut self, index: usize, tested: Tested) {
        if index as u64 == self.index {
            self.found = Some(tested.hazard);
        }
    }

    ghost passed_by = { λ t h index ready. ready };

    ghost same_at_once = { λ t. refl };

    ghost same_later = { λ a b c e f. e ∙ f };
}
