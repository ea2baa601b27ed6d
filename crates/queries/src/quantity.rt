// The call quantity: how many millimetres of a stretch have a level.
ghost use Rattle.std.specs.Prelude.{◌≡◌, ◌&&◌, leb};
ghost use Rattle.refusal.specs.Refusal.{answer_of};
ghost use Rattle.queries.specs.Quantity as spec;
ghost use Rattle.queries.specs.Walk as walk;
ghost use Rattle.queries.specs.Visits.{Summing};

use super::walk::{Record, Visit, walk};
use refusal::Refusal;
use runs::Stretch;

// The sum of the millimetres of [p, q) that runs of the level have.
#[derive(Clone, Copy)]
struct Overlaps {
    level: u32,
    p: u64,
    q: u64,
}

// How many millimetres the run and [p, q) have in common.
fn overlap(run: Stretch, p: u64, q: u64) -> u64
    ensures { result ≡ walk.overlap run p q }
{
    run.end.min(q).saturating_sub(run.start.max(p))
}

impl Visit for Overlaps {
    type Found = u64;

    ghost Knows = { λ v s b sum. Summing s v.level v.p v.q b sum };

    fn visit(&self, found: &mut u64, _at: usize, read: Record) {
        if read.run.level == self.level {
            *found += overlap(read.run, self.p, self.q);
        }
    }
}

// Whether the level is 1 to 6, and p not above q.
fn ranged(level: u64, p: u64, q: u64) -> bool
    ensures { result ≡ (leb 1 level && leb level 6 && leb p q) }
{
    (1..=6).contains(&level) && p <= q
}

// The millimetres of [p, q) that have the level, 1 to 6. Refused: Argument (8) for another level, or p above q; Schedule (10).
pub fn quantity(schedule: &[u8], level: u64, p: u64, q: u64) -> Result<u64, Refusal>
    ensures { answer_of result ≡ spec.quantity schedule.now level p q }
{
    if !ranged(level, p, q) {
        return Err(Refusal::Argument);
    }
    let overlaps = Overlaps {
        level: level as u32,
        p,
        q,
    };
    let mut sum = 0;
    walk(schedule, &overlaps, &mut sum)?;
    Ok(sum)
}
