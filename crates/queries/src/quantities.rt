// The call quantities: how many millimetres of each of up to 64 ranges have a level, in one walk of the schedule.
ghost use Rattle.std.specs.Prelude.{◌≡◌, ◌&&◌, ◌*◌, ◌≤◌, leb, length};
ghost use Rattle.refusal.specs.Refusal.{answer_of};
ghost use Rattle.queries.specs.Sums.{Differences};
ghost use Rattle.queries.specs.Ranges.{most_ranges, are_ranges, WholeRanges, replies};
ghost use Rattle.queries.specs.Ranges as Ranges;
ghost use Rattle.queries.specs.Visits.{Tallying};

use super::level_runs::LevelRuns;
use super::reply::Quantities;
use super::walk::{Record, Visit, walk};
use refusal::Refusal;

// Two numbers for each of 64 ranges.
const MOST_NUMBERS: usize = 128;

// Notes the runs of the level.
#[derive(Clone, Copy)]
struct OfLevel {
    level: u32,
}

impl Visit for OfLevel {
    type Found = LevelRuns;

    ghost Knows = { λ v s b runs. Tallying s v.level b runs.starts runs.sums runs.count };

    fn visit(&self, found: &mut LevelRuns, _at: usize, read: Record) {
        if read.run.level == self.level {
            found.note(read.run);
        }
    }
}

// Whether the numbers are ranges p, q, p, q, .., with no p above its q.
fn are_ranges(numbers: &[u64]) -> bool
    ensures { result ≡ are_ranges numbers.now }
{
    for i in 0..numbers.len() / 2 {
        if numbers[2 * i + 1] < numbers[2 * i] {
            return false;
        }
    }
    numbers.len() % 2 == 0
}

// Whether the level is 1 to 6 and the numbers are ranges.
fn well_asked(level: u64, numbers: &[u64]) -> bool
    ensures { result ≡ (leb 1 level && leb level 6 && are_ranges numbers.now) }
{
    (1..=6).contains(&level) && are_ranges(numbers)
}

// The quantity of each range.
fn differences(runs: &LevelRuns, numbers: &[u64]) -> [u64; 64]
    requires numbers_len_bound { length numbers.now ≤ 2 * most_ranges }
    requires whole_ranges { WholeRanges numbers.now }
    ensures { Differences runs.now.starts runs.now.sums runs.now.count numbers.now result }
{
    let mut quantities: [u64; 64] = [0; 64];
    for i in 0..numbers.len() / 2 {
        quantities[i] = runs.below(numbers[2 * i + 1]) - runs.below(numbers[2 * i]);
    }
    quantities
}

// The millimetres of each range of `ranges` (p, q, p, q, ..) that have the level, 1 to 6. Refused, in this order: Argument (8) for another
// level, an odd count of numbers or a p above its q; Ranges (11) for more than 64 ranges; Schedule (10).
pub fn quantities(schedule: &[u8], level: u64, ranges: &[u64]) -> Result<Quantities, Refusal>
    ensures { answer_of result ≡ replies (Ranges.quantities schedule.now level ranges.now) }
{
    if !well_asked(level, ranges) {
        return Err(Refusal::Argument);
    }
    if MOST_NUMBERS < ranges.len() {
        return Err(Refusal::Ranges);
    }
    let of_level = OfLevel {
        level: level as u32,
    };
    let mut runs = LevelRuns {
        starts: [0; 512],
        sums: [0; 512],
        count: 0,
    };
    let records = walk(schedule, &of_level, &mut runs)?;
    Ok(Quantities {
        records,
        quantities: differences(&runs, ranges),
    })
}
