// The call: from panel lengths, a run and a limit on tries to the smallest overrun.
ghost use Rattle.std.specs.Prelude.{◌≡◌, false, ◌≤◌, ◌^◌, length};
ghost use Rattle.base.specs.Choice.{some_of};
ghost use Rattle.base.specs.Answer.{accepted};
ghost use Rattle.refusal.specs.Refusal.{answer_of};
ghost use Rattle.panels.specs.Panels.{out_of_range, panels_for};
ghost use Rattle.panels.specs.Promised.{StockLengths, Limit};
ghost use Rattle.panels.specs.Reply.{count_places, layout_replied};
ghost use Rattle.panels.specs.Steps.{counts_shown};

use super::floor::floor_of;
use super::odometer::Odometer;
use super::reply::{Best, Layout};
use super::search::try_layouts;
use refusal::Refusal;

// Whether a length is out of its range.
fn out_of_range(lengths: &[u64]) -> bool
    ensures { result ≡ some_of out_of_range lengths.now }
{
    for length in lengths {
        if *length < 1 || 20000 < *length {
            return true;
        }
    }
    false
}

// How many layouts there are of one to four lengths.
fn layout_number(number: usize) -> u64
    requires { (1 ≤ number) × (number ≤ 4) }
    ensures { result ≡ 16 ^ number }
{
    16u64.pow(number as u32)
}

// The counts that the odometer shows of so many lengths, in their order, 0 behind them.
fn counts_of(number: usize, shown: Odometer) -> [u64; 4]
    requires { (1 ≤ number) × (number ≤ 4) }
    ensures { result ≡ count_places (counts_shown number shown) }
{
    match number {
        1 => [shown.last, 0, 0, 0],
        2 => [shown.third, shown.last, 0, 0],
        3 => [shown.second, shown.third, shown.last, 0],
        _ => [shown.first, shown.second, shown.third, shown.last],
    }
}

// The reply, after the tests.
fn best_layout(lengths: &[u64], run: u64, limit: u64) -> Layout
    requires stock_lengths { StockLengths lengths.now }
    requires limit { Limit limit }
    ensures { accepted result ≡ layout_replied (panels_for lengths.now run limit) }
{
    let number = lengths.len();
    let floor = floor_of(lengths, run);
    let tried = try_layouts(lengths, run, limit.min(layout_number(number)));
    let best = match tried.best {
        Some(shown) => Some(Best {
            overrun: shown.total - run,
            counts: counts_of(number, shown),
        }),
        None => None,
    };
    Layout {
        best,
        tries: tried.tries,
        floor,
    }
}

// Of one to four panel lengths, each 1 to 20,000, and counts 0 to 15 of each: the smallest overrun of the run among the first `limit` layouts and
// its first layout, or none; the tries made; the floor. Or the first refusal: 16, then 17.
pub fn layout(lengths: &[u64], run: u64, limit: u64) -> Result<Layout, Refusal>
    ensures { answer_of result ≡ layout_replied (panels_for lengths.now run limit) }
{
    let number = lengths.len();
    if number == 0 || 4 < number || out_of_range(lengths) {
        return Err(Refusal::Lengths);
    }
    if limit == 0 || 65536 < limit {
        return Err(Refusal::Tries);
    }
    Ok(best_layout(lengths, run, limit))
}
