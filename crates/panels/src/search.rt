// The tries: one layout a turn, in order.
ghost use Rattle.std.specs.Prelude.{◌≤◌, IfSome};
ghost use Rattle.panels.specs.Promised.{StockLengths};
ghost use Rattle.panels.specs.Steps.{Covering, JudgedNext, Searched};

use super::odometer::{Odometer, advance, four_lengths};

// The first of the tried layouts with the smallest overrun, or none where no layout covers; and how many layouts were tried.
#[derive(Clone, Copy)]
pub struct Tried {
    pub best: Option<Odometer>,
    pub tries: u64,
}

// After one more try: a layout is kept where it covers and its total, and so its overrun, is smaller than any before.
fn judge(kept: &mut Option<Odometer>, at: Odometer, run: u64)
    requires kept_covers { IfSome kept.old (Covering run) }
    ensures covers { IfSome kept.new (Covering run) }
    ensures judged { JudgedNext kept.old at run kept.new }
{
    if at.total < run {
        return;
    }
    match *kept {
        Some(best) if best.total <= at.total => {}
        _ => *kept = Some(at),
    }
}

// The first `end` layouts, each tried and counted once: trying does not stop early. The caller passes the lesser of the limit and the number of
// layouts, so `end` never passes the layouts there are.
pub fn try_layouts(lengths: &[u64], run: u64, end: u64) -> Tried
    requires stock_lengths { StockLengths lengths.now }
    requires end_bound { end ≤ 65536 }
    ensures { Searched lengths.now run end result }
{
    let panels = four_lengths(lengths);
    let mut at = Odometer {
        first: 0,
        second: 0,
        third: 0,
        last: 0,
        total: 0,
    };
    let mut best: Option<Odometer> = None;
    for _ in 0..end {
        judge(&mut best, at, run);
        at = advance(panels, at);
    }
    Tried { best, tries: end }
}
