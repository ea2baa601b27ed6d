// A hazard's six numbers.
ghost use Rattle.std.specs.Prelude.{◌≡◌, ◌<◌, get_or};
ghost use Rattle.refusal.specs.Refusal.{answer_of};
ghost use Rattle.job.specs.Job.{◌to◌, hazard_ranges};
ghost use Rattle.job.specs.Fits.{hazard_in_range};
ghost use Rattle.job.specs.Reply.{read_hazard_at};

use super::field::Reader;
use super::{Bounds, Hazard, Header};
use refusal::Refusal;

// A hazard that was read, and the byte index behind it. The index stands first: the byte that names a refusal overlies the first field.
#[derive(Clone, Copy)]
pub struct HazardReading {
    pub next: usize,
    pub hazard: Hazard,
}

// `open_memory` tests the same ranges, all at once (`stored_hazard`); reading goes number by number, and `in_range` is for the usual form.
// The range of the hazard number behind k others, where the hazard begins at start, at the near offset near; these go for the numbers behind them.
pub fn hazard_range(k: usize, header: Header, start: u64, near: u64) -> Bounds
    requires k_bound { k < 6 }
    requires start_lt_end { start < header.end }
    ensures { result ≡ get_or (hazard_ranges header.begin header.end start near) k (0 to 0) }
{
    let lows = [0, header.begin, start + 1, 0, near, 1];
    let highs = [1, header.end - 1, header.end, 60000, 60000, 6];
    Bounds {
        low: lows[k],
        high: highs[k],
    }
}

// Whether a hazard's numbers lie in their ranges, in the paper's order.
pub fn in_range(header: Header, z: Hazard) -> bool
    requires { 0 < header.end }
    ensures { result ≡ hazard_in_range header z }
{
    (z.side <= 1)
        & (header.begin <= z.start)
        & (z.start < z.end)
        & (z.end <= header.end)
        & (z.near <= 60000)
        & (z.near <= z.far)
        & (z.far <= 60000)
        & (1 <= z.level)
        & (z.level <= 6)
}

// The hazard with this index, whose first number begins at byte index first.
// Compiled into each walk.
#[inline(always)]
pub fn read_hazard(
    s: &[u8],
    first: usize,
    header: Header,
    index: usize,
) -> Result<HazardReading, Refusal>
    requires { 0 < header.end }
    ensures { answer_of result ≡ read_hazard_at header index s.now first }
{
    let mut numbers = [0u64; 6];
    let mut reader = Reader {
        bytes: s,
        at: first,
    };
    for k in 0..6 {
        let range = hazard_range(k, header, numbers[1], numbers[3]);
        numbers[k] = reader.field(range, Refusal::HazardRange(index))?;
    }
    Ok(HazardReading {
        hazard: Hazard {
            side: numbers[0] as u8,
            start: numbers[1],
            end: numbers[2],
            near: numbers[3] as u16,
            far: numbers[4] as u16,
            level: numbers[5] as u8,
        },
        next: reader.at,
    })
}
