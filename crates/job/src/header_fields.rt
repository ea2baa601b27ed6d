// The header's numbers: fourteen, of a kind 2 job fifteen.
ghost use Rattle.std.specs.Prelude.{◌≡◌, ◌<◌, ◌≤◌, length, get_or};
ghost use Rattle.refusal.specs.Refusal.{answer_of};
ghost use Rattle.job.specs.Job.{◌to◌, header_ranges, header_size, header_with};
ghost use Rattle.job.specs.Reply.{header_at, header_from};

use super::field::Reader;
use super::{Bounds, Header, road_top};
use refusal::Refusal;

// A header that was read, and the index behind it.
#[derive(Clone, Copy)]
pub struct HeaderReading {
    pub header: Header,
    pub next: usize,
}

// `open_memory` tests the same ranges, all at once; reading stops at the first number that is out of its range, so it goes by this table.
// The header table's ranges of kind 2, where the road begins at 0. Kind 1 has no panel length, and its hazard count is number 14.
const RANGES: [Bounds; 15] = [
    Bounds { low: 1, high: 2 }, // 1: kind
    Bounds {
        low: 0,
        high: 999999999999,
    }, // 2: A
    Bounds {
        low: 1,
        high: 2000000000,
    }, // 3: B, here above A = 0
    Bounds {
        low: 1,
        high: 200000,
    }, // 4: LF
    Bounds {
        low: 0,
        high: 200000,
    }, // 5: LO
    Bounds {
        low: 1,
        high: 30000,
    }, // 6: C
    Bounds {
        low: 0,
        high: 20000,
    }, // 7: W
    Bounds {
        low: 0,
        high: 20000,
    }, // 8: M
    Bounds { low: 1, high: 5000 }, // 9: D
    Bounds { low: 1, high: 100 }, // 10: a
    Bounds { low: 0, high: 10 }, // 11: b
    Bounds {
        low: 0,
        high: 100000,
    }, // 12: T
    Bounds {
        low: 0,
        high: 200000,
    }, // 13: G
    Bounds {
        low: 1,
        high: 10000,
    }, // 14: panel length
    Bounds { low: 0, high: 256 }, // 15: h
];

// How many numbers a header has.
pub fn header_size(kind: u64) -> usize
    ensures { result ≡ header_size kind }
{
    if kind == 2 { 15 } else { 14 }
}

// The range of the header number behind k others, where the road begins at begin; the road's end lies behind that. `range` is the table's.
fn header_range(k: usize, range: Bounds, kind: u64, begin: u64) -> Bounds
    requires k_bound { k < 14 }
    requires range_of_k { range ≡ get_or (header_ranges 2 0) k (0 to 0) }
    requires begin_bound { begin ≤ 999999999999 }
    ensures { result ≡ get_or (header_ranges kind begin) k (0 to 0) }
{
    if k == 2 {
        return Bounds {
            low: begin + 1,
            high: road_top(begin),
        };
    }
    if k == 13 {
        if kind == 2 {
            return range;
        }
        return RANGES[14];
    }
    range
}

// The numbers by their names.
pub fn header_with(numbers: [u64; 14], panel: u64, count: u64) -> Header
    ensures { result ≡ header_with numbers panel count }
{
    Header {
        kind: numbers[0],
        begin: numbers[1],
        end: numbers[2],
        forward: numbers[3],
        opposite: numbers[4],
        zone: numbers[5],
        way: numbers[6],
        offset: numbers[7],
        deflection: numbers[8],
        along: numbers[9],
        across: numbers[10],
        straight: numbers[11],
        continuity: numbers[12],
        panel,
        count,
    }
}

// The fifteenth number of a kind 2 header, behind the fourteen before it.
fn read_count(s: &[u8], numbers: [u64; 14], at: usize) -> Result<HeaderReading, Refusal>
    requires numbers_len { length numbers ≡ 14 }
    requires kind_2 { get_or numbers 0 0 ≡ 2 }
    ensures { answer_of result ≡ header_from numbers s.now at }
{
    let mut reader = Reader { bytes: s, at };
    let count = reader.field(RANGES[14], Refusal::HeaderRange(15))?;
    Ok(HeaderReading {
        header: header_with(numbers, numbers[13], count),
        next: reader.at,
    })
}

pub fn read_header(s: &[u8]) -> Result<HeaderReading, Refusal>
    ensures { answer_of result ≡ header_at s.now }
{
    // The table is laid out once for all numbers.
    let ranges = RANGES;
    let mut numbers = [0u64; 14];
    let mut reader = Reader { bytes: s, at: 0 };
    for k in 0..14 {
        let range = header_range(k, ranges[k], numbers[0], numbers[1]);
        numbers[k] = reader.field(range, Refusal::HeaderRange(k + 1))?;
    }
    if numbers[0] == 2 {
        return read_count(s, numbers, reader.at);
    }
    Ok(HeaderReading {
        header: header_with(numbers, 1, numbers[13]),
        next: reader.at,
    })
}
