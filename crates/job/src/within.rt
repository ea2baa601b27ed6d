// A hazard of the usual form, read from words at once: its stations take as many bytes as each other, three to six, and its offsets two.
ghost use Rattle.std.specs.Prelude.{◌≡◌, ◌+◌, ◌≤◌, ◌<◌, length, IfSome};
ghost use Rattle.job.specs.Usual.{StationsAt, UsualAt};

use super::hazard_fields::{HazardReading, in_range};
use super::{Hazard, Header};
use number::word::{fours, is_number, long_word, of_five, of_six, of_three, twos, word};

// The least numbers that take three to six bytes.
const LEAST_OF_THREE: u64 = 16384;

const LEAST_OF_FOUR: u64 = 2097152;

const LEAST_OF_FIVE: u64 = 268435456;

const LEAST_OF_SIX: u64 = 34359738368;

// Two stations, and how many bytes each takes.
#[derive(Clone, Copy)]
struct Stations {
    width: usize,
    start: u64,
    end: u64,
}

// The stations from an index on, if they take as many bytes as each other, and the first no more than it needs; nor does the second if it is greater.
// Widths are tried in the order of their use: from 2.1 km, from 268 km, from 16 m and from 34,360 km on. The second station's groups are put together
// behind the first one's test, as the compiler would else do both at once in registers for two, which takes longer.
// Compiled into each walk.
#[inline(always)]
fn read_stations(s: &[u8], at: usize) -> Option<Stations>
    requires { at + 14 ≤ length s.now }
    ensures { IfSome result (StationsAt s.now at) }
{
    let w = long_word(s, at);
    if is_number::<3>(w) & is_number::<3>(w / 4294967296) {
        let both = fours(w);
        let start = both % 4294967296;
        if LEAST_OF_FOUR <= start {
            return Some(Stations {
                width: 4,
                start,
                end: both / 4294967296,
            });
        }
    } else if is_number::<4>(w) {
        let v = long_word(s, at + 5);
        if is_number::<4>(v) {
            let start = of_five(w);
            if LEAST_OF_FIVE <= start {
                return Some(Stations {
                    width: 5,
                    start,
                    end: of_five(v),
                });
            }
        }
    } else if is_number::<2>(w) {
        let v = word(s, at + 3);
        if is_number::<2>(v) {
            let start = of_three(w);
            if LEAST_OF_THREE <= start {
                return Some(Stations {
                    width: 3,
                    start,
                    end: of_three(v),
                });
            }
        }
    } else if is_number::<5>(w) {
        let v = long_word(s, at + 6);
        if is_number::<5>(v) {
            let start = of_six(w);
            if LEAST_OF_SIX <= start {
                return Some(Stations {
                    width: 6,
                    start,
                    end: of_six(v),
                });
            }
        }
    }
    None
}

// The hazard whose first number begins at byte index first, if it is of the usual form, in its ranges, and 18 bytes stand from there on.
// It is no twin of `read_hazard`: it reads words at once and gives up where the form is another. Compiled into each walk.
#[inline(always)]
pub fn read_usual(s: &[u8], first: usize, header: Header) -> Option<HazardReading>
    requires { 0 < header.end }
    ensures { IfSome result (UsualAt header s.now first) }
{
    // No hazard of the usual form takes more than 18 bytes.
    if s.len().saturating_sub(17) <= first {
        return None;
    }
    let stations = read_stations(s, first + 1)?;
    let at = first + (stations.width * 2 + 1);
    let w = word(s, at);
    if is_number::<1>(w) & is_number::<1>(w / 65536) {
        let offsets = twos(w);
        let near = offsets % 65536;
        let hazard = Hazard {
            side: s[first],
            start: stations.start,
            end: stations.end,
            near: near as u16,
            far: (offsets / 65536) as u16,
            level: s[at + 4],
        };
        // A number takes no more bytes than it needs.
        if (128 <= near) & in_range(header, hazard) {
            return Some(HazardReading {
                hazard,
                next: at + 5,
            });
        }
    }
    None
}
