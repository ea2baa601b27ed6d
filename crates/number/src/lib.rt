// The number form of document 01 (LEB128): reading a number, counting its groups, writing it into lent memory.
#![tactic(auto)]

pub mod word; // numbers of a usual length

ghost use Rattle.std.specs.Prelude.{◌≡◌, ◌+◌, ◌≤◌, length};
ghost use Rattle.number.specs.Number.{greatest_number, group_count, write_number, read_number, number_at, placed};
ghost use Rattle.std.specs.Result.{result_ok};
ghost use Rattle.refusal.specs.Refusal.{answer_of};

use refusal::Refusal;

// A number that was read, and the index behind it. The index stands first: the byte that names a refusal overlies the first field.
#[derive(Clone, Copy)]
pub struct Reading {
    pub next: usize,
    pub value: u64,
}

// How many bytes the number takes: one for each begun seven of its bits, and one for 0. For up to 64 bits 9/64 is near enough to a seventh.
pub fn group_count(x: u64) -> usize
    ensures { result ≡ group_count x }
{
    let bits = 64 - u64::leading_zeros(x);
    ((bits * 9 + 64) / 64) as usize
}

// The number that begins at an index, if one does. It is gathered in 64 bits: six groups make 42.
pub fn read_number(s: &[u8], at: usize) -> Result<Reading, Refusal>
    ensures value { result ≡ read_number s.now at }
    ensures reading { answer_of result ≡ number_at s.now at }
{
    if s.len() <= at {
        return Err(Refusal::Ended(at));
    }
    let first = s[at] as u64;
    if first < 128 {
        return Ok(Reading {
            value: first,
            next: at + 1,
        });
    }
    // What the groups so far make, and how much the next one counts.
    let mut low: u64 = first - 128;
    let mut weight: u64 = 128;
    for passed in 1..6 {
        let here = at + passed;
        if s.len() <= here {
            return Err(Refusal::Ended(at));
        }
        let b = s[here] as u64;
        let value = low + weight * b;
        if b < 128 {
            if b == 0 {
                return Err(Refusal::Malformed(at));
            }
            return Ok(Reading {
                value,
                next: here + 1,
            });
        }
        weight *= 128;
        low = value - weight;
    }
    Err(Refusal::Malformed(at))
}

// The number that begins at an index, if one does, without the reason where none does. A twin of `read_number` for speed: with this loop in both a plan takes
// 2 in 100 more, with that one in both a lookup 6.
pub fn find_number(s: &[u8], at: usize) -> Option<Reading>
    ensures { result ≡ result_ok (read_number s.now at) }
{
    if s.len() <= at {
        return None;
    }
    let first = s[at] as u64;
    if first < 128 {
        return Some(Reading {
            value: first,
            next: at + 1,
        });
    }
    // What the groups so far make, how much the next one counts, and where it stands.
    let mut low: u64 = first - 128;
    let mut weight: u64 = 128;
    let mut next = at + 1;
    for passed in 1..6u64 {
        if s.len() <= next {
            return None;
        }
        let b = s[next] as u64;
        let value = low + weight * b;
        next += 1;
        if b < 128 {
            if b == 0 {
                return None;
            }
            return Some(Reading { value, next });
        }
        weight *= 128;
        low = value - weight;
    }
    None
}

// The bytes of x from index at on, where there is room; the index behind them.
pub fn put_number(out: &mut [u8], at: usize, x: u64) -> usize
    requires x_le_greatest_number { x ≤ greatest_number }
    requires number_fits { at + length (write_number x) ≤ length out.old }
    ensures value { result ≡ at + length (write_number x) }
    ensures out_after { out.new ≡ placed out.old at (write_number x) }
{
    let mut i = at;
    let mut rest = x;
    // A `while`: how many groups follow is not known before they are written.
    while 128 <= rest {
        out[i] = (128 + rest % 128) as u8;
        i += 1;
        rest /= 128;
    }
    out[i] = rest as u8;
    i + 1
}
