// Is the memory an open job: its header, names and hazards, and zeros behind them.
ghost use Rattle.std.specs.Prelude.{◌≡◌, IfSome, IsNone, true, false, [], ◌≤◌};
ghost use Rattle.job.specs.Job.{next_in_header, shared_numbers};
ghost use Rattle.job.specs.Fits.{in_ranges, header_in_range, hazard_in_range};
ghost use Rattle.open_memory.specs.Memory.{hazard_given, is_open_job};
ghost use Rattle.open_memory.specs.Steps.{last_in_range, limits_of, in_limits, next_low, rest_of, with_bits, places_pass};

use super::GivenHazard;
use super::places::with_count;
use job::hazard_fields::in_range;
use job::{Hazard, Header, NamedHazard, StoredJob, road_top};

// What a header asks of every hazard that stands: the road, and the near offset that is least.
#[derive(Clone, Copy)]
pub struct Limits {
    pub begin: u64,
    pub end: u64,
    pub near: u64,
}

// Each of the thirteen header numbers that every kind has lies in its range, in the table's order. All are tested at once, where a reader
// stops at the first.
fn shared_in_range(h: Header) -> bool
    ensures { result ≡ in_ranges next_in_header [] (shared_numbers h) }
{
    // So that no sum below leaves 64 bits.
    if 999999999999 < h.begin {
        return false;
    }
    let top = road_top(h.begin);
    (1 <= h.kind)
        & (h.kind <= 2)
        & (0 <= h.begin)
        & (h.begin <= 999999999999)
        & (h.begin + 1 <= h.end)
        & (h.end <= top)
        & (1 <= h.forward)
        & (h.forward <= 200000)
        & (0 <= h.opposite)
        & (h.opposite <= 200000)
        & (1 <= h.zone)
        & (h.zone <= 30000)
        & (0 <= h.way)
        & (h.way <= 20000)
        & (0 <= h.offset)
        & (h.offset <= 20000)
        & (1 <= h.deflection)
        & (h.deflection <= 5000)
        & (1 <= h.along)
        & (h.along <= 100)
        & (0 <= h.across)
        & (h.across <= 10)
        & (0 <= h.straight)
        & (h.straight <= 100000)
        & (0 <= h.continuity)
        & (h.continuity <= 200000)
}

// So do the numbers after them, by kind. Kind 1 stores panel length 1.
fn last_in_range(h: Header) -> bool
    ensures { result ≡ last_in_range h }
{
    if h.kind == 2 {
        (1 <= h.panel) & (h.panel <= 10000) & (h.count <= 256)
    } else {
        (h.count <= 256) & (h.panel == 1)
    }
}

fn header_in_range(h: Header) -> bool
    ensures { result ≡ header_in_range h }
{
    shared_in_range(h) & last_in_range(h)
}

// A given hazard as it is stored; none where a number is out of its range, or wider than the stored one.
pub fn stored_hazard(h: Header, z: GivenHazard) -> Option<Hazard>
    requires { header_in_range h ≡ true }
    ensures ranged { IfSome result (λ s. (hazard_in_range h (hazard_given z) ≡ true) × (s ≡ hazard_given z)) }
    ensures outside { IsNone result → hazard_in_range h (hazard_given z) ≡ false }
{
    if (z.side < 256) & (z.near < 65536) & (z.far < 65536) & (z.level < 256) {
        let stored = Hazard {
            start: z.start,
            end: z.end,
            near: z.near as u16,
            far: z.far as u16,
            side: z.side as u8,
            level: z.level as u8,
        };
        if in_range(h, stored) {
            return Some(stored);
        }
    }
    None
}

// The header's part of the test, made once for all states that have it. None where a number of the header's own is out of its range, whatever its
// hazard count.
pub fn limits_of(header: Header) -> Option<Limits>
    ensures { result ≡ limits_of header }
{
    if header_in_range(with_count(header, 0)) {
        Some(Limits {
            begin: header.begin,
            end: header.end,
            near: header.zone.min(header.offset + header.deflection),
        })
    } else {
        None
    }
}

fn in_limits(limits: Limits, p: NamedHazard) -> bool
    ensures { result ≡ in_limits limits p }
{
    (p.side <= 1)
        & (limits.begin <= p.start)
        & (p.start < p.end)
        & (p.end <= limits.end)
        & (limits.near <= p.near as u64)
        & (p.near <= p.far)
        & (p.far <= 60000)
        & (1 <= p.level)
        & (p.level <= 6)
}

// The least name that may stand after this place; 65537, above every name, where this place or one before it breaks the rules. A number and no Option,
// because so all places are passed without a branch. `above` is 65537, handed in because the compiler would otherwise make it anew at every place.
fn next_low_or(limits: Limits, low: u32, p: NamedHazard, above: u32) -> u32
    requires { above ≡ 65537 }
    ensures { result ≡ next_low limits low p }
{
    let name = p.name as u32;
    if (low <= name) & in_limits(limits, p) {
        name + 1
    } else {
        above
    }
}

// The numbers of fewer than 64 bits side by side, as they lie in memory: the offsets in the lower 32 bits, then name, side and level.
fn rest_of(p: NamedHazard) -> u64
    ensures { result ≡ rest_of p }
{
    p.near as u64
        + p.far as u64 * 65536
        + p.name as u64 * 4294967296
        + p.side as u64 * 281474976710656
        + p.level as u64 * 72057594037927936
}

// The bits seen so far, and those of this place: 0 while every place is unused.
fn with_bits(bits: u64, p: NamedHazard) -> u64
    ensures { result ≡ with_bits bits p }
{
    bits | p.start | p.end | rest_of(p)
}

// Tests the places of a state of `count` hazards: names that rise, hazards within the limits, and zeros after them. The places are lent, so that none is
// copied, and all are passed without a branch. `above` is lent too, because the compiler would otherwise make it anew at every place.
#[inline(never)]
pub fn places_pass(limits: Limits, count: usize, places: &[NamedHazard; 256], above: &u32) -> bool
    requires few { count ≤ 256 }
    requires above { above.now ≡ 65537 }
    ensures { result ≡ places_pass limits count places.now }
{
    let mut low: u32 = 0;
    for place in &places[..count] {
        low = next_low_or(limits, low, *place, *above);
    }
    let mut bits: u64 = 0;
    for place in &places[count..] {
        bits = with_bits(bits, *place);
    }
    (low <= 65536) & (bits == 0)
}

// The memory's test: the header, the names and hazards, and zeros behind them.
pub fn is_open_job(job: StoredJob) -> bool
    ensures { result ≡ is_open_job job }
{
    let header = job.header;
    match limits_of(header) {
        Some(limits) => {
            if header.count <= 256 {
                places_pass(limits, header.count as usize, &job.hazards, &65537)
            } else {
                false
            }
        }
        None => false,
    }
}
