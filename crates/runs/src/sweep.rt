// The sweep over envelopes in order of their starts: the break points of the required level, and its runs.
ghost use Rattle.std.specs.Prelude.{◌≡◌, ℕ, ◌+◌, ◌-◌, ◌*◌, ◌<◌, ◌≤◌, min, max, true, List, ◌++◌, length, take, drop, replicate, if◌then◌else◌};
ghost use Rattle.runs.specs.Required.{required_runs};
ghost use Rattle.runs.specs.Stored.{stored_runs};
ghost use Rattle.runs.specs.Breaks.{level_of, breaks_to, breaks_before, set_from};
ghost use Rattle.runs.specs.Sweep.{filled_from, lifted};
ghost use Rattle.runs.specs.Steps.{Places, Room, Drained, Stepped, envelopes_to, Swept, SweptFront};

use super::RunList;
use super::envelopes::Envelopes;
use super::tops::{Level, Tops};

// Where a sweep stands: break points in use, and the required level there.
#[derive(Clone, Copy)]
pub struct Place {
    pub count: usize,
    pub level: Level,
}

// How many of the break points lie before t.
fn kept(starts: &[u64], count: usize, t: u64) -> usize
    requires { count ≤ length starts.now }
    ensures { (result ≤ count) × ((levels : List ℕ) → breaks_to starts.now levels result ≡ breaks_before t (breaks_to starts.now levels count)) }
{
    for k in (0..count).rev() {
        if starts[k] < t {
            return k + 1;
        }
    }
    0
}

// The level from the last of k break points on.
fn level_before(levels: &[u8], k: usize) -> u8
    requires { k ≤ length levels.now }
    ensures { (starts : List ℕ) → result ≡ level_of (breaks_to starts levels.now k) }
{
    if k == 0 {
        return 0;
    }
    levels[k - 1]
}

// Level v from t on; before t nothing changes. Starts and levels stay two slices, here and below: of a struct of both, lent by `&mut`, each function would have
// to promise that it holds the same memory as before, as long as before, which is no plainer than `Places`.
fn set_from(starts: &mut [u64], levels: &mut [u8], count: usize, t: u64, v: Level) -> usize
    requires places { Places starts.old levels.old }
    requires count_in_bounds { count < length starts.old }
    ensures { (result ≤ count + 1) × (breaks_to starts.new levels.new result ≡ set_from t v.number (breaks_to starts.old levels.old count)) }
{
    let k = kept(&starts[..], count, t);
    let level = v.number as u8;
    if level_before(&levels[..], k) == level {
        return k;
    }
    starts[k] = t;
    levels[k] = level;
    k + 1
}

// The gap before a new envelope filled: level v from its top on, where v is above the level that stands.
fn fill(starts: &mut [u64], levels: &mut [u8], tops: &Tops, p: Place, v: Level) -> usize
    requires places { Places starts.old levels.old }
    requires count_in_bounds { p.count < length starts.old }
    ensures { (result ≤ p.count + 1) × (breaks_to starts.new levels.new result ≡ filled_from tops.now.ends p.level.number v.number (breaks_to starts.old levels.old p.count)) }
{
    let count = p.count;
    if p.level.number < v.number {
        return set_from(
            &mut starts[..],
            &mut levels[..],
            count,
            tops.ends[v.number],
            v,
        );
    }
    count
}

// An envelope from s at level l, above the level that stands there.
fn lift(
    starts: &mut [u64],
    levels: &mut [u8],
    tops: &Tops,
    p: Place,
    s: u64,
    l: Level,
    g: u64,
) -> usize
    requires places { Places starts.old levels.old }
    requires count_in_bounds { p.count + 1 < length starts.old }
    ensures { (result ≤ p.count + 2) × (breaks_to starts.new levels.new result ≡ lifted tops.now.ends p.level.number s l.number g (breaks_to starts.old levels.old p.count)) }
{
    let near = tops.above(s.saturating_sub(g));
    let v = Level {
        number: near.number.min(l.number),
    };
    let count = fill(&mut starts[..], &mut levels[..], tops, p, v);
    set_from(&mut starts[..], &mut levels[..], count, s, l)
}

// The break points where the level falls, up to s.
fn drain(starts: &mut [u64], levels: &mut [u8], tops: &Tops, p: Place, s: u64) -> Place
    requires { Room 0 starts.old levels.old tops.now.ends p.count p.level.number }
    ensures { Drained tops.now.ends s p.count p.level.number (breaks_to starts.old levels.old p.count) result.count result.level.number (breaks_to starts.new levels.new result.count) }
{
    let mut count = p.count;
    let mut level = p.level;
    // The level falls to the next that has another top, and that may skip some.
    while 0 < level.number {
        let t = tops.ends[level.number];
        if s < t {
            return Place { count, level };
        }
        level = tops.above(t);
        starts[count] = t;
        levels[count] = level.number as u8;
        count += 1;
    }
    Place { count, level }
}

// The break points up to s, where an envelope of level l starts.
fn step(
    starts: &mut [u64],
    levels: &mut [u8],
    tops: &Tops,
    p: Place,
    s: u64,
    l: Level,
    g: u64,
) -> Place
    requires { Room 2 starts.old levels.old tops.now.ends p.count p.level.number }
    ensures { Stepped tops.now.ends s l.number g p.level.number (breaks_to starts.old levels.old p.count) result.level.number (breaks_to starts.new levels.new result.count) }
{
    let q = drain(&mut starts[..], &mut levels[..], tops, p, s);
    if l.number <= q.level.number {
        return q;
    }
    let count = lift(&mut starts[..], &mut levels[..], tops, q, s, l, g);
    Place { count, level: l }
}

// The break points of the required level of envelopes.
fn sweep(envelopes: Envelopes, g: u64, starts: &mut [u64], levels: &mut [u8]) -> usize
    requires places { Places starts.old levels.old }
    requires n_in_bounds { envelopes.count * 2 ≤ length starts.old }
    ensures { Swept envelopes.entry.keys.now envelopes.entry.ends.now envelopes.entry.count g starts.new levels.new result }
{
    let keys = envelopes.keys;
    let ends = envelopes.ends;
    let n = envelopes.count;
    let mut tops = Tops::none();
    let mut p = Place {
        count: 0,
        level: Level { number: 0 },
    };
    for key in &keys[..n] {
        let s = key / 2048;
        let l = Level {
            number: (key % 8) as usize,
        };
        let at = (key / 8 % 256) as usize;
        p = step(&mut starts[..], &mut levels[..], &tops, p, s, l, g);
        tops.raise(l, ends[at]);
    }
    let last = drain(
        &mut starts[..],
        &mut levels[..],
        &tops,
        p,
        1_000_000_000_000,
    );
    last.count
}

// The same in the places that the envelopes can use, two for each; the starts behind stay as they are.
fn sweep_front(
    envelopes: Envelopes,
    g: u64,
    starts: &mut [u64; 512],
    levels: &mut [u8; 512],
) -> usize
    ensures { SweptFront envelopes.entry.keys.now envelopes.entry.ends.now envelopes.entry.count g starts.old starts.new levels.new result }
{
    let used = envelopes.count * 2;
    sweep(envelopes, g, &mut starts[..used], &mut levels[..])
}

// Zeros from a place on, up to place `used`.
fn clear_from(starts: &mut [u64; 512], first: usize, used: usize)
    requires first_le_used { first ≤ used }
    requires used_bound { used ≤ 512 }
    ensures { starts.new ≡ take first starts.old ++ replicate (used - first) 0 ++ drop used starts.old }
{
    starts[first..used].fill(0);
}

// The required runs of envelopes, into an empty list. The break points stand in the list's own starts, which spares the stack an array: a run goes from one
// to the next, and its place is that of a break point that is past. It is kept out of its caller, in which the list would be copied from place to place.
#[inline(never)]
fn fill_runs(envelopes: Envelopes, g: u64, list: &mut RunList)
    requires starts_empty { list.old.starts ≡ replicate 512 0 }
    requires ends_empty { list.old.ends ≡ replicate 512 0 }
    requires levels_empty { list.old.levels ≡ replicate 512 0 }
    ensures { list.new ≡ stored_runs (required_runs (envelopes_to envelopes.entry.keys.now envelopes.entry.ends.now envelopes.entry.count) g) }
{
    let mut levels: [u8; 512] = [0; 512];
    let count = sweep_front(envelopes, g, &mut list.starts, &mut levels);
    let mut start = list.starts[0];
    let mut k = 0;
    for i in 0..count.saturating_sub(1) {
        let level = levels[i];
        let next = list.starts[i + 1];
        list.starts[k] = start;
        list.ends[k] = next;
        list.levels[k] = level;
        k += usize::from(0 < level);
        start = next;
    }
    // What break points leave behind the runs.
    list.ends[k] = 0;
    list.levels[k] = 0;
    clear_from(&mut list.starts, k, envelopes.count * 2);
    list.count = k;
}

// The same, as a list.
pub fn swept_runs(envelopes: Envelopes, g: u64) -> RunList
    ensures { result ≡ stored_runs (required_runs (envelopes_to envelopes.entry.keys.now envelopes.entry.ends.now envelopes.entry.count) g) }
{
    let mut list = RunList {
        count: 0,
        starts: [0; 512],
        ends: [0; 512],
        levels: [0; 512],
    };
    fill_runs(envelopes, g, &mut list);
    list
}
