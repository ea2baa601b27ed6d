// The required level at one station, by the envelopes that have it or are nearest to it: one pass over the envelopes, then a test of
// each level.
ghost use Rattle.std.specs.Prelude.{◌≡◌, List, ℕ, ◌≤◌, get_or};
ghost use Rattle.runs.specs.declared.Stretch.{Stretch};
ghost use Rattle.runs.specs.Level.{required_level};
ghost use Rattle.runs.specs.RunList.{last_station};
ghost use Rattle.runs.specs.Keys.{keyed_envelopes, Keyed};
ghost use Rattle.runs.specs.Sweep.{AllSound};
ghost use Rattle.station_level.specs.Nearest.{NearestOf, has_station};

// What a pass over envelopes keeps for a station, by level; a key could say level 7, but no envelope has it. For none
// there are numbers, which max and min leave out by themselves.
#[derive(Clone, Copy)]
pub struct Nearest {
    // The last end of the envelopes that start at or before the station: one that has it, or the nearest before it; 0 for none.
    pub ends: [u64; 8],
    // The first start of those behind it; the greatest number for none.
    pub starts: [u64; 8],
}

// One pass over the envelopes.
fn nearest_to(keys: &[u64], lasts: &[u64], count: usize, station: u64) -> Nearest
    requires { Keyed keys.now lasts.now count }
    ensures { NearestOf (keyed_envelopes keys.now lasts.now count) station result }
{
    let mut ends: [u64; 8] = [0; 8];
    let mut starts: [u64; 8] = [18446744073709551615; 8];
    // By index, since an envelope stands in two slices.
    for i in 0..count {
        let key = keys[i];
        let start = key / 2048;
        let level = (key % 8) as usize;
        if start <= station {
            ends[level] = ends[level].max(lasts[i]);
        } else {
            starts[level] = starts[level].min(start);
        }
    }
    Nearest { ends, starts }
}

// An envelope has the station, or the gap that it lies in is shorter than the continuity limit.
fn has_station(end: u64, start: u64, continuity: u64, station: u64) -> bool
    requires end_le_last_station { end ≤ last_station }
    requires continuity_bound { continuity ≤ 200000 }
    ensures { result ≡ has_station end start continuity station }
{
    (station < end) | ((0 < end) & (start < end + continuity))
}

// The highest level whose envelopes, with those of the levels above it, have the station or fill the gap that it lies in.
fn highest_level(near: Nearest, continuity: u64, station: u64) -> u32
    requires ends_bound { (v : ℕ) → v ≤ 6 → get_or near.ends v 0 ≤ last_station }
    requires continuity_bound { continuity ≤ 200000 }
    ensures { (es : List Stretch) → AllSound es → NearestOf es station near → result ≡ required_level es continuity station }
{
    let mut end: u64 = 0;
    let mut start: u64 = 18446744073709551615;
    for v in (1..7).rev() {
        end = end.max(near.ends[v]);
        start = start.min(near.starts[v]);
        if has_station(end, start, continuity, station) {
            return v as u32;
        }
    }
    0
}

// The level that the envelopes require at the station.
pub fn required_level(
    keys: &[u64],
    lasts: &[u64],
    count: usize,
    continuity: u64,
    station: u64,
) -> u32
    requires keyed { Keyed keys.now lasts.now count }
    requires all_sound { AllSound (keyed_envelopes keys.now lasts.now count) }
    requires continuity_bound { continuity ≤ 200000 }
    ensures { result ≡ required_level (keyed_envelopes keys.now lasts.now count) continuity station }
{
    let near = nearest_to(keys, lasts, count, station);
    highest_level(near, continuity, station)
}
