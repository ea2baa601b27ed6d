// The required runs of envelopes in two arrays: their keys sorted, then one sweep.
ghost use Rattle.std.specs.Prelude.{◌≡◌, ◌<◌, ◌≤◌, length};
ghost use Rattle.runs.specs.RunList.{last_station};
ghost use Rattle.runs.specs.Required.{required_runs};
ghost use Rattle.runs.specs.Keys.{key_of, keyed_envelopes};
ghost use Rattle.runs.specs.Stored.{stored_runs};
ghost use Rattle.runs.specs.Sweep.{AllSound};

use super::RunList;
use super::envelopes::Envelopes;
use super::sort::sort;
use super::sweep::swept_runs;

// Keys rise as the starts do; a key says where its envelope's end stands. Three numbers are one, because they are sorted as one.
pub fn key_of(start: u64, level: u8, index: usize) -> u64
    requires start_le_last_station { start ≤ last_station }
    requires index_bound { index < 256 }
    ensures { result ≡ key_of start level index }
{
    start * 2048 + index as u64 * 8 + level as u64
}

// The required runs of the first `count` envelopes.
pub fn required_runs(keys: &mut [u64; 256], ends: &[u64], count: usize, continuity: u64) -> RunList
    requires keys_len { length keys.old ≡ 256 }
    requires ends_len { length ends.now ≡ 256 }
    requires count_bound { count ≤ 256 }
    requires all_sound { AllSound (keyed_envelopes keys.old ends.now count) }
    ensures { result ≡ stored_runs (required_runs (keyed_envelopes keys.old ends.now count) continuity) }
{
    sort(&mut keys[..count]);
    let envelopes = Envelopes {
        keys: &keys[..],
        ends,
        count,
    };
    swept_runs(envelopes, continuity)
}
