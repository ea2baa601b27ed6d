// One state among others: its rules; kept, and taken back.
ghost use Rattle.std.specs.Prelude.{◌≡◌, get_or};
ghost use Rattle.open_job.specs.States.{nothing_kept, kept_from, state_of, is_used};
ghost use Rattle.open_job.specs.Parts.{hazards_held, passes};

use super::KeptState;
use job::{Header, StoredJob, UNUSED};
use open_memory::places::with_count;
use open_memory::rules::{Limits, places_pass};

// The open job, kept. Compiled apart, because what it gives would else be copied within the caller's memory, for which the archive would need C's memmove.
#[inline(never)]
pub fn kept_from(present: StoredJob) -> KeptState
    ensures { result ≡ kept_from present }
{
    let header = present.header;
    let hazards = present.hazards;
    KeptState {
        used: 1,
        count: header.count,
        hazards,
    }
}

// The open job that is kept. Compiled apart, as `kept_from`.
#[inline(never)]
pub fn state_of(header: Header, kept: KeptState) -> StoredJob
    ensures { result ≡ state_of header kept }
{
    let hazards = kept.hazards;
    StoredJob {
        header: with_count(header, kept.count),
        hazards,
    }
}

pub fn is_used(kept: KeptState) -> bool
    ensures { result ≡ is_used kept }
{
    kept.used == 1
}

// How many hazards a kept state says that it has: none where it is neither nothing nor a state of up to 256.
fn hazards_held(used: u64, count: u64) -> Option<usize>
    ensures { result ≡ hazards_held used count }
{
    if used == 1 {
        if count <= 256 {
            Some(count as usize)
        } else {
            None
        }
    } else if (used == 0) & (count == 0) {
        Some(0)
    } else {
        None
    }
}

// Tests a kept state: it must be nothing, or an open job under the header that the limits are of. `above` is lent, because a constant would be made anew at
// each place.
pub fn is_sound(limits: Limits, kept: &KeptState, above: &u32) -> bool
    requires { above.now ≡ 65537 }
    ensures { result ≡ passes limits kept.now }
{
    match hazards_held(kept.used, kept.count) {
        Some(count) => places_pass(limits, count, &kept.hazards, above),
        None => false,
    }
}

// What is kept under a number; nothing above 7.
pub fn kept_under(kept: &[KeptState; 8], number: u64) -> KeptState
    ensures { result ≡ get_or kept.now number nothing_kept }
{
    if number < 8 {
        kept[number as usize]
    } else {
        nothing_kept()
    }
}

// What an opening leaves under each number: all is 0.
pub fn nothing_kept() -> KeptState
    ensures { result ≡ nothing_kept }
{
    KeptState {
        used: 0,
        count: 0,
        hazards: [UNUSED; 256],
    }
}
