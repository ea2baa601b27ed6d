// The smallest offset for a hazard: the offsets that leave the deflection free are halved (binary search), since the length falls as the
// offset rises.
ghost use Rattle.std.specs.Prelude.{◌≡◌, ◌+◌, ◌≤◌};
ghost use Rattle.clear_offset.specs.Offset.{length_at, hazard_offset, given};
ghost use Rattle.clear_offset.specs.Steps.{Clear};

use job::{Hazard, Header};
use planning::envelope::{adjacent_reach, adjacent_traffic, approach_of};

// The adjacent approach length, the barrier at an offset that leaves the deflection free.
fn length_at(header: Header, hazard: Hazard, offset: u64) -> u64
    requires clear { Clear header hazard }
    requires stands_clear { offset + header.deflection ≤ hazard.near }
    ensures { result ≡ length_at header hazard offset }
{
    let traffic = adjacent_traffic(header, hazard.side);
    let reach = adjacent_reach(header, hazard);
    let approach = approach_of(&header, traffic, reach, offset);
    approach.raised_length(header.panel)
}

// Of the offsets before `end`, those below `low` are too long and those from `high` on are not. At most 15 lengths are worked out: `lengths`
// more may be, and fewer offsets than 2 to that power are left between, so it never falls below 0. A `while`, since std's `partition_point` is of
// a slice, and here is none.
// Header and hazard are two arguments because docs/PROMISES.md names this contract; `length_at` takes what it has.
pub fn smallest_of(header: Header, hazard: Hazard, longest: u64) -> Option<u64>
    requires { Clear header hazard }
    ensures { given result ≡ hazard_offset header hazard longest }
{
    let end = (hazard.near as u64 - header.deflection).min(20000) + 1;
    let mut low: u64 = 0;
    let mut high = end;
    let mut lengths: u64 = 15;
    while low < high {
        let middle = low + (high - low) / 2;
        let length = length_at(header, hazard, middle);
        lengths -= 1;
        if length <= longest {
            high = middle;
        } else {
            low = middle + 1;
        }
    }
    if low < end { Some(low) } else { None }
}
