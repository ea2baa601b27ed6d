// A test of what the walk leaves of the arrays that it is lent. It is run; what it calls is proved.
ghost use Rattle.std.specs.Prelude.{◌≤◌, length};

use super::Overhangs;
use super::taker::SideTaker;
use super::walk::walk;
use super::window::Window;
use job::field::Reader;
use job::header_fields::read_header;

// The job that document 01 prints. Its one hazard has an envelope on side 0.
const PRINTED: [u8; 34] = [
    1, 0, 192, 132, 61, 136, 149, 6, 0, 168, 70, 0, 184, 23, 232, 7, 15, 1, 156, 104, 0, 1, 0, 192,
    154, 12, 208, 232, 12, 136, 39, 168, 70, 3,
];

// The walk over it, for a side: how many envelopes were taken, and how long the arrays are afterwards. `None` where the job is refused. A side above 1 has no
// envelopes and asks for no room.
fn walked(side: u64, keys: &mut [u64], ends: &mut [u64]) -> Option<[usize; 3]>
    requires { side ≤ 1 → (256 ≤ length keys.old) × (256 ≤ length ends.old) }
{
    let Ok(read) = read_header(&PRINTED) else {
        return None;
    };
    let mut source = Reader {
        bytes: &PRINTED,
        at: read.next,
    };
    let mut taker = SideTaker {
        keys,
        ends,
        count: 0,
        overhangs: Overhangs {
            before: 0,
            after: 0,
        },
        side,
        window: Window::All,
    };
    walk(&mut source, read.header, &mut taker).ok()?;
    Some([taker.count, taker.keys.len(), taker.ends.len()])
}

#[test]
fn arrays_keep_their_lengths(rt: HostRuntime) {
    let mut keys = [0u64; 256];
    let mut ends = [0u64; 256];
    for (side, count) in [(0, 1), (1, 0), (2, 0)] {
        let after = walked(side, &mut keys[..], &mut ends[..]);
        assert_eq!(rt; after, Some([count, 256, 256]), "side {side}");
    }
    assert_eq!(rt; walked(2, &mut [], &mut []), Some([0, 0, 0]));
}
