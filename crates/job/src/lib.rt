// A job: the header's numbers and up to 256 hazards, by value.
#![tactic(auto)]

pub mod field; // a number with its range
pub mod header_fields; // the header
pub mod hazard_fields; // a hazard
mod within; // a hazard of the usual form, read from words
pub mod read; // hazards one after the other, and what opening reads

ghost use Rattle.std.specs.Prelude.{◌≡◌, ◌+◌, ◌≤◌, min};
ghost use Rattle.job.specs.Job as specs;

// The bounds of a range, both included.
#[derive(Clone, Copy)]
pub struct Bounds {
    pub low: u64,
    pub high: u64,
}

// The header, in the paper's order.
#[repr(C)]
#[derive(Clone, Copy)]
pub struct Header {
    // 1 or 2. Kind, side and level are numbers, because the structs of C and an open job's memory have them so.
    pub kind: u64,
    // A and B: the road is [begin, end).
    pub begin: u64,
    pub end: u64,
    // LF and LO: the runout lengths of forward and of opposite traffic; LO = 0 means one-way or separated.
    pub forward: u64,
    pub opposite: u64,
    // C: the clear-zone width.
    pub zone: u64,
    // W: from the travelled-way edge to the centreline.
    pub way: u64,
    // M: the barrier's offset from that edge.
    pub offset: u64,
    // D: the deflection allowance.
    pub deflection: u64,
    // The flare, b across for a along: a, then b.
    pub along: u64,
    pub across: u64,
    // T: the straight barrier before the flare.
    pub straight: u64,
    // G: the continuity limit.
    pub continuity: u64,
    // The panel length; 1 in a job of kind 1.
    pub panel: u64,
    // h: the hazard count.
    pub count: u64,
}

// A hazard [start, end) between a near and a far offset, on a side (0 right, 1 left), with its containment level.
#[derive(Clone, Copy)]
pub struct Hazard {
    pub start: u64,
    pub end: u64,
    pub near: u16,
    pub far: u16,
    pub side: u8,
    pub level: u8,
}

// A hazard as it is stored, with a name: 24 bytes without a gap. In a job that was read from bytes every name is 0.
#[repr(C)]
#[derive(Clone, Copy)]
pub struct NamedHazard {
    pub start: u64,
    pub end: u64,
    pub near: u16,
    pub far: u16,
    pub name: u16,
    pub side: u8,
    pub level: u8,
}

// A place in which no hazard is stored.
pub const UNUSED: NamedHazard = NamedHazard {
    start: 0,
    end: 0,
    near: 0,
    far: 0,
    name: 0,
    side: 0,
    level: 0,
};

// A job's numbers as stored: the first `count` hazards are the job's.
#[repr(C)]
#[derive(Clone, Copy)]
pub struct StoredJob {
    pub header: Header,
    pub hazards: [NamedHazard; 256],
}

// Where a road that begins there may end at most.
pub fn road_top(begin: u64) -> u64
    requires { begin ≤ 999999999999 }
    ensures { result ≡ min 1000000000000 (begin + 2000000000) }
{
    1000000000000u64.min(begin + 2000000000)
}

impl Hazard {
    // This hazard, stored under a name.
    pub fn named(self, name: u16) -> NamedHazard
        ensures { result ≡ specs.named name self }
    {
        NamedHazard {
            start: self.start,
            end: self.end,
            near: self.near,
            far: self.far,
            name,
            side: self.side,
            level: self.level,
        }
    }
}

// A stored hazard without its name.
impl From<NamedHazard> for Hazard {
    ghost from_gives = { λ stored hazard. hazard ≡ specs.unnamed stored };

    fn from(stored: NamedHazard) -> Hazard {
        Hazard {
            start: stored.start,
            end: stored.end,
            near: stored.near,
            far: stored.far,
            side: stored.side,
            level: stored.level,
        }
    }
}
