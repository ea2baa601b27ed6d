// Levels: envelopes, the level that they require at each millimetre, and its runs, by value.
#![tactic(auto)]

mod envelopes;
pub mod listed;
pub mod required;
mod sort;
mod spread; // keys brought near to order
mod sweep;
mod tops;

// The millimetres [start, end) at a containment level.
#[derive(Clone, Copy)]
pub struct Stretch {
    pub start: u64,
    pub end: u64,
    pub level: u32,
}

// The first `count` entries are the runs, rising, in arrays of 512, which document 01 asks for. That they are a run list is a fact of `listed::Runs`: here it would not hold while the sweep fills a list
// that is lent to it, and a list made from arrays filled before takes two copies and 15 KB of stack more in plan.
#[derive(Clone, Copy)]
pub struct RunList {
    pub count: usize,
    pub starts: [u64; 512],
    pub ends: [u64; 512],
    pub levels: [u8; 512],
}
