// One state of an open job: a stored job whose hazards stand under their names. They stand in its first places, in rising order of their
// names, and every other place is 0; so the memory depends only on what stands.
#![tactic(auto)]

pub mod places; // hazards put in and taken out
pub mod rules; // is the memory an open job

// A hazard's six numbers, as they are given. None is cut to fewer bits than it takes.
#[repr(C)]
#[derive(Clone, Copy)]
pub struct GivenHazard {
    pub side: u64,
    pub start: u64,
    pub end: u64,
    pub near: u64,
    pub far: u64,
    pub level: u64,
}
