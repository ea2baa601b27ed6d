// An open job, whose hazards come and go while it is open: a present state, and up to eight states that are kept under the numbers 0 to 7.
#![tactic(auto)]

use job::{NamedHazard, StoredJob};

pub mod calls; // the calls on the parts of the memory, by value
pub mod kept; // one state among others: its rules; kept, and taken back
pub mod memory; // the calls in the caller's memory
pub mod tested; // the calls by value on a present state that keeps the rules

// What is kept under a number. Nothing: all is 0. A state: used is 1, and its names and hazards stand as in an open job, whose header is
// that of the present state. `used` is a number because include/barrier.h has it so.
#[repr(C)]
#[derive(Clone, Copy)]
pub struct KeptState {
    pub used: u64,
    pub count: u64,
    pub hazards: [NamedHazard; 256],
}

// The memory of an open job: the present state, and what is kept under each number.
#[repr(C)]
#[derive(Clone, Copy)]
pub struct OpenStates {
    pub present: StoredJob,
    pub kept: [KeptState; 8],
}
