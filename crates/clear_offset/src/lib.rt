// The smallest barrier offset that keeps the adjacent approach of one hazard to a wanted length.
#![tactic(auto)]

pub mod offset; // the call
mod search; // the smallest offset of a hazard, by binary search
