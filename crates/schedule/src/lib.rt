// The schedule in bytes, and the call that writes one: plan.
#![tactic(auto)]

pub mod plan;
pub mod reply;
mod write; // a run list written as a schedule
