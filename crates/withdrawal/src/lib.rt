// How far the withdrawal of one hazard reaches.
#![tactic(auto)]

pub mod reach; // the call, and what is told of one hazard
pub mod reply;
