// The level that a job requires at one station of a side, from its hazards: no runs, no sorting, no output memory.
#![tactic(auto)]

pub mod level; // the call
mod nearest; // the envelopes nearest to a station, and the level that they give
