// The calls that read a schedule: quantity, quantities, lookup and its companion.
#![tactic(auto)]

mod level_runs; // the runs of one level
pub mod lookup;
pub mod quantities;
pub mod quantity;
pub mod reply;
mod walk; // a schedule read record by record
