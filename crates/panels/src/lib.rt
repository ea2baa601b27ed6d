// Panels for one run: the layout with the smallest overrun within a limit on tries, and the floor.
#![tactic(auto)]

mod floor; // the floor: the greatest common divisor, and the distance up to its least multiple
pub mod layout; // the call
mod odometer; // the layouts one after the other, each with its total
pub mod reply;
mod search; // the tries
