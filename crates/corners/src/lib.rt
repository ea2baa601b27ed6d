// Corner points for the drawing: the adjacent approach of one hazard of a job, in 64-bit floats from a sheet corner.
#![tactic(auto)]

pub mod call; // the call
mod points; // the corners of an approach
pub mod reply;
