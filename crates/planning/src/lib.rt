// Planning: from a job to the envelopes of a side, and its runs.
#![tactic(auto)]

pub mod accept; // the entrances: a side, and a hazard, of an accepted job
pub mod envelope; // a hazard's envelope, cut at the road's ends
pub mod near; // a hazard too near to the barrier
pub mod own; // the envelope of one hazard
pub mod side; // the runs of a side
pub mod taker; // what is taken of the hazards that a walk gives
pub mod tested; // a hazard that passes refusal 5
pub mod walk; // one walk over a job's hazards
pub mod window; // which hazards it takes the envelopes of

// By how many millimetres envelopes hang over before the road's begin A and behind its end B.
#[derive(Clone, Copy)]
pub struct Overhangs {
    pub before: u64,
    pub after: u64,
}

#[cfg(test)]
mod tests;
