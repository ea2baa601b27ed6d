// The call's reply.
use planning::Overhangs;

// How far the withdrawal of a hazard reaches; but for the side, zeros where nobody reaches the hazard.
#[derive(Clone, Copy)]
pub struct Reach {
    // The hazard's side.
    pub side: u64,
    // Its envelope, cut at the road's ends, and by how much it hung over them.
    pub start: u64,
    pub end: u64,
    pub overhangs: Overhangs,
    // The stretch of the road outside which no level alters.
    pub from: u64,
    pub to: u64,
}
