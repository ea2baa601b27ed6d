// The queries' replies.

// The quantities of up to 64 ranges.
#[derive(Clone, Copy)]
pub struct Quantities {
    // The records read.
    pub records: u64,
    // Millimetres, one for each range, in the ranges' order; 0 after them.
    pub quantities: [u64; 64],
}

// Where a record is in a schedule: the index of its first byte, and the index after its last.
#[derive(Clone, Copy)]
pub struct Place {
    pub start: usize,
    pub end: usize,
}
