// Plan's reply.
use planning::Overhangs;

// The schedule stands in the output.
#[derive(Clone, Copy)]
pub struct Written {
    // The asked side's greatest overhangs.
    pub overhangs: Overhangs,
    // How many bytes were written.
    pub bytes: usize,
}
