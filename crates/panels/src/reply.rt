// The call's reply.

// The best of the layouts tried: the smallest overrun, and its first layout's counts in the order of the lengths, 0 behind them.
#[derive(Clone, Copy)]
pub struct Best {
    pub overrun: u64,
    pub counts: [u64; 4],
}

// The best, or none where no tried layout covers; the tries made and the floor stand beside both.
#[derive(Clone, Copy)]
pub struct Layout {
    pub best: Option<Best>,
    pub tries: u64,
    pub floor: u64,
}
