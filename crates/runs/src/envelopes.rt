// Envelopes ready for the sweep.
ghost use Rattle.std.specs.Prelude.{◌≡◌};
ghost use Rattle.runs.specs.Steps.{Sweepable};

// Sound envelopes in order of their starts: the first `count` keys, which rise, and the ends to which they point.
#[derive(Clone, Copy)]
pub struct Envelopes<'a> {
    pub keys: &'a [u64],
    pub ends: &'a [u64],
    pub count: usize,
    ghost sweepable: { Sweepable keys.now ends.now count },
}
