// The tops of the levels: how far the envelopes so far reach.
ghost use Rattle.std.specs.Prelude.{◌≡◌, ◌≤◌, max, true, replicate, if◌then◌else◌};
ghost use Rattle.runs.specs.Sweep.{above_to, Raised, Falling};

// A level: 0 to 6.
#[derive(Clone, Copy)]
pub struct Level {
    pub number: usize,
    ghost small: { number ≤ 6 },
}

// Of each level the greatest end of the envelopes of that level or higher, 0 where there are none. None is above that of a lower level.
#[derive(Drop)]
pub struct Tops {
    pub ends: [u64; 8],
    ghost falling: { Falling ends },
}

// The top of a level after an envelope more; where that ends past every top, no top is looked at.
fn raised(top: u64, end: u64, within: bool, past: bool) -> u64
    requires { past ≡ true → top ≤ end }
    ensures { result ≡ (if within then max top end else top) }
{
    if within {
        if past {
            return end;
        }
        return top.max(end);
    }
    top
}

impl Tops {
    pub fn none() -> Self
        ensures { result.ends ≡ replicate 8 0 }
    {
        Tops { ends: [0; 8] }
    }

    // How many levels have a top above t; where level 1 has none above it, no level has.
    pub fn above(&self, t: u64) -> Level
        ensures { result.number ≡ above_to self.now.ends t 6 }
    {
        if self.ends[1] <= t {
            return Level { number: 0 };
        }
        Level {
            number: usize::from(t < self.ends[1])
                + usize::from(t < self.ends[2])
                + usize::from(t < self.ends[3])
                + usize::from(t < self.ends[4])
                + usize::from(t < self.ends[5])
                + usize::from(t < self.ends[6]),
        }
    }

    // An envelope more that ends at `end`, at level l: no level up to l has a lower top.
    pub fn raise(&mut self, l: Level, end: u64)
        ensures { Raised l.number end self.old.ends self.new.ends }
    {
        // No level has a top above that of level 0.
        let past = self.ends[0] < end;
        for v in 0..7 {
            self.ends[v] = raised(self.ends[v], end, v <= l.number, past);
        }
    }
}
