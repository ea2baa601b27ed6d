// The approach length in whole panels, exact over its whole domain: the promise that planning, schedule and program cite.
#![tactic(auto)]

ghost use Rattle.std.specs.Prelude.{◌≡◌, ◌≤◌};
ghost use Rattle.base.specs.Least.{next_multiple};
ghost use Rattle.approach.specs.Approach.{formula_length, approach_length};
ghost use Rattle.approach.specs.Panel.{raised_length};
ghost use Rattle.approach.specs.Steps.{flare_across, InDomain};

// What an approach length goes by, in millimetres but for the flare, which is a ratio. Its domain is asked by the methods, whose promises others name, and
// is no fact of the struct.
#[derive(Clone, Copy)]
pub struct Approach {
    // The flare runs `across` for `along` (b for a), after a straight part T.
    pub along: u64,
    pub across: u64,
    pub straight: u64,
    // Runout length L, hazard reach R and barrier offset m.
    pub runout: u64,
    pub reach: u64,
    pub offset: u64,
}

impl Approach {
    // The formula, rounded up; no step of it leaves 64 bits.
    fn formula_length(self) -> u64
        requires { InDomain self }
        ensures { result ≡ formula_length self.along self.across self.straight self.runout self.reach self.offset }
    {
        let along_reach = self.along * self.reach;
        let dividend = self.runout
            * (along_reach + self.across * self.straight - self.along * self.offset);
        let divisor = self.across * self.runout + along_reach;
        dividend.div_ceil(divisor)
    }

    // No flare where the length without one is at most the straight part, which is tested with no division.
    fn flare_across(self) -> u64
        requires { InDomain self }
        ensures { result ≡ flare_across self.across self.straight self.runout self.reach self.offset }
    {
        if self.runout * (self.reach - self.offset) <= self.straight * self.reach {
            0
        } else {
            self.across
        }
    }

    // The length before it is raised to panels: the formula, with flare or without.
    pub fn length(self) -> u64
        requires { InDomain self }
        ensures { result ≡ approach_length self.along self.across self.straight self.runout self.reach self.offset }
    {
        let across = self.flare_across();
        Approach { across, ..self }.formula_length()
    }

    // The length in whole panels of this length, in millimetres.
    pub fn raised_length(self, panel: u64) -> u64
        requires panel_nonzero { 1 ≤ panel }
        requires panel_bound { panel ≤ 10000 }
        requires domain { InDomain self }
        ensures { result ≡ raised_length panel self.along self.across self.straight self.runout self.reach self.offset }
    {
        raised_to(panel, self.length())
    }
}

// A length raised to whole panels. Panel length 1, that of every kind 1 job, spares the division. Std's `next_multiple_of` takes 8 instructions more a
// hazard, 1.8 in 100 of a plan in panels.
fn raised_to(panel: u64, length: u64) -> u64
    requires panel_nonzero { 1 ≤ panel }
    requires panel_bound { panel ≤ 10000 }
    requires length_bound { length ≤ 200000 }
    ensures { result ≡ next_multiple panel length }
{
    if panel <= 1 {
        return length;
    }
    (length + (panel - 1)) / panel * panel
}
