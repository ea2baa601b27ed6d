// Document 01's table of refusals, and document 02's: one case for each row, with the value that the row returns.
#![tactic(auto)]

ghost use Rattle.std.specs.Prelude.{◌≡◌};
ghost use Rattle.refusal.specs.Refusal.{number_of, value_of};

#[derive(Clone, Copy)]
pub enum Refusal {
    // The job's bytes end before or inside the number that begins at this index.
    Ended(usize),
    // The number that begins at this index has its top bit set in the sixth byte too, or is not in shortest form.
    Malformed(usize),
    // This header number, 1 to 14 (of a kind 2 job to 15), is outside its range; 0 where the memory of an open job breaks the rules.
    HeaderRange(usize),
    // A field of the hazard with this index is outside its range.
    HazardRange(usize),
    // The hazard with this index is reached and stands nearer than barrier offset and deflection allow.
    NearBarrier(usize),
    // Bytes follow the last hazard, from this index on.
    LeftOver(usize),
    // A side above 1, a level outside 1 to 6, a range whose end lies before its beginning, or a sheet corner out of its range.
    Argument,
    // The output is shorter than the bytes needed.
    Room(usize),
    // A schedule that is not the writing of a run list.
    Schedule,
    // More than 64 ranges.
    Ranges,
    // This name stands already in the open job (add), or it does not stand (withdraw).
    Name(usize),
    // A state number above 7, or in a return one under which nothing is kept.
    State,
    // No such hazard, or one that adjacent traffic does not reach.
    Hazard,
    // An add when 256 hazards stand.
    Full,
    // No panel length, more than four, or one out of its range.
    Lengths,
    // A limit on tries of 0, or above 65,536.
    Tries,
}

impl Refusal {
    // The row's number in the table.
    pub fn number(self) -> u64
        ensures { result ≡ number_of self }
    {
        match self {
            Refusal::Ended(_) => 1,
            Refusal::Malformed(_) => 2,
            Refusal::HeaderRange(_) => 3,
            Refusal::HazardRange(_) => 4,
            Refusal::NearBarrier(_) => 5,
            Refusal::LeftOver(_) => 7,
            Refusal::Argument => 8,
            Refusal::Room(_) => 9,
            Refusal::Schedule => 10,
            Refusal::Ranges => 11,
            Refusal::Name(_) => 12,
            Refusal::State => 13,
            Refusal::Hazard => 14,
            Refusal::Full => 15,
            Refusal::Lengths => 16,
            Refusal::Tries => 17,
        }
    }

    // What the row returns.
    pub fn value(self) -> u64
        ensures { result ≡ value_of self }
    {
        match self {
            Refusal::Ended(at) => at as u64,
            Refusal::Malformed(at) => at as u64,
            Refusal::HeaderRange(number) => number as u64,
            Refusal::HazardRange(index) => index as u64,
            Refusal::NearBarrier(index) => index as u64,
            Refusal::LeftOver(at) => at as u64,
            Refusal::Argument => 0,
            Refusal::Room(needed) => needed as u64,
            Refusal::Schedule => 0,
            Refusal::Ranges => 0,
            Refusal::Name(name) => name as u64,
            Refusal::State => 0,
            Refusal::Hazard => 0,
            Refusal::Full => 0,
            Refusal::Lengths => 0,
            Refusal::Tries => 0,
        }
    }
}
