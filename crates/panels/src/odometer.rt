// The layouts one after the other, as an odometer turns: the last length's count fastest, and the total carried along.
ghost use Rattle.std.specs.Prelude.{◌≡◌};
ghost use Rattle.panels.specs.Steps.{length_back, four_lengths, LengthsFit, ShowsLayout, Advances};

// The panel lengths in their order, the last one last; 0 in front where there are fewer than four. They and the counts have a field each: with arrays, which
// `advance` goes through by a loop, a try takes 20 instructions in place of 13.
#[derive(Clone, Copy)]
pub struct Lengths {
    pub first: u64,
    pub second: u64,
    pub third: u64,
    pub last: u64,
}

// A layout: its counts of these lengths, and their total.
#[derive(Clone, Copy)]
pub struct Odometer {
    pub first: u64,
    pub second: u64,
    pub third: u64,
    pub last: u64,
    pub total: u64,
}

// The length so many places before the last; 0 where there is none.
fn length_back(lengths: &[u64], back: usize) -> u64
    ensures { result ≡ length_back lengths.now back }
{
    if back < lengths.len() {
        return lengths[lengths.len() - 1 - back];
    }
    0
}

// The panel lengths, of which there are at most four, each in its field.
pub fn four_lengths(lengths: &[u64]) -> Lengths
    ensures { result ≡ four_lengths lengths.now }
{
    let first = length_back(lengths, 3);
    let second = length_back(lengths, 2);
    let third = length_back(lengths, 1);
    let last = length_back(lengths, 0);
    Lengths {
        first,
        second,
        third,
        last,
    }
}

// The next layout: the last count goes up by one; a count that would pass 15 becomes 0, and the one before it goes up.
// After the last layout the first count alone may show 16, which is never judged.
pub fn advance(lengths: Lengths, at: Odometer) -> Odometer
    requires lengths_fit { LengthsFit lengths }
    requires shows_layout { ShowsLayout lengths at }
    ensures { Advances lengths at result }
{
    if at.last < 15 {
        return Odometer {
            first: at.first,
            second: at.second,
            third: at.third,
            last: at.last + 1,
            total: at.total + lengths.last,
        };
    }
    let without = at.total - 15 * lengths.last;
    if at.third < 15 {
        return Odometer {
            first: at.first,
            second: at.second,
            third: at.third + 1,
            last: 0,
            total: without + lengths.third,
        };
    }
    let without = without - 15 * lengths.third;
    if at.second < 15 {
        return Odometer {
            first: at.first,
            second: at.second + 1,
            third: 0,
            last: 0,
            total: without + lengths.second,
        };
    }
    Odometer {
        first: at.first + 1,
        second: 0,
        third: 0,
        last: 0,
        total: without - 15 * lengths.second + lengths.first,
    }
}
