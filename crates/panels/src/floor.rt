// The floor: the distance from the run up to the least multiple, not below it, of the lengths' greatest common divisor.
ghost use Rattle.std.specs.Prelude.{◌≡◌};
ghost use Rattle.panels.specs.Panels.{gcd, floor};
ghost use Rattle.panels.specs.Promised.{SomeLengths};
ghost use Rattle.panels.specs.Steps.{CommonDivisors};

// The greatest common divisor of two, by Euclid's algorithm; of 0 and a number, that number.
fn common_divisor(a: u64, b: u64) -> u64
    ensures { CommonDivisors a b result }
{
    let mut greater = a;
    let mut less = b;
    // The lesser falls to a rest, and not by one.
    while less != 0 {
        let rest = greater % less;
        greater = less;
        less = rest;
    }
    greater
}

// The lengths' greatest common divisor, one length after the other.
fn gcd_of(lengths: &[u64]) -> u64
    requires { SomeLengths lengths.now }
    ensures { result ≡ gcd lengths.now }
{
    let mut divisor: u64 = 0;
    for length in lengths {
        divisor = common_divisor(divisor, *length);
    }
    divisor
}

// The least multiple itself may leave 64 bits; the distance does not.
pub fn floor_of(lengths: &[u64], run: u64) -> u64
    requires { SomeLengths lengths.now }
    ensures { result ≡ floor lengths.now run }
{
    let divisor = gcd_of(lengths);
    let rest = run % divisor;
    if rest == 0 {
        return 0;
    }
    divisor - rest
}
