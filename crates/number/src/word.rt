// Numbers of two to six bytes in a word: four or eight bytes as they lie in memory, lowest first. The compiler makes one load of each sum of bytes and
// one mask of the tests, as long as each is a function of its own.
ghost use Rattle.std.specs.Prelude.{◌≡◌, ◌+◌, ◌*◌, ◌/◌, ◌≤◌, ◌<◌, length};
ghost use Rattle.number.specs.Word.{word_at, long_word_at, is_number, word_number, twos_of};

fn wide(x: u8) -> u64
    ensures { (result ≡ x) × (result < 256) }
{
    x as u64
}

// The word of four bytes from an index on.
pub fn word(s: &[u8], at: usize) -> u64
    requires { at + 4 ≤ length s.now }
    ensures { (result ≡ word_at s.now at) × (result < 4294967296) }
{
    wide(s[at]) + wide(s[at + 1]) * 256 + wide(s[at + 2]) * 65536 + wide(s[at + 3]) * 16777216
}

// The word of eight. Its halves are taken from a part that begins at the index, so that the compiler sees that they touch.
pub fn long_word(s: &[u8], at: usize) -> u64
    requires { at + 8 ≤ length s.now }
    ensures { result ≡ long_word_at s.now at }
{
    let part = &s[at..];
    word(part, 0) + word(part, 4) * 4294967296
}

// Whether the word begins with the top bits of a number of one byte and so many more.
pub fn is_number<const MORE: usize>(w: u64) -> bool
    ensures { result ≡ is_number MORE w }
{
    let mut rest = w;
    let mut tops = true;
    for k in 0..MORE {
        tops = tops & (rest / 128 % 2 == 1);
        rest /= 256;
    }
    tops & (rest / 128 % 2 == 0)
}

// What the groups of two bytes make, and of the two behind them, 16 bits higher: the first and the third group stay where they are, the others move by a
// bit, so that it takes two masks.
pub fn twos(w: u64) -> u64
    ensures { (result ≡ twos_of w) × (result < 1073741824) }
{
    (w % 128 + w / 65536 % 128 * 65536) + (w / 256 % 128 * 128 + w / 16777216 % 128 * 8388608)
}

// The same of eight bytes; in a function of its own it takes two masks, too.
fn long_twos(w: u64) -> u64
    ensures { result ≡ twos_of w + twos_of (w / 4294967296) * 4294967296 }
{
    twos(w) + twos(w / 4294967296) * 4294967296
}

// What the groups of so many bytes make. One function with a const parameter for three to six bytes takes 6 in 100 more instructions of a plan: as loops the
// compiler makes two stations in vector registers.
pub fn of_three(w: u64) -> u64
    ensures { result ≡ word_number 2 w }
{
    let b = w / 256;
    let c = b / 256;
    w % 128 + b % 128 * 128 + c % 128 * 16384
}

fn of_four(w: u64) -> u64
    ensures { (result ≡ word_number 3 w) × (result < 268435456) }
{
    let pairs = twos(w);
    (pairs + pairs % 65536 * 3) / 4
}

pub fn of_five(w: u64) -> u64
    ensures { (result ≡ word_number 4 w) × (result < 34359738368) }
{
    of_four(w) + w / 4294967296 % 128 * 268435456
}

pub fn of_six(w: u64) -> u64
    ensures { result ≡ word_number 5 w }
{
    of_five(w) + w / 1099511627776 % 128 * 34359738368
}

// What the groups of four bytes make, and of the four behind them, 32 bits higher.
pub fn fours(w: u64) -> u64
    ensures { result ≡ word_number 3 w + 4294967296 * word_number 3 (w / 4294967296) }
{
    let pairs = long_twos(w);
    (pairs + (pairs % 65536 + pairs / 4294967296 % 65536 * 4294967296) * 3) / 4
}
