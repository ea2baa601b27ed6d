// Text in lent memory: bytes, decimal numbers, and lines of both.
ghost use Rattle.std.specs.Prelude.{◌≡◌, [], ◌∷◌, ◌+◌, ◌≤◌, length};
ghost use Rattle.report.specs.Text.{decimal, field, fields, line};
ghost use Rattle.report.specs.Text.{digit as Text·digit};
ghost use Rattle.report.specs.Writing.{Wrote};

// Memory for text, of which the bytes before `at` are written. Each method writes from there on.
// std's `write!` is no help: it promises the text only where it succeeds, and not that it succeeds where there is room.
#[derive(Drop)]
pub struct Writer<'a> {
    pub text: &'a mut [u8],
    pub at: usize,
}

// The last digit of x.
fn digit(x: u64) -> u8
    ensures { result ≡ Text·digit x }
{
    b'0' + (x % 10) as u8
}

impl<'a> Writer<'a> {
    fn byte(&mut self, byte: u8)
        requires { self.old.at + 1 ≤ length self.old.text.now }
        ensures { Wrote self.old (byte ∷ []) self.new }
    {
        self.text[self.at] = byte;
        self.at += 1;
    }

    fn bytes(&mut self, bytes: &[u8])
        requires { self.old.at + length bytes.now ≤ length self.old.text.now }
        ensures { Wrote self.old bytes.now self.new }
    {
        let end = self.at + bytes.len();
        self.text[self.at..end].copy_from_slice(bytes);
        self.at = end;
    }

    fn decimal(&mut self, x: u64)
        requires { self.old.at + length (decimal x) ≤ length self.old.text.now }
        ensures { Wrote self.old (decimal x) self.new }
    {
        if x >= 10 {
            self.decimal(x / 10);
        }
        self.byte(digit(x));
    }

    // A number with a space before it.
    fn field(&mut self, x: u64)
        requires { self.old.at + length (field x) ≤ length self.old.text.now }
        ensures { Wrote self.old (field x) self.new }
    {
        self.byte(b' ');
        self.decimal(x);
    }

    fn fields(&mut self, numbers: &[u64])
        requires { self.old.at + length (fields numbers.now) ≤ length self.old.text.now }
        ensures { Wrote self.old (fields numbers.now) self.new }
    {
        for number in numbers {
            self.field(*number);
        }
    }

    // A line: a word, the numbers, and the byte that ends it.
    pub fn line(&mut self, word: &[u8], numbers: &[u64])
        requires { self.old.at + length (line word.now numbers.now) ≤ length self.old.text.now }
        ensures { Wrote self.old (line word.now numbers.now) self.new }
    {
        self.bytes(word);
        self.fields(numbers);
        self.byte(b'\n');
    }
}
