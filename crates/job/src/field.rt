// Job bytes read number by number, each for its range.
ghost use Rattle.std.specs.Prelude.{◌≡◌};
ghost use Rattle.refusal.specs.Refusal.{answer_of};
ghost use Rattle.job.specs.Reply.{field_at, moved};

use super::Bounds;
use number::read_number;
use refusal::Refusal;

// Bytes, and the index that is read next.
#[derive(Clone, Copy)]
pub struct Reader<'a> {
    pub bytes: &'a [u8],
    pub at: usize,
}

impl<'a> Reader<'a> {
    // The next number, in its range; `outside` is the refusal of one that is not.
    pub fn field(&mut self, range: Bounds, outside: Refusal) -> Result<u64, Refusal>
        ensures same { self.new.bytes ≡ self.old.bytes }
        ensures value { answer_of (moved result self.new.at) ≡ field_at range outside self.old.bytes.now self.old.at }
    {
        let reading = read_number(self.bytes, self.at)?;
        if reading.value < range.low {
            return Err(outside);
        }
        if range.high < reading.value {
            return Err(outside);
        }
        self.at = reading.next;
        Ok(reading.value)
    }
}
