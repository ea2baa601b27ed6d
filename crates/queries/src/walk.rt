// One walk of a schedule's records, each checked as it is read, generic over what is done with each.
ghost use Rattle.std.specs.Prelude.{◌≡◌, ◌≤◌, ℕ, List, OnOk};
ghost use Rattle.base.specs.Answer.{accepted};
ghost use Rattle.refusal.specs.Refusal.{answer_of};
ghost use Rattle.number.specs.Number.{greatest_number};
ghost use Rattle.number.specs.declared.Reading.{Reading};
ghost use Rattle.number.specs.Form.{Bytes};
ghost use Rattle.runs.specs.RunList.{last_station};
ghost use Rattle.queries.specs.Walk.{head_at, following_run, run_with_level_at, record_at, as_head, as_record, run_count, Between, at_first, after, Next, Walked};

use number::Reading;
use refusal::Refusal;
use runs::Stretch;

// Where the last run may end, in millimetres.
const LAST_STATION: u64 = 1000000000000;

// The head of a schedule.
#[derive(Clone, Copy)]
pub struct Head {
    // The index after it.
    pub next: usize,
    // The run count, up to 511.
    pub count: u64,
}

// A record of a schedule.
#[derive(Clone, Copy)]
pub struct Record {
    // The index after it.
    pub next: usize,
    pub run: Stretch,
}

// What is done with each record of a schedule.
pub trait Visit {
    // What the records so far have given.
    type Found;

    // What is known between two records.
    ghost Knows: { Self → List ℕ → Between → Self.Found → Type 0 };

    // Takes the record that begins at an index.
    fn visit(&self, found: &mut Self::Found, at: usize, read: Record)
        requires { (s : List ℕ) × (b : Between) × Next s b at read × Knows self.now s b found.old }
        ensures { (s : List ℕ) (b : Between) → Next s b at read → Knows self.now s b found.old → Knows self.now s (after b read) found.new };
}

// Reads the run count. Refused: Schedule (10) where there is no number, or one above 511.
fn read_head(s: &[u8]) -> Result<Head, Refusal>
    ensures { answer_of result ≡ as_head (head_at s.now) }
{
    let Some(Reading { next, value: count }) = number::find_number(s, 0) else {
        return Err(Refusal::Schedule);
    };
    if 511 < count {
        return Err(Refusal::Schedule);
    }
    Ok(Head { next, count })
}

// The record of a gap, a length and a level, after the run `before`. Refused: Schedule (10) where that run may not stand there.
fn following_run(
    before: Stretch,
    gap: u64,
    length: u64,
    level: u32,
    next: usize,
) -> Result<Record, Refusal>
    requires end_le_last_station { before.end ≤ last_station }
    requires gap_le_greatest_number { gap ≤ greatest_number }
    requires length_le_greatest_number { length ≤ greatest_number }
    ensures { answer_of result ≡ as_record (following_run before.end before.level gap length level next) }
{
    let start = before.end + gap;
    let end = start + length;
    if length == 0 {
        return Err(Refusal::Schedule);
    }
    if LAST_STATION < end {
        return Err(Refusal::Schedule);
    }
    if level == 0 {
        return Err(Refusal::Schedule);
    }
    if 6 < level {
        return Err(Refusal::Schedule);
    }
    if gap == 0 {
        if before.level == level {
            return Err(Refusal::Schedule);
        }
    }
    Ok(Record {
        next,
        run: Stretch { start, end, level },
    })
}

// The record whose gap and length were read, its level at an index. A level is below 128, so it takes one byte; what takes more is none.
fn read_run(s: &[u8], at: usize, before: Stretch, gap: u64, length: u64) -> Result<Record, Refusal>
    requires end_le_last_station { before.end ≤ last_station }
    requires gap_le_greatest_number { gap ≤ greatest_number }
    requires length_le_greatest_number { length ≤ greatest_number }
    ensures { answer_of result ≡ as_record (run_with_level_at before.end before.level gap length s.now at) }
{
    if s.len() <= at {
        return Err(Refusal::Schedule);
    }
    following_run(before, gap, length, s[at] as u32, at + 1)
}

// The record at an index, after the run `before`. It is compiled into each walk, because a call would cost a third.
#[inline(always)]
fn read_record(s: &[u8], at: usize, before: Stretch) -> Result<Record, Refusal>
    requires { before.end ≤ last_station }
    ensures { answer_of result ≡ as_record (record_at before.end before.level s.now at) }
{
    let Some(
        Reading {
            next: i,
            value: gap,
        },
    ) = number::find_number(s, at)
    else {
        return Err(Refusal::Schedule);
    };
    let Some(
        Reading {
            next: j,
            value: length,
        },
    ) = number::find_number(s, i)
    else {
        return Err(Refusal::Schedule);
    };
    read_run(s, j, before, gap, length)
}

// Gives each record to `visitor`, and counts them. Refused: Schedule (10) where the bytes are no schedule.
pub fn walk<V: Visit>(s: &[u8], visitor: &V, found: &mut V::Found) -> Result<u64, Refusal>
    requires { (n : Reading) → Bytes s.now → head_at s.now ≡ accepted n → V.Knows visitor.now s.now (at_first n) found.old }
    ensures count { answer_of result ≡ run_count s.now }
    ensures found { OnOk result (Walked s.now (λ b. V.Knows visitor.now s.now b found.new)) }
{
    let head = read_head(s)?;
    let mut at = head.next;
    let mut before = Stretch {
        start: 0,
        end: 0,
        level: 0,
    };
    for passed in 0..head.count {
        let read = read_record(s, at, before)?;
        visitor.visit(found, at, read);
        at = read.next;
        before = read.run;
    }
    if at != s.len() {
        return Err(Refusal::Schedule);
    }
    Ok(head.count)
}
