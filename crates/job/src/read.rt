// Hazards one after the other, from bytes or from the places of a stored job; and what opening reads.
ghost use Rattle.std.specs.Prelude.{◌≡◌, ℕ, suc, ◌<◌, List, length, ltb, IfOk};
ghost use Rattle.base.specs.Answer.{Answer};
ghost use Rattle.refusal.specs.Refusal.{answer_of};
ghost use Rattle.job.specs.declared.Hazard.{Hazard};
ghost use Rattle.job.specs.declared.Header.{Header};
ghost use Rattle.job.specs.Job.{Job, read_rest};
ghost use Rattle.job.specs.Fits.{HeaderFits, HazardFits};
ghost use Rattle.job.specs.Hazards.{after_hazard, after_all, stored_rest, PlacesFit};
ghost use Rattle.job.specs.Reply.{read_hazard_at, read_opening};

use super::field::Reader;
use super::hazard_fields::{HazardReading, read_hazard};
use super::header_fields::{header_size, read_header};
use super::within::read_usual;
use super::{Hazard, Header, NamedHazard};
use refusal::Refusal;

// Where the hazards behind a header come from.
pub trait Hazards {
    // What the source must meet for a header.
    ghost fits: { Self → Header → Type 0 };
    // The job of the hazards in a list and the next k of the source, or the refusal.
    ghost rest: { Self → Header → (k : ℕ) → (got : List Hazard) → Answer Job };

    // The next hazard, which has this index. `header_fits` stays a clause because a type of headers in their ranges would save it and make every other
    // clause longer (`header.now.header`).
    fn next(&mut self, header: &Header, index: usize) -> Result<Hazard, Refusal>
        requires header_fits { HeaderFits header.now }
        requires index_bound { index < header.now.count }
        requires source_fits { fits self.old header.now }
        ensures rest { (k : ℕ) (got : List Hazard) → length got ≡ index → rest self.old header.now (suc k) got ≡ after_hazard got result (rest self.new header.now k) }
        ensures hazard_fits { IfOk result (HazardFits header.now) }
        ensures still_fits { fits self.new header.now };

    // After the last hazard: refusal 7 of what is left over.
    fn end(&self) -> Result<(), Refusal>
        ensures { (h : Header) (got : List Hazard) → rest self.now h 0 got ≡ after_all h got result };
}

// The places of a stored job.
#[derive(Clone, Copy)]
pub struct Places<'a> {
    pub places: &'a [NamedHazard],
}

// The hazard with this index, read from byte index `at` on. Reading is compiled into each walk, because calls take 40 to 50 instructions
// more per hazard; kept apart from `next`, because two exits there take up to 17 more.
#[inline(always)]
pub fn next_hazard(
    s: &[u8],
    at: usize,
    header: &Header,
    index: usize,
) -> Result<HazardReading, Refusal>
    requires { 0 < header.now.end }
    ensures { answer_of result ≡ read_hazard_at header.now index s.now at }
{
    if let Some(reading) = read_usual(s, at, *header) {
        return Ok(reading);
    }
    read_hazard(s, at, *header, index)
}

impl<'a> Hazards for Reader<'a> {
    ghost fits = { λ r h. Unit {0} };

    ghost rest = { λ r h k got. read_rest h k got r.bytes.now r.at };

    // Compiled into each walk.
    #[inline(always)]
    fn next(&mut self, header: &Header, index: usize) -> Result<Hazard, Refusal> {
        let reading = next_hazard(self.bytes, self.at, header, index)?;
        self.at = reading.next;
        Ok(reading.hazard)
    }

    fn end(&self) -> Result<(), Refusal> {
        if self.at < self.bytes.len() {
            return Err(Refusal::LeftOver(self.at));
        }
        Ok(())
    }
}

impl<'a> Hazards for Places<'a> {
    ghost fits = { λ p h. PlacesFit p.places.now h };

    ghost rest = { λ p h k got. stored_rest p.places.now h k got };

    fn next(&mut self, header: &Header, index: usize) -> Result<Hazard, Refusal> {
        Ok(Hazard::from(self.places[index]))
    }

    fn end(&self) -> Result<(), Refusal> {
        Ok(())
    }
}

fn carries_hazards(header: Header) -> bool
    ensures { result ≡ ltb 0 header.count }
{
    0 < header.count
}

// Job bytes that carry no hazard are read as a job is; a hazard count above 0 is 3.
pub fn read_opening(s: &[u8]) -> Result<Header, Refusal>
    ensures { answer_of result ≡ read_opening s.now }
{
    let reading = read_header(s)?;
    let header = reading.header;
    if carries_hazards(header) {
        return Err(Refusal::HeaderRange(header_size(header.kind)));
    }
    if reading.next < s.len() {
        return Err(Refusal::LeftOver(reading.next));
    }
    Ok(header)
}
