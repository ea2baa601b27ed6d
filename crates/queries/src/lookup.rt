// The call lookup, its companion, and where the record is.
ghost use Rattle.std.specs.Prelude.{◌≡◌};
ghost use Rattle.refusal.specs.Refusal.{answer_of};
ghost use Rattle.queries.specs.Lookup as spec;
ghost use Rattle.queries.specs.Place.{IsPart, located, companion};
ghost use Rattle.queries.specs.Visits.{Seeking};

use super::reply::Place;
use super::walk::{Record, Visit, walk};
use refusal::Refusal;

// The last record whose run starts at a station or before it.
#[derive(Clone, Copy)]
struct StartedBy {
    station: u64,
}

// Its place, and where its run ends; 0 where there is none.
#[derive(Clone, Copy)]
struct Started {
    place: Place,
    end: u64,
}

impl Visit for StartedBy {
    type Found = Started;

    ghost Knows = { λ v s b found. Seeking s v.station b found.place found.end };

    fn visit(&self, found: &mut Started, at: usize, read: Record) {
        if read.run.start <= self.station {
            *found = Started {
                place: Place {
                    start: at,
                    end: read.next,
                },
                end: read.run.end,
            };
        }
    }
}

// The record's place in a schedule, or None where no run has the station. Refused: Schedule (10). Runs rise, so the record is that of
// the last run which starts at the station or before it, or there is none.
fn place_in(s: &[u8], station: u64) -> Result<Option<Place>, Refusal>
    ensures { located (answer_of result) ≡ spec.place_in s.now station }
{
    let mut found = Started {
        place: Place { start: 0, end: 0 },
        end: 0,
    };
    walk(s, &StartedBy { station }, &mut found)?;
    if station < found.end {
        Ok(Some(found.place))
    } else {
        Ok(None)
    }
}

// The record's place in the schedule of the side asked for, 0 the right and 1 the left; None where no run has the station. Refused:
// Argument (8) for another side; Schedule (10).
pub fn locate(right: &[u8], left: &[u8], side: u64, station: u64) -> Result<Option<Place>, Refusal>
    ensures { located (answer_of result) ≡ spec.lookup right.now left.now side station }
{
    match side {
        0 => place_in(right, station),
        1 => place_in(left, station),
        _ => Err(Refusal::Argument),
    }
}

// The bytes of the record whose run has the station: a part of the schedule of the side asked for. Empty where there is none, and where
// `lookup_outcome` is refused.
pub fn lookup<'a>(right: &'a [u8], left: &'a [u8], side: u64, station: u64) -> &'a [u8]
    ensures { IsPart result (spec.asked side right.entry left.entry) (spec.part_of (spec.lookup right.now left.now side station)) }
{
    let mut asked = right;
    if side == 1 {
        asked = left;
    }
    match locate(right, left, side, station) {
        Ok(Some(place)) => &asked[place.start..place.end],
        Ok(None) => &asked[..0],
        Err(_) => &asked[..0],
    }
}

// Whether a run has the station, so that `lookup` returns its record. Refused: Argument (8) for a side above 1; Schedule (10).
pub fn lookup_outcome(right: &[u8], left: &[u8], side: u64, station: u64) -> Result<bool, Refusal>
    ensures { companion (answer_of result) ≡ spec.outcome_of (spec.lookup right.now left.now side station) }
{
    let place = locate(right, left, side, station)?;
    Ok(place.is_some())
}
