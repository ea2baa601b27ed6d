// What C is told of the calls on a schedule's bytes: quantity, lookup and quantities.
ghost use Rattle.std.specs.Prelude.{◌≡◌};
ghost use Rattle.refusal.specs.Refusal.{answer_of};
ghost use Rattle.replies.specs.Interface.{reply_of, record_told, quantities_told};

use super::{Quantities, Record, Reply, refused};
use queries::reply::Place;
use refusal::Refusal;

// Millimetres as value.
impl From<Result<u64, Refusal>> for Reply {
    ghost from_gives = { λ measured reply. reply ≡ reply_of (answer_of measured) };

    #[tactic(auto, unfolding(crate::specs::Interface::reply_of))]
    fn from(measured: Result<u64, Refusal>) -> Reply {
        match measured {
            Ok(millimetres) => Reply {
                number: 0,
                value: millimetres,
            },
            Err(refusal) => refused(refusal),
        }
    }
}

impl From<Result<Option<Place>, Refusal>> for Record {
    ghost from_gives = { λ located reply. reply ≡ record_told (answer_of located) };

    fn from(located: Result<Option<Place>, Refusal>) -> Record {
        match located {
            Ok(Some(place)) => Record {
                number: 0,
                found: 1,
                start: place.start as u64,
                end: place.end as u64,
            },
            Ok(None) => Record {
                number: 0,
                found: 0,
                start: 0,
                end: 0,
            },
            Err(refusal) => Record {
                number: refusal.number(),
                found: 0,
                start: 0,
                end: 0,
            },
        }
    }
}

impl From<Result<queries::reply::Quantities, Refusal>> for Quantities {
    ghost from_gives = { λ counted reply. reply ≡ quantities_told (answer_of counted) };

    fn from(counted: Result<queries::reply::Quantities, Refusal>) -> Quantities {
        match counted {
            Ok(given) => {
                let quantities = given.quantities;
                Quantities {
                    number: 0,
                    value: 0,
                    records: given.records,
                    quantities,
                }
            }
            Err(refusal) => Quantities {
                number: refusal.number(),
                value: refusal.value(),
                records: 0,
                quantities: [0; 64],
            },
        }
    }
}
