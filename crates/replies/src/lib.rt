// What C is told: a plain struct for each answer of the calls, made from it by `From`.
#![tactic(auto)]

ghost use Rattle.std.specs.Prelude.{◌≡◌};
ghost use Rattle.base.specs.Answer.{replied};
ghost use Rattle.refusal.specs.Refusal.{number_of, value_of, answer_of};
ghost use Rattle.clear_offset.specs.Offset.{offset_reply};
ghost use Rattle.replies.specs.Interface.{reply, reply_of, plan_reply_of, corners_told, smallest_of, reach_reply_of};

use corners::reply::Corner;
use refusal::Refusal;
use schedule::reply::Written;
use withdrawal::reply::Reach;

mod layout; // the call layout
mod records; // the calls on a schedule's bytes

// Number 0: done, with the bytes written and the greatest overhangs before A and behind B; else the refusal, and 0 for both.
#[repr(C)]
#[derive(Clone, Copy)]
pub struct PlanReply {
    pub number: u64,
    pub value: u64,
    pub before: u64,
    pub after: u64,
}

// Number 0: done, with the millimetres, say; else the refusal's number and what it returns.
#[repr(C)]
#[derive(Clone, Copy)]
pub struct Reply {
    pub number: u64,
    pub value: u64,
}

// Number 0, 8 or 10; where found is 1, the record's bytes are [start, end) of the schedule asked for, else both are 0.
#[repr(C)]
#[derive(Clone, Copy)]
pub struct Record {
    pub number: u64,
    pub found: u64,
    pub start: u64,
    pub end: u64,
}

// Number 0: done, with the records read and a quantity for each range; else the refusal, and 0 in all the others.
#[repr(C)]
#[derive(Clone, Copy)]
pub struct Quantities {
    pub number: u64,
    pub value: u64,
    pub records: u64,
    pub quantities: [u64; 64],
}

// Number 0: done, with the corners of the adjacent approach; else the refusal, and all corners 0.0.
#[repr(C)]
#[derive(Clone, Copy)]
pub struct Corners {
    pub number: u64,
    pub value: u64,
    pub upstream: Corner,
    pub flare: Corner,
    pub hazard: Corner,
}

// Number 0: where found is 1, value is the smallest barrier offset, and where it is 0 there is none; else the refusal, and found 0.
#[repr(C)]
#[derive(Clone, Copy)]
pub struct SmallestOffset {
    pub number: u64,
    pub value: u64,
    pub found: u64,
}

// Number 0: done, with the hazard's side, its envelope [start, end) cut at A and B, its own overhangs, and the stretch [from, to) outside which its
// withdrawal alters no level of that side; but for the side, 0 where nobody reaches it. Else the refusal, and 0 in all the others.
#[repr(C)]
#[derive(Clone, Copy)]
pub struct ReachReply {
    pub number: u64,
    pub value: u64,
    pub side: u64,
    pub start: u64,
    pub end: u64,
    pub before: u64,
    pub after: u64,
    pub from: u64,
    pub to: u64,
}

// Number 0: where found is 1, the smallest overrun and its first layout's counts, in the order of the lengths, 0 behind them; where it is 0 no
// tried layout covers, and overrun and counts are 0. Else the refusal, and 0 in all the others.
#[repr(C)]
#[derive(Clone, Copy)]
pub struct LayoutReply {
    pub number: u64,
    pub value: u64,
    pub found: u64,
    pub overrun: u64,
    pub counts: [u64; 4],
    pub tries: u64,
    pub floor: u64,
}

// A refusal as C has it: its number and what it returns. The C interface has numbers for it.
fn refused(refusal: Refusal) -> Reply
    ensures { result ≡ reply (number_of refusal) (value_of refusal) }
{
    Reply {
        number: refusal.number(),
        value: refusal.value(),
    }
}

impl From<Result<Written, Refusal>> for PlanReply {
    ghost from_gives = { λ planned reply. reply ≡ plan_reply_of (answer_of planned) };

    #[tactic(auto, unfolding(crate::specs::Interface::plan_reply_of))]
    fn from(planned: Result<Written, Refusal>) -> PlanReply {
        match planned {
            Ok(written) => PlanReply {
                number: 0,
                value: written.bytes as u64,
                before: written.overhangs.before,
                after: written.overhangs.after,
            },
            Err(refusal) => PlanReply {
                number: refusal.number(),
                value: refusal.value(),
                before: 0,
                after: 0,
            },
        }
    }
}

// Number 0 and value 0 where the call is done; else the refusal's number and what it returns.
impl From<Result<(), Refusal>> for Reply {
    ghost from_gives = { λ how r. r ≡ reply_of (replied (answer_of how)) };

    #[tactic(auto, unfolding(crate::specs::Interface::reply_of))]
    fn from(how: Result<(), Refusal>) -> Reply {
        match how {
            Ok(()) => Reply {
                number: 0,
                value: 0,
            },
            Err(refusal) => refused(refusal),
        }
    }
}

// A level as value.
impl From<Result<u32, Refusal>> for Reply {
    ghost from_gives = { λ required reply. reply ≡ reply_of (answer_of required) };

    #[tactic(auto, unfolding(crate::specs::Interface::reply_of))]
    fn from(required: Result<u32, Refusal>) -> Reply {
        match required {
            Ok(level) => Reply {
                number: 0,
                value: level as u64,
            },
            Err(refusal) => refused(refusal),
        }
    }
}

impl From<Result<corners::reply::Corners, Refusal>> for Corners {
    ghost from_gives = { λ found reply. reply ≡ corners_told (answer_of found) };

    fn from(found: Result<corners::reply::Corners, Refusal>) -> Corners {
        match found {
            Ok(corners) => Corners {
                number: 0,
                value: 0,
                upstream: corners.upstream,
                flare: corners.flare,
                hazard: corners.hazard,
            },
            Err(refusal) => {
                let none = corners::reply::Corners::none();
                Corners {
                    number: refusal.number(),
                    value: refusal.value(),
                    upstream: none.upstream,
                    flare: none.flare,
                    hazard: none.hazard,
                }
            }
        }
    }
}

impl From<Result<Option<u64>, Refusal>> for SmallestOffset {
    ghost from_gives = { λ smallest reply. reply ≡ smallest_of (offset_reply smallest) };

    #[tactic(auto, unfolding(crate::specs::Interface::smallest_of))]
    fn from(smallest: Result<Option<u64>, Refusal>) -> SmallestOffset {
        match smallest {
            Ok(Some(millimetres)) => SmallestOffset {
                number: 0,
                value: millimetres,
                found: 1,
            },
            Ok(None) => SmallestOffset {
                number: 0,
                value: 0,
                found: 0,
            },
            Err(refusal) => SmallestOffset {
                number: refusal.number(),
                value: refusal.value(),
                found: 0,
            },
        }
    }
}

impl From<Result<Reach, Refusal>> for ReachReply {
    ghost from_gives = { λ reached reply. reply ≡ reach_reply_of (answer_of reached) };

    #[tactic(auto, unfolding(crate::specs::Interface::reach_reply_of))]
    fn from(reached: Result<Reach, Refusal>) -> ReachReply {
        match reached {
            Ok(reach) => ReachReply {
                number: 0,
                value: 0,
                side: reach.side,
                start: reach.start,
                end: reach.end,
                before: reach.overhangs.before,
                after: reach.overhangs.after,
                from: reach.from,
                to: reach.to,
            },
            Err(refusal) => ReachReply {
                number: refusal.number(),
                value: refusal.value(),
                side: 0,
                start: 0,
                end: 0,
                before: 0,
                after: 0,
                from: 0,
                to: 0,
            },
        }
    }
}
