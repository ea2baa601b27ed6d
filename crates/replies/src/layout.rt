// What C is told of the call layout.
ghost use Rattle.std.specs.Prelude.{◌≡◌};
ghost use Rattle.refusal.specs.Refusal.{answer_of};
ghost use Rattle.replies.specs.Interface.{layout_told};

use super::LayoutReply;
use panels::reply::Layout;
use refusal::Refusal;

impl From<Result<Layout, Refusal>> for LayoutReply {
    ghost from_gives = { λ tried reply. reply ≡ layout_told (answer_of tried) };

    fn from(tried: Result<Layout, Refusal>) -> LayoutReply {
        match tried {
            Ok(layout) => match layout.best {
                Some(best) => {
                    let counts = best.counts;
                    LayoutReply {
                        number: 0,
                        value: 0,
                        found: 1,
                        overrun: best.overrun,
                        counts,
                        tries: layout.tries,
                        floor: layout.floor,
                    }
                }
                None => LayoutReply {
                    number: 0,
                    value: 0,
                    found: 0,
                    overrun: 0,
                    counts: [0; 4],
                    tries: layout.tries,
                    floor: layout.floor,
                },
            },
            Err(refusal) => LayoutReply {
                number: refusal.number(),
                value: refusal.value(),
                found: 0,
                overrun: 0,
                counts: [0; 4],
                tries: 0,
                floor: 0,
            },
        }
    }
}
