// The entrances: a side of the accepted job that bytes are, and a hazard of it.
ghost use Rattle.std.specs.Prelude.{◌≡◌, [], length};
ghost use Rattle.refusal.specs.Refusal.{answer_of};
ghost use Rattle.runs.specs.Keys.{Keyed};
ghost use Rattle.job.specs.Fits.{HeaderFits};
ghost use Rattle.planning.specs.Accept.{side_of_job, side_within, side_answer, side_count, indexed_hazard};

use super::Overhangs;
use super::taker::{Asked, SideTaker};
use super::walk::walk;
use super::window::Window;
use job::field::Reader;
use job::header_fields::read_header;
use job::read::Hazards;
use job::{Hazard, Header};
use refusal::Refusal;

// How many envelopes of a side were taken, their greatest overhangs, and G.
#[derive(Clone, Copy)]
pub struct Side {
    pub count: usize,
    pub overhangs: Overhangs,
    pub continuity: u64,
}

// A hazard, with the header of its job.
#[derive(Clone, Copy)]
pub struct Indexed {
    pub header: Header,
    pub hazard: Hazard,
}

// A side, 0 or 1, of the job behind a header, by its hazards in a window; or the first refusal of 1, 2, 4, 5 and 7. The envelopes' keys and ends stand
// in the first places of the arrays.
// The header's ranges stay a clause because `walk`, which this calls, has it so. The side is a number, because the definitions speak of every number.
pub fn side_behind<S: Hazards>(
    source: &mut S,
    header: Header,
    side: u64,
    window: Window,
    keys: &mut [u64],
    ends: &mut [u64],
) -> Result<Side, Refusal>
    requires header_fits { HeaderFits header }
    requires source_fits { S.fits source.old header }
    requires keys_len { length keys.old ≡ 256 }
    requires ends_len { length ends.old ≡ 256 }
    ensures answer { side_answer keys.new ends.new result ≡ side_of_job header side window (S.rest source.old header header.count []) }
    ensures keyed { Keyed keys.new ends.new (side_count result) }
{
    let mut taker = SideTaker {
        keys,
        ends,
        count: 0,
        overhangs: Overhangs {
            before: 0,
            after: 0,
        },
        side,
        window,
    };
    walk(source, header, &mut taker)?;
    Ok(Side {
        count: taker.count,
        overhangs: taker.overhangs,
        continuity: header.continuity,
    })
}

// A side of the accepted job that the bytes are, 0 or 1, by its hazards in a window; or the first refusal of 1 to 5 and 7. The envelopes' keys and
// ends stand in the first places of the arrays.
pub fn side_of(
    s: &[u8],
    side: u64,
    window: Window,
    keys: &mut [u64],
    ends: &mut [u64],
) -> Result<Side, Refusal>
    requires keys_len { length keys.old ≡ 256 }
    requires ends_len { length ends.old ≡ 256 }
    ensures answer { side_answer keys.new ends.new result ≡ side_within s.now side window }
    ensures keyed { Keyed keys.new ends.new (side_count result) }
{
    let read = read_header(s)?;
    let mut source = Reader {
        bytes: s,
        at: read.next,
    };
    side_behind(&mut source, read.header, side, window, keys, ends)
}

// The hazard with this index of the accepted job that the bytes are; or the first refusal of 1 to 5 and 7, then 14.
pub fn indexed_hazard(s: &[u8], index: u64) -> Result<Indexed, Refusal>
    ensures { answer_of result ≡ indexed_hazard s.now index }
{
    let read = read_header(s)?;
    let header = read.header;
    let mut source = Reader {
        bytes: s,
        at: read.next,
    };
    let mut asked = Asked { index, found: None };
    walk(&mut source, header, &mut asked)?;
    match asked.found {
        Some(hazard) => Ok(Indexed { header, hazard }),
        None => Err(Refusal::Hazard),
    }
}
