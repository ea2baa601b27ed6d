// Which traffic reaches a hazard, what its approach goes by, and the hazard's envelope, cut at the road's ends.
ghost use Rattle.std.specs.Prelude.{◌≡◌, ◌<◌, min, [], ◌∷◌};
ghost use Rattle.planning.specs.Envelope.{adjacent, adjacent_traffic, runout, farther, lengthening, cut_envelope, overhang};
ghost use Rattle.planning.specs.Reply.{traffic_of, cuts_of, cuts_given};
ghost use Rattle.planning.specs.Window.{standing_in};

use super::Overhangs;
use super::tested::Tested;
use super::window::{Window, stands_in};
use approach::Approach;
use job::{Hazard, Header};
use runs::Stretch;

// Forward traffic drives by rising stations, opposite traffic by falling ones.
#[derive(Clone, Copy)]
pub enum Traffic {
    Forward,
    Opposite,
}

// An envelope cut at the road's ends, and by how much it hung over them.
#[derive(Clone, Copy)]
pub struct CutEnvelope {
    pub stretch: Stretch,
    pub overhangs: Overhangs,
}

// The runout length of a traffic; 0 where there is none.
pub fn runout_length(header: Header, traffic: Traffic) -> u64
    ensures { result ≡ runout header (traffic_of traffic) }
{
    match traffic {
        Traffic::Forward => header.forward,
        Traffic::Opposite => header.opposite,
    }
}

fn is_adjacent(header: Header, side: u8, traffic: Traffic) -> bool
    ensures { result ≡ adjacent header side (traffic_of traffic) }
{
    match traffic {
        Traffic::Forward => (side == 0) | (header.opposite == 0),
        Traffic::Opposite => side == 1,
    }
}

// The adjacent traffic of a side.
pub fn adjacent_traffic(header: Header, side: u8) -> Traffic
    ensures { traffic_of result ≡ adjacent_traffic header side }
{
    if is_adjacent(header, side, Traffic::Forward) {
        Traffic::Forward
    } else {
        Traffic::Opposite
    }
}

// What a traffic adds to the offsets of a side: nothing where it is adjacent, W where it is far.
fn farther_by(header: Header, side: u8, traffic: Traffic) -> u64
    ensures { result ≡ farther header side (traffic_of traffic) }
{
    if is_adjacent(header, side, traffic) {
        0
    } else {
        header.way
    }
}

// The hazard reach of adjacent traffic.
pub fn adjacent_reach(header: Header, hazard: Hazard) -> u64
    ensures { result ≡ min hazard.far header.zone }
{
    (hazard.far as u64).min(header.zone)
}

// What an approach length goes by: the header's flare and straight part, the runout length of a traffic, and a reach and a barrier offset.
pub fn approach_of(header: &Header, traffic: Traffic, reach: u64, offset: u64) -> Approach
    ensures { result ≡ record { along = header.now.along; across = header.now.across; straight = header.now.straight; runout = runout header.now (traffic_of traffic); reach = reach; offset = offset } }
{
    Approach {
        along: header.along,
        across: header.across,
        straight: header.straight,
        runout: runout_length(*header, traffic),
        reach,
        offset,
    }
}

impl Tested<'_> {
    // By how much a traffic lengthens the hazard's envelope.
    fn lengthened_by(self, traffic: Traffic) -> u64
        ensures { (result ≡ lengthening self.entry.header.now self.entry.hazard (traffic_of traffic)) × (result < 210000) }
    {
        let header = self.header;
        let hazard = self.hazard;
        let farther = farther_by(*header, hazard.side, traffic);
        if runout_length(*header, traffic) == 0 {
            return 0;
        }
        if header.zone <= hazard.near as u64 + farther {
            return 0;
        }
        let reach = (hazard.far as u64 + farther).min(header.zone);
        let approach = approach_of(header, traffic, reach, header.offset + farther);
        approach.raised_length(header.panel)
    }

    // The hazard's envelope, cut, and its overhangs. No sum below 0: the overhang is added before the approach is taken off.
    #[inline(always)]
    pub fn cut_envelope(self) -> CutEnvelope
        ensures { result ≡ record { stretch = cut_envelope self.entry.header.now self.entry.hazard; overhangs = overhang self.entry.header.now self.entry.hazard } }
    {
        let header = self.header;
        let hazard = self.hazard;
        let before = self.lengthened_by(Traffic::Forward);
        let behind = self.lengthened_by(Traffic::Opposite);
        let early = (header.begin + before).saturating_sub(hazard.start);
        let late = (hazard.end + behind).saturating_sub(header.end);
        CutEnvelope {
            stretch: Stretch {
                start: hazard.start + early - before,
                end: hazard.end + behind - late,
                level: hazard.level as u32,
            },
            overhangs: Overhangs {
                before: early,
                after: late,
            },
        }
    }

    // What the hazard gives to a side: its envelope where it stands on the side, is reached and is in the window. It is reached if its near offset lies
    // in the clear zone.
    #[inline(always)]
    pub fn side_envelope(self, side: u64, window: Window) -> Option<CutEnvelope>
        ensures { cuts_given result ≡ cuts_of self.entry.header.now side (standing_in window (self.entry.hazard ∷ [])) }
    {
        let hazard = self.hazard;
        if self.header.zone <= hazard.near as u64 {
            return None;
        }
        if stands_in(window, hazard) {
            if hazard.side as u64 != side {
                return None;
            }
            return Some(self.cut_envelope());
        }
        None
    }
}
