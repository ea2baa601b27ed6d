// The corners of an approach: the arithmetic is done in floats and loses nothing.
ghost use Rattle.std.specs.Prelude.{◌≡◌, true, ◌≤◌};
ghost use Rattle.std.specs.Float.{binary64};
ghost use Rattle.std.specs.Float.Ieee.{of_int};
ghost use Rattle.planning.specs.Envelope.{adjacent, reaches};
ghost use Rattle.planning.specs.Reply.{traffic_of};
ghost use Rattle.corners.specs.Corners.{upstream_by, point_at, approach_points};
ghost use Rattle.corners.specs.Reply.{corner_of, corners_as};
ghost use Rattle.corners.specs.Steps.{OnSheet, StationFits, LengthsOf};

use super::reply::{Corner, Corners};
use job::Hazard;
use planning::envelope::{Traffic, adjacent_reach, approach_of};
use planning::tested::Tested;

// A sheet corner in its range.
#[derive(Clone, Copy)]
pub struct Sheet {
    pub station: u64,
    pub offset: u64,
    ghost on_sheet: { OnSheet station offset },
}

// The lengths of an approach: before it is raised to panels, and raised.
#[derive(Clone, Copy)]
pub struct Lengths {
    pub before: u64,
    pub raised: u64,
}

// The lengths of the approach of adjacent traffic that reaches the hazard.
pub fn approach_lengths(tested: Tested, traffic: Traffic) -> Lengths
    requires traffic_adjacent { adjacent tested.header.now tested.hazard.side (traffic_of traffic) ≡ true }
    requires hazard_reached { reaches tested.header.now tested.hazard (traffic_of traffic) ≡ true }
    ensures { LengthsOf tested.entry.header.now tested.entry.hazard (traffic_of traffic) result }
{
    let header = tested.header;
    let reach = adjacent_reach(*header, tested.hazard);
    let approach = approach_of(header, traffic, reach, header.offset);
    let before = approach.length();
    let raised = approach.raised_length(header.panel);
    Lengths { before, raised }
}

// A station so far upstream of the hazard's end on the traffic's side; it may be negative.
fn station_upstream(traffic: Traffic, hazard: Hazard, distance: u64) -> f64
    requires { StationFits hazard distance }
    ensures { result ≡ of_int binary64 (upstream_by (traffic_of traffic) hazard distance) }
{
    match traffic {
        Traffic::Forward => hazard.start as f64 - distance as f64,
        Traffic::Opposite => hazard.end as f64 + distance as f64,
    }
}

// The corner there, from the sheet corner.
fn corner_at(traffic: Traffic, hazard: Hazard, distance: u64, offset: u64, sheet: Sheet) -> Corner
    requires station_fits { StationFits hazard distance }
    requires offset_bound { offset ≤ 2120000 }
    ensures { result ≡ corner_of (point_at sheet.station sheet.offset (upstream_by (traffic_of traffic) hazard distance) offset) }
{
    let station = station_upstream(traffic, hazard, distance);
    Corner {
        station: station - sheet.station as f64,
        offset: offset as f64 - sheet.offset as f64,
    }
}

// The three corners of an approach with these lengths.
pub fn approach_corners(tested: Tested, traffic: Traffic, lengths: Lengths, sheet: Sheet) -> Corners
    requires { LengthsOf tested.header.now tested.hazard (traffic_of traffic) lengths }
    ensures { result ≡ corners_as (approach_points sheet.station sheet.offset tested.entry.header.now tested.entry.hazard (traffic_of traffic)) }
{
    let header = tested.header;
    let hazard = tested.hazard;
    let offset = header.offset;
    let straight = header.straight;
    let end = corner_at(traffic, hazard, 0, offset, sheet);
    if (0 < header.across) & (straight < lengths.before) {
        let away = header.across * (lengths.raised - straight) / header.along;
        return Corners {
            upstream: corner_at(traffic, hazard, lengths.raised, offset + away, sheet),
            flare: corner_at(traffic, hazard, straight, offset, sheet),
            hazard: end,
        };
    }
    let upstream = corner_at(traffic, hazard, lengths.raised, offset, sheet);
    Corners {
        upstream,
        flare: upstream,
        hazard: end,
    }
}
