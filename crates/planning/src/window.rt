// Which hazards a walk takes the envelopes of.
ghost use Rattle.std.specs.Prelude.{◌≡◌};
ghost use Rattle.planning.specs.Window.{stands_in, window_about};

use job::Hazard;

#[derive(Clone, Copy)]
pub enum Window {
    All,
    // Those that start by the station `to` and end at `from` or behind it.
    Between { from: u64, to: u64 },
}

// Where each hazard stands that has a part in the level at a station: an approach length in whole panels is below 210,000, and G at most 200,000.
// No hazard stands behind the last station.
pub fn window_about(station: u64) -> Window
    ensures { result ≡ window_about station }
{
    let middle = station.min(1000000000000);
    Window::Between {
        from: middle.saturating_sub(410000),
        to: middle + 410000,
    }
}

pub fn stands_in(window: Window, hazard: Hazard) -> bool
    ensures { result ≡ stands_in window hazard }
{
    match window {
        Window::All => true,
        Window::Between { from, to } => (hazard.start <= to) & (from <= hazard.end),
    }
}
