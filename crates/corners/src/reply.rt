// The call's reply.
ghost use Rattle.std.specs.Prelude.{◌≡◌};
ghost use Rattle.corners.specs.Reply.{no_points, corners_as};

// Millimetres from the sheet corner, whole numbers all of them.
#[repr(C)]
#[derive(Clone, Copy)]
pub struct Corner {
    pub station: f64,
    pub offset: f64,
}

// The upstream end, the flare's beginning, the hazard's end on that side.
#[derive(Clone, Copy)]
pub struct Corners {
    pub upstream: Corner,
    pub flare: Corner,
    pub hazard: Corner,
}

impl Corners {
    // Zeros, for a reply of C that has no corners.
    pub fn none() -> Corners
        ensures { result ≡ corners_as no_points }
    {
        let none = Corner {
            station: 0.0,
            offset: 0.0,
        };
        Corners {
            upstream: none,
            flare: none,
            hazard: none,
        }
    }
}
