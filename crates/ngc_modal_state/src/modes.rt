ghost use Rattle.std.specs.Prelude.{◌≡◌};

use crate::code::{MotionMode, PathControl};
use ngc_fixed_length::{Distance, FeedMode, Plane, RetractMode, Units};

/// The modes in force on which the meaning of a line's words depends.
#[derive(Clone, Copy)]
pub struct Modes {
    pub motion: MotionMode,
    pub plane: Plane,
    pub units: Units,
    pub distance: Distance,
    pub feed_mode: FeedMode,
    pub return_mode: RetractMode,
    pub path: PathControl,
}

impl Modes {
    ghost use Rattle.ngc_modal_state.specs.Start.{start_modes};

    /// Returns the modes at a program's start: G80 G17 G21 G90 G94 G98 G64.
    pub fn start() -> Modes
        ensures { result ≡ start_modes }
    {
        Modes {
            motion: MotionMode::Cancel,
            plane: Plane::XY,
            units: Units::Millimetres,
            distance: Distance::Absolute,
            feed_mode: FeedMode::PerMinute,
            return_mode: RetractMode::Series,
            path: PathControl::Continuous,
        }
    }
}
