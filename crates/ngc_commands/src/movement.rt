ghost use Rattle.std.specs.Prelude.{◌≡◌};

use ngc_arc_geometry::Arc;
use ngc_fixed_length::Point3;

/// The feed of a motion: in nanometres per minute, or in inverse time as the number of times per
/// minute that the motion could be made, in millionths.
#[derive(Clone, Copy, PartialEq, Eq)]
pub enum Feed {
    PerMinute(u64),
    Inverse(u64),
}

/// The speed of a motion: the greatest rate (G0, G28, G30), or a feed (G1, G2, G3).
#[derive(Clone, Copy, PartialEq, Eq)]
pub enum Pace {
    Rapid,
    Feed(Feed),
}

/// The path of the axes, in nanometres of the machine before rounding to the grid: straight from
/// start to end, or along an arc or a helix.
#[derive(Clone, Copy, PartialEq, Eq)]
pub enum Way {
    Line { start: Point3, end: Point3 },
    Arc(Arc),
}

/// A motion: the path of the axes, its pace, and whether the axes stop at its end.
#[derive(Clone, Copy, PartialEq, Eq)]
pub struct Motion {
    pub way: Way,
    pub pace: Pace,
    /// True under G61.1.
    pub stop: bool,
}

impl Way {
    ghost use Rattle.ngc_commands.specs.Movement.{end_of};

    /// Returns the end of the path.
    pub fn end(&self) -> Point3
        ensures { result ≡ end_of self.now }
    {
        match self {
            Way::Line { end, .. } => *end,
            Way::Arc(arc) => arc.end(),
        }
    }
}
