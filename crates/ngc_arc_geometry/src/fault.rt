ghost use Rattle.std.specs.Prelude.{◌≡◌};

use thiserror::Error;

/// The reasons why a line's words describe no arc.
#[derive(Clone, Copy, Debug, PartialEq, Eq, Error)]
pub enum ArcFault {
    /// Fault 241: the line has neither axis word of the plane.
    #[error("an arc needs an axis word of its plane")]
    NoAxisWord,
    /// Fault 242: centre format without an offset of the plane.
    #[error("an arc needs an offset of its plane or a radius")]
    NoOffset,
    /// Fault 243: the radii at start and end differ by more than 2,000 nm, or 5,080 nm in inches.
    /// They are in nanometres, rounded down.
    #[error("the radii at start and end differ")]
    RadiiDiffer { at_start: u64, at_end: u64 },
    /// Fault 244: the radius does not reach the middle of the chord.
    #[error("the radius is too small for the way from start to end")]
    RadiusTooSmall,
    /// Fault 245: radius format with an end that equals the start in the plane.
    #[error("in radius format the end must differ from the start")]
    EndIsStart,
    /// Fault 246: a radius of 0 or over 2*10^9 nm.
    #[error("the radius is out of range")]
    RadiusOutOfRange,
}

impl ArcFault {
    ghost use Rattle.ngc_arc_geometry.specs.Faults.{number_of};

    /// Returns the fault's number.
    pub fn number(&self) -> u16
        ensures { result ≡ number_of self.now }
    {
        match self {
            ArcFault::NoAxisWord => 241,
            ArcFault::NoOffset => 242,
            ArcFault::RadiiDiffer { .. } => 243,
            ArcFault::RadiusTooSmall => 244,
            ArcFault::EndIsStart => 245,
            ArcFault::RadiusOutOfRange => 246,
        }
    }
}
