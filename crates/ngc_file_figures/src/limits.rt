//! Limits of tools, of which reports warn.
ghost use Rattle.std.specs.Prelude.{◌≡◌, find};
ghost use Rattle.ngc_file_figures.specs.Limits as spec;

use crate::cutter::Cutter;

/// The least and the greatest number that are within limits.
#[derive(Clone, Copy)]
pub struct Limits {
    /// 0 if the file says only the greatest number.
    pub least: u64,
    pub greatest: u64,
}

/// What a tool table of version 3 says of a tool besides its body. `None` is a key that the tool
/// doesn't have.
#[derive(Clone, Copy)]
pub struct ToolLimits {
    /// The tool's number.
    pub number: u32,
    pub cutter: Option<Cutter>,
    /// The height of the cone of a vee or a drill, in nanometres.
    pub cone: Option<u32>,
    /// The speeds of the spindle, in millionths of a turn per minute.
    pub speed: Option<Limits>,
    /// The feeds, in nanometres per minute.
    pub feed: Option<Limits>,
    /// The feeds straight down, in nanometres per minute.
    pub plunge: Option<Limits>,
}

impl Limits {
    /// Returns whether a number is within the limits.
    pub fn hold(&self, number: u64) -> bool
        ensures { result ≡ spec.hold self.now number }
    {
        self.least <= number && number <= self.greatest
    }
}

fn is_of(number: u32, limits: &ToolLimits) -> bool
    ensures { result ≡ spec.is_of number limits.now }
{
    limits.number == number
}

/// Returns what is said of the tool with this number, or `None` if nothing is.
pub fn limits_of(number: u32, table: &[ToolLimits]) -> Option<ToolLimits>
    ensures { result ≡ spec.limits_of number table.now }
{
    table.iter().copied().find(|limits| is_of(number, limits))
}
