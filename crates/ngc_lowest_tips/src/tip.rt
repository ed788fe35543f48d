//! The lowest height with a mounted tool in a coordinate system.
ghost use Rattle.std.specs.Prelude.{◌≡◌};
ghost use Rattle.ngc_lowest_tips.specs.Tips.{is_same_pair, is_same_tool, lower};

use ngc_fixed_length::System;
use ngc_frames::index_of;

/// The lowest height that motions go to in a coordinate system, with a mounted tool or with none.
#[derive(Clone, Copy)]
pub struct LowestTip {
    /// The coordinate system that is selected.
    pub system: System,
    /// The number of the mounted tool; `None` without a tool.
    pub tool: Option<u32>,
    /// The number of the tool whose offset is in force, unless it is that of the mounted tool or
    /// none is in force.
    pub by: Option<u32>,
    /// The height in the program's coordinates, in nanometres.
    pub height: i64,
    /// The line of the first motion that goes to it.
    pub line: u32,
}

fn is_same_tool(a: Option<u32>, b: Option<u32>) -> bool
    ensures { result ≡ is_same_tool a b }
{
    match (a, b) {
        (None, None) => true,
        (Some(a), Some(b)) => a == b,
        _ => false,
    }
}

/// Returns whether two heights are in the same coordinate system and with the same tool.
pub(crate) fn is_same_pair(a: &LowestTip, b: &LowestTip) -> bool
    ensures { result ≡ is_same_pair a.now b.now }
{
    index_of(a.system) == index_of(b.system) && is_same_tool(a.tool, b.tool)
}

/// Returns the lower of two heights, and the first of equal ones.
pub(crate) fn lower(had: LowestTip, new: LowestTip) -> LowestTip
    ensures { result ≡ lower had new }
{
    if new.height < had.height { new } else { had }
}
