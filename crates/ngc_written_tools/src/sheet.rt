//! What is written in a tool table. `None` is a key that the table doesn't have.

use ngc_file_figures::{Cutter, Limits};
use ngc_machine_files::Name;

/// A length from 1 nm to 1,000 mm.
#[derive(Clone, Copy)]
pub struct Size {
    pub nanometres: u32,
}

/// A length from -1,000 mm to 1,000 mm.
#[derive(Clone, Copy)]
pub struct Offset {
    pub nanometres: i64,
}

/// What `T` and `H` call a tool, 1 to 9,999.
#[derive(Clone, Copy)]
pub struct ToolNumber {
    pub number: u32,
}

/// A part of a tool's body, which is round.
#[derive(Clone, Copy)]
pub struct PartSheet {
    pub diameter: Size,
    pub length: Size,
}

/// The parts of a holder, from the tool up.
#[derive(Clone, Copy)]
pub struct HolderSheet {
    pub first: Option<PartSheet>,
    pub second: Option<PartSheet>,
    pub third: Option<PartSheet>,
}

/// The cutter of a tool, and limits of which reports warn.
#[derive(Clone, Copy)]
pub struct LimitSheet {
    pub cutter: Option<Cutter>,
    /// The speeds of the spindle, in millionths of a turn per minute.
    pub speed: Option<Limits>,
    /// The feeds, in nanometres per minute.
    pub feed: Option<Limits>,
    /// The feeds straight down, in nanometres per minute.
    pub plunge: Option<Limits>,
}

/// What is written of a tool but for its holder.
#[derive(Clone, Copy)]
pub struct ToolSheet {
    pub number: ToolNumber,
    pub name: Option<Name>,
    pub diameter: Size,
    /// From the spindle nose to the tip.
    pub length: Option<Size>,
    /// From the holder to the tip.
    pub stickout: Option<Size>,
    /// The part that cuts, from the tip.
    pub flute: Option<Size>,
    /// The diameter above the flute.
    pub shank: Option<Size>,
    /// What G43 adds to Z.
    pub offset: Option<Offset>,
    /// The height of the cone of a vee or a drill.
    pub point: Option<Size>,
    pub limits: LimitSheet,
}

/// How far a tool reaches.
#[derive(Clone, Copy)]
pub struct Reach {
    /// From the spindle nose to the tip.
    pub length: Size,
    /// From the holder to the tip.
    pub stickout: Size,
}

/// What sticks out of the holder.
#[derive(Clone, Copy)]
pub struct Blade {
    pub cutter: PartSheet,
    pub shank: Option<PartSheet>,
}

/// A tool with its measures.
#[derive(Clone, Copy)]
pub struct MeasuredTool {
    /// The tool's place in the table, from 0.
    pub place: u16,
    pub sheet: ToolSheet,
    pub reach: Reach,
    pub blade: Blade,
    pub holder: HolderSheet,
}
