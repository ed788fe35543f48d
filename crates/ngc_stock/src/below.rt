use ngc_fixed_length::Point3;

/// The box of a path of the spindle nose: its least and its greatest coordinates, in nanometres of the
/// machine.
#[derive(Clone, Copy)]
pub struct PathBox {
    pub low: Point3,
    pub high: Point3,
}

/// A feed with its tip below a stock's bottom.
#[derive(Clone, Copy)]
pub struct Below {
    /// The index of its command.
    pub command: usize,
    /// The number of the line in the file, from 1.
    pub line: u32,
    /// The number of the mounted tool.
    pub tool: u32,
    /// How far the tip is below the bottom, in nanometres.
    pub depth: u64,
}

/// The feeds of a program with their tips below a stock's bottom.
#[derive(Clone, Copy)]
pub struct AllBelow {
    /// The deepest; of several the first.
    pub deepest: Below,
    /// The line of the first of all.
    pub first: u32,
    /// The line of the last of all.
    pub last: u32,
}
