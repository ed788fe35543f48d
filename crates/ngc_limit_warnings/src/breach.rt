use ngc_file_figures::Limits;

/// A kind of limits of a tool.
#[derive(Clone, Copy)]
pub enum Kind {
    /// Those of its feeds.
    Feed,
    /// Those of its feeds straight down.
    Plunge,
    /// Those of the spindle's speeds.
    Speed,
}

/// Where a path goes.
#[derive(Clone, Copy)]
pub enum Course {
    /// Along X or Y, or both.
    Aside,
    /// Straight down.
    Down,
    /// Straight up, or nowhere.
    Up,
}

/// A number outside limits. Feeds are in nanometres per minute, speeds of the spindle in millionths of
/// a turn per minute.
#[derive(Clone, Copy)]
pub struct Breach {
    /// The number of the tool.
    pub tool: u32,
    pub number: u64,
    pub limits: Limits,
}

/// A breach with its line.
#[derive(Clone, Copy)]
pub struct Found {
    /// The number of the line in the file, from 1.
    pub line: u32,
    pub breach: Breach,
}

/// The breaches of a kind in a program.
#[derive(Clone, Copy)]
pub struct Breaches {
    pub first: Found,
    /// The number of motions with a breach, at least 1.
    pub count: usize,
}
