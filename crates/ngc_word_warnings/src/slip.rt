/// A kind of mistake in the words of a line.
#[derive(Clone, Copy)]
pub enum Kind {
    /// A T word with the number of a tool that no command of the program mounts.
    Unmounted,
    /// G43 with the H of a tool that isn't the mounted one; H0 is no tool's.
    OtherOffset,
    /// A feed downwards with a tool whose offset in the tool table isn't 0, while no length offset
    /// is in force: before any G43, after G49, or after G43 H0.
    NoOffset,
    /// A feed while the length offset of another tool than the mounted one is in force, which
    /// differs by 10 nm or more: after M6 without G43. The line of a G43 with the H of another tool
    /// is a mistake of `OtherOffset`, so an offset that it applies isn't one of this kind.
    StaleOffset,
    /// G28 or G30 with one or two of the words X, Y and Z, each 0. Other controls move only those
    /// axes home.
    PartHome,
}

/// A mistake in the words of a line, with its numbers.
#[derive(Clone, Copy)]
pub enum Slip {
    /// The number of the T word, in millionths, of a tool that no command mounts.
    Unmounted { tool: i64 },
    /// The number of the H word, in millionths, and that of the mounted tool.
    OtherOffset { offset: i64, tool: u32 },
    /// The number of the tool that feeds downwards.
    NoOffset { tool: u32 },
    /// The number of the tool whose offset is in force, in millionths, and that of the mounted tool.
    StaleOffset { offset: i64, tool: u32 },
    /// G28 or G30 with some axis words, each 0.
    PartHome,
}

/// A mistake with its line.
#[derive(Clone, Copy)]
pub struct Found {
    /// The number of the line in the file, from 1.
    pub line: u32,
    pub slip: Slip,
}

/// The mistakes of a kind in a program.
#[derive(Clone, Copy)]
pub struct Slips {
    pub first: Found,
    /// The number of lines with a mistake, at least 1.
    pub count: usize,
}

/// The mistakes of a line, one of each kind at most.
#[derive(Clone, Copy)]
pub struct LineSlips {
    pub unmounted: Option<Slip>,
    pub other_offset: Option<Slip>,
    pub no_offset: Option<Slip>,
    pub stale_offset: Option<Slip>,
    pub part_home: Option<Slip>,
}

/// The mistakes in a program, by kind.
#[derive(Clone, Copy)]
pub struct AllSlips {
    pub unmounted: Option<Slips>,
    pub other_offset: Option<Slips>,
    pub no_offset: Option<Slips>,
    pub stale_offset: Option<Slips>,
    pub part_home: Option<Slips>,
}
