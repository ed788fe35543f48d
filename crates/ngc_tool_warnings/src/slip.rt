/// A kind of mistake with tools.
#[derive(Clone, Copy)]
pub enum Kind {
    /// A change from a tool to a longer one, below the height of the start.
    LowChange,
    /// A traverse straight down that ends lower than the first feed with the mounted tool began, and
    /// lower than the tool fed there before.
    Drop,
    /// A tool change after a motion, without a stop between the motions before and after it, on a
    /// machine without a tool changer.
    BareChange,
}

/// A mistake with its numbers.
#[derive(Clone, Copy)]
pub enum Slip {
    /// The heights of the tips of both tools in the machine, in nanometres.
    LowChange { from: i64, to: i64 },
    /// How far the traverse ends below the start of the first feed, in nanometres.
    Drop { below: i64 },
    /// A tool change without a stop.
    BareChange,
}

/// A mistake with its line.
#[derive(Clone, Copy)]
pub struct Found {
    /// The number of the line in the file, from 1.
    pub line: u32,
    pub slip: Slip,
}

/// The mistakes of a kind in a program.
#[derive(Clone, Copy)]
pub struct Slips {
    pub first: Found,
    /// The number of commands with a mistake, at least 1.
    pub count: usize,
}
