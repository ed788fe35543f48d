use ngc_cells::Spot;

/// A tool change over a stock, with the tip of one of both tools below the stock's top.
#[derive(Clone, Copy)]
pub struct Change {
    /// The index of its command.
    pub command: usize,
    /// The number of the line in the file, from 1.
    pub line: u32,
    /// The number of the tool with the lower tip.
    pub tool: u32,
    /// Where it is, in nanometres of the machine.
    pub place: Spot,
    /// How far the tip is below the stock's top, in nanometres.
    pub depth: u64,
}
