/// The deepest straight feed with a tool.
#[derive(Clone, Copy)]
pub struct Cut {
    /// The index of its command.
    pub command: usize,
    /// The number of the line in the file, from 1.
    pub line: u32,
    /// The number of the mounted tool.
    pub tool: u32,
    /// How far material that the cutter may reach is above the lower of the feed's two tips, in
    /// nanometres.
    pub depth: u64,
}
