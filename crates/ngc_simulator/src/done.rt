use ngc_program_report::RunTime;
use std::alloc::Global;

/// Notes that are printed on standard error in addition to the output.
#[derive(Drop)]
pub struct Notes {
    /// Lines, each with its line feed.
    pub text: Vec<u8, Global>,
    /// Whether the requested output is written. If it isn't, the notes say why.
    pub is_written: bool,
}

/// The result of a command where nothing is refused.
#[derive(Drop)]
pub enum Done {
    /// There is nothing to print besides the output.
    Quietly,
    /// A program was run through to its end, in this time.
    RunThrough(RunTime),
    /// There are notes to print besides the output.
    WithNotes(Notes),
}
