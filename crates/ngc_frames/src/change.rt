use crate::frame::Frame;

/// A frame that is in force from a command on.
#[derive(Clone, Copy)]
pub struct FrameChange {
    /// The line that sets it, by its number in the file, from 1.
    pub line: u32,
    /// The number of commands that were executed before that line: the first command in this frame,
    /// counted from 0.
    pub command: usize,
    pub frame: Frame,
}
