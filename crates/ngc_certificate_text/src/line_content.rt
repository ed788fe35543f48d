use crate::expected::BegunMotion;
use crate::piece::{Piece, Setting};

/// The version of a certificate's text.
#[derive(Clone, Copy)]
pub enum Version {
    /// The two settings of block delete in order.
    One,
    /// Both settings together: an entry may be a motion of each, with the same pieces.
    Two,
}

/// The content of a line of a certificate's text.
#[derive(Clone, Copy)]
pub enum LineContent {
    /// The first line: a certificate of a version.
    Header(Version),
    /// A setting of block delete, and the number of its motions.
    Setting(Setting, u32),
    /// The second line of version 2: the numbers of motions of both settings, `off` first.
    Counts(u32, u32),
    /// A motion, or in version 2 one of each setting, whose pieces follow.
    Motion(BegunMotion),
    /// A piece of a motion; it is one of the remaining ones.
    Piece(BegunMotion, Piece),
    /// The last line.
    End,
}
