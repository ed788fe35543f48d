use ngc_fixed_length::{GridBox, Point2};

/// A setting of block delete: whether lines that begin with `/` are skipped.
#[derive(Clone, Copy, Debug, PartialEq, Eq)]
pub enum Setting {
    Off,
    On,
}

/// The end of a piece of a motion.
#[derive(Clone, Copy, PartialEq, Eq)]
pub enum Cut {
    /// The end on a line: after this many of its 65,536 parts, from 1 to 65,536.
    Part(u32),
    /// The end on an arc: a point of its plane, in nanometres, at most 4*10^9 in size on each axis.
    Place(Point2),
}

/// A piece of a motion: its end, and a box of grid points that contains it.
#[derive(Clone, Copy, PartialEq, Eq)]
pub struct Piece {
    pub end: Cut,
    pub bounds: GridBox,
}
