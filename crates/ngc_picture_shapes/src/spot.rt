/// A place of the drawing, in micrometres.
#[derive(Clone, Copy, Default)]
pub struct Spot {
    pub across: i64,
    pub up: i64,
}

/// The corners of a box that the isometric view shows: the near edge, the edges at the right and at
/// the left, each from its bottom to its top, and the far corner of the top.
#[derive(Clone, Copy)]
pub struct Block {
    pub near: Spot,
    pub near_top: Spot,
    pub right: Spot,
    pub right_top: Spot,
    pub left: Spot,
    pub left_top: Spot,
    pub far_top: Spot,
}

/// A rectangle of the drawing.
#[derive(Clone, Copy)]
pub struct Rectangle {
    pub low: Spot,
    pub high: Spot,
}
