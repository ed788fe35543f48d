/// A point of the plane, in nanometres.
#[derive(Clone, Copy)]
pub struct Spot {
    pub x: i64,
    pub y: i64,
}

/// A stretch of a straight line in the plane. The line from `start` to `end` is divided into `parts`
/// equal stretches; this is the one with the index `part`.
#[derive(Clone, Copy)]
pub struct Stretch {
    pub start: Spot,
    pub end: Spot,
    pub parts: u32,
    pub part: u32,
}
