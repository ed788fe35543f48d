use ngc_fixed_length::{Nm, Point2, Turn};

/// The side of the programmed path on which the tool is, seen in the direction of the moves: left
/// (G41, G41.1) or right (G42, G42.1).
#[derive(Clone, Copy, PartialEq, Eq)]
pub enum Side {
    Left,
    Right,
}

/// How a move goes in the plane: straight at traverse rate, straight at the feed, or as an arc about
/// a centre.
#[derive(Clone, Copy)]
pub enum Motion {
    Traverse,
    Feed,
    Arc(Turn, Point2),
}

/// A move, programmed or of the tool: to a point of the plane and a height above it. It begins where
/// the move before it ends.
#[derive(Clone, Copy)]
pub struct Move {
    pub motion: Motion,
    pub end: Point2,
    pub height: Nm,
}

/// The tool's latest move. Its end is moved back if the next move makes an inside corner with it.
#[derive(Clone, Copy)]
pub struct Held {
    pub motion: Motion,
    pub start: Point2,
    /// The end, beside the programmed one.
    pub end: Point2,
    pub height: Nm,
    /// The direction from the programmed end to the tool. Its length has no meaning.
    pub normal: Point2,
}

/// Cutter compensation that is on. `held` is `None` until the entry move.
#[derive(Clone, Copy)]
pub struct Compensation {
    pub side: Side,
    /// The tool's radius, from 1 nm to 0.1 m.
    pub radius: Nm,
    /// The programmed place, and the height above the plane.
    pub place: Point2,
    pub height: Nm,
    pub held: Option<Held>,
}

/// What follows from a programmed move: the held move as it is made, the corner's move after it, and
/// the compensation for the next move.
#[derive(Clone, Copy)]
pub struct Outcome {
    pub made: Option<Move>,
    pub corner: Option<Move>,
    pub next: Compensation,
}
