use ngc_fixed_length::{Distance, FeedMode, Nm, Plane, Point2, Point3, RetractMode, Value};
use ngc_offsets::CoordinateRange;

/// The kind of a hole: how it is drilled or bored, with the dwell in seconds or the depth of a
/// peck.
#[derive(Clone, Copy)]
pub enum Hole {
    /// G81: feed down, traverse up.
    Drill,
    /// G82: as G81, with a dwell at the bottom.
    DrillWithDwell(Value),
    /// G83: in pecks of this depth.
    Peck(Nm),
    /// G85: feed down, feed up.
    Bore,
    /// G86: as G82, with the spindle stopped on the way up.
    BoreWithStop(Value),
    /// G89: feed down and up, with a dwell at the bottom.
    BoreWithDwell(Value),
}

/// A line's cycle: its words, and the modes in force.
#[derive(Clone, Copy)]
pub struct Cycle {
    pub hole: Hole,
    pub plane: Plane,
    pub distance: Distance,
    pub clear: RetractMode,
    pub feed_mode: FeedMode,
    /// The words on the plane's axes, if present.
    pub u: Option<Nm>,
    pub v: Option<Nm>,
    /// The word R, and the word on the third axis: the bottom.
    pub retract: Nm,
    pub bottom: Nm,
    /// The word L, if present.
    pub repeats: Option<Value>,
}

/// The state in which a cycle begins: the programmed place before the line, the programmed height
/// before the series of cycles, whether the spindle turns, and how far from zero coordinates may be.
#[derive(Clone, Copy)]
pub struct Start {
    pub place: Point3,
    pub series: Nm,
    pub turning: bool,
    pub reach: CoordinateRange,
}

/// The site of a hole, in programmed coordinates: its place in the plane, the heights of R and of
/// the bottom, and the height to which the tool clears after it.
#[derive(Clone, Copy)]
pub struct Site {
    pub plane: Plane,
    pub place: Point2,
    pub retract: Nm,
    pub bottom: Nm,
    pub clear: Nm,
}

/// A move of a cycle. Places are programmed ones.
#[derive(Clone, Copy)]
pub enum CycleMove {
    Traverse(Point3),
    Feed(Point3),
    /// A dwell, in seconds.
    Dwell(Value),
    StopSpindle,
    /// Starts the spindle in the direction in which it turned before.
    StartSpindle,
}

impl Default for CycleMove {
    fn default() -> CycleMove {
        CycleMove::StopSpindle
    }
}
