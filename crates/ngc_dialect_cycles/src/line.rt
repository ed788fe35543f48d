use ngc_fixed_length::{Distance, Nm, Plane, Point2, Point3, RetractMode, Value};

/// The pecks of a hole: Q, and the distance above the depth reached to which the tool goes back.
#[derive(Clone, Copy)]
pub struct Pecks {
    pub depth: Nm,
    pub back: Nm,
}

/// The code of a cycle: how a hole is made, with the dwell in seconds or the pecks.
#[derive(Clone, Copy)]
pub enum HoleKind {
    /// G81: feed to the bottom, traverse up.
    Drill,
    /// G82: as G81, with a dwell at the bottom.
    DrillWithDwell(Value),
    /// G83: in pecks, with the tool out of the hole after each.
    Peck(Pecks),
    /// G73: in pecks, with the tool a little back after each.
    BreakChips(Pecks),
    /// G85: feed to the bottom, feed to R, traverse up.
    Bore,
    /// G86: as G82, with the spindle stopped on the way up.
    BoreWithStop(Value),
    /// G89: feed to the bottom, dwell, feed up.
    BoreWithDwell(Value),
}

/// What a series of cycles keeps, as lengths in force on a line. Heights are those of the machine.
#[derive(Clone, Copy)]
pub struct Series {
    pub kind: HoleKind,
    /// The initial level: the height at which the series began.
    pub level: Nm,
    /// R: a height in G90, a distance from the initial level in G91.
    pub retract: Nm,
    /// The depth: a height in G90, a distance from R in G91.
    pub depth: Nm,
}

/// The modes of a line that has a cycle, the machine's state before it, and its holes.
#[derive(Clone, Copy)]
pub struct CycleLine {
    pub plane: Plane,
    pub distance: Distance,
    pub clear: RetractMode,
    /// The point where the tool is.
    pub place: Point3,
    /// The place of the first hole, and the distance from each hole to the next, which is 0 in G90.
    pub first: Point2,
    pub step: Point2,
    /// The number of holes.
    pub repeats: u32,
    /// The spindle turns.
    pub turning: bool,
}

/// The heights of a line's holes: R, the bottom, and the height to which the tool clears.
#[derive(Clone, Copy)]
pub struct Levels {
    pub retract: Nm,
    pub bottom: Nm,
    pub clear: Nm,
}
