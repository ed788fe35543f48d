/// A plane: G17, G18 or G19. Its axes are u and v; u turns towards v counterclockwise as seen from
/// the positive end of the third axis.
#[derive(Clone, Copy, PartialEq, Eq)]
pub enum Plane {
    XY,
    ZX,
    YZ,
}

/// The distance mode: a line's coordinates are absolute (G90), or relative to the current point
/// (G91).
#[derive(Clone, Copy)]
pub enum Distance {
    Absolute,
    Incremental,
}

/// The feed mode: an F word is a length per minute (G94), or the number of times per minute that
/// the motion could be made (G93).
#[derive(Clone, Copy)]
pub enum FeedMode {
    PerMinute,
    InverseTime,
}

/// The height to which a canned cycle clears: the height before its series (G98), or R (G99).
#[derive(Clone, Copy)]
pub enum RetractMode {
    Series,
    Retract,
}

/// The direction in which an arc or the spindle turns.
#[derive(Clone, Copy, PartialEq, Eq)]
pub enum Turn {
    Clockwise,
    Counterclockwise,
}

/// A coordinate system: G54 to G59, G59.1 to G59.3.
#[derive(Clone, Copy)]
pub enum System {
    First,
    Second,
    Third,
    Fourth,
    Fifth,
    Sixth,
    Seventh,
    Eighth,
    Ninth,
}
