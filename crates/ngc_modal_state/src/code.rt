use ngc_fixed_length::{Distance, FeedMode, Plane, RetractMode, System, Turn, Units};

/// The code of a canned cycle: the kind of hole that it makes.
#[derive(Clone, Copy)]
pub enum CycleCode {
    /// G81
    Drill,
    /// G82
    DrillWithDwell,
    /// G83
    Peck,
    /// G85
    Bore,
    /// G86
    BoreWithStop,
    /// G89
    BoreWithDwell,
}

/// The motion mode: what axis words do.
#[derive(Clone, Copy)]
pub enum MotionMode {
    /// G0: a straight motion at the greatest rate.
    Traverse,
    /// G1: a straight motion at the feed.
    Straight,
    /// G2 (clockwise), G3 (counterclockwise): a motion along an arc or a helix at the feed.
    Arc(Turn),
    /// G80: no motion code is in force.
    Cancel,
    /// G81 to G83, G85, G86, G89: a canned cycle.
    Cycle(CycleCode),
}

/// The tool length offset.
#[derive(Clone, Copy)]
pub enum LengthCode {
    /// G43
    Apply,
    /// G49
    Cancel,
}

/// How the path is followed where two motions meet.
#[derive(Clone, Copy)]
pub enum PathControl {
    /// G61
    ExactPath,
    /// G61.1
    ExactStop,
    /// G64
    Continuous,
}

/// The nonmodal codes, which hold only for their line.
#[derive(Clone, Copy)]
pub enum NonModal {
    /// G4
    Dwell,
    /// G10
    SetOrigin,
    /// G28
    Home28,
    /// G30
    Home30,
    /// G53
    MachinePlace,
    /// G92
    SetOffset,
    /// G92.1
    ClearOffset,
    /// G92.2
    SuspendOffset,
    /// G92.3
    RestoreOffset,
}

/// A code that stops a program.
#[derive(Clone, Copy)]
pub enum Stopping {
    /// M0, M60
    Stop,
    /// M1
    OptionalStop,
    /// M2, M30
    End,
}

/// The command to the spindle.
#[derive(Clone, Copy)]
pub enum Spindle {
    /// M3 clockwise, M4 counterclockwise.
    Start(Turn),
    /// M5
    Stop,
}

/// The command to the coolant.
#[derive(Clone, Copy)]
pub enum Coolant {
    /// M7
    Mist,
    /// M8
    Flood,
    /// M9
    Off,
}

/// A G or M code. The codes of one variant are a modal group.
#[derive(Clone, Copy)]
pub enum Code {
    Motion(MotionMode),
    Plane(Plane),
    Distance(Distance),
    FeedMode(FeedMode),
    Units(Units),
    /// G40
    CutterCompensationOff,
    ToolLength(LengthCode),
    Return(RetractMode),
    System(System),
    Path(PathControl),
    NonModal(NonModal),
    Stopping(Stopping),
    /// M6
    ChangeTool,
    Spindle(Spindle),
    Coolant(Coolant),
    /// Whether the overrides are on: M48, M49.
    Override(bool),
}
