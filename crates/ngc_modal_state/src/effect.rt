use crate::block::AxisWords;
use crate::code::{Coolant, CycleCode, MotionMode, PathControl, Spindle, Stopping};
use ngc_fixed_length::{Distance, FeedMode, Plane, RetractMode, System, Turn, Units, Value};

/// The two home positions of a machine: G28 and G30.
#[derive(Clone, Copy)]
pub enum Home {
    First,
    Second,
}

/// The words I, J, K and R of an arc.
#[derive(Clone, Copy)]
pub struct ArcWords {
    pub i: Option<Value>,
    pub j: Option<Value>,
    pub k: Option<Value>,
    pub r: Option<Value>,
}

/// The words of a canned cycle apart from X, Y and Z.
#[derive(Clone, Copy)]
pub struct CycleWords {
    pub l: Option<Value>,
    pub p: Option<Value>,
    pub q: Option<Value>,
    pub r: Option<Value>,
}

/// One effect of a line. An effect that needs a word of the line carries it.
#[derive(Clone, Copy)]
pub enum Effect {
    FeedMode(FeedMode),
    /// F in feed per minute, in the units that the line leaves in force.
    Feed {
        value: Value,
        units: Units,
    },
    /// S
    Speed(Value),
    /// T: the number of a tool, at most 10^9.
    SelectTool(u32),
    /// M6
    ChangeTool,
    Spindle(Spindle),
    Coolant(Coolant),
    /// Whether overrides are on from here on: M48, M49.
    Override(bool),
    /// G4, in seconds.
    Dwell(Value),
    Plane(Plane),
    Units(Units),
    /// G40
    CutterCompensationOff,
    /// The tool whose length offset G43 takes, by its H; G49 takes none.
    ToolLength(Option<u32>),
    System(System),
    Path(PathControl),
    Distance(Distance),
    Return(RetractMode),
    /// G28, G30: through the point of the axis words.
    GoHome {
        home: Home,
        axes: AxisWords,
    },
    /// G10 L2
    SetOrigin {
        system: System,
        axes: AxisWords,
    },
    /// G92
    SetOffset(AxisWords),
    /// G92.1
    ClearOffset,
    /// G92.2
    SuspendOffset,
    /// G92.3
    RestoreOffset,
    /// A motion code on the line.
    Motion(MotionMode),
    /// G0; in machine coordinates if G53 is present.
    Traverse {
        machine: bool,
        axes: AxisWords,
    },
    /// G1; in machine coordinates if G53 is present, and in inverse time with the line's F.
    Straight {
        machine: bool,
        axes: AxisWords,
        inverse: Option<Value>,
    },
    /// G2, G3; in inverse time with the line's F.
    Arc {
        turn: Turn,
        axes: AxisWords,
        words: ArcWords,
        inverse: Option<Value>,
    },
    /// G81 to G89
    Cycle {
        hole: CycleCode,
        axes: AxisWords,
        words: CycleWords,
    },
    Stopping(Stopping),
}

impl Default for Effect {
    fn default() -> Effect {
        Effect::ChangeTool
    }
}
