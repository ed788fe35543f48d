//! What a line becomes, before it is written.
use crate::code::Code;
use crate::front::Front;
use ngc_fixed_length::{Distance, FeedMode, Nm, Units, Value};
use ngc_offsets::AxisLengths;

/// A line's F, S, T, H and dwell.
#[derive(Clone, Copy)]
pub struct Amounts {
    /// F as it is written.
    pub feed: Option<Value>,
    pub speed: Option<Value>,
    pub tool: Option<Value>,
    /// The tool whose length offset G43 takes.
    pub offset: Option<Value>,
    /// In seconds.
    pub dwell: Option<Value>,
}

/// What is in force after a line's modes.
#[derive(Clone, Copy)]
pub struct InForce {
    pub units: Units,
    pub distance: Distance,
    pub feed_mode: FeedMode,
    pub feed: Option<Value>,
    /// The tool length offset of G43.1.
    pub length: Nm,
}

/// A motion or a change of origins: what its plain line has.
#[derive(Clone, Copy)]
pub struct Action {
    /// Whether the line has G53.
    pub is_machine: bool,
    /// The code, or `None` if the motion mode in force is meant.
    pub code: Option<Code>,
    pub l: Option<Value>,
    pub p: Option<Value>,
    pub axes: AxisLengths,
    /// I, J and K of an arc, along X, Y and Z.
    pub centre: AxisLengths,
    pub f: Option<Value>,
}

/// A canned cycle of a line: its code, and the stop of the line (M0, M1, M2, M30 or M60), which
/// follows the cycle's moves.
#[derive(Clone, Copy)]
pub struct LineCycle {
    pub code: Code,
    pub stop: Option<Code>,
}

/// What a line does, besides its plain lines: what the dialect knows then, the canned cycle whose
/// moves follow the plain lines, and the code by which cutter compensation begins. With such a code
/// the plain lines are those without compensation.
#[derive(Clone, Copy)]
pub struct LineResult {
    pub front: Front,
    pub cycle: Option<LineCycle>,
    pub compensation: Option<Code>,
}

/// What a line becomes.
#[derive(Clone, Copy)]
pub struct Plan {
    pub amounts: Amounts,
    pub force: InForce,
    /// The motions and changes of origins, in order.
    pub first: Option<Action>,
    pub second: Option<Action>,
    /// A motion code without a motion.
    pub code: Option<Code>,
    pub cycle: Option<LineCycle>,
}
