//! What a dialect knows beyond our own interpreter.
ghost use Rattle.std.specs.Prelude.{◌≡◌};
ghost use Rattle.ngc_dialect_rules.specs.Front as spec;

use crate::code::Code;
use ngc_dialect_names::Dialect;
use ngc_dialect_numbers::Number;
use ngc_fixed_length::{Nm, Point3, RetractMode, Turn, Value};
use ngc_modal_state::Modes;
use ngc_offsets::Frames;

/// What a series of canned cycles keeps: numbers in units of the program, also after a change of the
/// units or of an origin.
#[derive(Clone, Copy)]
pub struct KeptSeries {
    /// The code of the series' last line.
    pub code: Code,
    /// The initial level: the height where the series began.
    pub level: Number,
    /// R: a height in G90, a distance from the initial level in G91.
    pub retract: Number,
    /// A height in G90, a distance from R in G91.
    pub depth: Number,
    /// P, in seconds.
    pub dwell: Option<Value>,
    /// Q.
    pub peck: Option<Number>,
}

/// What a dialect knows before a line, beyond the state of our own interpreter.
#[derive(Clone, Copy)]
pub struct Front {
    /// The code of the motion mode, or `None` if axis words alone don't move.
    pub motion: Option<Code>,
    /// The height to which canned cycles clear.
    pub retract: RetractMode,
    /// Whether the centres of arcs are absolute.
    pub absolute_centres: bool,
    /// The feed as it was written, or `None` if no feed is set.
    pub feed: Option<Value>,
    /// The tool length offset of G43.1, which our own language doesn't have.
    pub length: Nm,
    /// Where G28 and G30 go, in machine coordinates.
    pub home28: Point3,
    pub home30: Point3,
    /// The numbers of the tool that T selected and of the one that M6 mounted.
    pub selected: Value,
    pub mounted: Value,
    /// The direction in which the spindle turns, or `None` if it is off.
    pub spindle: Option<Turn>,
    /// The series of canned cycles that the next cycle goes on with.
    pub series: Option<KeptSeries>,
}

/// What is known before a line.
#[derive(Clone, Copy)]
pub struct Known {
    pub dialect: Dialect,
    pub front: Front,
    /// What our own interpreter knows: its modes, the coordinate systems with their offsets, and
    /// where the axes are, in machine coordinates.
    pub modes: Modes,
    pub frames: Frames,
    pub place: Point3,
}

impl Front {
    /// Returns what is known before the first line, with the two homes of the machine.
    pub fn start(dialect: Dialect, home28: Point3, home30: Point3) -> Front
        ensures { result ≡ spec.start_front dialect home28 home30 }
    {
        let motion = match dialect {
            Dialect::Grbl => Some(Code::G(0)),
            Dialect::LinuxCnc | Dialect::Mach3 | Dialect::Fanuc => None,
        };
        let retract = match dialect {
            Dialect::LinuxCnc => RetractMode::Retract,
            Dialect::Grbl | Dialect::Mach3 | Dialect::Fanuc => RetractMode::Series,
        };
        Front {
            motion,
            retract,
            absolute_centres: false,
            feed: None,
            length: Nm::zero(),
            home28,
            home30,
            selected: Value::zero(),
            mounted: Value::zero(),
            spindle: None,
            series: None,
        }
    }
}
