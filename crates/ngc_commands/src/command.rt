ghost use Rattle.std.specs.Prelude.{◌≡◌};

use crate::movement::Motion;
use ngc_fixed_length::Turn;
use ngc_machine_files::Tool;

/// The state of the spindle, with its speed in millionths of a turn per minute.
#[derive(Clone, Copy, PartialEq, Eq)]
pub enum SpindleState {
    Off,
    Turning(Turn, u64),
}

/// The coolants that are on.
#[derive(Clone, Copy, PartialEq, Eq)]
pub enum CoolantState {
    Off,
    Mist,
    Flood,
    Both,
}

/// The effect of a command.
#[derive(Clone, Copy, PartialEq, Eq)]
pub enum Action {
    /// G0 to G3, G28, G30: the axes move.
    Move(Motion),
    /// M6: another tool is mounted, or none, and the spindle is off.
    Mount(Option<Tool>),
    /// G4: a dwell, in millionths of a second.
    Dwell(u64),
    /// M3, M4, M5, S: from now on the spindle turns, or stops.
    Spindle(SpindleState),
    /// M7, M8, M9: from now on these coolants are on.
    Coolant(CoolantState),
    /// M48, M49: from now on the panel's override is on, or off.
    Override(bool),
    /// M0, M60: a stop until the panel starts again.
    Stop,
    /// M1: a stop if the panel's optional stop switch is on.
    OptionalStop,
    /// M2, M30, or the second `%` of a marked file: the program's end, with spindle and coolant
    /// off.
    End,
}

impl Action {
    ghost use Rattle.ngc_commands.specs.Reached.{mounts};

    /// Returns whether the action mounts another tool, or none.
    pub fn mounts(&self) -> bool
        ensures { result ≡ mounts self.now }
    {
        matches!(self, Action::Mount(_))
    }
}

/// A command of the machine: its effect, and the program's line that it comes from, counted from 1.
#[derive(Clone, Copy)]
pub struct Command {
    pub line: u32,
    pub action: Action,
}
