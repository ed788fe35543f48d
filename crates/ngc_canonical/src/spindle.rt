//! Spindle, coolant and tool change.
ghost use Rattle.std.specs.Prelude.{◌≡◌};
ghost use Rattle.ngc_machine_files.specs.Tools.{tools_of};
ghost use Rattle.ngc_canonical.specs.Interpreter.{state_of, Becomes};
ghost use Rattle.ngc_canonical.specs.Spindle.{spindle_state as state_said, set_speed as speed_set};
ghost use Rattle.ngc_canonical.specs.Spindle.{turn_of as turn_said, set_spindle as spindle_set};
ghost use Rattle.ngc_canonical.specs.Spindle.{mount as mounted, change_tool as tool_changed};
ghost use Rattle.ngc_canonical.specs.Spindle.{with_coolant as coolant_with};
ghost use Rattle.ngc_canonical.specs.Spindle.{set_coolant as coolant_set};

use crate::fault::Fault;
use crate::state::{Interpreter, LineRefusal};
use ngc_commands::{Action, CoolantState, SpindleState};
use ngc_fixed_length::{Turn, Value};
use ngc_machine_files::{Tool, Tools};
use ngc_modal_state::{Coolant, Spindle};
use std::alloc::Allocator;

pub(crate) fn spindle_state(turn: Option<Turn>, speed: u64) -> SpindleState
    ensures { result ≡ state_said turn speed }
{
    match turn {
        None => SpindleState::Off,
        Some(turn) => SpindleState::Turning(turn, speed),
    }
}

fn turn_of(code: Spindle) -> Option<Turn>
    ensures { result ≡ turn_said code }
{
    match code {
        Spindle::Start(turn) => Some(turn),
        Spindle::Stop => None,
    }
}

fn with_coolant(code: Coolant, had: CoolantState) -> CoolantState
    ensures { result ≡ coolant_with code had }
{
    match (code, had) {
        (Coolant::Off, _) => CoolantState::Off,
        (Coolant::Mist, CoolantState::Off | CoolantState::Mist) => CoolantState::Mist,
        (Coolant::Flood, CoolantState::Off | CoolantState::Flood) => CoolantState::Flood,
        _ => CoolantState::Both,
    }
}

impl<A: Allocator> Interpreter<A> {
    /// Executes S: sets the speed, which takes effect at once if the spindle turns.
    pub(crate) fn set_speed(&mut self, value: Value) -> Result<(), LineRefusal>
        ensures { Becomes result (state_of self.new) (speed_set value (state_of self.old)) }
    {
        self.speed = value.millionths().unsigned_abs();
        match self.spindle {
            None => Ok(()),
            Some(turn) => self.emit(Action::Spindle(SpindleState::Turning(turn, self.speed))),
        }
    }

    /// Executes M3, M4 or M5.
    pub(crate) fn set_spindle(&mut self, code: Spindle) -> Result<(), LineRefusal>
        ensures { Becomes result (state_of self.new) (spindle_set code (state_of self.old)) }
    {
        self.spindle = turn_of(code);
        self.emit(Action::Spindle(spindle_state(self.spindle, self.speed)))
    }

    fn mount(&mut self, tool: Option<Tool>) -> Result<(), LineRefusal>
        ensures { Becomes result (state_of self.new) (mounted tool (state_of self.old)) }
    {
        self.spindle = None;
        self.emit(Action::Mount(tool))
    }

    /// Executes M6: mounts the selected tool, or none. Returns 222 if the table doesn't have it.
    pub(crate) fn change_tool(&mut self, tools: &Tools<A>) -> Result<(), LineRefusal>
        ensures { Becomes result (state_of self.new)
            (tool_changed (tools_of tools.now) (state_of self.old).selected (state_of self.old)) }
    {
        if self.selected == 0 {
            return self.mount(None);
        }
        match tools.find(self.selected) {
            Some(tool) => self.mount(Some(tool)),
            None => Err(LineRefusal::Breaks(Fault::NoSuchTool(self.selected))),
        }
    }

    /// Executes M7, M8 or M9.
    pub(crate) fn set_coolant(&mut self, code: Coolant) -> Result<(), LineRefusal>
        ensures { Becomes result (state_of self.new) (coolant_set code (state_of self.old)) }
    {
        self.coolant = with_coolant(code, self.coolant);
        self.emit(Action::Coolant(self.coolant))
    }
}
