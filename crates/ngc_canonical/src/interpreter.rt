//! How a program's execution begins, and how commands are added.
ghost use Rattle.std.specs.Prelude.{◌≡◌, IfOk, OnOk};
ghost use Rattle.ngc_machine_files.specs.Machine.{file_of};
ghost use Rattle.ngc_offsets.specs.Ranges.{IsMachinePlace};
ghost use Rattle.ngc_canonical.specs.State.{emit as emitted, go as gone, start_state, reach_of};
ghost use Rattle.ngc_canonical.specs.State.{traverse_to as traversed_to};
ghost use Rattle.ngc_canonical.specs.Interpreter.{state_of, Becomes};
ghost use Rattle.ngc_commands.specs.Movement.{end_of};

use crate::fault::Fault;
use crate::state::{Interpreter, Kept, LineRefusal};
use ngc_commands::{Action, Command, CoolantState, Motion, Pace, Way};
use ngc_fixed_length::{Nm, Point3, Units, Value};
use ngc_machine_files::Machine;
use ngc_modal_state::{Modes, PathControl};
use ngc_offsets::{CoordinateRange, Frames};
use ngc_parameters::Store;
use std::alloc::{AllocError, Allocator};

const COMMANDS: usize = 1_000_000;

fn reach_of<A: Allocator>(machine: &Machine<A>) -> CoordinateRange
    ensures { result ≡ reach_of (file_of machine.now) }
{
    if machine.is_far() {
        CoordinateRange::Far
    } else {
        CoordinateRange::Near
    }
}

impl<A: Allocator> Interpreter<A> {
    /// Returns the state before the first line. The axes are at the machine's start point, G54 is
    /// selected with the machine file's origins, and there is no offset.
    pub fn new(alloc: A, machine: &Machine<A>) -> Result<Interpreter<A>, AllocError>
    where
        A: Copy,
        ensures { IfOk result (λ i. state_of i ≡ start_state (file_of machine.now)) }
    {
        let Ok(store) = Store::new(alloc) else {
            return Err(AllocError);
        };
        Ok(Interpreter {
            line: 0,
            modes: Modes::start(),
            frames: Frames::new(&machine.origins, reach_of(machine)),
            store,
            place: machine.start,
            feed: 0,
            speed: 0,
            spindle: None,
            coolant: CoolantState::Off,
            selected: 0,
            kept: Kept {
                retract: Nm::zero(),
                bottom: Nm::zero(),
                dwell: Value::zero(),
                peck: Nm::zero(),
            },
            series: None,
            commands: Vec::new(alloc),
            ended: false,
            alloc,
        })
    }

    /// Returns the coordinate systems and offsets in force.
    pub fn frames(&self) -> &Frames
        ensures { result.now ≡ (state_of self.now).frames }
    {
        &self.frames
    }

    /// Returns the modes in force.
    pub fn modes(&self) -> Modes
        ensures { result ≡ (state_of self.now).modes }
    {
        self.modes
    }

    /// Returns the unit of the program's lengths: inches after G20, millimetres after G21.
    pub fn length_unit(&self) -> Units
        ensures { result ≡ (state_of self.now).modes.units }
    {
        self.modes.units
    }

    /// Returns where the axes are, in machine coordinates.
    pub fn place(&self) -> Point3
        ensures value { result ≡ (state_of self.now).place }
        ensures range { IsMachinePlace result }
    {
        self.place
    }

    /// Returns whether M2 or M30 was executed. After that no line is executed.
    pub fn is_ended(&self) -> bool
        ensures { result ≡ (state_of self.now).ended }
    {
        self.ended
    }

    /// Adds a command of the line that is executed.
    pub(crate) fn emit(&mut self, action: Action) -> Result<(), LineRefusal>
        ensures value { Becomes result (state_of self.new) (emitted action (state_of self.old)) }
        ensures frames { OnOk result ((state_of self.new).frames ≡ (state_of self.old).frames) }
    {
        if self.commands.len() >= COMMANDS {
            return Err(LineRefusal::Breaks(Fault::TooManyCommands));
        }
        let command = Command {
            line: self.line,
            action,
        };
        match self.commands.push(command) {
            Ok(()) => Ok(()),
            Err(_) => Err(LineRefusal::Memory),
        }
    }

    /// Sets where the axes are.
    pub(crate) fn stand_at(&mut self, place: &Point3)
        requires { IsMachinePlace place.now }
        ensures { state_of self.new ≡ record (state_of self.old) { place = place.now } }
    {
        self.place = *place;
    }

    /// Adds a motion. After it the axes are at its end, and in exact stop mode they stop there.
    pub(crate) fn go(&mut self, way: Way, pace: Pace) -> Result<(), LineRefusal>
        requires { IsMachinePlace (end_of way) }
        ensures value { Becomes result (state_of self.new) (gone way pace (state_of self.old)) }
        ensures frames { OnOk result ((state_of self.new).frames ≡ (state_of self.old).frames) }
    {
        let stop = matches!(self.modes.path, PathControl::ExactStop);
        match self.emit(Action::Move(Motion { way, pace, stop })) {
            Ok(()) => {
                self.stand_at(&way.end());
                Ok(())
            }
            Err(refusal) => Err(refusal),
        }
    }

    /// Adds a traverse to a machine point.
    pub(crate) fn traverse_to(&mut self, end: &Point3) -> Result<(), LineRefusal>
        requires { IsMachinePlace end.now }
        ensures value { Becomes result (state_of self.new)
            (traversed_to end.now (state_of self.old)) }
        ensures frames { OnOk result ((state_of self.new).frames ≡ (state_of self.old).frames) }
    {
        let start = self.place;
        self.go(Way::Line { start, end: *end }, Pace::Rapid)
    }

    /// Returns the commands that were executed so far, in order.
    pub fn commands(&self) -> &[Command]
        ensures { result.now ≡ (state_of self.now).commands }
    {
        self.commands.as_slice()
    }

    /// Returns the commands that were executed so far.
    pub fn into_commands(self) -> Vec<Command, A>
        ensures { result.items ≡ (state_of self).commands }
    {
        let Interpreter { commands, .. } = self;
        commands
    }
}
