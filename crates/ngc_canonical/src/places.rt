//! Programmed points, and changes of the frames.
ghost use Rattle.std.specs.Prelude.{◌≡◌, ℤ, pos, IfOk};
ghost use Rattle.ngc_offsets.specs.Ranges.{IsMachinePlace};
ghost use Rattle.ngc_machine_files.specs.Machine.{file_of};
ghost use Rattle.ngc_machine_files.specs.Tools.{tools_of};
ghost use Rattle.ngc_canonical.specs.State.{unseries};
ghost use Rattle.ngc_offsets.specs.Frames.{select as selected, clear as cleared};
ghost use Rattle.ngc_offsets.specs.Frames.{suspend as suspended, restore as restored};
ghost use Rattle.ngc_canonical.specs.Interpreter.{state_of, Becomes};
ghost use Rattle.ngc_canonical.specs.Places.{word_length as length_in, axis_lengths as lengths_in};
ghost use Rattle.ngc_canonical.specs.Places.{end_of as end_in, set_origin as origin_set};
ghost use Rattle.ngc_canonical.specs.Places.{set_offset as offset_set, tool_length as length_taken};
ghost use Rattle.ngc_canonical.specs.Places.{set_length as length_set, home_of as home_in};
ghost use Rattle.ngc_canonical.specs.Places.{go_home as gone_home, stands as are_there};

use crate::fault::Fault;
use crate::state::{Interpreter, LineRefusal};
use ngc_fixed_length::{Nm, Plane, Point3, System, Units, Value};
use ngc_machine_files::{Machine, Tools};
use ngc_modal_state::{AxisWords, Home};
use ngc_offsets::{AxisLengths, machine_target};
use std::alloc::Allocator;

/// Returns a word's length, or `None` without the word.
pub(crate) fn word_length(units: Units, word: Option<Value>) -> Result<Option<Nm>, Fault>
    ensures { result ≡ length_in units word }
{
    match word {
        None => Ok(None),
        Some(value) => match value.to_nm(units) {
            Ok(length) => Ok(Some(length)),
            Err(fault) => Err(Fault::Length(fault)),
        },
    }
}

fn axis_lengths(units: Units, words: &AxisWords) -> Result<AxisLengths, Fault>
    ensures { result ≡ lengths_in units words.now }
{
    let x = word_length(units, words.x)?;
    let y = word_length(units, words.y)?;
    let z = word_length(units, words.z)?;
    Ok(AxisLengths { x, y, z })
}

fn stands(words: &AxisWords) -> bool
    ensures { result ≡ are_there words.now }
{
    words.x.is_some() || words.y.is_some() || words.z.is_some()
}

// Returns the tool length offset that G43 with its H, or G49, puts in force. Returns 222 for a tool
// that the table doesn't have.
fn tool_length<A: Allocator>(tools: &Tools<A>, h: Option<u32>) -> Result<Nm, Fault>
    ensures { result ≡ length_taken (tools_of tools.now) h }
{
    match h {
        None | Some(0) => Ok(Nm::zero()),
        Some(number) => match tools.find(number) {
            Some(tool) => Ok(tool.offset),
            None => Err(Fault::NoSuchTool(number)),
        },
    }
}

fn home_of<A: Allocator>(machine: &Machine<A>, home: Home) -> Point3
    ensures value { result ≡ home_in (file_of machine.now) home }
    ensures range { IsMachinePlace result }
{
    match home {
        Home::First => machine.home28,
        Home::Second => machine.home30,
    }
}

impl<A: Allocator> Interpreter<A> {
    /// Returns the machine point of axis words. With G53 they are machine coordinates.
    #[inline(always)]
    pub(crate) fn end_of(&self, is_machine_place: bool, words: &AxisWords) -> Result<Point3, Fault>
        ensures value { result ≡ end_in is_machine_place (state_of self.now) words.now }
        ensures range { IfOk result IsMachinePlace }
    {
        let given = axis_lengths(self.modes.units, words)?;
        let end = if is_machine_place {
            machine_target(self.frames.reach, self.place, &given)
        } else {
            self.frames.target(self.modes.distance, self.place, &given)
        };
        match end {
            Ok(end) => Ok(end),
            Err(fault) => Err(Fault::Frame(fault)),
        }
    }

    /// Executes G10 L2.
    pub(crate) fn set_origin(
        &mut self,
        system: System,
        words: &AxisWords,
    ) -> Result<(), LineRefusal>
        ensures { Becomes result (state_of self.new)
            (origin_set system words.now (state_of self.old)) }
    {
        let given = match axis_lengths(self.modes.units, words) {
            Ok(given) => given,
            Err(fault) => return Err(LineRefusal::Breaks(fault)),
        };
        match self.frames.set_origin(system, &given) {
            Ok(()) => {
                self.series = None;
                Ok(())
            }
            Err(fault) => Err(LineRefusal::Breaks(Fault::Frame(fault))),
        }
    }

    /// Executes G92.
    pub(crate) fn set_offset(&mut self, words: &AxisWords) -> Result<(), LineRefusal>
        ensures { Becomes result (state_of self.new) (offset_set words.now (state_of self.old)) }
    {
        let given = match axis_lengths(self.modes.units, words) {
            Ok(given) => given,
            Err(fault) => return Err(LineRefusal::Breaks(fault)),
        };
        match self.frames.set_axis(self.place, &given) {
            Ok(()) => {
                self.series = None;
                Ok(())
            }
            Err(fault) => Err(LineRefusal::Breaks(Fault::Frame(fault))),
        }
    }

    /// Executes G43 with its H, or G49.
    pub(crate) fn set_length(&mut self, tools: &Tools<A>, h: Option<u32>) -> Result<(), LineRefusal>
        ensures { Becomes result (state_of self.new)
            (length_set (tools_of tools.now) h (state_of self.old)) }
    {
        let length = match tool_length(tools, h) {
            Ok(length) => length,
            Err(fault) => return Err(LineRefusal::Breaks(fault)),
        };
        match self.frames.set_length(Some(length)) {
            Ok(()) => {
                self.series = None;
                Ok(())
            }
            Err(fault) => Err(LineRefusal::Breaks(Fault::Frame(fault))),
        }
    }

    /// Executes G17, G18 or G19.
    pub(crate) fn set_plane(&mut self, plane: Plane)
        ensures { state_of self.new ≡ unseries
            (record (state_of self.old) {
              modes =
                  record (state_of self.old).modes { plane = plane };
            }) }
    {
        self.modes.plane = plane;
        self.series = None;
    }

    /// Executes G54 to G59.3.
    pub(crate) fn select(&mut self, system: System)
        ensures { state_of self.new ≡ unseries
            (record (state_of self.old) { frames = selected (state_of self.old).frames system }) }
    {
        self.frames.select(system);
        self.series = None;
    }

    /// Executes G92.1.
    pub(crate) fn clear_offset(&mut self)
        ensures { state_of self.new ≡ unseries
            (record (state_of self.old) { frames = cleared (state_of self.old).frames }) }
    {
        self.frames.clear();
        self.series = None;
    }

    /// Executes G92.2.
    pub(crate) fn suspend_offset(&mut self)
        ensures { state_of self.new ≡ unseries
            (record (state_of self.old) { frames = suspended (state_of self.old).frames }) }
    {
        self.frames.suspend();
        self.series = None;
    }

    /// Executes G92.3.
    pub(crate) fn restore_offset(&mut self)
        ensures { state_of self.new ≡ unseries
            (record (state_of self.old) { frames = restored (state_of self.old).frames }) }
    {
        self.frames.restore();
        self.series = None;
    }

    /// Executes G28 or G30: moves to the home position on all axes, through the programmed point if
    /// there are axis words.
    pub(crate) fn go_home(
        &mut self,
        machine: &Machine<A>,
        home: Home,
        words: &AxisWords,
    ) -> Result<(), LineRefusal>
        ensures { Becomes result (state_of self.new)
            (gone_home (file_of machine.now) home words.now (state_of self.old)) }
    {
        let through = match self.end_of(false, words) {
            Ok(through) => through,
            Err(fault) => return Err(LineRefusal::Breaks(fault)),
        };
        if stands(words) {
            match self.traverse_to(&through) {
                Ok(()) => {}
                Err(refusal) => return Err(refusal),
            }
        }
        match self.traverse_to(&home_of(machine, home)) {
            Ok(()) => {
                self.series = None;
                Ok(())
            }
            Err(refusal) => Err(refusal),
        }
    }
}
