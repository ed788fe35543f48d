//! The obstacle of a command.
ghost use Rattle.std.specs.Prelude.{◌≡◌, ◌≤◌, unsigned_abs};
ghost use Rattle.ngc_commands.specs.Movement.{start_of};
ghost use Rattle.ngc_machine_files.specs.Machine.{file_of};
ghost use Rattle.ngc_fixed_length.specs.Length.{IsStep};
ghost use Rattle.ngc_findings.specs.Scenes.{standing, start_scene, still, moving};
ghost use Rattle.ngc_findings.specs.Scenes.{lying, reached_at};
ghost use Rattle.ngc_findings.specs.Scenes.{scene_of, scene_at, foot, over_height, over, named};
ghost use Rattle.ngc_findings.specs.Scenes.{obstacle};

use crate::bounds::{reach, reach_in_pieces};
use crate::margins::Margin;
use crate::travel::Room;
use ngc_collision::{Place, first_met};
use ngc_commands::{Action, Command, Motion, Reached, Way};
use ngc_fixed_length::{GridBox, Nm, Point3, StepPos, nanometres_at};
use ngc_machine_files::{Fixture, Machine, Tool};
use std::alloc::Allocator;

/// The subject of a refusal: a motion, a tool change, or the start, which is no command.
#[derive(Clone, Copy)]
pub struct Scene {
    /// The line of the program, from 1; 0 for the start.
    pub line: u32,
    /// The grid point where the motion begins. For a tool change and for the start it is the axes'
    /// position.
    pub from: Place,
    /// The grid point where it ends.
    pub to: Place,
    /// The tool that is mounted then; for a tool change, the new one.
    pub tool: Option<Tool>,
    /// The box of grid points of the whole motion, or the axes' position.
    pub bounds: GridBox,
    /// The box of grid points of its pieces, if a large arc is cut a step inside at each quadrant
    /// point.
    pub in_pieces: GridBox,
}

/// A fixture that the tool's body meets.
#[derive(Clone, Copy)]
pub struct Met {
    /// Its number, from 0.
    pub number: u32,
    pub fixture: Fixture,
    /// The lowest height of the spindle nose, in nanometres, at which the whole tool is over
    /// the fixture; `None` if it is outside the travel.
    pub over: Option<i64>,
}

/// The obstacle of a command.
#[derive(Clone, Copy)]
pub enum Obstacle {
    /// The side of the travel that the motion in pieces leaves farthest.
    Travel(Margin),
    /// A fixture that the tool's body meets.
    Fixture(Met),
}

fn start_of(way: &Way) -> Point3
    ensures { result ≡ start_of way.now }
{
    match way {
        Way::Line { start, .. } => *start,
        Way::Arc(arc) => arc.start(),
    }
}

/// Returns the machine's state after commands.
pub(crate) fn standing<A: Allocator>(machine: &Machine<A>, commands: &[Command]) -> Reached
    ensures { result ≡ standing (file_of machine.now) commands.now }
{
    Reached::at_start(machine).after_all(commands)
}

fn lying(step: Nm, point: &StepPos) -> Place
    requires { IsStep step }
    ensures { result ≡ lying step point.now }
{
    Place {
        x: nanometres_at(step, point.x),
        y: nanometres_at(step, point.y),
        z: nanometres_at(step, point.z),
    }
}

/// Returns the position to which the machine moves for a point of the program: the nearest grid
/// point.
fn reached_at<A: Allocator>(machine: &Machine<A>, point: &Point3) -> Place
    ensures { result ≡ reached_at (file_of machine.now) point.now }
{
    lying(machine.step, &point.to_grid(machine.step))
}

fn still<A: Allocator>(machine: &Machine<A>, line: u32, tool: Option<Tool>, place: Point3) -> Scene
    ensures { result ≡ still (file_of machine.now) line tool place }
{
    Scene {
        line,
        from: reached_at(machine, &place),
        to: reached_at(machine, &place),
        tool,
        bounds: GridBox::only(place.to_grid(machine.step)),
        in_pieces: GridBox::only(place.to_grid(machine.step)),
    }
}

fn moving<A: Allocator>(
    machine: &Machine<A>,
    line: u32,
    tool: Option<Tool>,
    motion: &Motion,
) -> Scene
    ensures { result ≡ moving (file_of machine.now) line tool motion.now }
{
    Scene {
        line,
        from: reached_at(machine, &start_of(&motion.way)),
        to: reached_at(machine, &motion.way.end()),
        tool,
        bounds: reach(machine.step, &motion.way),
        in_pieces: reach_in_pieces(machine.step, &motion.way),
    }
}

pub(crate) fn scene_of<A: Allocator>(
    machine: &Machine<A>,
    before: Reached,
    command: &Command,
) -> Option<Scene>
    ensures { result ≡ scene_of (file_of machine.now) before command.now }
{
    match &command.action {
        Action::Move(motion) => Some(moving(machine, command.line, before.tool, motion)),
        Action::Mount(tool) => Some(still(machine, command.line, *tool, before.place)),
        _ => None,
    }
}

// Returns the height of the lowest end of a tool above the spindle nose.
fn foot(tool: &Option<Tool>) -> i64
    ensures value { result ≡ foot tool.now }
    ensures range { unsigned_abs result ≤ 100000000000 }
{
    match tool {
        None => 0,
        Some(tool) => tool.bottom.nanometres(),
    }
}

fn over_height(tool: &Option<Tool>, fixture: &Fixture) -> i64
    ensures { result ≡ over_height tool.now fixture.now }
{
    fixture.high.z.nanometres() - foot(tool)
}

fn over<A: Allocator>(machine: &Machine<A>, tool: &Option<Tool>, fixture: &Fixture) -> Option<i64>
    ensures { result ≡ over (file_of machine.now) tool.now fixture.now }
{
    let height = over_height(tool, fixture);
    if height <= machine.high.z.nanometres() {
        Some(height)
    } else {
        None
    }
}

fn named<A: Allocator>(machine: &Machine<A>, tool: &Option<Tool>, number: u32) -> Option<Obstacle>
    ensures { result ≡ named (file_of machine.now) tool.now number }
{
    match machine.fixtures.get(number as usize) {
        None => None,
        Some(found) => Some(Obstacle::Fixture(Met {
            number,
            fixture: *found,
            over: over(machine, tool, found),
        })),
    }
}

impl Scene {
    /// Returns the scene of the start, without a tool.
    pub fn start<A: Allocator>(machine: &Machine<A>) -> Scene
        ensures { result ≡ start_scene (file_of machine.now) }
    {
        still(machine, 0, None, machine.start)
    }

    /// Returns the scene of a command, by its index from 0, or `None` if it is no motion and no
    /// tool change.
    pub fn at<A: Allocator>(
        machine: &Machine<A>,
        commands: &[Command],
        command: usize,
    ) -> Option<Scene>
        ensures { result ≡ scene_at (file_of machine.now) commands.now command }
    {
        match commands.get(command) {
            None => None,
            Some(here) => scene_of(machine, standing(machine, &commands[..command]), here),
        }
    }

    /// Returns the obstacle, or `None` if there is none. It is the fixture that a fault names.
    /// Without a named fixture it is the side of the travel that the motion in pieces leaves
    /// farthest, or else the first fixture that the tool's body meets somewhere over the box of the
    /// whole motion.
    pub fn obstacle<A: Allocator>(
        &self,
        machine: &Machine<A>,
        fixture: Option<u32>,
    ) -> Option<Obstacle>
        ensures { result ≡ obstacle (file_of machine.now) self.now fixture }
    {
        if let Some(fixture) = fixture {
            return named(machine, &self.tool, fixture);
        }
        let room = Room::about(machine, &self.in_pieces);
        if !room.is_inside() {
            return Some(Obstacle::Travel(room.tightest()));
        }
        match first_met(machine, self.tool, &self.bounds) {
            None => None,
            Some(met) => named(machine, &self.tool, met),
        }
    }
}
