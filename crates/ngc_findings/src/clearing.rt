//! How far a command must move to be clear of its obstacle.
ghost use Rattle.std.specs.Prelude.{◌≡◌};
ghost use Rattle.ngc_machine_files.specs.Machine.{file_of};
ghost use Rattle.ngc_findings.specs.Clearings.{clear_of_fixture, clear_of_travel, clearing};
ghost use Rattle.ngc_findings.specs.Shifts.{room_on};

use crate::margins::{Axis, Margin, Side};
use crate::scene::{Met, Obstacle, Scene};
use crate::shifts::{Shifts, shift_inside};
use crate::travel::{AxisSpace, Room};
use ngc_machine_files::{Machine, Name};
use std::alloc::Allocator;

/// How far a command must move to be clear of a fixture.
#[derive(Clone, Copy)]
pub struct Passed {
    /// The fixture's number, from 0.
    pub number: u32,
    pub name: Name,
    pub shifts: Shifts,
}

/// How far a motion must move, away from a side of the travel, to be inside along that axis.
#[derive(Clone, Copy)]
pub struct Inward {
    pub axis: Axis,
    /// The side that the motion leaves.
    pub side: Side,
    /// The distance in nanometres, a whole number of steps; `None` if the motion is too long for
    /// the travel.
    pub shift: Option<u128>,
}

/// How far a command must move to be clear of its obstacle. After that it may have another one.
#[derive(Clone, Copy)]
pub enum Clearing {
    Fixture(Passed),
    Travel(Inward),
}

fn room_on(axis: Axis, room: &Room) -> AxisSpace
    ensures { result ≡ room_on axis room.now }
{
    match axis {
        Axis::X => room.x,
        Axis::Y => room.y,
        Axis::Z => room.z,
    }
}

fn clear_of_fixture<A: Allocator>(machine: &Machine<A>, scene: &Scene, met: &Met) -> Passed
    ensures { result ≡ clear_of_fixture (file_of machine.now) scene.now met.now }
{
    Passed {
        number: met.number,
        name: met.fixture.name,
        shifts: Shifts::past(machine.step, scene.tool, &scene.bounds, &met.fixture),
    }
}

fn clear_of_travel<A: Allocator>(machine: &Machine<A>, scene: &Scene, margin: &Margin) -> Inward
    ensures { result ≡ clear_of_travel (file_of machine.now) scene.now margin.now }
{
    let room = room_on(margin.axis, &Room::about(machine, &scene.in_pieces));
    Inward {
        axis: margin.axis,
        side: margin.side,
        shift: shift_inside(machine.step, margin.side, &room),
    }
}

impl Clearing {
    /// Returns how far a command must move to be clear of an obstacle, or `None` if it has none.
    ///
    /// For a fixture the whole box of the command counts, and for the travel the box of its pieces,
    /// as for the obstacle itself.
    pub fn of<A: Allocator>(
        machine: &Machine<A>,
        scene: &Scene,
        obstacle: &Option<Obstacle>,
    ) -> Option<Clearing>
        ensures { result ≡ clearing (file_of machine.now) scene.now obstacle.now }
    {
        match obstacle {
            None => None,
            Some(Obstacle::Travel(margin)) => {
                Some(Clearing::Travel(clear_of_travel(machine, scene, margin)))
            }
            Some(Obstacle::Fixture(met)) => Some(Clearing::Fixture(clear_of_fixture(
                machine, scene, met,
            ))),
        }
    }
}
