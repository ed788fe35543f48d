ghost use Rattle.std.specs.Prelude.{◌≡◌, ◌≤ℤ◌, ◌*ℤ◌, pos, IsTrue};
ghost use Rattle.std.specs.Int.{int_max};
ghost use Rattle.ngc_fixed_length.specs.Length.{IsStep};
ghost use Rattle.ngc_motors.specs.Counts.{AreMotors, MotorData};
ghost use Rattle.ngc_motors.specs.Counts as spec;

use crate::step::{MotorStep, MotorSteps};
use ngc_fixed_length::{Nm, StepPos};
use std::marker::Model;

/// The motors of a machine: how far one step of each moves its axis. No step is shorter than the
/// grid's, which is from 500 to 50,000 nm, and none is longer than 1 mm.
#[derive(Clone, Copy, PartialEq, Eq)]
pub struct Motors {
    grid: Nm,
    steps: MotorSteps,
}

impl Model for Motors {
    ghost Value = { MotorData };

    ghost view = { λ m. record { grid = m.grid; steps = m.steps } };

    ghost invariant = { λ m. AreMotors (record { grid = m.grid; steps = m.steps }) };

    ghost inverse = { λ m. record { grid = m.grid; steps = m.steps } };
}

impl Motors {
    /// Returns the motors with these steps.
    pub fn new(grid: Nm, steps: MotorSteps) -> Motors
        requires { AreMotors (record { grid = grid; steps = steps }) }
        ensures { result ≡ record { grid = grid; steps = steps } }
    {
        Motors { grid, steps }
    }

    /// Returns how far a motor may stand from the place on its axis that the path is at: the greatest
    /// half of a step that isn't the grid's, rounded up, or 0 if each motor has the grid's step.
    pub fn slack(&self) -> Nm
        ensures value { result ≡ spec.slack self.now }
        ensures least { pos 0 ≤ℤ result }
        ensures most { result ≤ℤ pos 500000 }
    {
        let x = slack_of(self.grid, &self.steps.x);
        let y = slack_of(self.grid, &self.steps.y);
        let z = slack_of(self.grid, &self.steps.z);
        length(x.max(y).max(z))
    }

    /// Returns the counts of the motors for a grid point.
    pub fn counts(&self, point: &StepPos) -> StepPos
        ensures { result ≡ spec.counts self.now point.now }
    {
        StepPos {
            x: count(self.grid, &self.steps.x, point.x),
            y: count(self.grid, &self.steps.y, point.y),
            z: count(self.grid, &self.steps.z, point.z),
        }
    }
}

// Returns how far a motor may stand from the place on its axis: half of its step, rounded up, or 0 if
// it has the grid's step.
fn slack_of(grid: Nm, step: &MotorStep) -> i64
    requires grid { IsStep grid }
    requires motor { IsTrue (spec.is_motor grid step.now) }
    ensures value { result ≡ spec.slack_of grid step.now }
    ensures least { pos 0 ≤ℤ result }
    ensures most { result ≤ℤ pos 500000 }
{
    if step.is_grid_step(grid.nanometres()) {
        return 0;
    }
    let twice = 2 * step.steps;
    ((step.nanometres + twice - 1) / twice) as i64
}

fn length(nanometres: i64) -> Nm
    requires least { pos 0 ≤ℤ nanometres }
    requires most { nanometres ≤ℤ pos 500000 }
    ensures { result ≡ nanometres }
{
    Nm::from_nanometres(i128::from(nanometres)).unwrap()
}

// Returns a motor's count for a place on its axis in steps of the grid.
fn count(grid: Nm, step: &MotorStep, place: i32) -> i32
    requires grid { IsStep grid }
    requires motor { IsTrue (spec.is_motor grid step.now) }
    ensures { result ≡ spec.count step.now (place *ℤ grid) }
{
    let unit = grid.nanometres();
    // Most machines have such motors, and there are millions of steps.
    if step.is_grid_step(unit) {
        return place;
    }
    step.count(i64::from(place) * unit) as i32
}
