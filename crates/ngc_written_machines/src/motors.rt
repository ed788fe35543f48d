//! The motors of a machine's axes.
ghost use Rattle.std.specs.Prelude.{◌≡◌, ◌<◌, false};
ghost use Rattle.ngc_motors.specs.Counts.{first_place, last_place};
ghost use Rattle.ngc_motor_scale.specs.Scales.{IsScale};
ghost use Rattle.ngc_written_machines.specs.Motors as spec;

use ngc_machine_figures::AxesSheet;
use ngc_machine_maker::PerAxis;
use ngc_motors::{MotorStep, MotorSteps};
use ngc_quantities::Range;

/// The greatest distance of a travel's end from zero, in nanometres.
const TRAVEL_LIMIT: u64 = 3_999_000_000;

// Returns a step in whole nanometres, rounded down.
#[tactic(auto, using(crate::proofs::Steps::least, crate::proofs::Steps::most))]
fn rounded_down(motor: &MotorStep) -> u32
    requires { IsScale motor.now }
    ensures value { result ≡ spec.rounded_down motor.now }
    ensures some { 0 < result }
{
    (motor.nanometres / motor.steps) as u32
}

/// Returns the step of the path's grid in nanometres: that of the finest motor, rounded down.
pub(crate) fn grid_of(own: &MotorSteps) -> u32
    requires { spec.AreScales own.now }
    ensures value { result ≡ spec.grid_of own.now }
    ensures some { 0 < result }
{
    rounded_down(&own.x)
        .min(rounded_down(&own.y))
        .min(rounded_down(&own.z))
}

fn is_beyond(travel: Range) -> bool
    ensures { result ≡ spec.is_beyond travel }
{
    !(travel.low.unsigned_abs() <= TRAVEL_LIMIT && travel.high.unsigned_abs() <= TRAVEL_LIMIT)
}

fn moved_inwards(motor: &MotorStep, travel: Range) -> Range
    requires motor { IsScale motor.now }
    requires near { spec.is_beyond travel ≡ false }
    ensures { result ≡ record {
      low = first_place motor.now travel.low;
      high = last_place motor.now travel.high;
    } }
{
    Range {
        low: motor.first_place(travel.low),
        high: motor.last_place(travel.high),
    }
}

fn ends_of(grid: u32, motor: &MotorStep, travel: Range) -> Range
    requires { IsScale motor.now }
    ensures { result ≡ spec.ends_of grid motor.now travel }
{
    if motor.is_grid_step(i64::from(grid)) || is_beyond(travel) {
        return travel;
    }
    moved_inwards(motor, travel)
}

/// Returns the travel of each axis. Where the motor's step isn't the grid's, its ends are moved
/// inwards to whole steps of the motor; an end that is out of range stays.
pub(crate) fn travel_ends(grid: u32, own: &MotorSteps, axes: &AxesSheet) -> PerAxis<Range>
    requires { spec.AreScales own.now }
    ensures { result ≡ spec.travel_ends grid own.now axes.now }
{
    PerAxis {
        x: ends_of(grid, &own.x, axes.x.travel),
        y: ends_of(grid, &own.y, axes.y.travel),
        z: ends_of(grid, &own.z, axes.z.travel),
    }
}
