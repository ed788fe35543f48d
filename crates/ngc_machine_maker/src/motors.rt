//! The motors of the axes, whose steps may differ.
ghost use Rattle.std.specs.Prelude.{◌≡◌};
ghost use Rattle.ngc_machine_maker.specs.Motors as spec;
ghost use Rattle.ngc_machine_maker.specs.Options.{each_of, steps};

use crate::figures::{PerAxis, StepsPerMillimetre};
use crate::refusal::FigureRefusal;

const LEAST: u32 = 20_000_000;

const GREATEST: u32 = 2_000_000_000;

/// Returns motors with these steps per millimetre, which are in millionths.
pub(crate) fn motors_of(numbers: &PerAxis<u32>) -> PerAxis<StepsPerMillimetre>
    ensures { result ≡ each_of steps numbers.now }
{
    PerAxis {
        x: StepsPerMillimetre {
            millionths: numbers.x,
        },
        y: StepsPerMillimetre {
            millionths: numbers.y,
        },
        z: StepsPerMillimetre {
            millionths: numbers.z,
        },
    }
}

/// Returns the steps of the motor whose step is the shortest.
pub(crate) fn finest(motors: &PerAxis<StepsPerMillimetre>) -> StepsPerMillimetre
    ensures { result ≡ spec.finest motors.now }
{
    let (x, y, z) = (&motors.x, &motors.y, &motors.z);
    StepsPerMillimetre {
        millionths: x.millionths.max(y.millionths).max(z.millionths),
    }
}

/// Returns whether all motors have the same step.
pub(crate) fn are_equal(motors: &PerAxis<StepsPerMillimetre>) -> bool
    ensures { result ≡ spec.are_equal motors.now }
{
    motors.x.millionths == motors.y.millionths && motors.y.millionths == motors.z.millionths
}

// Returns whether the motor's step is from 500 to 50,000 nm.
fn is_motor(motor: StepsPerMillimetre) -> bool
    ensures { result ≡ spec.is_motor motor }
{
    LEAST <= motor.millionths && motor.millionths <= GREATEST
}

/// Returns the motors, if a machine file can have them. `rates` tells whether it has rates, which are
/// in one step for all axes.
pub(crate) fn checked_motors(
    rates: bool,
    motors: &PerAxis<StepsPerMillimetre>,
) -> Result<PerAxis<StepsPerMillimetre>, FigureRefusal>
    ensures { result ≡ spec.checked_motors rates motors.now }
{
    if rates && !are_equal(motors) {
        return Err(FigureRefusal::UnequalSteps(*motors));
    }
    if !(is_motor(motors.x) && is_motor(motors.y) && is_motor(motors.z)) {
        return Err(FigureRefusal::Step);
    }
    Ok(*motors)
}
