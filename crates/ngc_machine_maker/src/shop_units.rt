//! The numbers of a machine file in the units of a shop.
ghost use Rattle.std.specs.Prelude.{◌≡◌, ◌≤◌, ◌<◌, ◌*◌, ◌^◌, ◌≤ℤ◌};
ghost use Rattle.ngc_machine_maker.specs.Asked.{scale_in};
ghost use Rattle.ngc_machine_maker.specs.InFile.{AreInFile};
ghost use Rattle.ngc_machine_maker.specs.Ranges.{IsScale, IsTurn};
ghost use Rattle.ngc_machine_maker.specs.ShopUnits.{rounded, step_speed, speed, speeds, gain};
ghost use Rattle.ngc_machine_maker.specs.ShopUnits.{acceleration, arc_acceleration, motor_step};
ghost use Rattle.ngc_machine_maker.specs.ShopUnits.{file_step, is_whole, is_rounded, is_short, error_over};
ghost use Rattle.ngc_machine_maker.specs.ShopUnits.{travel_length, errors};

use crate::figures::{Figures, PerAxis};
use crate::motors::are_equal;
use crate::numbers::MachineNumbers;
use crate::rates::diagonal_turns;

// Returns the number of units in a number, to the nearest, halves upwards.
fn rounded(number: u128, unit: u128) -> u128
    requires number { number < 2 ^ 120 }
    requires some { 0 < unit }
    requires unit { unit < 2 ^ 120 }
    ensures { result ≡ rounded number unit }
{
    (2 * number + unit) / (2 * unit)
}

fn step_speed(numbers: &MachineNumbers) -> u64
    requires { AreInFile numbers.now }
    ensures value { result ≡ step_speed numbers.now }
    ensures bound { result ≤ 50000000000 }
{
    u64::from(numbers.step) * u64::from(numbers.ticks_per_second)
}

/// Returns the speed of a rate, in thousandths of a millimetre per minute.
pub(crate) fn speed(numbers: &MachineNumbers, rate: u32) -> u128
    requires { AreInFile numbers.now }
    ensures { result ≡ speed numbers.now rate }
{
    let speed = u128::from(rate) * u128::from(step_speed(numbers));
    rounded(60 * speed, 1_000_000_000)
}

/// Returns the greatest speed of each axis, in thousandths of a millimetre per minute.
pub(crate) fn speeds(numbers: &MachineNumbers) -> PerAxis<u128>
    requires { AreInFile numbers.now }
    ensures { result ≡ speeds numbers.now }
{
    PerAxis {
        x: speed(numbers, numbers.axis_rate.x),
        y: speed(numbers, numbers.axis_rate.y),
        z: speed(numbers, numbers.axis_rate.z),
    }
}

// Returns the acceleration of `steps` steps per tick in each tick, in nanometres per second
// squared.
fn gain(numbers: &MachineNumbers, steps: u64) -> u128
    requires numbers { AreInFile numbers.now }
    requires steps { steps ≤ 1000000000000 }
    ensures value { result ≡ gain numbers.now steps }
    ensures bound { result ≤ 50000000000000000000000000000 }
{
    let ticks = u128::from(numbers.ticks_per_second);
    u128::from(steps) * (u128::from(step_speed(numbers)) * ticks)
}

/// Returns the acceleration, in thousandths of a millimetre per second squared.
pub(crate) fn acceleration(numbers: &MachineNumbers) -> u128
    requires { AreInFile numbers.now }
    ensures { result ≡ acceleration numbers.now }
{
    rounded(gain(numbers, u64::from(numbers.change)), 1_000_000_000)
}

/// Returns the greatest acceleration towards the centre of an arc that is aimed at, in thousandths
/// of a millimetre per second squared.
pub(crate) fn arc_acceleration(numbers: &MachineNumbers) -> u128
    requires { AreInFile numbers.now }
    ensures { result ≡ arc_acceleration numbers.now }
{
    let turns = diagonal_turns(numbers.arc_feed);
    rounded(turns * gain(numbers, numbers.turn), 1_000_000_000_000_000)
}

/// Returns the motor's step, in thousandths of a nanometre.
pub(crate) fn motor_step(figures: &Figures) -> u128
    requires { 0 < figures.now.scale.steps }
    ensures { result ≡ motor_step figures.now }
{
    let steps = figures.scale.steps;
    let per = figures.scale.per;
    rounded(1_000 * u128::from(per), u128::from(steps))
}

fn file_step(numbers: &MachineNumbers, figures: &Figures) -> u64
    requires { IsScale (scale_in numbers.now figures.now) }
    ensures value { result ≡ file_step numbers.now figures.now }
    ensures some { 0 < result }
    ensures bound { result < 2 ^ 56 }
{
    u64::from(numbers.step) * figures.scale.steps
}

// Returns whether the motor's step is a whole number of nanometres.
fn is_whole(numbers: &MachineNumbers, figures: &Figures) -> bool
    requires { IsScale (scale_in numbers.now figures.now) }
    ensures { result ≡ is_whole numbers.now figures.now }
{
    file_step(numbers, figures) == figures.scale.per
}

/// Returns whether one step serves all motors and isn't a whole number of nanometres, so that the
/// file's is rounded.
pub(crate) fn is_rounded(numbers: &MachineNumbers, figures: &Figures) -> bool
    requires { IsScale (scale_in numbers.now figures.now) }
    ensures { result ≡ is_rounded numbers.now figures.now }
{
    are_equal(&figures.motors) && !is_whole(numbers, figures)
}

/// Returns whether the file's step is longer than the motor's.
pub(crate) fn is_short(numbers: &MachineNumbers, figures: &Figures) -> bool
    requires { IsScale (scale_in numbers.now figures.now) }
    ensures { result ≡ is_short numbers.now figures.now }
{
    file_step(numbers, figures) > figures.scale.per
}

fn error_over(numbers: &MachineNumbers, figures: &Figures, distance: u64) -> u128
    requires scale { IsScale (scale_in numbers.now figures.now) }
    requires distance { distance ≤ 7998000000 }
    ensures { result ≡ error_over numbers.now figures.now distance }
{
    let step = file_step(numbers, figures);
    let difference = u128::from(step.abs_diff(figures.scale.per));
    let step = u128::from(step);
    (u128::from(distance) * difference + step - 1) / step
}

fn travel_length(low: i64, high: i64) -> u64
    ensures { result ≡ travel_length low high }
{
    high.abs_diff(low)
}

/// Returns the difference between each axis' real travel and that in the file, in nanometres,
/// rounded up.
#[tactic(auto, using(crate::proofs::UnitLaws::short_travel))]
pub(crate) fn errors(numbers: &MachineNumbers, figures: &Figures) -> PerAxis<u128>
    requires numbers { AreInFile numbers.now }
    requires scale { IsScale (scale_in numbers.now figures.now) }
    ensures { result ≡ errors numbers.now figures.now }
{
    let low = &numbers.low;
    let high = &numbers.high;
    PerAxis {
        x: error_over(numbers, figures, travel_length(low.x, high.x)),
        y: error_over(numbers, figures, travel_length(low.y, high.y)),
        z: error_over(numbers, figures, travel_length(low.z, high.z)),
    }
}
