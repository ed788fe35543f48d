//! A machine's rates as speeds and accelerations.
ghost use Rattle.std.specs.Prelude.{◌≡◌, ◌≤◌, ◌<◌, ◌*◌, ◌^◌, unsigned_abs};
ghost use Rattle.ngc_fixed_length.specs.Length.{IsStep};
ghost use Rattle.ngc_machine_files.specs.Machine.{file_of};
ghost use Rattle.ngc_machine_files.specs.Ranges.{AreRates};
ghost use Rattle.ngc_machine_speeds.specs.Speeds.{rounded, step_speed, speed, gain};
ghost use Rattle.ngc_machine_speeds.specs.Speeds.{axis_changes, millimetres_a_minute, acceleration};
ghost use Rattle.ngc_machine_speeds.specs.Speeds.{diagonal_turns, greatest_of_planes, greatest_turn, pull};
ghost use Rattle.ngc_machine_speeds.specs.Speeds.{arc_acceleration, steps_a_millimetre};
ghost use Rattle.ngc_machine_speeds.specs.Speeds.{motor_steps_a_millimetre};

use ngc_fixed_length::Nm;
use ngc_machine_files::{ArcFeed, AxisRates, AxisTurns, Machine};
use ngc_motors::MotorStep;
use std::alloc::Allocator;

/// Returns a number in a unit, rounded to the nearest, halves upwards.
fn rounded(number: u128, unit: u128) -> u128
    requires number { number < 2 ^ 120 }
    requires some { 0 < unit }
    requires unit { unit < 2 ^ 120 }
    ensures { result ≡ rounded number unit }
{
    (2 * number + unit) / (2 * unit)
}

fn size_of(step: Nm) -> u64
    requires { IsStep step }
    ensures value { result ≡ unsigned_abs step }
    ensures least { 1 ≤ result }
    ensures greatest { result ≤ 50000 }
{
    step.nanometres().unsigned_abs()
}

/// Returns the speed of one step per tick, in nanometres per second.
fn step_speed<A: Allocator>(machine: &Machine<A>) -> u64
    ensures value { result ≡ step_speed (file_of machine.now) }
    ensures bound { result ≤ 50000000000 }
{
    size_of(machine.step) * u64::from(machine.ticks_per_second)
}

/// Returns the speed of a rate, in millionths of a nanometre per second.
pub fn speed<A: Allocator>(machine: &Machine<A>, rate: u32) -> u64
    requires { rate ≤ 1000000 }
    ensures value { result ≡ speed (file_of machine.now) rate }
    ensures bound { result ≤ 50000000000000000 }
{
    u64::from(rate) * step_speed(machine)
}

/// Returns an acceleration in steps per tick, per tick, as nanometres per second squared.
pub fn gain<A: Allocator>(machine: &Machine<A>, steps: u64) -> u128
    requires { steps ≤ 1000000000000 }
    ensures value { result ≡ gain (file_of machine.now) steps }
    ensures bound { result ≤ 50000000000000000000000000000 }
{
    u128::from(steps) * (u128::from(step_speed(machine)) * u128::from(machine.ticks_per_second))
}

/// Returns the steps per millimetre, in thousandths.
pub fn steps_a_millimetre<A: Allocator>(machine: &Machine<A>) -> u128
    ensures { result ≡ steps_a_millimetre (file_of machine.now) }
{
    rounded(1_000_000_000, u128::from(size_of(machine.step)))
}

/// Returns the steps per millimetre of a motor, in thousandths.
pub fn motor_steps_a_millimetre(motor: &MotorStep) -> u128
    ensures { result ≡ motor_steps_a_millimetre motor.now }
{
    let nanometres = 1_000_000_000 * u128::from(motor.steps);
    rounded(nanometres, u128::from(motor.nanometres.max(1)))
}

/// Returns the speed of a rate, in thousandths of a millimetre per minute.
pub fn millimetres_a_minute<A: Allocator>(machine: &Machine<A>, rate: u32) -> u128
    requires { rate ≤ 1000000 }
    ensures { result ≡ millimetres_a_minute (file_of machine.now) rate }
{
    rounded(60 * u128::from(speed(machine, rate)), 1_000_000_000)
}

/// Returns the change of the rate of a motion along each axis alone, in millionths of a step per tick:
/// that of the axis, or the machine's if it has no limits of each axis.
pub fn axis_changes<A: Allocator>(machine: &Machine<A>) -> AxisRates
    ensures value { result ≡ axis_changes (file_of machine.now) }
    ensures range { AreRates result }
{
    let change = machine.change;
    match &machine.own {
        None => AxisRates {
            x: change,
            y: change,
            z: change,
        },
        Some(own) => AxisRates {
            x: change.min(own.changes.x),
            y: change.min(own.changes.y),
            z: change.min(own.changes.z),
        },
    }
}

/// Returns the acceleration of a change of the rate, in thousandths of a millimetre per second
/// squared.
pub fn acceleration<A: Allocator>(machine: &Machine<A>, change: u32) -> u128
    requires { change ≤ 1000000 }
    ensures { result ≡ acceleration (file_of machine.now) change }
{
    rounded(gain(machine, u64::from(change)), 1_000_000_000)
}

/// Returns the greatest acceleration towards the centre of an arc that is aimed at, in turns.
fn diagonal_turns(arc_feed: &ArcFeed) -> u128
    ensures value { result ≡ diagonal_turns arc_feed.now }
    ensures bound { result ≤ 2 }
{
    match arc_feed {
        ArcFeed::Off | ArcFeed::Feed => 2,
        ArcFeed::FeedAndTurn => 1,
    }
}

/// Returns the turn in the plane in which it is greatest.
fn greatest_of_planes(turns: &AxisTurns) -> u64
    ensures { result ≡ greatest_of_planes turns.now }
{
    let xy = turns.x.min(turns.y);
    let zx = turns.z.min(turns.x);
    let yz = turns.y.min(turns.z);
    xy.max(zx.max(yz))
}

/// Returns the greatest turn of an arc on a machine: the machine's, or on a machine with limits of
/// each axis that of the axes of a plane, if that is less.
fn greatest_turn<A: Allocator>(machine: &Machine<A>) -> u64
    ensures value { result ≡ greatest_turn (file_of machine.now) }
    ensures bound { result ≤ 1000000000000 }
{
    match &machine.own {
        None => machine.turn,
        Some(own) => machine.turn.min(greatest_of_planes(&own.turns)),
    }
}

/// Returns the greatest acceleration towards the centre of an arc that is aimed at, in millionths of
/// a millionth of a nanometre per second squared.
pub fn pull<A: Allocator>(machine: &Machine<A>) -> u128
    ensures value { result ≡ pull (file_of machine.now) }
    ensures bound { result ≤ 100000000000000000000000000000 }
{
    diagonal_turns(&machine.arc_feed) * gain(machine, greatest_turn(machine))
}

/// Returns the greatest acceleration towards the centre of an arc that is aimed at, in thousandths
/// of a millimetre per second squared.
pub fn arc_acceleration<A: Allocator>(machine: &Machine<A>) -> u128
    ensures { result ≡ arc_acceleration (file_of machine.now) }
{
    rounded(pull(machine), 1_000_000_000_000_000)
}
