//! The step of a motor.
ghost use Rattle.std.specs.Prelude.{◌≡◌, ◌≤◌, ◌<◌, ◌+◌, IfOk, length};
ghost use Rattle.ngc_quantities.specs.Motors as spec;
ghost use Rattle.ngc_quantities.specs.Numbers.{IsRatio};
ghost use Rattle.ngc_quantities.specs.Units.{most_of};

use crate::fault::{Cause, Fault};
use crate::quantity::{not_negative, short_length};
use crate::text::{after_index, blank_count, has, mark_index, split_mark, split_word};
use crate::unit::{Ending, Kind};
use crate::written::{Wanted, Whole, Written, placed, split_number, whole_in, written_in};

/// A step of a motor: the distance that the axis moves in a number of steps, in nanometres. The
/// ratio isn't in lowest terms.
#[derive(Clone, Copy)]
pub struct Step {
    pub nanometres: u128,
    pub steps: u128,
}

/// A gear: a wheel of `motor` teeth on the motor drives one of `driven` teeth on the screw or pulley.
#[derive(Clone, Copy)]
pub struct Gear {
    pub motor: u64,
    pub driven: u64,
}

/// What moves an axis: the distance in a turn, in nanometres, and the gear before it.
#[derive(Clone, Copy)]
pub struct Drive {
    pub nanometres: u128,
    pub gear: Gear,
}

fn step_by(written: &Written) -> Result<Step, Cause>
    requires { IsRatio written.now.number.ratio }
    ensures value { result ≡ spec.step_by written.now }
    ensures above_zero { IfOk result (λ s. (0 < s.nanometres) × (0 < s.steps)) }
{
    if written.number.negative {
        return Err(Cause::Negative);
    }
    let ratio = written.number.ratio;
    if ratio.top == 0 {
        return Err(Cause::Zero);
    }
    Ok(Step {
        nanometres: u128::from(written.unit.size()) * u128::from(ratio.bottom),
        steps: ratio.top,
    })
}

// Returns the step of a number of steps per millimetre or inch.
fn plain_step(text: &[u8]) -> Result<Step, Fault>
    requires { length text.now ≤ 256 }
    ensures value { result ≡ spec.plain_step text.now }
    ensures above_zero { IfOk result (λ s. (0 < s.nanometres) × (0 < s.steps)) }
{
    let wanted = Wanted {
        kind: Kind::Steps,
        otherwise: None,
        ending: Ending::Nothing,
    };
    let written = written_in(&wanted, 0, text)?;
    placed(written.column, step_by(&written))
}

fn not_zero(whole: Whole) -> Result<u64, Fault>
    ensures value { result ≡ spec.not_zero whole }
    ensures some { IfOk result (λ n. 0 < n) }
{
    let size = whole.amount.unsigned_abs();
    if size == 0 {
        return Err(Fault {
            column: whole.column,
            cause: Cause::Zero,
        });
    }
    Ok(size)
}

// Returns the amount, more than zero, of a part of a chain.
fn some_of(kind: Kind, ending: Ending, at: usize, text: &[u8]) -> Result<u64, Fault>
    requires at { at ≤ 5000 }
    requires text { length text.now ≤ 256 }
    ensures value { result ≡ spec.some_of kind ending at text.now }
    ensures some { IfOk result (λ n. 0 < n) }
    ensures bound { IfOk result (λ n. n ≤ most_of kind) }
{
    let wanted = Wanted {
        kind,
        otherwise: None,
        ending,
    };
    let whole = whole_in(&wanted, at, text)?;
    let whole = not_negative(whole)?;
    not_zero(whole)
}

// Returns the number of bytes before the word "drive".
fn drive_index(at: usize, text: &[u8]) -> Result<usize, Fault>
    requires at { at ≤ 5000 }
    ensures value { result ≡ spec.drive_index at text.now }
    ensures within { IfOk result (λ n. n + 5 ≤ length text.now) }
{
    let index = mark_index(b'd', text);
    if !text[index..].starts_with(b"drive") {
        return Err(Fault {
            column: at + blank_count(text) + 1,
            cause: Cause::NoGear,
        });
    }
    Ok(index)
}

#[tactic(auto, unfolding(crate::specs::Motors::gear_of))]
fn gear_of(at: usize, text: &[u8]) -> Result<Gear, Fault>
    requires at { at ≤ 4500 }
    requires text { length text.now ≤ 256 }
    ensures value { result ≡ spec.gear_of at text.now }
    ensures bound { IfOk result spec.IsGear }
{
    let index = drive_index(at, text)?;
    let motor = some_of(Kind::Teeth, Ending::Nothing, at, &text[..index])?;
    let driven = some_of(
        Kind::Teeth,
        Ending::Nothing,
        at + (index + 5),
        &text[index + 5..],
    )?;
    Ok(Gear { motor, driven })
}

// Returns the gear after the first comma, or none.
fn gear_in(at: usize, text: &[u8]) -> Result<Gear, Fault>
    requires at { at ≤ 4000 }
    requires text { length text.now ≤ 256 }
    ensures value { result ≡ spec.gear_in at text.now }
    ensures bound { IfOk result spec.IsGear }
{
    if !has(b',', text) {
        return Ok(Gear {
            motor: 1,
            driven: 1,
        });
    }
    let (_, rest) = split_mark(b',', text);
    gear_of(at + after_index(text), rest)
}

fn pitch_in(at: usize, text: &[u8]) -> Result<Drive, Fault>
    requires at { at ≤ 4000 }
    requires text { length text.now ≤ 256 }
    ensures value { result ≡ spec.pitch_in at text.now }
    ensures bound { IfOk result spec.IsDrive }
{
    let (pitch, _) = split_mark(b',', text);
    let pitch = some_of(Kind::Length, Ending::Pitch, at, pitch)?;
    let gear = gear_in(at, text)?;
    Ok(Drive {
        nanometres: u128::from(pitch),
        gear,
    })
}

fn belt_of(teeth: u64, at: usize, text: &[u8]) -> Result<Drive, Fault>
    requires some { 0 < teeth }
    requires teeth { teeth ≤ 99999 }
    requires at { at ≤ 4000 }
    requires text { length text.now ≤ 256 }
    ensures value { result ≡ spec.belt_of teeth at text.now }
    ensures bound { IfOk result spec.IsDrive }
{
    let (pitch, _) = split_mark(b',', text);
    let pitch = some_of(Kind::Length, Ending::Belt, at, pitch)?;
    let gear = gear_in(at, text)?;
    Ok(Drive {
        nanometres: u128::from(teeth) * u128::from(pitch),
        gear,
    })
}

fn belt_in(at: usize, text: &[u8]) -> Result<Drive, Fault>
    requires at { at ≤ 3000 }
    requires text { length text.now ≤ 256 }
    ensures value { result ≡ spec.belt_in at text.now }
    ensures bound { IfOk result spec.IsDrive }
{
    let (teeth, rest) = split_mark(b',', text);
    let teeth = some_of(Kind::Teeth, Ending::Nothing, at, teeth)?;
    belt_of(teeth, at + after_index(text), rest)
}

fn is_belt(text: &[u8]) -> bool
    ensures { result ≡ spec.is_belt text.now }
{
    let (first, _) = split_mark(b',', text);
    let (_, unit) = split_number(first);
    let (word, _) = split_word(unit);
    word == b"teeth".as_slice()
}

#[tactic(auto, unfolding(crate::specs::Motors::drive_in))]
fn drive_in(at: usize, text: &[u8]) -> Result<Drive, Fault>
    requires at { at ≤ 3000 }
    requires text { length text.now ≤ 256 }
    ensures value { result ≡ spec.drive_in at text.now }
    ensures bound { IfOk result spec.IsDrive }
{
    if is_belt(text) {
        belt_in(at, text)
    } else {
        pitch_in(at, text)
    }
}

fn chain_of(angle: u64, microsteps: u64, drive: &Drive) -> Step
    requires some_angle { 0 < angle }
    requires angle { angle ≤ 360000000000 }
    requires some_microsteps { 0 < microsteps }
    requires microsteps { microsteps ≤ 99999 }
    requires drive { spec.IsDrive drive.now }
    ensures value { result ≡ spec.chain_of angle microsteps drive.now }
    ensures some_length { 0 < result.nanometres }
    ensures some_steps { 0 < result.steps }
{
    Step {
        nanometres: drive.nanometres * u128::from(angle) * u128::from(drive.gear.motor),
        steps: 360_000_000_000 * u128::from(microsteps) * u128::from(drive.gear.driven),
    }
}

fn chain_by(angle: u64, at: usize, text: &[u8]) -> Result<Step, Fault>
    requires some { 0 < angle }
    requires angle { angle ≤ 360000000000 }
    requires at { at ≤ 2000 }
    requires text { length text.now ≤ 256 }
    ensures value { result ≡ spec.chain_by angle at text.now }
    ensures above_zero { IfOk result (λ s. (0 < s.nanometres) × (0 < s.steps)) }
{
    let (microsteps, rest) = split_mark(b',', text);
    let microsteps = some_of(Kind::Microsteps, Ending::Nothing, at, microsteps)?;
    let drive = drive_in(at + after_index(text), rest)?;
    Ok(chain_of(angle, microsteps, &drive))
}

fn chain(text: &[u8]) -> Result<Step, Fault>
    requires { length text.now ≤ 256 }
    ensures value { result ≡ spec.chain text.now }
    ensures above_zero { IfOk result (λ s. (0 < s.nanometres) × (0 < s.steps)) }
{
    let (angle, rest) = split_mark(b',', text);
    let angle = some_of(Kind::Angle, Ending::Nothing, 0, angle)?;
    chain_by(angle, after_index(text), rest)
}

/// Returns the step of a motor, as of `80 steps/mm`, `1.8 deg, 16 microsteps, 5 mm pitch` or
/// `1.8 deg, 16 microsteps, 20 teeth, 2 mm belt, 24 teeth drive 60 teeth`.
pub fn motor_of(text: &[u8]) -> Result<Step, Fault>
    ensures value { result ≡ spec.motor_of text.now }
    ensures above_zero { IfOk result (λ s. (0 < s.nanometres) × (0 < s.steps)) }
{
    short_length(text)?;
    if has(b',', text) {
        chain(text)
    } else {
        plain_step(text)
    }
}
