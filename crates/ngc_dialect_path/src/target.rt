//! The programmed move of a line.
ghost use Rattle.std.specs.Prelude.{◌≡◌, ◌≤◌, ◌+ℤ◌, unsigned_abs};
ghost use Rattle.ngc_dialect_rules.specs.Lengths.{limited as within_limits};
ghost use Rattle.ngc_compensation.specs.Steps.{step};
ghost use Rattle.ngc_dialect_path.specs.Refusing.{or_refused};
ghost use Rattle.ngc_dialect_path.specs.Targets as spec;

use crate::path::Beside;
use crate::refusing::refused;
use ngc_compensation::{Motion, Move, Outcome};
use ngc_dialect_drilling::{letter_of, own_shift};
use ngc_dialect_rules::{Action, Cause, Code, Fault, InForce, Known, about_code, limited};
use ngc_fixed_length::{Distance, FeedMode, Nm, Point2, Point3, Turn};
use ngc_offsets::Axis;

// Returns the machine coordinate from which an axis word counts.
fn base_of(known: &Known, distance: Distance, is_machine: bool, axis: Axis, place: Nm) -> i128
    ensures value { result ≡ spec.base_of known.now distance is_machine axis place }
    ensures bound { unsigned_abs result ≤ 300000000000 }
{
    if is_machine {
        return 0;
    }
    match distance {
        Distance::Absolute => own_shift(known, axis),
        Distance::Incremental => i128::from(place.nanometres()),
    }
}

fn reached(letter: u8, base: i128, length: Nm) -> Result<Nm, Fault>
    requires { unsigned_abs base ≤ 300000000000 }
    ensures { result ≡ within_limits letter (base +ℤ length) }
{
    limited(letter, base + i128::from(length.nanometres()))
}

// Returns the machine coordinate to which an axis goes.
fn target_on(
    known: &Known,
    distance: Distance,
    is_machine: bool,
    axis: Axis,
    place: Nm,
    word: Option<Nm>,
) -> Result<Nm, Fault>
    ensures { result ≡ spec.target_on known.now distance is_machine axis place word }
{
    match word {
        None => Ok(place),
        Some(length) => {
            let base = base_of(known, distance, is_machine, axis, place);
            reached(letter_of(axis), base, length)
        }
    }
}

// Returns where a motion ends, in machine coordinates.
fn end_of(known: &Known, distance: Distance, action: &Action) -> Result<Point3, Fault>
    ensures { result ≡ spec.end_of known.now distance action.now }
{
    let place = &known.place;
    let axes = &action.axes;
    let x = target_on(known, distance, action.is_machine, Axis::X, place.x, axes.x)?;
    let y = target_on(known, distance, action.is_machine, Axis::Y, place.y, axes.y)?;
    let z = target_on(known, distance, action.is_machine, Axis::Z, place.z, axes.z)?;
    Ok(Point3 { x, y, z })
}

fn moved(letter: u8, place: Nm, offset: Option<Nm>) -> Result<Nm, Fault>
    ensures { result ≡ spec.moved letter place offset }
{
    match offset {
        None => Ok(place),
        Some(offset) => reached(letter, i128::from(place.nanometres()), offset),
    }
}

// Returns the place that I, J and K name.
fn centre_of(known: &Known, action: &Action) -> Result<Point3, Fault>
    ensures { result ≡ spec.centre_of known.now action.now }
{
    let place = &known.place;
    let x = moved(b'I', place.x, action.centre.x)?;
    let y = moved(b'J', place.y, action.centre.y)?;
    let z = moved(b'K', place.z, action.centre.z)?;
    Ok(Point3 { x, y, z })
}

/// Returns the code of a motion; each has one here.
pub(crate) fn code_of(action: &Action) -> Code
    ensures { result ≡ spec.code_of action.now }
{
    match action.code {
        Some(code) => code,
        None => Code::G(10),
    }
}

fn motion_by(code: Code, centre: Point2) -> Motion
    ensures { result ≡ spec.motion_by code centre }
{
    if code.is(Code::G(0)) {
        Motion::Traverse
    } else if code.is(Code::G(20)) {
        Motion::Arc(Turn::Clockwise, centre)
    } else if code.is(Code::G(30)) {
        Motion::Arc(Turn::Counterclockwise, centre)
    } else {
        Motion::Feed
    }
}

// Returns the programmed move.
fn move_of(known: &Known, distance: Distance, action: &Action) -> Result<Move, Fault>
    ensures { result ≡ spec.move_of known.now distance action.now }
{
    let plane = known.modes.plane;
    let end = end_of(known, distance, action)?;
    let centre = centre_of(known, action)?;
    Ok(Move {
        motion: motion_by(code_of(action), centre.in_plane(plane)),
        end: end.in_plane(plane),
        height: end.height(plane),
    })
}

fn is_inverse(mode: FeedMode) -> bool
    ensures { result ≡ spec.is_inverse mode }
{
    matches!(mode, FeedMode::InverseTime)
}

fn stepped(code: Code, beside: &Beside, programmed: &Move) -> Result<Outcome, Fault>
    ensures { result ≡ or_refused code (step beside.now.moves programmed.now) }
{
    match beside.moves.step(programmed) {
        Ok(moves) => Ok(moves),
        Err(refusal) => Err(refused(code, refusal)),
    }
}

/// Returns the tool's moves that a line's motion makes certain, and the compensation after it. `known` is
/// what the line is read by. Refuses a motion in inverse time (211), a place over 100 metres away
/// (101), and what compensation refuses.
pub fn next_moves(
    known: &Known,
    beside: &Beside,
    force: &InForce,
    action: &Action,
) -> Result<Outcome, Fault>
    ensures { result ≡ spec.next_moves known.now beside.now force.now action.now }
{
    let code = code_of(action);
    if is_inverse(force.feed_mode) {
        return Err(about_code(Cause::CompensationInInverseTime, code));
    }
    match move_of(known, force.distance, action) {
        Ok(programmed) => stepped(code, beside, &programmed),
        Err(fault) => Err(fault),
    }
}

/// Returns the held move at its own end: G40, and the end of the program.
pub fn last_move(beside: &Beside) -> Result<Option<Move>, Fault>
    ensures { result ≡ spec.last_move beside.now }
{
    match beside.moves.finish() {
        Ok(last) => Ok(last),
        Err(refusal) => Err(refused(Code::G(400), refusal)),
    }
}

/// A straight motion: its code, and where it ends, in machine coordinates.
#[derive(Clone, Copy)]
pub struct Straight {
    pub code: Code,
    pub end: Point3,
}

/// Returns the straight motion that leads the tool back to programmed places after G40. Refuses an arc.
pub fn straight_end(known: &Known, force: &InForce, action: &Action) -> Result<Straight, Fault>
    ensures { result ≡ spec.straight_end known.now force.now action.now }
{
    let code = code_of(action);
    if !code.is(Code::G(0)) && !code.is(Code::G(10)) {
        return Err(about_code(Cause::WhileLeaving, code));
    }
    let end = end_of(known, force.distance, action)?;
    Ok(Straight { code, end })
}
