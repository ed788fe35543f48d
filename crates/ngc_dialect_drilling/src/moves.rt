//! A move of a cycle as a plain line.
ghost use Rattle.std.specs.Prelude.{◌≡◌, ◌≤◌, ◌-ℤ◌, ◌+ℤ◌, unsigned_abs, []};
ghost use Rattle.ngc_line_reader.specs.Scan.{Gives};
ghost use Rattle.ngc_dialect_rules.specs.Lengths.{limited};
ghost use Rattle.ngc_dialect_drilling.specs.Moves as spec;

use crate::places::{letter_of, own_shift};
use ngc_canned_cycles::CycleMove;
use ngc_dialect_rules::{
    Action, Code, Fault, Known, Plain, PlainLines, add_action, code_word, is_mode, limited,
    no_lengths,
};
use ngc_fixed_length::{Distance, Nm, Point3, Turn, Value};
use ngc_line_reader::{Letter, Word};
use ngc_offsets::{Axis, AxisLengths};

// Returns the coordinate from which an axis word counts.
fn base_of(known: &Known, axis: Axis, here: Nm) -> i128
    ensures value { result ≡ spec.base_of known.now.modes.distance known.now axis here }
    ensures bound { unsigned_abs result ≤ 300000000000 }
{
    match known.modes.distance {
        Distance::Absolute => own_shift(known, axis),
        Distance::Incremental => i128::from(here.nanometres()),
    }
}

fn length_from(letter: u8, base: i128, there: Nm) -> Result<Nm, Fault>
    requires { unsigned_abs base ≤ 1000000000000 }
    ensures { result ≡ limited letter (there -ℤ base) }
{
    limited(letter, i128::from(there.nanometres()) - base)
}

fn some_length(length: Result<Nm, Fault>) -> Result<Option<Nm>, Fault>
    ensures { result ≡ spec.some_length length }
{
    match length {
        Ok(length) => Ok(Some(length)),
        Err(fault) => Err(fault),
    }
}

/// Returns the length of an axis word by which the axis goes to a machine coordinate. Refuses one over 100
/// metres.
pub fn word_to(known: &Known, axis: Axis, here: Nm, there: Nm) -> Result<Option<Nm>, Fault>
    ensures { result ≡ spec.word_to known.now axis here there }
{
    let base = base_of(known, axis, here);
    let length = length_from(letter_of(axis), base, there);
    some_length(length)
}

/// Returns the length of an axis word, as `word_to`, if the axis moves.
pub fn length_to(known: &Known, axis: Axis, here: Nm, there: Nm) -> Result<Option<Nm>, Fault>
    ensures { result ≡ spec.length_to known.now axis here there }
{
    if here.nanometres() == there.nanometres() {
        Ok(None)
    } else {
        word_to(known, axis, here, there)
    }
}

fn lengths_to(known: &Known, end: &Point3) -> Result<AxisLengths, Fault>
    ensures { result ≡ spec.lengths_to known.now end.now }
{
    let place = &known.place;
    let x = length_to(known, Axis::X, place.x, end.x)?;
    let y = length_to(known, Axis::Y, place.y, end.y)?;
    let z = length_to(known, Axis::Z, place.z, end.z)?;
    Ok(AxisLengths { x, y, z })
}

// Returns the code of a motion, if it isn't the motion mode.
fn written(known: &Known, code: Code) -> Option<Code>
    ensures { result ≡ spec.written known.now code }
{
    if is_mode(known.modes.motion, code) {
        None
    } else {
        Some(code)
    }
}

/// Returns the straight motion to a place by a code, which isn't written if it is the motion mode. Refuses
/// a word over 100 metres.
pub fn motion_to(known: &Known, code: Code, end: &Point3) -> Result<Action, Fault>
    ensures { result ≡ spec.motion_to known.now code end.now }
{
    let axes = lengths_to(known, end)?;
    Ok(Action {
        is_machine: false,
        code: written(known, code),
        l: None,
        p: None,
        axes,
        centre: no_lengths(),
        f: None,
    })
}

// Writes a motion as plain lines.
fn write_motion(
    known: &Known,
    code: Code,
    end: &Point3,
    lines: &mut PlainLines,
) -> Result<(), Fault>
    ensures { Gives (λ _. lines.new.items) result (spec.motion_lines known.now code end.now) }
{
    lines.clear();
    match motion_to(known, code, end) {
        Ok(action) => {
            add_action(lines, known.modes.units, &action);
            Ok(())
        }
        Err(fault) => Err(fault),
    }
}

fn write_code(code: Code, lines: &mut PlainLines)
    ensures { lines.new.items ≡ spec.code_line code }
{
    lines.clear();
    lines.push(Plain::Word(code_word(code)));
    lines.push(Plain::End);
}

fn write_dwell(dwell: Value, lines: &mut PlainLines)
    ensures { lines.new.items ≡ spec.dwell_line dwell }
{
    lines.clear();
    lines.push(Plain::Word(code_word(Code::G(40))));
    lines.push(Plain::Word(Word {
        letter: Letter::P,
        value: dwell,
    }));
    lines.push(Plain::End);
}

/// Writes the line of a stop, if there is one, in place of what was in `lines`.
pub fn write_stop(stop: Option<Code>, lines: &mut PlainLines)
    ensures { lines.new.items ≡ spec.stop_lines stop }
{
    match stop {
        None => lines.clear(),
        Some(code) => write_code(code, lines),
    }
}

// Returns the code by which the spindle turns in a direction.
fn spindle_code(turn: Option<Turn>) -> Code
    ensures { result ≡ spec.spindle_code turn }
{
    match turn {
        Some(Turn::Counterclockwise) => Code::M(4),
        Some(Turn::Clockwise) => Code::M(3),
        None => Code::M(5),
    }
}

/// Writes a move of a cycle as plain lines, by what is known before it, in place of what was in
/// `lines`. Refuses a word over 100 metres.
pub fn write_move(known: &Known, taken: &CycleMove, lines: &mut PlainLines) -> Result<(), Fault>
    ensures { Gives (λ _. lines.new.items) result (spec.move_lines known.now taken.now) }
{
    match taken {
        CycleMove::Traverse(end) => return write_motion(known, Code::G(0), end, lines),
        CycleMove::Feed(end) => return write_motion(known, Code::G(10), end, lines),
        CycleMove::Dwell(dwell) => write_dwell(*dwell, lines),
        CycleMove::StopSpindle => write_code(Code::M(5), lines),
        CycleMove::StartSpindle => write_code(spindle_code(known.front.spindle), lines),
    }
    Ok(())
}
