//! An arc of a line: its words go to the crate of arcs, and come back as those of our own language.
ghost use Rattle.std.specs.Prelude.{◌≡◌};
ghost use Rattle.ngc_dialect_rules.specs.Arcs as spec;

use crate::action::{feed_in, motion_lengths, with_length, written_code};
use crate::code::Code;
use crate::codes;
use crate::fault::{Cause, Fault, about_code};
use crate::force::centres_by;
use crate::front::Known;
use crate::length::{axis_lengths, is_exact, word_length};
use crate::offsets::{origin_of, own_length, system_after};
use crate::plan::{Action, InForce};
use crate::table::{code_in, has, is_among};
use crate::word::count;
use ngc_dialect_arcs::{ArcLine, ArcRefusal, programmed};
use ngc_dialect_parameters::Word;
use ngc_fixed_length::{Nm, Plane, Point3, Turn, Units, Value};
use ngc_offsets::{AxisLengths, Frames};

fn axis_offset_by(frames: &Frames, code: Option<Code>) -> Point3
    ensures { result ≡ spec.axis_offset_by frames.now code }
{
    match code {
        None => frames.axis_offset,
        Some(code) => {
            if is_among(&codes::OFFSET_RESTORED, code) {
                frames.saved
            } else {
                Point3 {
                    x: Nm::zero(),
                    y: Nm::zero(),
                    z: Nm::zero(),
                }
            }
        }
    }
}

// Returns the current place, in the coordinates of our own language after the line's modes.
#[tactic(auto, unfolding(crate::specs::Arcs::place_here))]
fn place_here(known: &Known, line: &[Code], words: &[Word], code: Code) -> Result<Point3, Fault>
    ensures { result ≡ spec.place_here known.now line.now words.now code }
{
    let tool = own_length(known, line, words)?;
    let origin = origin_of(&known.frames, system_after(known, line));
    let offset = axis_offset_by(&known.frames, code_in(&codes::OFFSET_CHANGES, line));
    or_refused(code, programmed(&known.place, &origin, &offset, tool))
}

fn plane_by(before: Plane, code: Option<Code>) -> Plane
    ensures { result ≡ spec.plane_by before code }
{
    match code {
        None => before,
        Some(code) => {
            if is_among(&codes::PLANE_ZX, code) {
                Plane::ZX
            } else if is_among(&codes::PLANE_YZ, code) {
                Plane::YZ
            } else {
                Plane::XY
            }
        }
    }
}

fn turn_of(code: Code) -> Turn
    ensures { result ≡ spec.turn_of code }
{
    if is_among(&codes::COUNTERCLOCKWISE, code) {
        Turn::Counterclockwise
    } else {
        Turn::Clockwise
    }
}

// Returns I, J and K. An absolute height has the offset of G43.1 added, as Z has.
#[tactic(auto, unfolding(crate::specs::Arcs::centre_words))]
fn centre_words(is_absolute: bool, force: &InForce, words: &[Word]) -> Result<AxisLengths, Fault>
    ensures { result ≡ spec.centre_words is_absolute force.now words.now }
{
    let i = word_length(force.units, b'I', words)?;
    let j = word_length(force.units, b'J', words)?;
    let k = word_length(force.units, b'K', words)?;
    let centre = AxisLengths { x: i, y: j, z: k };
    if is_absolute {
        with_length(force.length, &centre)
    } else {
        Ok(centre)
    }
}

// Returns the number of turns that P names.
fn turn_word(line: &[Code], words: &[Word]) -> Result<Option<Value>, Fault>
    ensures { result ≡ spec.turn_word line.now words.now }
{
    if has(&codes::DWELL, line) {
        Ok(None)
    } else {
        count(b'P', words)
    }
}

/// Returns an arc's line as the crate of arcs reads it, by what is in force after the line's modes.
/// Refuses a length over 100 metres, and a P that isn't a whole number from 0 up.
#[tactic(auto, unfolding(crate::specs::Arcs::arc_line))]
pub fn arc_line(
    known: &Known,
    line: &[Code],
    words: &[Word],
    force: &InForce,
    code: Code,
) -> Result<ArcLine, Fault>
    ensures { result ≡ spec.arc_line known.now line.now words.now force.now code }
{
    let axes = axis_lengths(force.units, words)?;
    let axes = motion_lengths(false, force, &axes)?;
    let start = place_here(known, line, words, code)?;
    let absolute_centre = centres_by(known.front.absolute_centres, code_in(&codes::CENTRES, line));
    let offsets = centre_words(absolute_centre, force, words)?;
    let radius = word_length(force.units, b'R', words)?;
    let turns = turn_word(line, words)?;
    Ok(ArcLine {
        dialect: known.dialect,
        units: force.units,
        plane: plane_by(known.modes.plane, code_in(&codes::PLANES, line)),
        turn: turn_of(code),
        distance: force.distance,
        absolute_centre,
        start,
        axes,
        offsets,
        radius,
        turns,
    })
}

fn or_refused<T: Copy>(code: Code, found: Result<T, ArcRefusal>) -> Result<T, Fault>
    ensures { result ≡ spec.or_refused code found }
{
    match found {
        Ok(found) => Ok(found),
        Err(refusal) => Err(about_code(Cause::Arc(refusal), code)),
    }
}

/// Returns I, J and K as they are executed, along X, Y and Z from the start, or why the arc is refused. If
/// the units in force can't write the arc, it is one of a line in millimetres.
pub fn offsets_of(units: Units, code: Code, arc: &ArcLine) -> Result<AxisLengths, Fault>
    ensures { result ≡ spec.offsets_of units code arc.now }
{
    let offsets = or_refused(code, arc.plain_offsets(units))?;
    if is_exact(units, &arc.plain_axes()) && is_exact(units, &offsets) {
        Ok(offsets)
    } else {
        or_refused(code, arc.plain_offsets(Units::Millimetres))
    }
}

fn arc_motion(
    code: Option<Code>,
    axes: AxisLengths,
    centre: AxisLengths,
    f: Option<Value>,
) -> Action
    ensures { result ≡ spec.arc_motion code axes centre f }
{
    Action {
        is_machine: false,
        code,
        l: None,
        p: None,
        axes,
        centre,
        f,
    }
}

/// Returns an arc of a line.
#[tactic(auto, unfolding(crate::specs::Arcs::arc))]
pub(crate) fn arc(
    known: &Known,
    line: &[Code],
    words: &[Word],
    force: &InForce,
    f: Option<Value>,
    code: Code,
) -> Result<Action, Fault>
    ensures { result ≡ spec.arc known.now line.now words.now force.now f code }
{
    if has(&codes::MACHINE_PLACE, line) {
        return Err(about_code(Cause::NotStraight, Code::G(530)));
    }
    let feed = feed_in(force.feed_mode, force.feed, f, code)?;
    let arc = arc_line(known, line, words, force, code)?;
    let centre = offsets_of(force.units, code, &arc)?;
    let written = written_code(known, false, &feed, code);
    Ok(arc_motion(written, arc.plain_axes(), centre, feed))
}
