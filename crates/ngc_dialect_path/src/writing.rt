//! The tool's moves as plain lines.
ghost use Rattle.std.specs.Prelude.{◌≡◌, ◌≤◌, ◌+◌, ◌-ℤ◌};
ghost use Rattle.arrayvec.specs.ArrayVec.{array_vec_len};
ghost use Rattle.ngc_line_reader.specs.Scan.{Gives};
ghost use Rattle.ngc_dialect_rules.specs.Lengths.{limited as within_limits};
ghost use Rattle.ngc_dialect_path.specs.Writing as spec;

use crate::target::Straight;
use ngc_compensation::{Motion, Move};
use ngc_dialect_arcs::{ArcLine, ArcRefusal};
use ngc_dialect_drilling::{depth_axis, length_to, motion_to, u_axis, v_axis, word_to};
use ngc_dialect_rules::{
    Action, Cause, Code, Fault, Known, Plain, PlainLines, about_code, add_action, code_word,
    is_exact, limited, no_lengths,
};
use ngc_fixed_length::{Distance, Nm, Plane, Point2, Point3, Turn, Units};
use ngc_offsets::AxisLengths;

// Returns the lengths of a plane's axes and of the axis perpendicular to it.
fn in_axes(plane: Plane, u: Option<Nm>, v: Option<Nm>, height: Option<Nm>) -> AxisLengths
    ensures { result ≡ spec.in_axes plane u v height }
{
    match plane {
        Plane::XY => AxisLengths {
            x: u,
            y: v,
            z: height,
        },
        Plane::ZX => AxisLengths {
            x: v,
            y: height,
            z: u,
        },
        Plane::YZ => AxisLengths {
            x: height,
            y: u,
            z: v,
        },
    }
}

fn turn_code(turn: Turn) -> Code
    ensures { result ≡ spec.turn_code turn }
{
    match turn {
        Turn::Clockwise => Code::G(20),
        Turn::Counterclockwise => Code::G(30),
    }
}

fn less(letter: u8, there: Nm, here: Nm) -> Result<Nm, Fault>
    ensures { result ≡ within_limits letter (there -ℤ here) }
{
    limited(
        letter,
        i128::from(there.nanometres()) - i128::from(here.nanometres()),
    )
}

// Returns the way in the plane from one point to another, as lengths.
fn way_to(plane: Plane, here: &Point2, there: &Point2) -> Result<AxisLengths, Fault>
    ensures { result ≡ spec.way_to plane here.now there.now }
{
    let u = less(b'I', there.u, here.u)?;
    let v = less(b'J', there.v, here.v)?;
    Ok(in_axes(plane, Some(u), Some(v), None))
}

// Returns the words X, Y and Z of an arc: both of the plane, and the third if it moves.
fn arc_axes(known: &Known, end: &Point3) -> Result<AxisLengths, Fault>
    ensures { result ≡ spec.arc_axes known.now end.now }
{
    let plane = known.modes.plane;
    let here = known.place.in_plane(plane);
    let there = end.in_plane(plane);
    let u = word_to(known, u_axis(plane), here.u, there.u)?;
    let v = word_to(known, v_axis(plane), here.v, there.v)?;
    let height = length_to(
        known,
        depth_axis(plane),
        known.place.height(plane),
        end.height(plane),
    )?;
    Ok(in_axes(plane, u, v, height))
}

// Returns the arc as a line whose words count from its start.
fn arc_line(known: &Known, turn: Turn, way: AxisLengths, offsets: AxisLengths) -> ArcLine
    ensures { result ≡ spec.arc_line known.now turn way offsets }
{
    ArcLine {
        dialect: known.dialect,
        units: known.modes.units,
        plane: known.modes.plane,
        turn,
        distance: Distance::Incremental,
        absolute_centre: false,
        start: known.place,
        axes: way,
        offsets,
        radius: None,
        turns: None,
    }
}

fn or_refused(code: Code, offsets: Result<AxisLengths, ArcRefusal>) -> Result<AxisLengths, Fault>
    ensures { result ≡ spec.or_refused code offsets }
{
    match offsets {
        Ok(offsets) => Ok(offsets),
        Err(refusal) => Err(about_code(Cause::Arc(refusal), code)),
    }
}

// Returns I, J and K; if inches can't write the arc, they are those of a line in millimetres.
fn offsets_of(
    units: Units,
    code: Code,
    axes: &AxisLengths,
    line: &ArcLine,
) -> Result<AxisLengths, Fault>
    ensures { result ≡ spec.offsets_of units code axes.now line.now }
{
    let offsets = or_refused(code, line.plain_offsets(units))?;
    if is_exact(units, axes) && is_exact(units, &offsets) {
        Ok(offsets)
    } else {
        or_refused(code, line.plain_offsets(Units::Millimetres))
    }
}

fn arc_to(known: &Known, turn: Turn, centre: &Point2, end: &Point3) -> Result<Action, Fault>
    ensures { result ≡ spec.arc_to known.now turn centre.now end.now }
{
    let plane = known.modes.plane;
    let here = known.place.in_plane(plane);
    let code = turn_code(turn);
    let axes = arc_axes(known, end)?;
    let way = way_to(plane, &here, &end.in_plane(plane))?;
    let offsets = way_to(plane, &here, centre)?;
    let line = arc_line(known, turn, way, offsets);
    let centre = offsets_of(known.modes.units, code, &axes, &line)?;
    Ok(Action {
        is_machine: false,
        code: Some(code),
        l: None,
        p: None,
        axes,
        centre,
        f: None,
    })
}

fn straight_to(known: &Known, code: Code, end: &Point3) -> Result<Action, Fault>
    ensures { result ≡ spec.straight_to known.now code end.now }
{
    motion_to(known, code, end)
}

fn motion_of(known: &Known, made: &Move) -> Result<Action, Fault>
    ensures { result ≡ spec.motion_of known.now made.now }
{
    let end = made.end.at_height(known.modes.plane, made.height);
    match &made.motion {
        Motion::Traverse => straight_to(known, Code::G(0), &end),
        Motion::Feed => straight_to(known, Code::G(10), &end),
        Motion::Arc(turn, centre) => arc_to(known, *turn, centre, &end),
    }
}

fn add_motion(
    known: &Known,
    motion: Result<Action, Fault>,
    lines: &mut PlainLines,
) -> Result<(), Fault>
    requires { array_vec_len lines.old ≤ 48 }
    ensures says { Gives (λ _. lines.new.items) result
        (spec.with_motion known.now motion lines.old.items) }
    ensures room { array_vec_len lines.new ≤ array_vec_len lines.old + 16 }
{
    match motion {
        Ok(action) => {
            add_action(lines, known.modes.units, &action);
            Ok(())
        }
        Err(fault) => Err(fault),
    }
}

/// Adds a move of the tool as plain lines, by what our own interpreter knows before it. An arc's radii are
/// evened as the dialect evens them. Refuses a word over 100 metres (101), and radii that differ by more
/// (248).
#[tactic(auto, unfolding(crate::specs::Writing::with_move))]
pub(crate) fn add_move(known: &Known, made: &Move, lines: &mut PlainLines) -> Result<(), Fault>
    requires { array_vec_len lines.old ≤ 48 }
    ensures says { Gives (λ _. lines.new.items) result
        (spec.with_move known.now made.now lines.old.items) }
    ensures room { array_vec_len lines.new ≤ array_vec_len lines.old + 16 }
{
    add_motion(known, motion_of(known, made), lines)
}

/// Adds a straight motion as plain lines.
#[tactic(auto, unfolding(crate::specs::Writing::with_straight))]
pub(crate) fn add_straight(
    known: &Known,
    straight: &Straight,
    lines: &mut PlainLines,
) -> Result<(), Fault>
    requires { array_vec_len lines.old ≤ 48 }
    ensures says { Gives (λ _. lines.new.items) result
        (spec.with_straight known.now straight.now lines.old.items) }
    ensures room { array_vec_len lines.new ≤ array_vec_len lines.old + 16 }
{
    add_motion(
        known,
        straight_to(known, straight.code, &straight.end),
        lines,
    )
}

fn third_alone(plane: Plane, axes: &AxisLengths) -> AxisLengths
    ensures { result ≡ spec.third_alone plane axes.now }
{
    match plane {
        Plane::XY => in_axes(plane, None, None, axes.z),
        Plane::ZX => in_axes(plane, None, None, axes.y),
        Plane::YZ => in_axes(plane, None, None, axes.x),
    }
}

/// Adds a motion along the third axis alone as plain lines.
#[tactic(auto, unfolding(crate::specs::Writing::with_lift))]
pub(crate) fn add_lift(known: &Known, action: &Action, lines: &mut PlainLines)
    requires { array_vec_len lines.old ≤ 48 }
    ensures items { lines.new.items ≡ spec.with_lift known.now action.now lines.old.items }
    ensures room { array_vec_len lines.new ≤ array_vec_len lines.old + 16 }
{
    let lift = Action {
        axes: third_alone(known.modes.plane, &action.axes),
        centre: no_lengths(),
        ..*action
    };
    add_action(lines, known.modes.units, &lift);
}

/// Adds the line of a code.
pub(crate) fn add_code_line(code: Code, lines: &mut PlainLines)
    requires { array_vec_len lines.old ≤ 62 }
    ensures items { lines.new.items ≡ spec.with_code_line code lines.old.items }
    ensures room { array_vec_len lines.new ≤ array_vec_len lines.old + 2 }
{
    lines.push(Plain::Word(code_word(code)));
    lines.push(Plain::End);
}
