//! Changes of origins, and ways home.
ghost use Rattle.std.specs.Prelude.{◌≡◌, ◌+◌, ◌*◌, ◌<◌, ◌≤◌, ◌+ℤ◌, ◌-ℤ◌, pos, unsigned_abs};
ghost use Rattle.ngc_dialect_rules.specs.Offsets as spec;
ghost use Rattle.ngc_offsets.specs.Frames.{index, origin_of as origin_in};

use crate::action::{motion, motion_lengths, no_lengths, with_length, written_code};
use crate::code::Code;
use crate::codes;
use crate::fault::{Cause, Fault, LeftOut, about_code, about_letter};
use crate::force::is_moved;
use crate::front::{Front, Known};
use crate::length::{axis_lengths, limited, moved_length};
use crate::moves::{counts_turns, has_axes, is_incremental};
use crate::plan::{Action, InForce};
use crate::table::{code_in, has, is_fanuc};
use crate::word::{count, has_letter, value_of};
use ngc_dialect_names::Dialect;
use ngc_dialect_parameters::Word;
use ngc_fixed_length::{Distance, Nm, Point3, System, Value};
use ngc_offsets::{AxisLengths, Frames};

fn system_of_code(code: Code) -> System
    ensures { result ≡ spec.system_of_code code }
{
    if code.is(Code::G(550)) {
        System::Second
    } else if code.is(Code::G(560)) {
        System::Third
    } else if code.is(Code::G(570)) {
        System::Fourth
    } else if code.is(Code::G(580)) {
        System::Fifth
    } else if code.is(Code::G(590)) {
        System::Sixth
    } else if code.is(Code::G(591)) {
        System::Seventh
    } else if code.is(Code::G(592)) {
        System::Eighth
    } else if code.is(Code::G(593)) {
        System::Ninth
    } else {
        System::First
    }
}

#[tactic(auto, unfolding(crate::specs::Offsets::system_after))]
pub(crate) fn system_after(known: &Known, line: &[Code]) -> System
    ensures { result ≡ spec.system_after known.now line.now }
{
    match code_in(&codes::SYSTEMS, line) {
        None => known.frames.active,
        Some(code) => system_of_code(code),
    }
}

fn system_numbered(number: u64) -> Option<System>
    ensures { result ≡ spec.system_numbered number }
{
    match number {
        1 => Some(System::First),
        2 => Some(System::Second),
        3 => Some(System::Third),
        4 => Some(System::Fourth),
        5 => Some(System::Fifth),
        6 => Some(System::Sixth),
        7 => Some(System::Seventh),
        8 => Some(System::Eighth),
        9 => Some(System::Ninth),
        _ => None,
    }
}

fn system_named(known: &Known, line: &[Code], p: Option<Value>) -> Result<System, Fault>
    ensures { result ≡ spec.system_named known.now line.now p }
{
    match p {
        None => {
            if counts_turns(known.dialect) {
                Ok(system_after(known, line))
            } else {
                Err(about_code(Cause::WordMissing, Code::G(100)))
            }
        }
        Some(p) => {
            if p.millionths() == 0 && counts_turns(known.dialect) {
                return Ok(system_after(known, line));
            }
            match system_numbered(p.millionths().unsigned_abs() / 1_000_000) {
                Some(system) => Ok(system),
                None => Err(about_letter(Cause::NoSuchSystem, b'P')),
            }
        }
    }
}

// Returns a system's index in the list of origins.
fn index_of(system: System) -> usize
    ensures value { result ≡ index system }
    ensures nine { result < 9 }
{
    match system {
        System::First => 0,
        System::Second => 1,
        System::Third => 2,
        System::Fourth => 3,
        System::Fifth => 4,
        System::Sixth => 5,
        System::Seventh => 6,
        System::Eighth => 7,
        System::Ninth => 8,
    }
}

/// Returns the origin of a coordinate system.
pub fn origin_of(frames: &Frames, system: System) -> Point3
    ensures { result ≡ origin_in frames.now system }
{
    frames.origins[index_of(system)]
}

fn sum_of(a: Nm, b: Nm) -> i64
    ensures value { result ≡ a +ℤ b }
    ensures bound { unsigned_abs result ≤ 200000000000 }
{
    a.nanometres() + b.nanometres()
}

fn difference_of(a: Nm, b: Nm) -> i64
    ensures value { result ≡ a -ℤ b }
    ensures bound { unsigned_abs result ≤ 200000000000 }
{
    a.nanometres() - b.nanometres()
}

// Returns how far an axis is from a base and a tool length.
#[tactic(auto, unfolding(crate::specs::Offsets::far_from))]
fn far_from(place: Nm, base: Nm, tool: i64) -> i64
    requires { unsigned_abs tool ≤ 200000000000 }
    ensures value { result ≡ spec.far_from place base tool }
    ensures bound { unsigned_abs result ≤ 400000000000 }
{
    difference_of(place, base) - tool
}

fn less(far: i64, length: Nm) -> i64
    requires { unsigned_abs far ≤ 400000000000 }
    ensures { result ≡ far -ℤ length }
{
    far - length.nanometres()
}

// Returns how far an axis is from a base and a tool length, less a length.
fn left_on(
    letter: u8,
    place: Nm,
    base: Nm,
    tool: i64,
    length: Option<Nm>,
) -> Result<Option<Nm>, Fault>
    requires { unsigned_abs tool ≤ 200000000000 }
    ensures { result ≡ spec.left_on letter place base tool length }
{
    match length {
        None => Ok(None),
        Some(length) => {
            let left = less(far_from(place, base, tool), length);
            match limited(letter, i128::from(left)) {
                Ok(left) => Ok(Some(left)),
                Err(fault) => Err(fault),
            }
        }
    }
}

#[tactic(auto, unfolding(crate::specs::Offsets::left_from))]
fn left_from(
    place: &Point3,
    base: &Point3,
    tool: i64,
    axes: &AxisLengths,
) -> Result<AxisLengths, Fault>
    requires { unsigned_abs tool ≤ 200000000000 }
    ensures { result ≡ spec.left_from place.now base.now tool axes.now }
{
    let x = left_on(b'X', place.x, base.x, 0, axes.x)?;
    let y = left_on(b'Y', place.y, base.y, 0, axes.y)?;
    let z = left_on(b'Z', place.z, base.z, tool, axes.z)?;
    Ok(AxisLengths { x, y, z })
}

#[tactic(auto, unfolding(crate::specs::Offsets::own_length))]
pub(crate) fn own_length(known: &Known, line: &[Code], words: &[Word]) -> Result<Nm, Fault>
    ensures { result ≡ spec.own_length known.now line.now words.now }
{
    if has(&codes::TABLE_LENGTHS, line) {
        return Err(about_code(Cause::LengthBeside, Code::G(430)));
    }
    if has(&codes::LENGTH_END, line)
        || (has(&codes::WORD_LENGTH, line) && has_letter(b'Z', words))
    {
        Ok(Nm::zero())
    } else {
        Ok(known.frames.length)
    }
}

fn origin_here(
    known: &Known,
    line: &[Code],
    words: &[Word],
    force: &InForce,
    axes: &AxisLengths,
) -> Result<AxisLengths, Fault>
    ensures { result ≡ spec.origin_here known.now line.now words.now force.now axes.now }
{
    let own = own_length(known, line, words)?;
    let tool = sum_of(own, force.length);
    left_from(&known.place, &known.frames.axis_offset, tool, axes)
}

fn added_origin(origin: &Point3, axes: &AxisLengths) -> Result<AxisLengths, Fault>
    ensures { result ≡ spec.added_origin origin.now axes.now }
{
    let x = moved_length(b'X', origin.x, axes.x)?;
    let y = moved_length(b'Y', origin.y, axes.y)?;
    let z = moved_length(b'Z', origin.z, axes.z)?;
    Ok(AxisLengths { x, y, z })
}

fn origin_given(
    known: &Known,
    force: &InForce,
    system: System,
    axes: &AxisLengths,
) -> Result<AxisLengths, Fault>
    ensures { result ≡ spec.origin_given known.now force.now system axes.now }
{
    if is_fanuc(known.dialect) && is_incremental(force.distance) {
        added_origin(&origin_of(&known.frames, system), axes)
    } else {
        Ok(*axes)
    }
}

fn set_by(system: System, axes: AxisLengths) -> Action
    ensures { result ≡ spec.set_by system axes }
{
    Action {
        is_machine: false,
        code: Some(Code::G(100)),
        l: Some(whole_value(2)),
        p: Some(whole_value(index_of(system) + 1)),
        axes,
        centre: no_lengths(),
        f: None,
    }
}

// Returns a small number as a value.
fn whole_value(number: usize) -> Value
    requires { number < 10 }
    ensures { result ≡ pos (number * 1000000) }
{
    match Value::from_millionths(number as i128 * 1_000_000) {
        Ok(value) => value,
        Err(_) => Value::zero(),
    }
}

fn is_here(dialect: Dialect, l: Option<Value>) -> Result<bool, Fault>
    ensures { result ≡ spec.is_here dialect l }
{
    match l {
        None => Err(about_code(Cause::WordMissing, Code::G(100))),
        Some(l) => {
            if l.millionths() == 2_000_000 {
                Ok(false)
            } else if l.millionths() == 20_000_000 && !is_fanuc(dialect) {
                Ok(true)
            } else {
                Err(about_letter(Cause::LeftOut(LeftOut::ToolTable), b'L'))
            }
        }
    }
}

fn origin_by(
    known: &Known,
    line: &[Code],
    words: &[Word],
    force: &InForce,
    system: System,
    axes: &AxisLengths,
    here: bool,
) -> Result<AxisLengths, Fault>
    ensures { result ≡ spec.origin_by known.now line.now words.now force.now system axes.now here }
{
    if here {
        origin_here(known, line, words, force, axes)
    } else {
        origin_given(known, force, system, axes)
    }
}

/// Returns what G10 sets.
#[tactic(auto, unfolding(crate::specs::Offsets::set_origin))]
pub(crate) fn set_origin(
    known: &Known,
    line: &[Code],
    words: &[Word],
    force: &InForce,
) -> Result<Action, Fault>
    ensures { result ≡ spec.set_origin known.now line.now words.now force.now }
{
    let l = count(b'L', words)?;
    let here = is_here(known.dialect, l)?;
    if is_moved(value_of(b'R', words)) {
        return Err(about_letter(Cause::LeftOut(LeftOut::Rotation), b'R'));
    }
    let p = count(b'P', words)?;
    let system = system_named(known, line, p)?;
    let axes = axis_lengths(force.units, words)?;
    let origin = origin_by(known, line, words, force, system, &axes, here)?;
    Ok(set_by(system, origin))
}

/// Returns what G92 sets.
#[tactic(auto, unfolding(crate::specs::Offsets::set_offset))]
pub(crate) fn set_offset(
    known: &Known,
    line: &[Code],
    words: &[Word],
    force: &InForce,
) -> Result<Action, Fault>
    ensures { result ≡ spec.set_offset known.now line.now words.now force.now }
{
    if !has_axes(known.dialect, line, words) {
        return Err(about_code(Cause::WordMissing, Code::G(920)));
    }
    let axes = axis_lengths(force.units, words)?;
    let shown = with_length(force.length, &axes)?;
    Ok(motion(false, Some(Code::G(920)), shown, None))
}

/// Returns the G92 that sets what G52 sets.
#[tactic(auto, unfolding(crate::specs::Offsets::local_offset))]
pub(crate) fn local_offset(
    known: &Known,
    line: &[Code],
    words: &[Word],
    force: &InForce,
) -> Result<Action, Fault>
    ensures { result ≡ spec.local_offset known.now line.now words.now force.now }
{
    if !has_axes(known.dialect, line, words) {
        return Err(about_code(Cause::WordMissing, Code::G(520)));
    }
    let axes = axis_lengths(force.units, words)?;
    let own = own_length(known, line, words)?;
    let origin = origin_of(&known.frames, system_after(known, line));
    let place = left_from(&known.place, &origin, own.nanometres(), &axes)?;
    Ok(motion(false, Some(Code::G(920)), place, None))
}

fn home_of(front: &Front, code: Code) -> Point3
    ensures { result ≡ spec.home_of front.now code }
{
    if code.is(Code::G(280)) {
        front.home28
    } else {
        front.home30
    }
}

fn is_named(dialect: Dialect, axis: u8, other: u8, words: &[Word]) -> bool
    ensures { result ≡ spec.is_named dialect axis other words.now }
{
    has_letter(axis, words) || (is_fanuc(dialect) && has_letter(other, words))
}

fn home_on(all: bool, named: bool, home: Nm) -> Option<Nm>
    ensures { result ≡ spec.home_on all named home }
{
    if all || named { Some(home) } else { None }
}

fn home_lengths(x: bool, y: bool, z: bool, home: &Point3) -> AxisLengths
    ensures { result ≡ spec.home_lengths x y z home.now }
{
    let all = !(x || y || z);
    AxisLengths {
        x: home_on(all, x, home.x),
        y: home_on(all, y, home.y),
        z: home_on(all, z, home.z),
    }
}

/// Returns the traverse to a home, by its code.
#[tactic(auto, unfolding(crate::specs::Offsets::go_home))]
pub(crate) fn go_home(known: &Known, words: &[Word], code: Code) -> Action
    ensures { result ≡ spec.go_home known.now words.now code }
{
    let x = is_named(known.dialect, b'X', b'U', words);
    let y = is_named(known.dialect, b'Y', b'V', words);
    let z = is_named(known.dialect, b'Z', b'W', words);
    let axes = home_lengths(x, y, z, &home_of(&known.front, code));
    motion(true, Some(Code::G(0)), axes, None)
}

// Returns the machine coordinate of the program's zero on an axis.
#[tactic(auto, unfolding(crate::specs::Offsets::frame_on))]
fn frame_on(origin: Nm, offset: Nm, tool: i64) -> i64
    requires { unsigned_abs tool ≤ 200000000000 }
    ensures value { result ≡ spec.frame_on origin offset tool }
    ensures bound { unsigned_abs result ≤ 400000000000 }
{
    sum_of(origin, offset) + tool
}

// Returns whether a length leads away from a place, by the machine coordinate of the program's
// zero.
#[tactic(auto, unfolding(crate::specs::Offsets::is_away))]
fn is_away(distance: Distance, place: Nm, frame: i64, length: Option<Nm>) -> bool
    requires { unsigned_abs frame ≤ 400000000000 }
    ensures { result ≡ spec.is_away distance place frame length }
{
    match length {
        None => false,
        Some(length) => match distance {
            Distance::Incremental => length.nanometres() != 0,
            Distance::Absolute => place.nanometres() != frame + length.nanometres(),
        },
    }
}

fn leads_away(
    known: &Known,
    force: &InForce,
    origin: &Point3,
    tool: i64,
    axes: &AxisLengths,
) -> bool
    requires { unsigned_abs tool ≤ 200000000000 }
    ensures { result ≡ spec.leads_away known.now force.now origin.now tool axes.now }
{
    let offset = known.frames.axis_offset;
    let x_frame = frame_on(origin.x, offset.x, 0);
    let y_frame = frame_on(origin.y, offset.y, 0);
    let z_frame = frame_on(origin.z, offset.z, tool);
    if is_away(force.distance, known.place.x, x_frame, axes.x) {
        return true;
    }
    if is_away(force.distance, known.place.y, y_frame, axes.y) {
        return true;
    }
    is_away(force.distance, known.place.z, z_frame, axes.z)
}

/// Returns the traverse to the point that G28's axis words name, if that is another one.
#[tactic(auto, unfolding(crate::specs::Offsets::way_home))]
pub(crate) fn way_home(
    known: &Known,
    line: &[Code],
    words: &[Word],
    force: &InForce,
) -> Result<Option<Action>, Fault>
    ensures { result ≡ spec.way_home known.now line.now words.now force.now }
{
    let axes = axis_lengths(force.units, words)?;
    let own = own_length(known, line, words)?;
    let moved = motion_lengths(false, force, &axes)?;
    let origin = origin_of(&known.frames, system_after(known, line));
    if leads_away(known, force, &origin, sum_of(own, force.length), &axes) {
        let written = written_code(known, false, &None, Code::G(0));
        Ok(Some(motion(false, written, moved, None)))
    } else {
        Ok(None)
    }
}
