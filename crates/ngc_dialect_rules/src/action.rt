//! The motions and changes of origins that a line makes.
ghost use Rattle.std.specs.Prelude.{◌≡◌};
ghost use Rattle.ngc_dialect_rules.specs.Actions as spec;

use crate::code::Code;
use crate::codes;
use crate::fault::{Cause, Fault, about_code};
use crate::front::Known;
use crate::length::{axis_lengths, moved_length};
use crate::moves::is_incremental;
use crate::plan::{Action, InForce};
use crate::table::{has, is_among};
use ngc_dialect_parameters::Word;
use ngc_fixed_length::{FeedMode, Nm, Turn, Value};
use ngc_modal_state::MotionMode;
use ngc_offsets::AxisLengths;

/// Adds a tool length offset to an absolute height.
pub(crate) fn with_length(length: Nm, axes: &AxisLengths) -> Result<AxisLengths, Fault>
    ensures { result ≡ spec.with_length length axes.now }
{
    let z = moved_length(b'Z', length, axes.z)?;
    Ok(AxisLengths {
        x: axes.x,
        y: axes.y,
        z,
    })
}

/// Returns whether the interpreter's motion mode is a code.
pub fn is_mode(mode: MotionMode, code: Code) -> bool
    ensures { result ≡ spec.is_mode mode code }
{
    match mode {
        MotionMode::Traverse => code.is(Code::G(0)),
        MotionMode::Straight => code.is(Code::G(10)),
        MotionMode::Arc(Turn::Clockwise) => code.is(Code::G(20)),
        MotionMode::Arc(Turn::Counterclockwise) => code.is(Code::G(30)),
        _ => false,
    }
}

/// Returns whether no feed is set, or 0.
pub fn has_no_feed(feed: Option<Value>) -> bool
    ensures { result ≡ spec.has_no_feed feed }
{
    match feed {
        None => true,
        Some(feed) => feed.millionths() == 0,
    }
}

/// Returns the F of a motion's line, or why the motion has no feed.
pub(crate) fn feed_in(
    mode: FeedMode,
    feed: Option<Value>,
    f: Option<Value>,
    code: Code,
) -> Result<Option<Value>, Fault>
    ensures { result ≡ spec.feed_in mode feed f code }
{
    match mode {
        FeedMode::InverseTime => {
            if is_among(&codes::FEED_MOTION, code) && f.is_none() {
                return Err(about_code(Cause::WordMissing, code));
            }
            Ok(f)
        }
        FeedMode::PerMinute => {
            if is_among(&codes::FEED_MOTION, code) && has_no_feed(feed) {
                return Err(about_code(Cause::FeedZero, code));
            }
            Ok(None)
        }
    }
}

pub(crate) fn written_code(
    known: &Known,
    is_machine: bool,
    f: &Option<Value>,
    code: Code,
) -> Option<Code>
    ensures { result ≡ spec.written_code known.now is_machine f.now code }
{
    if is_machine || f.is_some() || !is_mode(known.modes.motion, code) {
        Some(code)
    } else {
        None
    }
}

pub(crate) fn motion_lengths(
    is_machine: bool,
    force: &InForce,
    axes: &AxisLengths,
) -> Result<AxisLengths, Fault>
    ensures { result ≡ spec.motion_lengths is_machine force.now axes.now }
{
    if is_machine || is_incremental(force.distance) {
        Ok(*axes)
    } else {
        with_length(force.length, axes)
    }
}

/// Returns no lengths.
pub fn no_lengths() -> AxisLengths
    ensures { result ≡ spec.no_lengths }
{
    AxisLengths {
        x: None,
        y: None,
        z: None,
    }
}

/// Returns a straight motion, by its code, lengths and F.
pub(crate) fn motion(
    is_machine: bool,
    code: Option<Code>,
    axes: AxisLengths,
    f: Option<Value>,
) -> Action
    ensures { result ≡ spec.motion is_machine code axes f }
{
    Action {
        is_machine,
        code,
        l: None,
        p: None,
        axes,
        centre: no_lengths(),
        f,
    }
}

/// Returns a straight motion.
#[tactic(auto, unfolding(crate::specs::Actions::straight))]
pub(crate) fn straight(
    known: &Known,
    line: &[Code],
    words: &[Word],
    force: &InForce,
    f: Option<Value>,
    code: Code,
) -> Result<Action, Fault>
    ensures { result ≡ spec.straight known.now line.now words.now force.now f code }
{
    let feed = feed_in(force.feed_mode, force.feed, f, code)?;
    let axes = axis_lengths(force.units, words)?;
    let is_machine = has(&codes::MACHINE_PLACE, line);
    let moved = motion_lengths(is_machine, force, &axes)?;
    let written = written_code(known, is_machine, &feed, code);
    Ok(motion(is_machine, written, moved, feed))
}
