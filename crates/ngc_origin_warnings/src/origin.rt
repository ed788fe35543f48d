//! The origins from which a program moves, and those that lie outside of the travel.
ghost use Rattle.std.specs.Prelude.{◌≡◌, ◌≤◌, ◌+ℤ◌, ◌-ℤ◌, ◌&&◌, int_lt, pos, unsigned_abs};
ghost use Rattle.std.specs.Int.{int_max, int_min};
ghost use Rattle.std.specs.List.{list_all};
ghost use Rattle.ngc_collision.specs.Inside.{place_of};
ghost use Rattle.ngc_machine_files.specs.Machine.{file_of};
ghost use Rattle.ngc_origin_warnings.specs.Origins.{beyond, has_origins, is_feed, is_forgotten};
ghost use Rattle.ngc_origin_warnings.specs.Origins.{is_suspect, is_zero, lowest, origin_of};
ghost use Rattle.ngc_origin_warnings.specs.Origins.{outside_origin, past, put_by, the_origin};
ghost use Rattle.ngc_origin_warnings.specs.Origins.{zero_of};

use ngc_collision::Place;
use ngc_commands::{Action, Motion, Pace};
use ngc_fixed_length::{Nm, Point3, System};
use ngc_frames::{Frame, FrameInForce};
use ngc_machine_files::{Machine, Tool};
use std::alloc::Allocator;

/// An origin outside of the travel from which a program moves.
#[derive(Clone, Copy)]
pub struct Origin {
    /// The coordinate system.
    pub system: System,
    /// Where its coordinates are zero, in machine coordinates: its origin, moved by the axis offset.
    pub at: Place,
    /// How far that is beyond the travel, in nanometres, along the axis where it is farthest.
    pub beyond: i64,
    /// The line that put it there, or 0 if the machine file leaves it at the machine's zero.
    pub line: u32,
}

fn lesser(a: Nm, b: Nm) -> Nm
    ensures { result ≡ int_min a b }
{
    if b.nanometres() < a.nanometres() {
        b
    } else {
        a
    }
}

fn greater(a: i64, b: i64) -> i64
    requires left { unsigned_abs a ≤ 400000000000 }
    requires right { unsigned_abs b ≤ 400000000000 }
    ensures value { result ≡ int_max a b }
    ensures bound { unsigned_abs result ≤ 400000000000 }
{
    a.max(b)
}

fn less(a: i64, b: i64) -> i64
    requires left { unsigned_abs a ≤ 200000000000 }
    requires right { unsigned_abs b ≤ 200000000000 }
    ensures value { result ≡ a -ℤ b }
    ensures bound { unsigned_abs result ≤ 400000000000 }
{
    a - b
}

fn sum(a: Nm, b: Nm) -> i64
    ensures value { result ≡ a +ℤ b }
    ensures bound { unsigned_abs result ≤ 200000000000 }
{
    a.nanometres() + b.nanometres()
}

/// Returns the lowest end of the tools from the spindle nose, which is the lowest without tools.
pub fn lowest(tools: &[Tool]) -> Nm
    ensures { result ≡ lowest tools.now }
{
    let mut low = Nm::zero();
    for tool in tools {
        low = lesser(low, tool.bottom);
    }
    low
}

fn zero_of(frame: &Frame) -> Place
    ensures value { place_of result ≡ zero_of frame.now }
    ensures x { unsigned_abs result.x ≤ 200000000000 }
    ensures y { unsigned_abs result.y ≤ 200000000000 }
    ensures z { unsigned_abs result.z ≤ 200000000000 }
{
    let origin = frame.selected_origin();
    let offset = frame.frames.axis_offset;
    Place {
        x: sum(origin.x, offset.x),
        y: sum(origin.y, offset.y),
        z: sum(origin.z, offset.z),
    }
}

// Returns how far a coordinate is outside of two limits; not above 0 between them.
fn past(low: i64, high: i64, coordinate: i64) -> i64
    requires low { unsigned_abs low ≤ 200000000000 }
    requires high { unsigned_abs high ≤ 200000000000 }
    requires coordinate { unsigned_abs coordinate ≤ 200000000000 }
    ensures value { result ≡ past low high coordinate }
    ensures bound { unsigned_abs result ≤ 400000000000 }
{
    greater(less(low, coordinate), less(coordinate, high))
}

// Returns how far a point is beyond the travel; not above 0 if it is inside.
fn beyond<A: Allocator>(machine: &Machine<A>, lowest: Nm, at: &Place) -> i64
    requires x { unsigned_abs at.now.x ≤ 200000000000 }
    requires y { unsigned_abs at.now.y ≤ 200000000000 }
    requires z { unsigned_abs at.now.z ≤ 200000000000 }
    ensures value { result ≡ beyond (file_of machine.now) lowest (place_of at.now) }
    ensures bound { unsigned_abs result ≤ 400000000000 }
{
    let (low, high) = (Place::at(&machine.low), Place::at(&machine.high));
    let x = past(low.x, high.x, at.x);
    let y = past(low.y, high.y, at.y);
    let z = past(sum(machine.low.z, lowest), high.z, at.z);
    greater(x, greater(y, z))
}

pub(crate) fn put_by(frame: &FrameInForce) -> u32
    ensures { result ≡ put_by frame.now }
{
    frame.origin_line.max(frame.axis_offset_line)
}

fn is_zero(point: &Point3) -> bool
    ensures { result ≡ is_zero point.now }
{
    point.x.nanometres() == 0 && point.y.nanometres() == 0 && point.z.nanometres() == 0
}

fn are_zero(points: &[Point3]) -> bool
    ensures { result ≡ list_all is_zero points.now }
{
    points.iter().all(|point| is_zero(point))
}

pub(crate) fn has_origins<A: Allocator>(machine: &Machine<A>) -> bool
    ensures { result ≡ has_origins (file_of machine.now) }
{
    !are_zero(&machine.origins)
}

fn is_feed(pace: &Pace) -> bool
    ensures { result ≡ is_feed pace.now }
{
    match pace {
        Pace::Rapid => false,
        Pace::Feed(_) => true,
    }
}

// Returns whether the machine file has origins, but not the one of this frame.
fn is_forgotten<A: Allocator>(machine: &Machine<A>, frame: &FrameInForce) -> bool
    ensures { result ≡ is_forgotten (file_of machine.now) frame.now }
{
    put_by(frame) == 0 && is_zero(&frame.frame.selected_origin()) && has_origins(machine)
}

// Returns whether a line put the origin of this frame where it is, or the machine file lacks it and
// the motion is a feed.
fn is_suspect<A: Allocator>(machine: &Machine<A>, frame: &FrameInForce, pace: &Pace) -> bool
    ensures { result ≡ is_suspect (file_of machine.now) frame.now pace.now }
{
    0 < put_by(frame) || is_forgotten(machine, frame) && is_feed(pace)
}

fn the_origin<A: Allocator>(machine: &Machine<A>, lowest: Nm, frame: &FrameInForce) -> Origin
    ensures { result ≡ the_origin (file_of machine.now) lowest frame.now }
{
    let at = zero_of(&frame.frame);
    Origin {
        system: frame.frame.system(),
        at,
        beyond: beyond(machine, lowest, &at),
        line: put_by(frame),
    }
}

fn is_warned_of<A: Allocator>(
    machine: &Machine<A>,
    frame: &FrameInForce,
    pace: &Pace,
    origin: &Origin,
) -> bool
    ensures { result ≡ (int_lt (pos 0) origin.now.beyond
        && is_suspect (file_of machine.now) frame.now pace.now) }
{
    0 < origin.beyond && is_suspect(machine, frame, pace)
}

/// Returns the origin from which a motion is made in a frame if it is outside of the travel, which
/// tools lengthen downwards, and a line put it there. It also returns one that the machine file
/// leaves at the machine's zero although it has others, if the motion is a feed.
pub fn outside_origin<A: Allocator>(
    machine: &Machine<A>,
    lowest: Nm,
    frame: &FrameInForce,
    motion: &Motion,
) -> Option<Origin>
    ensures { result ≡ outside_origin (file_of machine.now) lowest frame.now motion.now }
{
    let origin = the_origin(machine, lowest, frame);
    if is_warned_of(machine, frame, &motion.pace, &origin) {
        Some(origin)
    } else {
        None
    }
}

/// Returns the same of any action: `None` if it isn't a motion.
pub(crate) fn origin_of<A: Allocator>(
    machine: &Machine<A>,
    lowest: Nm,
    frame: &FrameInForce,
    action: &Action,
) -> Option<Origin>
    ensures { result ≡ origin_of (file_of machine.now) lowest frame.now action.now }
{
    match action {
        Action::Move(motion) => outside_origin(machine, lowest, frame, motion),
        _ => None,
    }
}
