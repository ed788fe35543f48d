//! How far machine coordinates are from those of the program.
ghost use Rattle.std.specs.Prelude.{◌≡◌, ◌≤◌, ◌+ℤ◌, unsigned_abs};
ghost use Rattle.ngc_dialect_drilling.specs.Places as spec;

use ngc_dialect_rules::{Known, origin_of};
use ngc_fixed_length::{Nm, Plane};
use ngc_offsets::Axis;

fn sum(a: Nm, b: Nm) -> i128
    ensures value { result ≡ a +ℤ b }
    ensures bound { unsigned_abs result ≤ 200000000000 }
{
    i128::from(a.nanometres()) + i128::from(b.nanometres())
}

fn sum_of_three(a: Nm, b: Nm, c: Nm) -> i128
    ensures value { result ≡ (a +ℤ b) +ℤ c }
    ensures bound { unsigned_abs result ≤ 300000000000 }
{
    sum(a, b) + i128::from(c.nanometres())
}

/// Returns the shift of our own interpreter along an axis, in nanometres.
pub fn own_shift(known: &Known, axis: Axis) -> i128
    ensures value { result ≡ spec.own_shift known.now axis }
    ensures bound { unsigned_abs result ≤ 300000000000 }
{
    let frames = &known.frames;
    let origin = origin_of(frames, frames.active);
    let offset = frames.axis_offset;
    match axis {
        Axis::X => sum(origin.x, offset.x),
        Axis::Y => sum(origin.y, offset.y),
        Axis::Z => sum_of_three(origin.z, frames.length, offset.z),
    }
}

/// Returns the shift of the dialect along an axis, in nanometres: with the tool length offset of
/// G43.1.
pub(crate) fn whole_shift(known: &Known, axis: Axis) -> i128
    ensures value { result ≡ spec.whole_shift known.now axis }
    ensures bound { unsigned_abs result ≤ 400000000000 }
{
    match axis {
        Axis::X | Axis::Y => own_shift(known, axis),
        Axis::Z => own_shift(known, axis) + i128::from(known.front.length.nanometres()),
    }
}

/// Returns the axis perpendicular to a plane.
pub fn depth_axis(plane: Plane) -> Axis
    ensures { result ≡ spec.depth_axis plane }
{
    match plane {
        Plane::XY => Axis::Z,
        Plane::ZX => Axis::Y,
        Plane::YZ => Axis::X,
    }
}

/// Returns a plane's first axis.
pub fn u_axis(plane: Plane) -> Axis
    ensures { result ≡ spec.u_axis plane }
{
    match plane {
        Plane::XY => Axis::X,
        Plane::ZX => Axis::Z,
        Plane::YZ => Axis::Y,
    }
}

/// Returns a plane's second axis.
pub fn v_axis(plane: Plane) -> Axis
    ensures { result ≡ spec.v_axis plane }
{
    match plane {
        Plane::XY => Axis::Y,
        Plane::ZX => Axis::X,
        Plane::YZ => Axis::Z,
    }
}

/// Returns the letter of an axis.
pub fn letter_of(axis: Axis) -> u8
    ensures { result ≡ spec.letter_of axis }
{
    match axis {
        Axis::X => b'X',
        Axis::Y => b'Y',
        Axis::Z => b'Z',
    }
}

/// Returns the letter of the axis perpendicular to a plane.
pub(crate) fn depth_letter(plane: Plane) -> u8
    ensures { result ≡ spec.depth_letter plane }
{
    letter_of(depth_axis(plane))
}
