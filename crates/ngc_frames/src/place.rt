//! Machine points in the program's coordinates.
ghost use Rattle.std.specs.Prelude.{◌≡◌, ◌≤◌, ◌+ℤ◌, ◌-ℤ◌, unsigned_abs};
ghost use Rattle.ngc_collision.specs.Inside.{place_of};
ghost use Rattle.ngc_offsets.specs.Frames.{to_program};

use crate::frame::Frame;
use ngc_collision::Place;
use ngc_fixed_length::{Nm, Point3};

// Returns the difference between the machine's coordinate on an axis and the program's.
fn shift(origin: Nm, length: Nm, offset: Nm) -> i64
    ensures value { result ≡ origin +ℤ length +ℤ offset }
    ensures range { unsigned_abs result ≤ 300000000000 }
{
    let base = origin.nanometres() + length.nanometres();
    base + offset.nanometres()
}

fn less(place: Nm, shift: i64) -> i64
    requires { unsigned_abs shift ≤ 300000000000 }
    ensures { result ≡ place -ℤ shift }
{
    place.nanometres() - shift
}

// Returns the program's coordinate on an axis.
fn coordinate(place: Nm, origin: Nm, length: Nm, offset: Nm) -> i64
    ensures { result ≡ place -ℤ (origin +ℤ length +ℤ offset) }
{
    less(place, shift(origin, length, offset))
}

/// Returns the program's coordinates of a machine point, in nanometres. They are those of the
/// tool's tip if its length offset is in force (G43), otherwise those of the spindle nose. NISTIR
/// 6556, 3.2.2.
pub fn program_point(place: &Point3, frame: &Frame) -> Place
    ensures { place_of result ≡ to_program frame.now.frames place.now }
{
    let origin = frame.selected_origin();
    let axis = frame.frames.axis_offset;
    let length = frame.frames.length;
    Place {
        x: coordinate(place.x, origin.x, Nm::zero(), axis.x),
        y: coordinate(place.y, origin.y, Nm::zero(), axis.y),
        z: coordinate(place.z, origin.z, length, axis.z),
    }
}

/// Returns a point in nanometres.
pub(crate) fn as_place(point: &Point3) -> Place
    ensures { place_of result ≡ point.now }
{
    Place {
        x: point.x.nanometres(),
        y: point.y.nanometres(),
        z: point.z.nanometres(),
    }
}
