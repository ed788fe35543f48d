ghost use Rattle.std.specs.Prelude.{◌≡◌, ◌≤◌, ◌+ℤ◌};
ghost use Rattle.ngc_collision.specs.Inside.{place_of};
ghost use Rattle.ngc_drawing.specs.Labels.{is_zero, work_place, is_moved, origin_characters};

use ngc_collision::Place;
use ngc_fixed_length::{Nm, Point3};

/// A work origin: the coordinate system that is selected, by its number from 0, where its origin
/// is, and the axis offset (G92).
#[derive(Clone, Copy)]
pub struct WorkOrigin {
    /// 0 for G54, 1 for G55 and so on, up to 8 for G59.3.
    pub system: usize,
    /// In machine coordinates.
    pub origin: Point3,
    pub axis_offset: Point3,
}

fn is_zero(point: &Point3) -> bool
    ensures { result ≡ is_zero point.now }
{
    point.x.nanometres() == 0 && point.y.nanometres() == 0 && point.z.nanometres() == 0
}

fn sum(one: Nm, other: Nm) -> i64
    ensures { result ≡ one +ℤ other }
{
    one.nanometres() + other.nanometres()
}

impl WorkOrigin {
    /// Returns where the program's X0 Y0 Z0 is.
    pub(crate) fn place(&self) -> Place
        ensures { place_of result ≡ work_place self.now }
    {
        Place {
            x: sum(self.origin.x, self.axis_offset.x),
            y: sum(self.origin.y, self.axis_offset.y),
            z: sum(self.origin.z, self.axis_offset.z),
        }
    }

    /// Returns whether it is at the machine's zero.
    pub(crate) fn is_at_zero(&self) -> bool
        ensures { result ≡ is_zero (work_place self.now) }
    {
        let place = self.place();
        place.x == 0 && place.y == 0 && place.z == 0
    }

    /// Returns whether an axis offset is in force.
    pub(crate) fn is_moved(&self) -> bool
        ensures { result ≡ is_moved self.now }
    {
        !is_zero(&self.axis_offset)
    }

    /// Returns how many characters its name has.
    pub(crate) fn characters(&self) -> u8
        ensures value { result ≡ origin_characters self.now }
        ensures few { result ≤ 9 }
    {
        let code = if self.system < 6 { 3 } else { 5 };
        if self.is_moved() { code + 4 } else { code }
    }
}
