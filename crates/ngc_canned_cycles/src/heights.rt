//! Heights of holes, and sums and products of lengths in nanometres.
ghost use Rattle.std.specs.Prelude.{◌≡◌, ◌≤◌, ◌+◌, int_lt, pos, ◌*ℤ◌, unsigned_abs};
ghost use Rattle.ngc_fixed_length.specs.Limits.{IsLength};
ghost use Rattle.ngc_fixed_length.specs.Signed.{greater, same};
ghost use Rattle.ngc_canned_cycles.specs.Heights.{place_before, relative as relative_to};
ghost use Rattle.ngc_canned_cycles.specs.Heights.{retract_of, bottom_of};
ghost use Rattle.ngc_canned_cycles.specs.Heights.{repeat_on_axis as repeat_along, repeat_place};
ghost use Rattle.ngc_canned_cycles.specs.Heights.{site_of, AreLengths};

use crate::cycle::{Cycle, Site, Start};
use ngc_fixed_length::{Distance, Nm, Point2, RetractMode};

/// Returns a number of nanometres as a length.
pub fn length(nanometres: i128) -> Nm
    requires { IsLength nanometres }
    ensures { result ≡ nanometres }
{
    Nm::from_nanometres(nanometres).unwrap()
}

/// Returns whether a length is less than another one.
pub fn is_below(a: Nm, b: Nm) -> bool
    ensures { result ≡ int_lt a b }
{
    a.nanometres() < b.nanometres()
}

/// Returns whether two lengths are the same.
pub fn is_same(a: Nm, b: Nm) -> bool
    ensures { result ≡ same a b }
{
    a.nanometres() == b.nanometres()
}

/// Returns the greater of two lengths.
pub fn higher(a: Nm, b: Nm) -> Nm
    ensures { result ≡ greater a b }
{
    if is_below(a, b) { b } else { a }
}

/// Returns `count` times a length, in nanometres.
pub fn times(count: u64, length: Nm) -> i128
    ensures value { result ≡ pos count *ℤ length }
    ensures bound { unsigned_abs result ≤ 2000000000000000000000000000000 }
{
    i128::from(count) * i128::from(length.nanometres())
}

/// Returns a height in nanometres: a length unchanged in G90, or added to the height `base` in G91.
pub fn relative(distance: Distance, base: i128, length: Nm) -> i128
    requires { unsigned_abs base ≤ 200000000000 }
    ensures value { result ≡ relative_to distance base length }
    ensures bound { unsigned_abs result ≤ unsigned_abs base + 100000000000 }
{
    let length = i128::from(length.nanometres());
    match distance {
        Distance::Absolute => length,
        Distance::Incremental => base + length,
    }
}

// Returns the coordinate of a repeat on one axis of the plane: the word itself in G90, or the word
// added once for each repeat in G91.
fn repeat_on_axis(distance: Distance, repeat: u32, before: Nm, given: Option<Nm>) -> i128
    ensures value { result ≡ repeat_along distance repeat before given }
    ensures length { IsLength before }
{
    let before = i128::from(before.nanometres());
    match given {
        None => before,
        Some(length) => match distance {
            Distance::Absolute => i128::from(length.nanometres()),
            Distance::Incremental => before + times(u64::from(repeat), length),
        },
    }
}

impl Cycle {
    /// Returns the height of R, in nanometres.
    pub(crate) fn retract_height(&self, start: &Start) -> i128
        ensures value { result ≡ retract_of self.now start.now }
        ensures bound { unsigned_abs result ≤ 200000000000 }
    {
        let before = i128::from(start.place.height(self.plane).nanometres());
        relative(self.distance, before, self.retract)
    }

    /// Returns the height of the bottom, in nanometres.
    pub(crate) fn bottom_height(&self, start: &Start) -> i128
        ensures value { result ≡ bottom_of self.now start.now }
        ensures bound { unsigned_abs result ≤ 300000000000 }
    {
        relative(self.distance, self.retract_height(start), self.bottom)
    }

    /// Returns the coordinates of a repeat on the plane's axes, in nanometres.
    pub(crate) fn repeat_coordinates(&self, start: &Start, repeat: u32) -> (i128, i128)
        ensures u { result.0 ≡ (repeat_place self.now start.now repeat).u }
        ensures v { result.1 ≡ (repeat_place self.now start.now repeat).v }
        ensures length_u { IsLength (place_before self.now start.now).u }
        ensures length_v { IsLength (place_before self.now start.now).v }
    {
        let before = start.place.in_plane(self.plane);
        (
            repeat_on_axis(self.distance, repeat, before.u, self.u),
            repeat_on_axis(self.distance, repeat, before.v, self.v),
        )
    }

    /// Returns the site of a repeat's hole; repeats are counted from 1. NISTIR 6556, 3.5.16.
    pub fn site(&self, start: &Start, repeat: u16) -> Site
        requires { AreLengths self.now start.now repeat }
        ensures { result ≡ site_of self.now start.now repeat }
    {
        let (u, v) = self.repeat_coordinates(start, u32::from(repeat));
        let place = Point2 {
            u: length(u),
            v: length(v),
        };
        let retract = length(self.retract_height(start));
        let clear = match self.clear {
            RetractMode::Series => higher(start.series, retract),
            RetractMode::Retract => retract,
        };
        Site {
            plane: self.plane,
            place,
            retract,
            bottom: length(self.bottom_height(start)),
            clear,
        }
    }
}
