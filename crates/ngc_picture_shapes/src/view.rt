ghost use Rattle.std.specs.Prelude.{◌≡◌, ◌<◌, ◌^◌, ◌+ℤ◌, ◌-ℤ◌, ◌*ℤ◌, pos, unsigned_abs};
ghost use Rattle.ngc_fixed_length.specs.Rounding.{nearest};
ghost use Rattle.std.specs.Int.{int_min, int_max};
ghost use Rattle.ngc_collision.specs.Inside.{place_of};
ghost use Rattle.ngc_picture_shapes.specs.Views.{micrometres, isometric, spot, block, faces, is_same};
ghost use Rattle.ngc_picture_shapes.specs.Views.{rectangle, holding};

use crate::spot::{Block, Rectangle, Spot};
use ngc_collision::Place;
use ngc_fixed_length::{Plane, Point3, rounded_quotient};

/// The side from which the machine is seen.
#[derive(Clone, Copy)]
pub enum View {
    /// X to the right, Y up.
    Top,
    /// X to the right, Z up.
    Front,
    /// Y to the right, Z up.
    Side,
    /// X up to the right and Y up to the left, both with the slope 1:2, and Z up.
    Iso,
}

/// Returns a length in nanometres, to the nearest micrometre.
pub fn to_micrometres(nanometres: i64) -> i64
    ensures { result ≡ micrometres nanometres }
{
    rounded_quotient(i128::from(nanometres), 1_000) as i64
}

fn lesser(a: i64, b: i64) -> i64
    ensures { result ≡ int_min a b }
{
    a.min(b)
}

fn greater(a: i64, b: i64) -> i64
    ensures { result ≡ int_max a b }
{
    a.max(b)
}

fn spot_of(across: i64, up: i64) -> Spot
    ensures { result ≡ record { across = micrometres across; up = micrometres up } }
{
    Spot {
        across: to_micrometres(across),
        up: to_micrometres(up),
    }
}

fn minus(one: i64, other: i64) -> i128
    ensures value { result ≡ one -ℤ other }
    ensures bound { unsigned_abs result < 2 ^ 66 }
{
    i128::from(one) - i128::from(other)
}

fn plus(one: i64, other: i64) -> i128
    ensures value { result ≡ one +ℤ other }
    ensures bound { unsigned_abs result < 2 ^ 66 }
{
    i128::from(one) + i128::from(other)
}

fn twice(length: i64) -> i128
    ensures value { result ≡ pos 2 *ℤ length }
    ensures bound { unsigned_abs result < 2 ^ 66 }
{
    2 * i128::from(length)
}

/// Returns the sum of two lengths and twice a third.
fn double_height(x: i64, y: i64, z: i64) -> i128
    ensures value { result ≡ (x +ℤ y) +ℤ (pos 2 *ℤ z) }
    ensures bound { unsigned_abs result < 2 ^ 67 }
{
    plus(x, y) + twice(z)
}

fn thousandth(length: i128) -> i64
    requires { unsigned_abs length < 2 ^ 67 }
    ensures { result ≡ nearest length (pos 1000) }
{
    rounded_quotient(length, 1_000) as i64
}

fn half_thousandth(length: i128) -> i64
    requires { unsigned_abs length < 2 ^ 67 }
    ensures { result ≡ nearest length (pos 2000) }
{
    rounded_quotient(length, 2_000) as i64
}

/// Returns the difference of two lengths in nanometres, to the nearest micrometre.
fn difference(one: i64, other: i64) -> i64
    ensures { result ≡ micrometres (one -ℤ other) }
{
    thousandth(minus(one, other))
}

/// Returns the height at which the isometric view shows a place.
fn raised(x: i64, y: i64, z: i64) -> i64
    ensures { result ≡ nearest ((x +ℤ y) +ℤ (pos 2 *ℤ z)) (pos 2000) }
{
    half_thousandth(double_height(x, y, z))
}

/// Returns where the isometric view shows a place.
fn isometric(x: i64, y: i64, z: i64) -> Spot
    ensures { result ≡ isometric (record { x = x; y = y; z = z }) }
{
    Spot {
        across: difference(x, y),
        up: raised(x, y, z),
    }
}

/// Returns the corners of a box that the isometric view shows.
pub fn block(low: &Place, high: &Place) -> Block
    ensures { result ≡ block (place_of low.now) (place_of high.now) }
{
    Block {
        near: isometric(low.x, low.y, low.z),
        near_top: isometric(low.x, low.y, high.z),
        right: isometric(high.x, low.y, low.z),
        right_top: isometric(high.x, low.y, high.z),
        left: isometric(low.x, high.y, low.z),
        left_top: isometric(low.x, high.y, high.z),
        far_top: isometric(high.x, high.y, high.z),
    }
}

/// Returns the smallest rectangle that holds a box in the isometric view.
fn around(low: &Place, high: &Place) -> Rectangle
    ensures { result ≡ rectangle View.Iso (place_of low.now) (place_of high.now) }
{
    Rectangle {
        low: Spot {
            across: difference(low.x, high.y),
            up: raised(low.x, low.y, low.z),
        },
        high: Spot {
            across: difference(high.x, low.y),
            up: raised(high.x, high.y, high.z),
        },
    }
}

impl View {
    /// Returns where a place of the machine is in the picture.
    pub fn sees(self, place: &Place) -> Spot
        ensures { result ≡ spot self (place_of place.now) }
    {
        match self {
            View::Top => spot_of(place.x, place.y),
            View::Front => spot_of(place.x, place.z),
            View::Side => spot_of(place.y, place.z),
            View::Iso => isometric(place.x, place.y, place.z),
        }
    }

    /// Returns where a point of the machine is in the picture.
    pub fn spot(self, point: &Point3) -> Spot
        ensures { result ≡ spot self point.now }
    {
        self.sees(&Place::at(point))
    }

    /// Returns whether a plane is seen without shortening.
    pub(crate) fn faces(self, plane: Plane) -> bool
        ensures { result ≡ faces self plane }
    {
        match (self, plane) {
            (View::Top, Plane::XY) | (View::Front, Plane::ZX) | (View::Side, Plane::YZ) => true,
            _ => false,
        }
    }

    /// Returns the smallest rectangle that holds a box.
    pub fn around(self, low: &Place, high: &Place) -> Rectangle
        ensures { result ≡ rectangle self (place_of low.now) (place_of high.now) }
    {
        match self {
            View::Iso => around(low, high),
            _ => Rectangle {
                low: self.sees(low),
                high: self.sees(high),
            },
        }
    }

    /// Returns the smallest rectangle that holds the box between two points.
    pub fn rectangle(self, low: &Point3, high: &Point3) -> Rectangle
        ensures { result ≡ rectangle self low.now high.now }
    {
        self.around(&Place::at(low), &Place::at(high))
    }
}

impl Spot {
    /// Returns whether both are one place of the drawing.
    pub(crate) fn is_same(&self, other: &Spot) -> bool
        ensures { result ≡ is_same self.now other.now }
    {
        self.across == other.across && self.up == other.up
    }
}

impl Rectangle {
    /// Returns the smallest rectangle that holds this one and a spot.
    pub(crate) fn holding(&self, spot: &Spot) -> Rectangle
        ensures { result ≡ holding self.now spot.now }
    {
        Rectangle {
            low: Spot {
                across: lesser(self.low.across, spot.across),
                up: lesser(self.low.up, spot.up),
            },
            high: Spot {
                across: greater(self.high.across, spot.across),
                up: greater(self.high.up, spot.up),
            },
        }
    }
}
