ghost use Rattle.std.specs.Prelude.{◌≡◌};
ghost use Rattle.std.specs.Int.{int_min, int_max};

use crate::length::Nm;
use crate::modes::Plane;

/// A point of a plane, as coordinates on the plane's axes u and v.
#[derive(Clone, Copy, Default, PartialEq, Eq)]
pub struct Point2 {
    pub u: Nm,
    pub v: Nm,
}

/// A point of the machine.
#[derive(Clone, Copy, PartialEq, Eq)]
pub struct Point3 {
    pub x: Nm,
    pub y: Nm,
    pub z: Nm,
}

/// A point of the grid, in steps.
#[derive(Clone, Copy, PartialEq, Eq)]
pub struct StepPos {
    pub x: i32,
    pub y: i32,
    pub z: i32,
}

/// The grid points from the lowest corner to the highest, both included. The box is empty if its
/// low corner is above its high corner on some axis.
#[derive(Clone, Copy, PartialEq, Eq)]
pub struct GridBox {
    pub low: StepPos,
    pub high: StepPos,
}

impl Point3 {
    ghost use Rattle.ngc_fixed_length.specs.Length.{IsStep};
    ghost use Rattle.ngc_fixed_length.specs.Grid.{grid, IsInRange};
    ghost use Rattle.ngc_fixed_length.specs.Places.{in_plane, height};

    /// Returns the point's coordinates in a plane, without its height.
    pub fn in_plane(&self, plane: Plane) -> Point2
        ensures { result ≡ in_plane plane self.now }
    {
        let (u, v) = match plane {
            Plane::XY => (self.x, self.y),
            Plane::ZX => (self.z, self.x),
            Plane::YZ => (self.y, self.z),
        };
        Point2 { u, v }
    }

    /// Returns the coordinate on the axis perpendicular to a plane: Z, Y or X.
    pub fn height(&self, plane: Plane) -> Nm
        ensures { result ≡ height plane self.now }
    {
        match plane {
            Plane::XY => self.z,
            Plane::ZX => self.y,
            Plane::YZ => self.x,
        }
    }

    /// Returns the nearest grid point.
    pub fn to_grid(&self, step: Nm) -> StepPos
        requires { IsStep step }
        ensures value { result ≡ grid step self.now }
        ensures range { IsInRange result }
    {
        StepPos {
            x: self.x.to_grid(step),
            y: self.y.to_grid(step),
            z: self.z.to_grid(step),
        }
    }
}

impl Point2 {
    ghost use Rattle.ngc_fixed_length.specs.Places.{at_height};

    /// Returns the point of the machine at `height` above this point of a plane.
    pub fn at_height(&self, plane: Plane, height: Nm) -> Point3
        ensures { result ≡ at_height plane self.now height }
    {
        let Point2 { u, v } = *self;
        let (x, y, z) = match plane {
            Plane::XY => (u, v, height),
            Plane::ZX => (v, height, u),
            Plane::YZ => (height, u, v),
        };
        Point3 { x, y, z }
    }
}

impl StepPos {
    ghost use Rattle.ngc_fixed_length.specs.Grid.{greatest_distance};

    /// Returns the greatest of the distances along the three axes.
    pub fn greatest_distance(&self, other: &StepPos) -> u32
        ensures { result ≡ greatest_distance self.now other.now }
    {
        let x = self.x.abs_diff(other.x);
        let y = self.y.abs_diff(other.y);
        let z = self.z.abs_diff(other.z);
        x.max(y.max(z))
    }
}

fn lesser(a: i32, b: i32) -> i32
    ensures { result ≡ int_min a b }
{
    a.min(b)
}

fn greater(a: i32, b: i32) -> i32
    ensures { result ≡ int_max a b }
{
    a.max(b)
}

impl StepPos {
    ghost use Rattle.ngc_fixed_length.specs.Boxes.{is_below, lesser_corner, greater_corner};

    /// Returns whether this point is at most the other on each axis.
    pub fn is_below(&self, other: &StepPos) -> bool
        ensures { result ≡ is_below self.now other.now }
    {
        self.x <= other.x && self.y <= other.y && self.z <= other.z
    }

    /// Returns the lesser of the two coordinates on each axis.
    pub fn lesser(&self, other: &StepPos) -> StepPos
        ensures { result ≡ lesser_corner self.now other.now }
    {
        StepPos {
            x: lesser(self.x, other.x),
            y: lesser(self.y, other.y),
            z: lesser(self.z, other.z),
        }
    }

    /// Returns the greater of the two coordinates on each axis.
    pub fn greater(&self, other: &StepPos) -> StepPos
        ensures { result ≡ greater_corner self.now other.now }
    {
        StepPos {
            x: greater(self.x, other.x),
            y: greater(self.y, other.y),
            z: greater(self.z, other.z),
        }
    }
}

impl GridBox {
    ghost use Rattle.ngc_fixed_length.specs.Boxes.{box_of, holds_box, only};

    /// Returns the box of one point.
    pub fn only(point: StepPos) -> GridBox
        ensures { result ≡ only point }
    {
        GridBox {
            low: point,
            high: point,
        }
    }

    /// Returns the smallest box that contains both points.
    pub fn between(point: &StepPos, other: &StepPos) -> GridBox
        ensures { result ≡ box_of point.now other.now }
    {
        GridBox {
            low: point.lesser(other),
            high: point.greater(other),
        }
    }

    /// Returns whether this box contains all of `inner`.
    pub fn holds(&self, inner: &GridBox) -> bool
        ensures { result ≡ holds_box self.now inner.now }
    {
        self.low.is_below(&inner.low) && inner.high.is_below(&self.high)
    }
}
