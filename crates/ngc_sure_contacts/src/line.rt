ghost use Rattle.std.specs.Prelude.{◌≡◌, ◌≤◌, ◌<◌, ◌+◌, ◌*◌, ◌-ℤ◌, ◌+ℤ◌, unsigned_abs};
ghost use Rattle.ngc_fixed_length.specs.Signed.{same};
ghost use Rattle.ngc_stock.specs.Cuts.{lower_tip};
ghost use Rattle.ngc_stock.specs.Stocks.{is_slope, pieces, piece, point_at, flat, tip, highest_tip, lowest_tip};

use ngc_cells::{Spot, Stretch};
use ngc_fixed_length::{Nm, Point3};
use ngc_stock::Cylinder;

/// A straight line of the spindle nose, in nanometres of the machine.
#[derive(Clone, Copy)]
pub(crate) struct Line {
    pub(crate) start: Point3,
    pub(crate) end: Point3,
}

/// Returns whether two lengths are the same.
fn same(one: Nm, other: Nm) -> bool
    ensures { result ≡ same one other }
{
    (one.nanometres() - other.nanometres()).unsigned_abs() == 0
}

/// Returns a point's place in the plane.
fn flat(point: &Point3) -> Spot
    ensures { result ≡ flat point.now }
{
    Spot {
        x: point.x.nanometres(),
        y: point.y.nanometres(),
    }
}

impl Line {
    /// Returns how much higher the end is than the start.
    fn climb(&self) -> i64
        ensures value { result ≡ self.now.end.z -ℤ self.now.start.z }
        ensures bound { unsigned_abs result ≤ 200000000000 }
    {
        self.end.z.nanometres() - self.start.z.nanometres()
    }

    /// Returns whether the line is neither level nor upright.
    fn is_slope(&self) -> bool
        ensures { result ≡ is_slope self.now.start self.now.end }
    {
        !same(self.start.z, self.end.z)
            && !(same(self.start.x, self.end.x) && same(self.start.y, self.end.y))
    }

    /// Returns the number of pieces: one, or for a slope pieces of at most 0.05 mm in height, but at
    /// most 1,000.
    pub(crate) fn pieces(&self) -> u32
        ensures value { result ≡ pieces self.now.start self.now.end }
        ensures least { 0 < result }
        ensures most { result ≤ 1000 }
    {
        if self.is_slope() {
            1000.min(self.climb().unsigned_abs() / 50_000 + 1) as u32
        } else {
            1
        }
    }

    /// Returns a piece of the line in the plane.
    pub(crate) fn piece(&self, part: u32) -> Stretch
        ensures { result ≡ piece self.now.start self.now.end part }
    {
        Stretch {
            start: flat(&self.start),
            end: flat(&self.end),
            parts: self.pieces(),
            part,
        }
    }

    /// Returns the end of the line in the plane.
    pub(crate) fn end_point(&self) -> Stretch
        ensures { result ≡ point_at self.now.end }
    {
        Stretch {
            start: flat(&self.end),
            end: flat(&self.end),
            parts: 1,
            part: 0,
        }
    }

    /// Returns the number of pieces times the height of a cylinder's foot at a point of the line.
    fn tip(&self, cylinder: &Cylinder, part: u32) -> i64
        requires { part ≤ 1000 }
        ensures value { result ≡ tip cylinder.now (pieces self.now.start self.now.end) part self.now.start self.now.end }
        ensures bound { unsigned_abs result ≤ 400000000000000 }
    {
        let first = self.start.z.nanometres() + cylinder.bottom.nanometres();
        i64::from(self.pieces()) * first + i64::from(part) * self.climb()
    }

    /// Returns the height of a cylinder's foot at the higher end of a piece, rounded up.
    pub(crate) fn highest_tip(&self, cylinder: &Cylinder, part: u32) -> i64
        requires { part < 1000 }
        ensures value { result ≡ highest_tip cylinder.now self.now.start self.now.end part }
        ensures bound { unsigned_abs result ≤ 400000000000000 }
    {
        let highest = self.tip(cylinder, part).max(self.tip(cylinder, part + 1));
        -(-highest).div_euclid(i64::from(self.pieces()))
    }

    /// Returns the height of a cylinder's foot at the lower end of a piece, rounded down.
    pub(crate) fn lowest_tip(&self, cylinder: &Cylinder, part: u32) -> i64
        requires { part < 1000 }
        ensures value { result ≡ lowest_tip cylinder.now self.now.start self.now.end part }
        ensures bound { unsigned_abs result ≤ 400000000000000 }
    {
        let lowest = self.tip(cylinder, part).min(self.tip(cylinder, part + 1));
        lowest.div_euclid(i64::from(self.pieces()))
    }

    /// Returns the height of a cylinder's foot at the lower end of the line.
    pub(crate) fn lower_tip(&self, cylinder: &Cylinder) -> i64
        ensures value { result ≡ lower_tip cylinder.now self.now.start self.now.end }
        ensures bound { unsigned_abs result ≤ 200000000000 }
    {
        let (start, end) = (self.start.z.nanometres(), self.end.z.nanometres());
        let lower = if end < start { end } else { start };
        lower + cylinder.bottom.nanometres()
    }

    /// Returns the height of a cylinder's foot at the end of the line.
    pub(crate) fn last_tip(&self, cylinder: &Cylinder) -> i64
        ensures value { result ≡ self.now.end.z +ℤ cylinder.now.bottom }
        ensures bound { unsigned_abs result ≤ 200000000000 }
    {
        self.end.z.nanometres() + cylinder.bottom.nanometres()
    }
}
