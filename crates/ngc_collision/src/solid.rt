ghost use Rattle.std.specs.Prelude.{◌≡◌, ◌≤◌, ◌+◌, ◌*◌, ◌*ℤ◌, ◌+ℤ◌, ◌-ℤ◌, map, unsigned_abs};
ghost use Rattle.std.specs.Prelude.{int_le, ◌||◌};
ghost use Rattle.std.specs.List.{list_all};
ghost use Rattle.ngc_fixed_length.specs.Length.{IsStep};
ghost use Rattle.ngc_collision.specs.Body.{nanometres_of, bodies, span, filled, stacked, are_apart};
ghost use Rattle.ngc_collision.specs.Body.{is_below};
ghost use Rattle.ngc_collision.specs.Inside.{place_of, solid_of, REACH, FOOT_REACH, IsReached};

use arrayvec::ArrayVec;
use ngc_fixed_length::{GridBox, Nm, Point3, StepPos, nanometres_at};
use ngc_machine_files::{Fixture, Part, Tool};

/// A position of the machine, in nanometres.
#[derive(Clone, Copy, Default)]
pub struct Place {
    pub x: i64,
    pub y: i64,
    pub z: i64,
}

/// A box, in nanometres.
#[derive(Clone, Copy, Default)]
pub struct Solid {
    pub low: Place,
    pub high: Place,
}

/// Returns a coordinate lowered by `by`.
fn lowered(coordinate: i64, by: Nm) -> i64
    requires { unsigned_abs coordinate ≤ REACH }
    ensures { result ≡ coordinate -ℤ by }
{
    coordinate - by.nanometres()
}

/// Returns a coordinate raised by `by`.
fn raised(coordinate: i64, by: Nm) -> i64
    requires { unsigned_abs coordinate ≤ 2 * REACH }
    ensures { result ≡ coordinate +ℤ by }
{
    coordinate + by.nanometres()
}

/// Returns the coordinate of a part's foot, from its height above the spindle nose.
fn foot_at(coordinate: i64, foot: i64) -> i64
    requires coordinate { unsigned_abs coordinate ≤ REACH }
    requires foot { unsigned_abs foot ≤ FOOT_REACH }
    ensures value { result ≡ coordinate +ℤ foot }
    ensures bound { unsigned_abs result ≤ 2 * REACH }
{
    coordinate + foot
}

/// Returns the foot of the part on top of this one.
fn top_of(part: &Part, foot: i64) -> i64
    requires { unsigned_abs foot ≤ FOOT_REACH }
    ensures value { result ≡ foot +ℤ part.now.length }
    ensures bound { unsigned_abs result ≤ unsigned_abs foot + 100000000000 }
{
    foot + part.length.nanometres()
}

impl Place {
    /// Returns the position of a grid point.
    pub(crate) fn of(step: Nm, point: &StepPos) -> Place
        requires { IsStep step }
        ensures value { place_of result ≡ nanometres_of step point.now }
        ensures reached { IsReached result }
    {
        Place {
            x: nanometres_at(step, point.x),
            y: nanometres_at(step, point.y),
            z: nanometres_at(step, point.z),
        }
    }

    /// Returns a point as a position.
    pub fn at(point: &Point3) -> Place
        ensures { place_of result ≡ point.now }
    {
        Place {
            x: point.x.nanometres(),
            y: point.y.nanometres(),
            z: point.z.nanometres(),
        }
    }

    /// Returns the lowest corner of a part, with the spindle nose here and the part's foot at
    /// the height `foot` above it.
    fn lowest_filled(&self, part: &Part, foot: i64) -> Place
        requires here { IsReached self.now }
        requires foot { unsigned_abs foot ≤ FOOT_REACH }
        ensures { place_of result
            ≡ (filled part.now foot
            (record { low = place_of self.now; high = place_of self.now })).low }
    {
        Place {
            x: lowered(self.x, part.radius.length()),
            y: lowered(self.y, part.radius.length()),
            z: foot_at(self.z, foot),
        }
    }

    /// Returns the highest corner of a part, with the spindle nose here and the part's foot at
    /// the height `foot` above it.
    fn highest_filled(&self, part: &Part, foot: i64) -> Place
        requires here { IsReached self.now }
        requires foot { unsigned_abs foot ≤ FOOT_REACH }
        ensures { place_of result
            ≡ (filled part.now foot
            (record { low = place_of self.now; high = place_of self.now })).high }
    {
        Place {
            x: raised(self.x, part.radius.length()),
            y: raised(self.y, part.radius.length()),
            z: raised(foot_at(self.z, foot), part.length.length()),
        }
    }

    /// Returns whether this position is at most the other on each axis.
    pub(crate) fn is_below(&self, other: &Place) -> bool
        ensures { result ≡ is_below (place_of self.now) (place_of other.now) }
    {
        self.x <= other.x && self.y <= other.y && self.z <= other.z
    }
}

impl Solid {
    /// Returns the box that a box of grid points spans.
    fn spanned(step: Nm, bounds: &GridBox) -> Solid
        requires { IsStep step }
        ensures value { solid_of result ≡ span step bounds.now }
        ensures low { IsReached result.low }
        ensures high { IsReached result.high }
    {
        Solid {
            low: Place::of(step, &bounds.low),
            high: Place::of(step, &bounds.high),
        }
    }

    /// Returns the box that a part fills while the spindle nose moves over this box. The part's
    /// foot is at the height `foot` above that point. The box extends by the radius to each side,
    /// and by the length above the foot.
    fn filled(&self, part: &Part, foot: i64) -> Solid
        requires low { IsReached self.now.low }
        requires high { IsReached self.now.high }
        requires foot { unsigned_abs foot ≤ FOOT_REACH }
        ensures { solid_of result ≡ filled part.now foot (solid_of self.now) }
    {
        Solid {
            low: self.low.lowest_filled(part, foot),
            high: self.high.highest_filled(part, foot),
        }
    }

    /// Returns the boxes that the parts of a tool fill while its spindle nose moves over this
    /// one. Each part is on top of the one before.
    fn stacked(&self, tool: &Tool) -> ArrayVec<Solid, 4>
        requires low { IsReached self.now.low }
        requires high { IsReached self.now.high }
        ensures { stacked tool.now.bottom tool.now.parts (solid_of self.now)
            ≡ map solid_of result.items }
    {
        let mut foot = tool.bottom.nanometres();
        let mut solids = ArrayVec::new();
        for part in tool.parts.as_slice() {
            solids.push(self.filled(part, foot));
            foot = top_of(part, foot);
        }
        solids
    }

    /// Returns the boxes that the parts of a tool fill while its spindle nose moves over a box
    /// of grid points. Without a tool it is the box of the spindle nose.
    pub fn swept(step: Nm, tool: Option<Tool>, bounds: &GridBox) -> ArrayVec<Solid, 4>
        requires { IsStep step }
        ensures { bodies tool (span step bounds.now) ≡ map solid_of result.items }
    {
        let points = Solid::spanned(step, bounds);
        match tool {
            None => {
                let mut point = ArrayVec::new();
                point.push(points);
                point
            }
            Some(tool) => points.stacked(&tool),
        }
    }

    /// Returns the box of a fixture.
    fn of_fixture(fixture: &Fixture) -> Solid
        ensures low { place_of result.low ≡ fixture.now.low }
        ensures high { place_of result.high ≡ fixture.now.high }
    {
        Solid {
            low: Place::at(&fixture.low),
            high: Place::at(&fixture.high),
        }
    }

    /// Returns whether the boxes are apart along the X axis; they may touch.
    fn is_left_or_right(&self, other: &Solid) -> bool
        ensures { result
            ≡ (int_le self.now.high.x other.now.low.x || int_le other.now.high.x self.now.low.x) }
    {
        self.high.x <= other.low.x || other.high.x <= self.low.x
    }

    /// Returns whether the boxes are apart along the Y axis; they may touch.
    fn is_before_or_behind(&self, other: &Solid) -> bool
        ensures { result
            ≡ (int_le self.now.high.y other.now.low.y || int_le other.now.high.y self.now.low.y) }
    {
        self.high.y <= other.low.y || other.high.y <= self.low.y
    }

    /// Returns whether the boxes are apart along the Z axis; they may touch.
    fn is_above_or_below(&self, other: &Solid) -> bool
        ensures { result
            ≡ (int_le self.now.high.z other.now.low.z || int_le other.now.high.z self.now.low.z) }
    {
        self.high.z <= other.low.z || other.high.z <= self.low.z
    }

    /// Returns whether the box and the fixture are apart along some axis; they may touch.
    fn is_apart(&self, fixture: &Fixture) -> bool
        ensures { result ≡ are_apart fixture.now (solid_of self.now) }
    {
        let fixture = Solid::of_fixture(fixture);
        self.is_left_or_right(&fixture)
            || self.is_before_or_behind(&fixture)
            || self.is_above_or_below(&fixture)
    }
}

/// Returns whether each of these boxes and the fixture are apart along some axis; they may touch.
pub(crate) fn are_apart(solids: &[Solid], fixture: &Fixture) -> bool
    ensures { result ≡ list_all (are_apart fixture.now) (map solid_of solids.now) }
{
    for solid in solids {
        if !solid.is_apart(fixture) {
            return false;
        }
    }
    true
}
