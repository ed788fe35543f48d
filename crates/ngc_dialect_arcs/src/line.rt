//! An arc's line, and its words in our own language.
ghost use Rattle.std.specs.Prelude.{◌≡◌, ◌≤◌, ◌+ℤ◌, unsigned_abs};
ghost use Rattle.ngc_dialect_arcs.specs.Lines as spec;

use crate::centre::{by_radius, settled};
use crate::refusal::{ArcRefusal, length};
use ngc_dialect_names::Dialect;
use ngc_fixed_length::{Distance, Nm, Plane, Point2, Point3, Turn, Units, Value};
use ngc_offsets::AxisLengths;

/// A line with an arc, in the program's coordinates.
#[derive(Clone, Copy)]
pub struct ArcLine {
    pub dialect: Dialect,
    /// The units in force, which decide by how much the radii may differ.
    pub units: Units,
    pub plane: Plane,
    pub turn: Turn,
    pub distance: Distance,
    /// Whether I, J and K are the centre's coordinates, as after G90.1.
    pub absolute_centre: bool,
    /// The place where the arc begins.
    pub start: Point3,
    /// X, Y and Z.
    pub axes: AxisLengths,
    /// I, J and K, along X, Y and Z.
    pub offsets: AxisLengths,
    /// R.
    pub radius: Option<Nm>,
    /// P, a whole number from 0 up, in millionths.
    pub turns: Option<Value>,
}

// Returns the lengths along a plane's axes.
fn along_u(plane: Plane, lengths: &AxisLengths) -> Option<Nm>
    ensures { result ≡ spec.along_u plane lengths.now }
{
    match plane {
        Plane::XY => lengths.x,
        Plane::ZX => lengths.z,
        Plane::YZ => lengths.y,
    }
}

fn along_v(plane: Plane, lengths: &AxisLengths) -> Option<Nm>
    ensures { result ≡ spec.along_v plane lengths.now }
{
    match plane {
        Plane::XY => lengths.y,
        Plane::ZX => lengths.x,
        Plane::YZ => lengths.z,
    }
}

// Returns whether there is a length along the plane's third axis.
fn has_third(plane: Plane, lengths: &AxisLengths) -> bool
    ensures { result ≡ spec.has_third plane lengths.now }
{
    match plane {
        Plane::XY => lengths.z.is_some(),
        Plane::ZX => lengths.y.is_some(),
        Plane::YZ => lengths.x.is_some(),
    }
}

fn in_axes(plane: Plane, u: Option<Nm>, v: Option<Nm>) -> AxisLengths
    ensures { result ≡ spec.in_axes plane u v }
{
    match plane {
        Plane::XY => AxisLengths {
            x: u,
            y: v,
            z: None,
        },
        Plane::ZX => AxisLengths {
            x: v,
            y: None,
            z: u,
        },
        Plane::YZ => AxisLengths {
            x: None,
            y: u,
            z: v,
        },
    }
}

// Returns a length less another one.
fn less(length_there: Nm, start: Nm) -> Result<Nm, ArcRefusal>
    ensures { result ≡ spec.less length_there start }
{
    length(i128::from(length_there.nanometres()) - i128::from(start.nanometres()))
}

// Returns the distance to the end along an axis.
fn distance_along(distance: Distance, start: Nm, word: Option<Nm>) -> Result<Nm, ArcRefusal>
    ensures { result ≡ spec.distance_along distance start word }
{
    match word {
        None => Ok(Nm::zero()),
        Some(word) => match distance {
            Distance::Incremental => Ok(word),
            Distance::Absolute => less(word, start),
        },
    }
}

// Returns the distance to the centre along an axis.
fn offset_along(is_absolute: bool, start: Nm, word: Option<Nm>) -> Result<Nm, ArcRefusal>
    ensures { result ≡ spec.offset_along is_absolute start word }
{
    match word {
        None => {
            if is_absolute {
                Err(ArcRefusal::OneOffset)
            } else {
                Ok(Nm::zero())
            }
        }
        Some(word) => {
            if is_absolute {
                less(word, start)
            } else {
                Ok(word)
            }
        }
    }
}

// Returns an offset's word, which isn't written if the line doesn't have it and it is 0.
fn shown(word: Option<Nm>, offset: Nm) -> Option<Nm>
    ensures { result ≡ spec.shown word offset }
{
    match word {
        None => {
            if offset.nanometres() == 0 {
                None
            } else {
                Some(offset)
            }
        }
        Some(_) => Some(offset),
    }
}

fn staying(distance: Distance, start: Nm) -> Nm
    ensures { result ≡ spec.staying distance start }
{
    match distance {
        Distance::Absolute => start,
        Distance::Incremental => Nm::zero(),
    }
}

fn with_u(plane: Plane, length: Nm, axes: &AxisLengths) -> AxisLengths
    ensures { result ≡ spec.with_u plane length axes.now }
{
    let mut axes = *axes;
    match plane {
        Plane::XY => axes.x = Some(length),
        Plane::ZX => axes.z = Some(length),
        Plane::YZ => axes.y = Some(length),
    }
    axes
}

fn sum_of(a: Nm, b: Nm) -> i64
    ensures value { result ≡ a +ℤ b }
    ensures bound { unsigned_abs result ≤ 200000000000 }
{
    a.nanometres() + b.nanometres()
}

// Returns where the program's zero is on an axis.
fn zero_at(origin: Nm, offset: Nm, tool: Nm) -> i64
    ensures value { result ≡ (origin +ℤ offset) +ℤ tool }
    ensures bound { unsigned_abs result ≤ 300000000000 }
{
    sum_of(origin, offset) + tool.nanometres()
}

fn from_zero(place: Nm, zero: i64) -> Result<Nm, ArcRefusal>
    requires { unsigned_abs zero ≤ 300000000000 }
    ensures { result ≡ spec.from_zero place zero }
{
    length(i128::from(place.nanometres()) - i128::from(zero))
}

// Returns the coordinate of a place, by the origin and the offsets of its axis.
fn coordinate(place: Nm, origin: Nm, offset: Nm, tool: Nm) -> Result<Nm, ArcRefusal>
    ensures { result ≡ spec.coordinate place origin offset tool }
{
    from_zero(place, zero_at(origin, offset, tool))
}

/// Returns the place of the axes in the program's coordinates, by the coordinate system's origin,
/// the axis offset and the tool length offset.
pub fn programmed(
    place: &Point3,
    origin: &Point3,
    offset: &Point3,
    tool: Nm,
) -> Result<Point3, ArcRefusal>
    ensures { result ≡ spec.programmed place.now origin.now offset.now tool }
{
    let x = coordinate(place.x, origin.x, offset.x, Nm::zero())?;
    let y = coordinate(place.y, origin.y, offset.y, Nm::zero())?;
    let z = coordinate(place.z, origin.z, offset.z, tool)?;
    Ok(Point3 { x, y, z })
}

fn is_linuxcnc(dialect: Dialect) -> bool
    ensures { result ≡ spec.is_linuxcnc dialect }
{
    matches!(dialect, Dialect::LinuxCnc)
}

fn counts_turns(dialect: Dialect) -> bool
    ensures { result ≡ spec.counts_turns dialect }
{
    matches!(dialect, Dialect::LinuxCnc | Dialect::Grbl)
}

// Returns why a number of turns is refused, if it is.
fn turns_fault(turns: Option<Value>) -> Option<ArcRefusal>
    ensures { result ≡ spec.turns_fault turns }
{
    match turns {
        None => None,
        Some(turns) => {
            if turns.millionths() == 0 {
                Some(ArcRefusal::NoTurn)
            } else if turns.millionths() == 1_000_000 {
                None
            } else {
                Some(ArcRefusal::SeveralTurns)
            }
        }
    }
}

impl ArcLine {
    fn start_in_plane(&self) -> Point2
        ensures { result ≡ spec.start_of self.now }
    {
        self.start.in_plane(self.plane)
    }

    // Returns the vector from start to end.
    #[tactic(auto, unfolding(crate::specs::Lines::end_of))]
    fn end(&self) -> Result<Point2, ArcRefusal>
        ensures { result ≡ spec.end_of self.now }
    {
        let start = self.start_in_plane();
        let u = distance_along(self.distance, start.u, along_u(self.plane, &self.axes))?;
        let v = distance_along(self.distance, start.v, along_v(self.plane, &self.axes))?;
        Ok(Point2 { u, v })
    }

    fn has_offset(&self) -> bool
        ensures { result ≡ spec.has_offset self.now }
    {
        along_u(self.plane, &self.offsets).is_some() || along_v(self.plane, &self.offsets).is_some()
    }

    // Returns the vector from the start to the centre that the offsets name.
    #[tactic(auto, unfolding(crate::specs::Lines::given))]
    fn given(&self) -> Result<Point2, ArcRefusal>
        ensures { result ≡ spec.given self.now }
    {
        let start = self.start_in_plane();
        let is_absolute = self.absolute_centre;
        let u = offset_along(is_absolute, start.u, along_u(self.plane, &self.offsets))?;
        let v = offset_along(is_absolute, start.v, along_v(self.plane, &self.offsets))?;
        Ok(Point2 { u, v })
    }

    fn by_offsets(&self, written: Units, end: &Point2) -> Result<Point2, ArcRefusal>
        ensures { result ≡ spec.by_offsets written self.now end.now }
    {
        if !self.has_offset() {
            return Err(ArcRefusal::NoCentre);
        }
        let given = self.given()?;
        settled(self.dialect, self.units, written, end, &given)
    }

    // Returns why a word is refused, if one is.
    #[tactic(auto, unfolding(crate::specs::Lines::word_fault))]
    fn word_fault(&self) -> Option<ArcRefusal>
        ensures { result ≡ spec.word_fault self.now }
    {
        if is_linuxcnc(self.dialect) && has_third(self.plane, &self.offsets) {
            Some(ArcRefusal::ThirdOffset)
        } else {
            None
        }
    }

    // Returns why the number of turns is refused, if it is.
    #[tactic(auto, unfolding(crate::specs::Lines::count_fault))]
    fn count_fault(&self) -> Option<ArcRefusal>
        ensures { result ≡ spec.count_fault self.now }
    {
        if counts_turns(self.dialect) {
            turns_fault(self.turns)
        } else {
            None
        }
    }

    // Returns the vector from the start to the centre, by R or by the offsets.
    fn centre_by(&self, written: Units, end: &Point2) -> Result<Point2, ArcRefusal>
        ensures { result ≡ spec.centre_by written self.now end.now self.now.radius }
    {
        match self.radius {
            None => self.by_offsets(written, end),
            Some(radius) => {
                if self.has_offset() {
                    Err(ArcRefusal::RadiusBesideOffsets)
                } else {
                    by_radius(self.dialect, written, self.turn, end, radius)
                }
            }
        }
    }

    // Returns the vector from the start to the centre, unless the line is refused.
    #[tactic(auto, unfolding(crate::specs::Lines::centre_of))]
    fn centre(&self, written: Units) -> Result<Point2, ArcRefusal>
        ensures { result ≡ spec.centre_of written self.now }
    {
        if let Some(refusal) = self.word_fault() {
            return Err(refusal);
        }
        let end = self.end()?;
        let centre = self.centre_by(written, &end)?;
        match self.count_fault() {
            None => Ok(centre),
            Some(refusal) => Err(refusal),
        }
    }

    /// Returns I, J and K of our own language, along X, Y and Z, for a line that is written in
    /// these units. The arc may be refused.
    #[tactic(auto, unfolding(crate::specs::Lines::plain_offsets))]
    pub fn plain_offsets(&self, written: Units) -> Result<AxisLengths, ArcRefusal>
        ensures { result ≡ spec.plain_offsets written self.now }
    {
        let centre = self.centre(written)?;
        let u = shown(along_u(self.plane, &self.offsets), centre.u);
        let v = shown(along_v(self.plane, &self.offsets), centre.v);
        Ok(in_axes(self.plane, u, v))
    }

    /// Returns X, Y and Z of our own language, which needs a word of the plane.
    #[tactic(auto, unfolding(crate::specs::Lines::plain_axes))]
    pub fn plain_axes(&self) -> AxisLengths
        ensures { result ≡ spec.plain_axes self.now }
    {
        if along_u(self.plane, &self.axes).is_none() && along_v(self.plane, &self.axes).is_none() {
            let start = self.start_in_plane();
            with_u(self.plane, staying(self.distance, start.u), &self.axes)
        } else {
            self.axes
        }
    }
}
