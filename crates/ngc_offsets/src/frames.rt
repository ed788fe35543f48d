ghost use Rattle.std.specs.Prelude.{◌≡◌, ◌<◌, ◌-ℤ◌, All, IfOk};
ghost use Rattle.ngc_fixed_length.specs.Places.{zero_point};
ghost use Rattle.ngc_offsets.specs.Ranges.{OFFSET_LIMIT, SHIFT_LIMIT, AreInRange, IsOffset};
ghost use Rattle.ngc_offsets.specs.Ranges.{IsWithin, IsMachinePlace, IsProgrammedPlace};
ghost use Rattle.ngc_offsets.specs.Faults.{Becomes, offset as offset_in};
ghost use Rattle.ngc_offsets.specs.Frames.{index, on_axis, new_origin as origin_after};
ghost use Rattle.ngc_offsets.specs.Frames.{new_axis as axis_after, left_over as left_over_of};

use crate::fault::{Axis, CoordinateRange, FrameFault};
use crate::given::{AxisLengths, named_point};
use crate::range::{coordinate, minus, offset, plus};
use ngc_fixed_length::{Distance, Nm, Point3, System};
use std::marker::Model;

/// The origins and offsets that map programmed coordinates to machine coordinates: the origins of
/// the nine coordinate systems, the active system, the axis offset in force, the one that G92
/// saved, and the tool length offset, on Z. Each is at most 4*10^9 nm in size. `reach` is how far
/// from zero programmed coordinates may be.
#[derive(Clone, Copy)]
pub struct Frames {
    pub origins: [Point3; 9],
    pub active: System,
    pub axis_offset: Point3,
    pub saved: Point3,
    pub length: Nm,
    pub reach: CoordinateRange,
}

impl Model for Frames {
    ghost use Rattle.ngc_offsets.specs.Offsets.{Offsets};
    ghost use Rattle.ngc_offsets.specs.Ranges.{AreInRange};

    ghost Value = { Offsets };

    ghost view = { λ f. record {
      origins = f.origins;
      active = f.active;
      axis_offset = f.axis_offset;
      saved = f.saved;
      length = f.length;
      reach = f.reach;
    } };

    ghost invariant = { λ f. AreInRange
        (record {
          origins = f.origins;
          active = f.active;
          axis_offset = f.axis_offset;
          saved = f.saved;
          length = f.length;
          reach = f.reach;
        }) };

    ghost inverse = { λ f. record {
      origins = f.origins;
      active = f.active;
      axis_offset = f.axis_offset;
      saved = f.saved;
      length = f.length;
      reach = f.reach;
    } };
}

fn index_of(system: System) -> usize
    ensures value { result ≡ index system }
    ensures nine { result < 9 }
{
    match system {
        System::First => 0,
        System::Second => 1,
        System::Third => 2,
        System::Fourth => 3,
        System::Fifth => 4,
        System::Sixth => 5,
        System::Seventh => 6,
        System::Eighth => 7,
        System::Ninth => 8,
    }
}

fn zero() -> Point3
    ensures { result ≡ zero_point }
{
    Point3 {
        x: Nm::zero(),
        y: Nm::zero(),
        z: Nm::zero(),
    }
}

// Returns an origin's coordinates after G10. A missing coordinate stays.
fn new_origin(had: &Point3, given: &AxisLengths) -> Result<Point3, FrameFault>
    requires { IsWithin OFFSET_LIMIT had.now }
    ensures value { result ≡ origin_after had.now given.now }
    ensures range { IfOk result (IsWithin OFFSET_LIMIT) }
{
    let x = new_coordinate(Axis::X, had.x, given.x)?;
    let y = new_coordinate(Axis::Y, had.y, given.y)?;
    let z = new_coordinate(Axis::Z, had.z, given.z)?;
    Ok(Point3 { x, y, z })
}

fn new_coordinate(axis: Axis, had: Nm, given: Option<Nm>) -> Result<Nm, FrameFault>
    requires { IsOffset had }
    ensures value { result ≡ on_axis (offset_in axis) had given }
    ensures range { IfOk result IsOffset }
{
    match given {
        None => Ok(had),
        Some(length) => offset(axis, length.nanometres()),
    }
}

// Returns the axis offset after G92. With it, the machine place has the coordinates `given`. A
// missing coordinate stays.
fn new_axis(
    reach: CoordinateRange,
    place: &Point3,
    base: &Point3,
    had: &Point3,
    given: &AxisLengths,
) -> Result<Point3, FrameFault>
    requires { IsWithin OFFSET_LIMIT had.now }
    ensures value { result ≡ axis_after reach place.now base.now had.now given.now }
    ensures range { IfOk result (IsWithin OFFSET_LIMIT) }
{
    let x = new_offset(reach, Axis::X, place.x, base.x, had.x, given.x)?;
    let y = new_offset(reach, Axis::Y, place.y, base.y, had.y, given.y)?;
    let z = new_offset(reach, Axis::Z, place.z, base.z, had.z, given.z)?;
    Ok(Point3 { x, y, z })
}

fn new_offset(
    reach: CoordinateRange,
    axis: Axis,
    place: Nm,
    base: Nm,
    had: Nm,
    given: Option<Nm>,
) -> Result<Nm, FrameFault>
    requires { IsOffset had }
    ensures value { result ≡ on_axis (left_over_of reach axis place base) had given }
    ensures range { IfOk result IsOffset }
{
    match given {
        None => Ok(had),
        Some(length) => left_over(reach, axis, place, base, length),
    }
}

// Returns `place - base - coordinate`, in nanometres.
fn excess(place: Nm, base: Nm, coordinate: Nm) -> i64
    ensures { result ≡ place -ℤ base -ℤ coordinate }
{
    let rest = place.nanometres() - base.nanometres();
    rest - coordinate.nanometres()
}

// Returns the axis offset with which a machine place has the coordinate `length`.
fn left_over(
    reach: CoordinateRange,
    axis: Axis,
    place: Nm,
    base: Nm,
    length: Nm,
) -> Result<Nm, FrameFault>
    ensures value { result ≡ left_over_of reach axis place base length }
    ensures range { IfOk result IsOffset }
{
    let coordinate = coordinate(reach, axis, length.nanometres())?;
    offset(axis, excess(place, base, coordinate))
}

impl Frames {
    ghost use Rattle.ngc_offsets.specs.Frames.{start_frames, base_of, shift_of, to_machine};
    ghost use Rattle.ngc_offsets.specs.Frames.{to_program, IsReachable, set_origin, set_axis};
    ghost use Rattle.ngc_offsets.specs.Frames.{clear, suspend, restore, set_length, select};
    ghost use Rattle.ngc_offsets.specs.Given.{target};

    /// Returns the frames at a program's start: the first system is active, and there is no offset.
    pub fn new(origins: &[Point3; 9], reach: CoordinateRange) -> Frames
        requires { All (IsWithin OFFSET_LIMIT) origins.now }
        ensures { result ≡ start_frames reach origins.now }
    {
        let mut nine = [zero(); 9];
        nine.copy_from_slice(origins);
        Frames {
            origins: nine,
            active: System::First,
            axis_offset: zero(),
            saved: zero(),
            length: Nm::zero(),
            reach,
        }
    }

    // Returns the difference between machine places and programmed places, without the axis offset.
    fn base(&self) -> Point3
        ensures value { result ≡ base_of self.now }
        ensures range { IsWithin 8000000000 result }
    {
        let origin = &self.origins[index_of(self.active)];
        Point3 {
            x: origin.x,
            y: origin.y,
            z: origin.z.plus(self.length),
        }
    }

    // Returns the difference between machine places and programmed places.
    fn shift(&self) -> Point3
        ensures value { result ≡ shift_of self.now }
        ensures range { IsWithin SHIFT_LIMIT result }
        ensures offsets { AreInRange self.now }
    {
        plus(&self.base(), &self.axis_offset)
    }

    /// Returns the machine place of a programmed one. It adds the active system's origin, the axis
    /// offset and, on Z, the tool length offset. NISTIR 6556, 3.2.2.
    pub fn to_machine(&self, place: Point3) -> Point3
        requires { IsReachable self.now place }
        ensures { result ≡ to_machine self.now place }
    {
        plus(&place, &self.shift())
    }

    /// Returns the programmed place of a machine place.
    pub fn to_program(&self, place: Point3) -> Point3
        requires { IsMachinePlace place }
        ensures value { result ≡ to_program self.now place }
        ensures range { IsProgrammedPlace result }
        ensures reachable { IsReachable self.now result }
        ensures offsets { AreInRange self.now }
    {
        minus(&place, &self.shift())
    }

    /// Returns the machine place to which a line's lengths lead, from the machine place where it
    /// begins. After G91 they are added to the programmed current point. Returns `BeyondRange` if a
    /// programmed coordinate is farther than the reach. NISTIR 6556, 3.5.17.
    pub fn target(
        &self,
        distance: Distance,
        place: Point3,
        given: &AxisLengths,
    ) -> Result<Point3, FrameFault>
        requires { IsMachinePlace place }
        ensures value { result ≡ target distance self.now place given.now }
        ensures range { IfOk result IsMachinePlace }
    {
        let shift = self.shift();
        let programmed = named_point(self.reach, distance, &minus(&place, &shift), given)?;
        Ok(plus(&programmed, &shift))
    }

    /// G10 L2: sets a system's origin on the programmed axes. Returns `BeyondRange` if a
    /// length is over 4*10^9 nm in size; the frames are then unchanged. NISTIR 6556, 3.5.5.
    pub fn set_origin(&mut self, system: System, given: &AxisLengths) -> Result<(), FrameFault>
        ensures { Becomes result self.old self.new (set_origin self.old system given.now) }
    {
        let index = index_of(system);
        let origin = new_origin(&self.origins[index], given)?;
        self.origins[index] = origin;
        Ok(())
    }

    /// G92: sets the axis offset so that the machine place has the programmed coordinates,
    /// and saves it. Returns `BeyondRange` if a coordinate is farther than the reach or an offset
    /// over 4*10^9 nm in size; the frames are then unchanged. NISTIR 6556, 3.5.18.
    pub fn set_axis(&mut self, place: Point3, given: &AxisLengths) -> Result<(), FrameFault>
        ensures { Becomes result self.old self.new (set_axis self.old place given.now) }
    {
        let base = self.base();
        let axis = new_axis(self.reach, &place, &base, &self.axis_offset, given)?;
        self.axis_offset = axis;
        self.saved = self.axis_offset;
        Ok(())
    }

    /// Sets the tool length offset: for G43 to its tool's, for G49 and H0 to 0. Returns
    /// `NoSuchTool` for `None`, and `BeyondRange` for a length over 4*10^9 nm in size; the frames
    /// are then unchanged. NISTIR 6556, 3.5.11.
    pub fn set_length(&mut self, length: Option<Nm>) -> Result<(), FrameFault>
        ensures { Becomes result self.old self.new (set_length self.old length) }
    {
        match length {
            None => Err(FrameFault::NoSuchTool),
            Some(length) => {
                self.length = offset(Axis::Z, length.nanometres())?;
                Ok(())
            }
        }
    }

    /// G92.1: clears the axis offset, and the saved one.
    pub fn clear(&mut self)
        ensures { self.new ≡ clear self.old }
    {
        self.suspend();
        self.saved = zero();
    }

    /// G92.2: clears the axis offset, and keeps the saved one.
    pub fn suspend(&mut self)
        ensures { self.new ≡ suspend self.old }
    {
        self.axis_offset = zero();
    }

    /// G92.3: restores the saved axis offset.
    pub fn restore(&mut self)
        ensures { self.new ≡ restore self.old }
    {
        self.axis_offset = self.saved;
    }

    /// G54 to G59.3: selects a coordinate system.
    pub fn select(&mut self, system: System)
        ensures { self.new ≡ select self.old system }
    {
        self.active = system;
    }
}
