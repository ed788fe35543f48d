//! Frames, and which parts of them lines set.
ghost use Rattle.std.specs.Prelude.{◌≡◌, ◌<◌};
ghost use Rattle.ngc_offsets.specs.Frames.{index};
ghost use Rattle.ngc_frames.specs.Frame.{are_same_points, is_same_frame, is_same_part};
ghost use Rattle.ngc_frames.specs.Frame.{is_same_point, is_same_unit, selected_origin};
ghost use Rattle.ngc_frames.specs.Frame.{system_origin};

use ngc_fixed_length::{Point3, System, Units};
use ngc_offsets::Frames;

/// The meaning of a line's coordinates: the coordinate systems and offsets in force, and the unit
/// of lengths.
#[derive(Clone, Copy)]
pub struct Frame {
    pub frames: Frames,
    pub unit: Units,
}

/// A part of a frame that a line of the program can set.
#[derive(Clone, Copy)]
pub enum FramePart {
    /// Which coordinate system is selected: G54 to G59.3.
    Selection,
    /// The origin of a coordinate system: G10 L2.
    Origin(System),
    /// The axis offset: G92 to G92.3.
    AxisOffset,
    /// The tool length offset: G43, G49.
    ToolLength,
    /// The unit of lengths: G20, G21.
    Unit,
}

/// Returns the position of a coordinate system among the nine, from 0.
pub fn index_of(system: System) -> usize
    ensures value { result ≡ index system }
    ensures nine { result < 9 }
{
    match system {
        System::First => 0,
        System::Second => 1,
        System::Third => 2,
        System::Fourth => 3,
        System::Fifth => 4,
        System::Sixth => 5,
        System::Seventh => 6,
        System::Eighth => 7,
        System::Ninth => 8,
    }
}

fn is_same_unit(a: Units, b: Units) -> bool
    ensures { result ≡ is_same_unit a b }
{
    match (a, b) {
        (Units::Millimetres, Units::Millimetres) => true,
        (Units::Inches, Units::Inches) => true,
        _ => false,
    }
}

fn is_same_point(p: &Point3, q: &Point3) -> bool
    ensures { result ≡ is_same_point p.now q.now }
{
    p.x.nanometres() == q.x.nanometres()
        && p.y.nanometres() == q.y.nanometres()
        && p.z.nanometres() == q.z.nanometres()
}

fn are_same_points(ps: &[Point3], qs: &[Point3]) -> bool
    ensures { result ≡ are_same_points ps.now qs.now }
{
    match ps {
        [] => qs.is_empty(),
        [p, ps @ ..] => match qs {
            [] => false,
            [q, qs @ ..] => is_same_point(p, q) && are_same_points(ps, qs),
        },
    }
}

impl Frame {
    /// Returns the origin of a coordinate system, in machine coordinates.
    pub fn origin(&self, system: System) -> Point3
        ensures { result ≡ system_origin self.now system }
    {
        self.frames.origins[index_of(system)]
    }

    /// Returns the selected coordinate system.
    pub fn system(&self) -> System
        ensures { result ≡ self.now.frames.active }
    {
        self.frames.active
    }

    /// Returns the tool length offset in nanometres.
    pub fn tool_length(&self) -> i64
        ensures { result ≡ self.now.frames.length }
    {
        self.frames.length.nanometres()
    }

    /// Returns the origin of the selected coordinate system, in machine coordinates.
    pub fn selected_origin(&self) -> Point3
        ensures { result ≡ selected_origin self.now }
    {
        self.origin(self.frames.active)
    }
}

/// Returns whether a part is the same in two frames.
pub fn is_same_part(part: FramePart, a: &Frame, b: &Frame) -> bool
    ensures { result ≡ is_same_part part a.now b.now }
{
    match part {
        FramePart::Selection => index_of(a.frames.active) == index_of(b.frames.active),
        FramePart::Origin(system) => is_same_point(&a.origin(system), &b.origin(system)),
        FramePart::AxisOffset => is_same_point(&a.frames.axis_offset, &b.frames.axis_offset),
        FramePart::ToolLength => a.frames.length.nanometres() == b.frames.length.nanometres(),
        FramePart::Unit => is_same_unit(a.unit, b.unit),
    }
}

/// Returns whether all parts are the same in two frames.
pub(crate) fn is_same_frame(a: &Frame, b: &Frame) -> bool
    ensures { result ≡ is_same_frame a.now b.now }
{
    is_same_part(FramePart::Selection, a, b)
        && are_same_points(&a.frames.origins, &b.frames.origins)
        && is_same_part(FramePart::AxisOffset, a, b)
        && is_same_part(FramePart::ToolLength, a, b)
        && is_same_part(FramePart::Unit, a, b)
}
