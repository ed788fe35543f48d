//! The lowest height of a path, in the machine's coordinates and in the program's.
ghost use Rattle.std.specs.Prelude.{◌≡◌};
ghost use Rattle.std.specs.Int.{int_min};
ghost use Rattle.ngc_lowest_tips.specs.Heights.{height_in, lowest_of, lowest_of_arc, lowest_of_points};
ghost use Rattle.ngc_lowest_tips.specs.Heights.{z_of};

use ngc_arc_geometry::Arc;
use ngc_commands::Way;
use ngc_fixed_length::{Nm, Point2, Point3};
use ngc_frames::{Frame, program_point};

fn lesser(a: Nm, b: Nm) -> Nm
    ensures { result ≡ int_min a b }
{
    if b.nanometres() < a.nanometres() {
        b
    } else {
        a
    }
}

// Returns the coordinate on Z of a point in an arc's plane.
fn z_of(arc: &Arc, point: &Point2) -> Nm
    ensures { result ≡ z_of arc.now point.now }
{
    point.at_height(arc.plane(), arc.end().z).z
}

fn lowest_of_points(arc: &Arc, first: Nm, points: &[Point2]) -> Nm
    ensures { result ≡ lowest_of_points arc.now first points.now }
{
    let mut low = first;
    for point in points {
        low = lesser(low, z_of(arc, point));
    }
    low
}

fn lowest_of_arc(arc: &Arc) -> Nm
    ensures { result ≡ lowest_of_arc arc.now }
{
    let extremes = arc.extremes();
    lowest_of_points(arc, arc.end().z, extremes.as_slice())
}

/// Returns the lowest Z that a path goes to from its start, in machine coordinates.
///
/// The start is the end of an earlier motion, which may have another frame or another tool.
pub(crate) fn lowest_of(way: &Way) -> Nm
    ensures { result ≡ lowest_of way.now }
{
    match way {
        Way::Line { end, .. } => end.z,
        Way::Arc(arc) => lowest_of_arc(arc),
    }
}

/// Returns a machine's Z in the program's coordinates, in nanometres.
pub(crate) fn height_in(frame: &Frame, z: Nm) -> i64
    ensures { result ≡ height_in frame.now z }
{
    let point = Point3 {
        x: Nm::zero(),
        y: Nm::zero(),
        z,
    };
    program_point(&point, frame).z
}
