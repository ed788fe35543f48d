ghost use Rattle.std.specs.Prelude.{◌≡◌, IfOk};
ghost use Rattle.ngc_offsets.specs.Ranges.{IsMachinePlace, IsPresentOrNamed, IsReachedFrom};
ghost use Rattle.ngc_offsets.specs.Given.{named_on_axis as on_axis, named_point as place_given};
ghost use Rattle.ngc_offsets.specs.Given.{machine_target as target_in_machine};

use crate::fault::{Axis, CoordinateRange, FrameFault};
use crate::range::coordinate;
use ngc_fixed_length::{Distance, Nm, Point3};

/// The lengths of a line's words X, Y and Z.
#[derive(Clone, Copy)]
pub struct AxisLengths {
    pub x: Option<Nm>,
    pub y: Option<Nm>,
    pub z: Option<Nm>,
}

// Returns the coordinate on one axis. Without a word the axis keeps its coordinate.
fn named_on_axis(
    reach: CoordinateRange,
    axis: Axis,
    distance: Distance,
    current: Nm,
    given: Option<Nm>,
) -> Result<Nm, FrameFault>
    ensures value { result ≡ on_axis reach axis distance current given }
    ensures range { IfOk result (λ c. IsPresentOrNamed current c) }
{
    match given {
        None => Ok(current),
        Some(length) => match distance {
            Distance::Absolute => coordinate(reach, axis, length.nanometres()),
            Distance::Incremental => coordinate(
                reach,
                axis,
                current.nanometres() + length.nanometres(),
            ),
        },
    }
}

/// Returns the place to which a line's lengths lead from the current place. A missing length keeps
/// its coordinate.
pub(crate) fn named_point(
    reach: CoordinateRange,
    distance: Distance,
    current: &Point3,
    given: &AxisLengths,
) -> Result<Point3, FrameFault>
    ensures value { result ≡ place_given reach distance current.now given.now }
    ensures range { IfOk result (IsReachedFrom current.now) }
{
    let x = named_on_axis(reach, Axis::X, distance, current.x, given.x)?;
    let y = named_on_axis(reach, Axis::Y, distance, current.y, given.y)?;
    let z = named_on_axis(reach, Axis::Z, distance, current.z, given.z)?;
    Ok(Point3 { x, y, z })
}

/// Returns the machine place to which a line with G53 leads. Its lengths are machine coordinates in
/// either distance mode, with no origin, offset or tool length. Returns `BeyondRange` if one is
/// farther than the reach. NISTIR 6556, 3.5.12.
pub fn machine_target(
    reach: CoordinateRange,
    place: Point3,
    given: &AxisLengths,
) -> Result<Point3, FrameFault>
    ensures value { result ≡ target_in_machine reach place given.now }
    ensures range { IsMachinePlace place → IfOk result IsMachinePlace }
{
    named_point(reach, Distance::Absolute, &place, given)
}
