//! Points that move with the origin or not.
ghost use Rattle.std.specs.Prelude.{◌≡◌, ◌≤◌, ◌+ℤ◌, ◌*ℤ◌, unsigned_abs};
ghost use Rattle.ngc_fixed_length.specs.Length.{IsStep};
ghost use Rattle.ngc_fixed_length.specs.Grid.{grid};
ghost use Rattle.ngc_collision.specs.Inside.{place_of};
ghost use Rattle.ngc_place.specs.Shifts.{SHIFT_LIMIT, IsShift, shifted};
ghost use Rattle.ngc_place.specs.Inside.{SHIFTED_LIMIT, IsNear};

use crate::grid::nearest_step;
use ngc_collision::Place;
use ngc_fixed_length::{Nm, Point3, StepPos, nanometres_at};

/// Returns a coordinate plus this number of steps.
pub(crate) fn moved(step: Nm, by: i32, coordinate: Nm) -> i64
    requires step { IsStep step }
    requires by { unsigned_abs by ≤ SHIFT_LIMIT }
    ensures value { result ≡ coordinate +ℤ (by *ℤ step) }
    ensures near { unsigned_abs result ≤ SHIFTED_LIMIT }
{
    coordinate.nanometres() + nanometres_at(step, by)
}

/// Returns a point at a shift of the origin. The point moves with the origin or not.
pub(crate) fn shifted(step: Nm, by: &StepPos, moves: bool, point: &Point3) -> Place
    requires step { IsStep step }
    requires by { IsShift by.now }
    ensures value { place_of result ≡ shifted step by.now moves point.now }
    ensures near { IsNear result }
{
    if moves {
        Place {
            x: moved(step, by.x, point.x),
            y: moved(step, by.y, point.y),
            z: moved(step, by.z, point.z),
        }
    } else {
        Place {
            x: point.x.nanometres(),
            y: point.y.nanometres(),
            z: point.z.nanometres(),
        }
    }
}

/// Returns the grid point nearest to a point.
pub(crate) fn to_grid(step: Nm, place: &Place) -> StepPos
    requires step { IsStep step }
    requires near { IsNear place.now }
    ensures { result ≡ grid step (place_of place.now) }
{
    StepPos {
        x: nearest_step(step, place.x),
        y: nearest_step(step, place.y),
        z: nearest_step(step, place.z),
    }
}
