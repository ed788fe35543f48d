//! Grid points next to lengths, which may be beyond the range of `Nm`.
ghost use Rattle.std.specs.Prelude.{◌≡◌, ◌≤◌, ◌*◌, ◌^◌, pos, ◌≤ℤ◌, unsigned_abs};
ghost use Rattle.ngc_fixed_length.specs.Length.{IsStep};
ghost use Rattle.ngc_fixed_length.specs.Boxes.{grid_above, grid_below};
ghost use Rattle.ngc_fixed_length.specs.Rounding.{nearest};
ghost use Rattle.ngc_place.specs.Inside.{SHIFTED_LIMIT};

use ngc_fixed_length::{Nm, short_quotient};

/// Returns the last grid point that isn't above a length, in steps. The length and the step have
/// the same unit.
pub(crate) fn last_grid_point(step: i64, length: i64) -> i32
    requires step { pos 500 ≤ℤ step }
    requires length { unsigned_abs length ≤ 2000000000 * unsigned_abs step }
    ensures value { result ≡ grid_below step length }
    ensures bound { unsigned_abs result ≤ 2000000001 }
{
    length.div_euclid(step) as i32
}

/// Returns the first grid point that isn't below a length, in steps. The length and the step have
/// the same unit.
pub(crate) fn first_grid_point(step: i64, length: i64) -> i32
    requires step { pos 500 ≤ℤ step }
    requires length { unsigned_abs length ≤ 2000000000 * unsigned_abs step }
    requires small { unsigned_abs length ≤ 2 ^ 62 }
    ensures { result ≡ grid_above step length }
{
    -last_grid_point(step, -length)
}

/// Returns the grid point nearest to a coordinate, in steps. Ties are rounded away from zero.
pub(crate) fn nearest_step(step: Nm, coordinate: i64) -> i32
    requires step { IsStep step }
    requires near { unsigned_abs coordinate ≤ SHIFTED_LIMIT }
    ensures { result ≡ nearest coordinate step }
{
    short_quotient(coordinate, step.nanometres().unsigned_abs()) as i32
}
