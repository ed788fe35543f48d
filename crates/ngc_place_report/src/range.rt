//! The range of an origin.
ghost use Rattle.std.specs.Prelude.{◌≡◌, ◌≤◌, ◌≤ℤ◌, pos, negsuc, unsigned_abs, IfSome};
ghost use Rattle.ngc_fixed_length.specs.Length.{IsStep};
ghost use Rattle.ngc_machine_files.specs.Machine.{file_of};
ghost use Rattle.ngc_machine_files.specs.MachineRanges.{takes_far};
ghost use Rattle.ngc_machine_files.specs.Ranges.{place_limit};
ghost use Rattle.ngc_place.specs.Longest.{IsInLimit};
ghost use Rattle.ngc_place_report.specs.Range as spec;
ghost use Rattle.ngc_shifted_program.specs.Origins.{origin_in};

use crate::systems::index_of;
use ngc_fixed_length::{Nm, Point3, System};
use ngc_machine_files::Machine;
use ngc_place::{Axis, Interval};
use std::alloc::Allocator;

/// Returns how far from zero a coordinate of an origin may be, in nanometres.
fn place_limit(far: bool) -> i64
    ensures value { result ≡ pos (place_limit far) }
    ensures bound { unsigned_abs result ≤ 4000000000 }
{
    if far { 4_000_000_000 } else { 1_000_000_000 }
}

/// Returns the number of whole steps in a distance.
fn whole_steps(step: Nm, distance: i64) -> i64
    requires step { IsStep step }
    requires distance { unsigned_abs distance ≤ 10000000000000 }
    ensures value { result ≡ spec.whole_steps step distance }
    ensures bound { unsigned_abs result ≤ 10000000000000 }
{
    (distance.unsigned_abs() / step.nanometres().unsigned_abs()) as i64
}

/// Returns the interval from one number of steps to another, if it isn't empty.
fn interval_from(from: i64, to: i64) -> Option<Interval>
    requires from { negsuc 3999999 ≤ℤ from }
    requires to { to ≤ℤ pos 4000000 }
    ensures value { result ≡ spec.interval_from from to }
    ensures limit { IfSome result IsInLimit }
{
    if from > to {
        return None;
    }
    Some(Interval {
        from: from as i32,
        to: to as i32,
    })
}

/// Returns the part of an interval at which a coordinate of the origin stays in its range, if there is
/// one.
pub(crate) fn in_range(far: bool, step: Nm, origin: Nm, interval: Interval) -> Option<Interval>
    requires step { IsStep step }
    requires limit { IsInLimit interval }
    ensures value { result ≡ spec.in_range far step origin interval }
    ensures limit { IfSome result IsInLimit }
{
    let origin = origin.nanometres();
    let limit = place_limit(far);
    let below = whole_steps(step, limit + origin);
    let above = whole_steps(step, limit - origin);
    interval_from(
        i64::from(interval.from).max(0 - below),
        i64::from(interval.to).min(above),
    )
}

/// Returns whether the origin of a system may be moved up to 4*10^9 nm from zero.
pub(crate) fn takes_far<A: Allocator>(machine: &Machine<A>, system: System) -> bool
    ensures { result ≡ takes_far (file_of machine.now) (origin_in (file_of machine.now) system) }
{
    machine.takes_far(&machine.origins[index_of(system)])
}

/// Returns the coordinate of a system's origin along an axis.
pub(crate) fn origin_along<A: Allocator>(machine: &Machine<A>, system: System, axis: Axis) -> Nm
    ensures { result ≡ spec.coordinate axis (origin_in (file_of machine.now) system) }
{
    let origin = &machine.origins[index_of(system)];
    match axis {
        Axis::X => origin.x,
        Axis::Y => origin.y,
        Axis::Z => origin.z,
    }
}
