//! A machine with the origin of one coordinate system shifted.
ghost use Rattle.std.specs.Prelude.{◌≡◌, ◌≤◌, unsigned_abs, IfOk, IfSome, option_map};
ghost use Rattle.ngc_fixed_length.specs.Length.{IsStep};
ghost use Rattle.ngc_machine_files.specs.Machine.{file_of};
ghost use Rattle.ngc_machine_files.specs.Ranges.{IsSized, PLACE_LIMIT, place_limit};
ghost use Rattle.ngc_place.specs.Shifts.{SHIFT_LIMIT, IsShift};
ghost use Rattle.ngc_shifted_program.specs.Origins as spec;

use crate::systems::index_of;
use ngc_fixed_length::{Nm, Point3, StepPos, System, nanometres_at};
use ngc_machine_files::Machine;
use std::alloc::{AllocError, Allocator};

fn length(nanometres: i64) -> Nm
    requires { unsigned_abs nanometres ≤ PLACE_LIMIT }
    ensures { result ≡ nanometres }
{
    Nm::from_nanometres(i128::from(nanometres)).unwrap()
}

/// Returns how far from zero a coordinate of an origin may be, in nanometres.
fn place_limit(far: bool) -> u64
    ensures value { result ≡ place_limit far }
    ensures bound { result ≤ PLACE_LIMIT }
{
    if far { 4_000_000_000 } else { 1_000_000_000 }
}

#[tactic(auto, unfolding(crate::specs::Origins::in_range))]
fn in_range(far: bool, nanometres: i64) -> Option<Nm>
    ensures value { result ≡ spec.in_range far nanometres }
    ensures range { IfSome result (λ z. unsigned_abs z ≤ PLACE_LIMIT) }
{
    if nanometres.unsigned_abs() <= place_limit(far) {
        Some(length(nanometres))
    } else {
        None
    }
}

/// Returns a coordinate of an origin plus this number of steps, or `None` beyond its range.
fn coordinate_moved(far: bool, step: Nm, by: i32, coordinate: Nm) -> Option<Nm>
    requires { IsStep step }
    ensures value { result ≡ spec.coordinate_moved far step by coordinate }
    ensures range { IfSome result (λ z. unsigned_abs z ≤ PLACE_LIMIT) }
{
    in_range(far, coordinate.nanometres() + nanometres_at(step, by))
}

/// Returns an origin that is shifted, or `None` if a coordinate lies beyond its range.
fn origin_moved(far: bool, step: Nm, by: &StepPos, origin: &Point3) -> Option<Point3>
    requires { IsStep step }
    ensures value { result ≡ spec.origin_moved far step by.now origin.now }
    ensures range { IfSome result (IsSized PLACE_LIMIT) }
{
    let x = coordinate_moved(far, step, by.x, origin.x)?;
    let y = coordinate_moved(far, step, by.y, origin.y)?;
    let z = coordinate_moved(far, step, by.z, origin.z)?;
    Some(Point3 { x, y, z })
}

/// Returns a copy of a machine whose origin of a coordinate system is shifted by a number of steps,
/// or `None` if the origin would lie beyond its range: 4*10^9 nm on a far machine or if it is over
/// 10^9 nm from zero already, and otherwise 10^9 nm. It fails if memory is refused.
pub(crate) fn with_shifted_origin<A: Allocator>(
    alloc: A,
    machine: &Machine<A>,
    system: System,
    by: &StepPos,
) -> Result<Option<Machine<A>>, AllocError>
    ensures { IfOk result (λ found. option_map (λ m. file_of m) found
        ≡ spec.machine_shifted (file_of machine.now) system by.now) }
{
    let index = index_of(system);
    let origin = &machine.origins[index];
    let origin = match origin_moved(machine.takes_far(origin), machine.step, by, origin) {
        Some(origin) => origin,
        None => return Ok(None),
    };
    let mut shifted = machine.copy(alloc)?;
    shifted.origins[index] = origin;
    Ok(Some(shifted))
}
