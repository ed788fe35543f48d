//! Where the tool is in the coordinates of the program.
ghost use Rattle.std.specs.Prelude.{◌≡◌, ◌≤◌, ◌-ℤ◌, unsigned_abs};
ghost use Rattle.ngc_dialect_repeats.specs.Places as spec;

use crate::point::length;
use crate::refusal::PolarRefusal;
use ngc_dialect_drilling::own_shift;
use ngc_dialect_rules::Known;
use ngc_fixed_length::{Nm, Point3};
use ngc_offsets::Axis;

fn from_shift(place: Nm, shift: i128) -> i128
    requires { unsigned_abs shift ≤ 300000000000 }
    ensures value { result ≡ place -ℤ shift }
    ensures bound { unsigned_abs result ≤ 400000000000 }
{
    i128::from(place.nanometres()) - shift
}

fn less(place: Nm, shift: i128, further: Nm) -> i128
    requires { unsigned_abs shift ≤ 300000000000 }
    ensures { result ≡ ((place -ℤ shift) -ℤ further) }
{
    from_shift(place, shift) - i128::from(further.nanometres())
}

fn coordinate(known: &Known, axis: Axis, place: Nm, further: Nm) -> Result<Nm, PolarRefusal>
    ensures { result ≡ spec.coordinate known.now axis place further }
{
    length(less(place, own_shift(known, axis), further))
}

/// Returns where the tool is, by the offsets in force.
#[tactic(auto, unfolding(crate::specs::Places::program_place))]
pub(crate) fn program_place(known: &Known) -> Result<Point3, PolarRefusal>
    ensures { result ≡ spec.program_place known.now }
{
    let x = coordinate(known, Axis::X, known.place.x, Nm::zero())?;
    let y = coordinate(known, Axis::Y, known.place.y, Nm::zero())?;
    let z = coordinate(known, Axis::Z, known.place.z, known.front.length)?;
    Ok(Point3 { x, y, z })
}
