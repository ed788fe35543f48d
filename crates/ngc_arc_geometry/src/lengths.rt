ghost use Rattle.std.specs.Prelude.{◌≡◌, ◌+ℤ◌};
ghost use Rattle.ngc_fixed_length.specs.Limits.{IsLength};
ghost use Rattle.ngc_arc_geometry.specs.Chord.{halfway};

use ngc_fixed_length::Nm;

/// Returns half the sum of two lengths, rounded down to a nanometre.
pub fn halfway(x: Nm, y: Nm) -> Nm
    ensures { result ≡ halfway x y }
{
    let sum = x.nanometres() + y.nanometres();
    Nm::from_nanometres(i128::from(sum.div_euclid(2))).unwrap()
}

/// Returns a length plus a number of nanometres.
pub fn moved(length: Nm, by: i64) -> Nm
    requires { IsLength (length +ℤ by) }
    ensures { result ≡ length +ℤ by }
{
    Nm::from_nanometres(i128::from(length.nanometres()) + i128::from(by)).unwrap()
}
