ghost use Rattle.std.specs.Prelude.{◌≡◌, ◌≤◌, ◌^◌, unsigned_abs};
ghost use Rattle.ngc_machine_files.specs.Numbers.{from_to};

use ngc_fixed_length::Nm;

/// Returns a number of nanometres as a length.
pub(crate) fn length(nanometres: i64) -> Nm
    requires { unsigned_abs nanometres ≤ 10 ^ 11 }
    ensures { result ≡ nanometres }
{
    Nm::from_nanometres(i128::from(nanometres)).unwrap()
}

/// Returns whether a number lies between two bounds, both included.
pub(crate) fn is_from_to(low: i64, high: i64, value: i64) -> bool
    ensures { result ≡ from_to low high value }
{
    low <= value && value <= high
}
