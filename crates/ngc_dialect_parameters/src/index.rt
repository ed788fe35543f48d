ghost use Rattle.std.specs.Prelude.{◌≡◌};
ghost use Rattle.ngc_dialect_parameters.specs.Index as spec;

use crate::fault::Cause;
use crate::rules::has_macros;
use ngc_dialect_names::Dialect;
use ngc_dialect_numbers::Number;

// A parameter's number may differ from a whole number by this much: 0.0001.
const TOLERANCE: u128 = 100_000_000;

const ONE: u128 = 1_000_000_000_000;

/// Returns the number of the parameter that a value names.
pub(crate) fn index_of(dialect: Dialect, value: Number) -> Result<usize, Cause>
    ensures { result ≡ spec.index_of dialect value }
{
    let whole = value.round().trillionths();
    if (value.trillionths() - whole).unsigned_abs() > TOLERANCE {
        return Err(Cause::IndexNotWhole);
    }
    if whole < 0 || (whole == 0 && !has_macros(dialect)) {
        return Err(Cause::IndexOutOfRange);
    }
    Ok((whole.unsigned_abs() / ONE) as usize)
}
