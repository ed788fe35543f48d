//! What the parameters of dialects differ in.
ghost use Rattle.std.specs.Prelude.{◌≡◌, ◌≤◌};
ghost use Rattle.ngc_dialect_parameters.specs.Rules as spec;

use ngc_dialect_names::Dialect;

/// The number of parameters that are stored, from 0 on.
pub(crate) const COUNT: usize = 6000;

// Returns the number from which on parameters belong to the control.
pub(crate) fn first_of_control(dialect: Dialect) -> usize
    ensures { result ≡ spec.first_of_control dialect }
{
    match dialect {
        Dialect::Fanuc => 1000,
        _ => 5161,
    }
}

// Returns the number of numbered parameters, from 1 on, that belong to a call.
pub(crate) fn local_count(dialect: Dialect) -> usize
    ensures value { result ≡ spec.local_count dialect }
    ensures bound { result ≤ 33 }
{
    match dialect {
        Dialect::Fanuc => 33,
        _ => 30,
    }
}

// Returns whether an unset parameter is empty, and each setting of a line takes effect before the
// next one is computed.
pub(crate) fn has_macros(dialect: Dialect) -> bool
    ensures { result ≡ spec.has_macros dialect }
{
    matches!(dialect, Dialect::Fanuc)
}
