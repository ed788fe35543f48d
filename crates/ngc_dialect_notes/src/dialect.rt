//! Dialects, by what notes ask of them.
ghost use Rattle.std.specs.Prelude.{◌≡◌};
ghost use Rattle.ngc_dialect_rules.specs.Moves as moves;
ghost use Rattle.ngc_dialect_notes.specs.Dialects as spec;

use ngc_dialect_names::Dialect;

pub(crate) fn is_grbl(dialect: Dialect) -> bool
    ensures { result ≡ spec.is_grbl dialect }
{
    matches!(dialect, Dialect::Grbl)
}

pub(crate) fn is_mach3(dialect: Dialect) -> bool
    ensures { result ≡ spec.is_mach3 dialect }
{
    matches!(dialect, Dialect::Mach3)
}

/// Returns whether P of an arc counts its turns.
pub(crate) fn counts_turns(dialect: Dialect) -> bool
    ensures { result ≡ moves.counts_turns dialect }
{
    matches!(dialect, Dialect::LinuxCnc | Dialect::Grbl)
}

/// Returns whether a cycle's line may leave out words of another cycle's code.
pub(crate) fn keeps_words(dialect: Dialect) -> bool
    ensures { result ≡ spec.keeps_words dialect }
{
    matches!(dialect, Dialect::Mach3 | Dialect::Fanuc)
}
