//! Which of M70 to M73 a line is.
ghost use Rattle.std.specs.Prelude.{◌≡◌};
ghost use Rattle.ngc_dialect_saved.specs.Savings as spec;

use ngc_dialect_names::Dialect;
use ngc_dialect_numbers::Number;
use ngc_dialect_parameters::Word;
use ngc_dialect_rules::{Code, is_linuxcnc};

/// What a line does with saved modes.
#[derive(Clone, Copy)]
pub enum Saving {
    /// M70 saves the modes.
    Save,
    /// M71 forgets those that were saved.
    Forget,
    /// M72 restores them.
    Restore,
    /// M73 saves the modes, and the end of the subprogram restores them.
    SaveToReturn,
}

// Returns what an M word does with saved modes.
fn saving_of(value: Number) -> Option<Saving>
    ensures { result ≡ spec.saving_of value }
{
    match value.trillionths() {
        70_000_000_000_000 => Some(Saving::Save),
        71_000_000_000_000 => Some(Saving::Forget),
        72_000_000_000_000 => Some(Saving::Restore),
        73_000_000_000_000 => Some(Saving::SaveToReturn),
        _ => None,
    }
}

/// Returns what a line does with saved modes: one of M70 to M73 alone, in LinuxCNC's language.
pub fn saving_in(dialect: Dialect, words: &[Word]) -> Option<Saving>
    ensures { result ≡ spec.saving_in dialect words.now }
{
    match words {
        [word] => {
            if is_linuxcnc(dialect) && word.letter == b'M' {
                saving_of(word.value)
            } else {
                None
            }
        }
        _ => None,
    }
}

/// Returns the code of what a line does with saved modes.
pub fn saving_code(saving: Saving) -> Code
    ensures { result ≡ spec.saving_code saving }
{
    match saving {
        Saving::Save => Code::M(70),
        Saving::Forget => Code::M(71),
        Saving::Restore => Code::M(72),
        Saving::SaveToReturn => Code::M(73),
    }
}
