//! The value of a key, read by its kind.
ghost use Rattle.std.specs.Prelude.{◌≡◌, Result};
ghost use Rattle.toml.specs.Data.{Data};
ghost use Rattle.toml.specs.View.{view};
ghost use Rattle.ngc_machine_figures.specs.Reading as spec;

use crate::key::Key;
use crate::refusal::{FileRefusal, Form, Wrong};
use ngc_quantities::Fault;
use toml::Value;

/// What the value of a key may say.
pub trait Written: Copy {
    ghost use Rattle.ngc_machine_figures.specs.declared.key.Key.{Key};
    ghost use Rattle.ngc_machine_figures.specs.declared.refusal.FileRefusal.{FileRefusal};

    ghost reading: { Key → Data → Result Self FileRefusal };

    /// Reads the value of a key.
    fn read(key: Key, value: &Value) -> Result<Self, FileRefusal>
        ensures { result ≡ reading key (view value.now) };
}

/// Reads a key that must be there.
#[tactic(auto, unfolding(crate::specs::Reading::required))]
pub fn required<T: Written>(key: Key, table: &Value) -> Result<T, FileRefusal>
    ensures { result ≡ spec.required T.reading key (view table.now) }
{
    match table.get(key.name()) {
        Some(value) => T::read(key, value),
        None => Err(FileRefusal {
            key,
            wrong: Wrong::Missing,
        }),
    }
}

/// Reads a key that may be missing.
#[tactic(auto, unfolding(crate::specs::Reading::optional))]
pub fn optional<T: Written>(key: Key, table: &Value) -> Result<Option<T>, FileRefusal>
    ensures { result ≡ spec.optional T.reading key (view table.now) }
{
    match table.get(key.name()) {
        Some(value) => Ok(Some(T::read(key, value)?)),
        None => Ok(None),
    }
}

/// Returns what was found, or the refusal.
pub(crate) fn found<T: Copy>(key: Key, wrong: Wrong, found: Option<T>) -> Result<T, FileRefusal>
    ensures { result ≡ spec.found key wrong found }
{
    match found {
        Some(value) => Ok(value),
        None => Err(FileRefusal { key, wrong }),
    }
}

/// Returns what a text says, or the refusal.
pub(crate) fn said<T: Copy>(key: Key, said: Result<T, Fault>) -> Result<T, FileRefusal>
    ensures { result ≡ spec.said key said }
{
    match said {
        Ok(value) => Ok(value),
        Err(fault) => Err(FileRefusal {
            key,
            wrong: Wrong::Text(fault),
        }),
    }
}

fn is_number(value: &Value) -> bool
    ensures { result ≡ spec.is_number (view value.now) }
{
    value.as_integer().is_some() || value.as_float().is_some()
}

/// Returns the refusal of a value that isn't a text.
#[tactic(auto, unfolding(crate::specs::Reading::no_text))]
pub(crate) fn no_text(key: Key, form: Form, value: &Value) -> FileRefusal
    ensures { result ≡ spec.no_text key form (view value.now) }
{
    let wrong = if is_number(value) {
        Wrong::Bare(form)
    } else {
        Wrong::NoText(form)
    };
    FileRefusal { key, wrong }
}
