//! Tables without unknown keys.
ghost use Rattle.std.specs.Prelude.{◌≡◌, not, option_map, string_bytes, find};
ghost use Rattle.std.specs.Map.{keys_of};
ghost use Rattle.toml.specs.View.{view, table_view};
ghost use Rattle.ngc_machine_figures.specs.Found as spec;

use crate::key::Key;
use crate::key_word::KeyWord;
use crate::near::meant;
use crate::refusal::{FileRefusal, Wrong};
use toml::{Table, Value};

#[tactic(auto, unfolding(crate::specs::Found::is_known))]
fn is_known(word: &str, keys: &[Key]) -> bool
    ensures { result ≡ spec.is_known keys.now word.now }
{
    keys.iter().any(|key| word == key.name())
}

fn first_unknown<'t>(table: &'t Table, keys: &[Key]) -> Option<&'t String>
    ensures { option_map (λ k. k.now) result
        ≡ find (λ k. not (spec.is_known keys.now (string_bytes k))) (keys_of table.now.entries) }
{
    table.keys().find(|key| !is_known(key.as_str(), keys))
}

fn unknown(key: Key, keys: &[Key], word: &str) -> FileRefusal
    ensures { result ≡ spec.unknown key keys.now word.now }
{
    FileRefusal {
        key,
        wrong: Wrong::Unknown {
            word: KeyWord::of(word),
            meant: meant(word, keys),
        },
    }
}

#[tactic(auto, unfolding(crate::specs::Found::known_in))]
fn known_in(key: Key, keys: &[Key], table: &Table) -> Result<(), FileRefusal>
    ensures { result ≡ spec.known_in key keys.now (table_view table.now) }
{
    match first_unknown(table, keys) {
        Some(word) => Err(unknown(key, keys, word.as_str())),
        None => Ok(()),
    }
}

/// Refuses a value that isn't a table, or that has an unknown key.
#[tactic(auto, unfolding(crate::specs::Found::only_known))]
pub fn only_known(key: Key, keys: &[Key], value: &Value) -> Result<(), FileRefusal>
    ensures { result ≡ spec.only_known key keys.now (view value.now) }
{
    match value.as_table() {
        Some(table) => known_in(key, keys, table),
        None => Err(FileRefusal {
            key,
            wrong: Wrong::NoTable,
        }),
    }
}
