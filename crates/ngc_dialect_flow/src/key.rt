//! A search and a label, as bytes.
ghost use Rattle.std.specs.Prelude.{◌≡◌, ◌≤◌, length, option_map};
ghost use Rattle.ngc_dialect_reader.specs.Line.{name_of};
ghost use Rattle.ngc_dialect_flow.specs.Searches as spec;
ghost use Rattle.ngc_dialect_flow.specs.Places.{key_with as key_bytes};

use crate::mark::Label;
use crate::search::Search;
use arrayvec::ArrayVec;
use ngc_dialect_reader::{DialectLine, Name};

/// A search, the form of a label, and a number or at most the bytes of a line.
pub(crate) type Key = ArrayVec<u8, 258>;

// Returns the bytes of a name. A line has at most 256.
fn name_bytes(line: &DialectLine, name: Name) -> &[u8]
    ensures value { result.now ≡ name_of line.now.text.items name }
    ensures bound { length result.now ≤ 256 }
{
    let _text = line.text.as_slice();
    line.name(name)
}

/// Returns a search and a label as bytes.
pub(crate) fn key_of(line: &DialectLine, search: Search, label: Label) -> Key
    ensures { result.items ≡ spec.key_of line.now.text.items search label }
{
    let mut key = ArrayVec::new();
    key.push(search.code());
    match label {
        Label::Number(number) => {
            key.push(0);
            let _taken = key.try_extend_from_slice(number.to_be_bytes().as_slice());
        }
        Label::Name(name) => {
            key.push(1);
            let _taken = key.try_extend_from_slice(name_bytes(line, name));
        }
    }
    key
}

/// Returns a search and a label as bytes, if both are known.
pub(crate) fn key_with(
    line: &DialectLine,
    search: Option<Search>,
    label: Option<Label>,
) -> Option<Key>
    ensures { option_map (λ key. key.items) result ≡ key_bytes line.now.text.items search label }
{
    match (search, label) {
        (Some(search), Some(label)) => Some(key_of(line, search, label)),
        _ => None,
    }
}
