ghost use Rattle.std.specs.Prelude.{◌≡◌, ◌≤◌, []};
ghost use Rattle.std.specs.List.{list_all};
ghost use Rattle.ngc_machine_files.specs.Names.{is_name, is_printable, name_of, name_from, IsName};

use std::marker::Model;

/// The name of a fixture or a tool: 1 to 40 printable ASCII characters, or none if the file has no
/// name for it.
#[derive(Clone, Copy, PartialEq, Eq)]
pub struct Name {
    /// The bytes that aren't used are zero, so that equal names have equal bytes.
    characters: [u8; 40],
    count: u8,
}

impl Model for Name {
    ghost use Rattle.std.specs.Prelude.{List, ℕ};

    ghost Value = { List ℕ };

    ghost use Rattle.ngc_machine_files.specs.Names.{used, IsKept, kept, kept-used};

    ghost view = { used };

    ghost invariant = { IsKept };

    ghost inverse = { kept };

    ghost inverse_ok = { kept-used };
}

fn is_printable(character: &u8) -> bool
    ensures { result ≡ is_printable character.now }
{
    32 <= *character && *character <= 126
}

fn is_each_printable(text: &[u8]) -> bool
    ensures { result ≡ list_all is_printable text.now }
{
    text.iter().all(is_printable)
}

fn is_name(text: &[u8]) -> bool
    ensures { result ≡ is_name text.now }
{
    1 <= text.len() && text.len() <= 40 && is_each_printable(text)
}

impl Name {
    /// Returns the name without characters, for what has no name.
    pub fn none() -> Name
        ensures { result ≡ [] }
    {
        Name {
            characters: [0; 40],
            count: 0,
        }
    }

    /// Returns the text as a name, or `None` if it isn't 1 to 40 printable ASCII characters.
    pub fn of(text: &str) -> Option<Name>
        ensures { result ≡ name_of text.now }
    {
        let text = text.as_bytes();
        if !is_name(text) {
            return None;
        }
        let mut characters = [0; 40];
        characters[..text.len()].copy_from_slice(text);
        Some(Name {
            characters,
            count: text.len() as u8,
        })
    }

    /// Returns the characters; there are none without a name.
    pub fn as_bytes(&self) -> &[u8]
        ensures characters { result.now ≡ self.now }
        ensures range { IsName self.now }
    {
        &self.characters[..usize::from(self.count)]
    }
}

/// Returns the name that was read, or the name without characters for `None`.
pub(crate) fn name_from(name: &Option<Name>) -> Name
    ensures { result ≡ name_from name.now }
{
    match name {
        Some(name) => *name,
        None => Name::none(),
    }
}
