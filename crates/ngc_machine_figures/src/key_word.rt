//! The text of an unknown key.
ghost use Rattle.std.specs.Prelude.{◌≡◌, ◌≤◌, length};
ghost use Rattle.ngc_machine_figures.specs.Words as spec;

/// The first 40 bytes of a key, as the file has it.
#[derive(Clone, Copy)]
pub struct KeyWord {
    /// The bytes that aren't used are zero.
    pub bytes: [u8; 40],
    pub count: u8,
}

fn whole(text: &[u8]) -> KeyWord
    requires { length text.now ≤ 40 }
    ensures { result ≡ spec.padded text.now }
{
    let mut bytes = [0; 40];
    bytes[..text.len()].copy_from_slice(text);
    KeyWord {
        bytes,
        count: text.len() as u8,
    }
}

impl KeyWord {
    /// Returns the first 40 bytes of a key.
    pub(crate) fn of(key: &str) -> KeyWord
        ensures { result ≡ spec.key_word key.now }
    {
        let key = key.as_bytes();
        whole(&key[..key.len().min(40)])
    }

    /// Returns the bytes, of which there are at most 40.
    pub fn as_bytes(&self) -> &[u8]
        ensures { result.now ≡ spec.bytes_of self.now }
    {
        &self.bytes[..usize::from(self.count.min(40))]
    }
}
