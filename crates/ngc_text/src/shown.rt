ghost use Rattle.std.specs.Prelude.{◌≡◌, ◌+◌, ◌≤◌, ◌++◌, length};
ghost use Rattle.ngc_text.specs.Collected.{CHUNK_SIZE};
ghost use Rattle.ngc_text.specs.Shown.{shown, shown_text, shown_line};

use crate::Chunk;
use arrayvec::ArrayVec;

fn shown(byte: u8) -> u8
    ensures { result ≡ shown byte }
{
    match byte {
        32..=126 => byte,
        b'\t' | b'\r' => b' ',
        _ => b'?',
    }
}

/// Returns the first 256 bytes of a text, as a terminal shows them: tabs and carriage returns as
/// spaces, and other bytes that do not print as `?`.
pub fn shown_bytes(bytes: &[u8]) -> ArrayVec<u8, 256>
    ensures text { result.items ≡ shown_text bytes.now }
    ensures few { length result.items ≤ 256 }
{
    let mut text = ArrayVec::new();
    for byte in &bytes[..bytes.len().min(256)] {
        text.push(shown(*byte));
    }
    text
}

impl Chunk {
    /// Adds a line after its number, as `Line 3: G0 X400` and a line feed. It shows the
    /// `shown_bytes` of the line. Space for 310 bytes must be free.
    pub fn add_line(&mut self, number: usize, line: &[u8])
        requires { length self.old + 310 ≤ CHUNK_SIZE }
        ensures text { self.new ≡ self.old ++ shown_line number line.now }
        ensures short { length self.new ≤ length self.old + 310 }
    {
        self.add_text(b"Line ");
        self.add_number(number);
        self.add_text(b": ");
        self.add_text(shown_bytes(line).as_slice());
        self.add_text(b"\n");
    }
}
