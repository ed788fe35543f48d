ghost use Rattle.std.specs.Prelude.{◌≡◌, ◌+◌, ◌≤◌, ◌++◌, ℕ, List, [], codes, length, take, drop};
ghost use Rattle.std.specs.Prelude.{◌-◌, OnOk, OnErr};
ghost use Rattle.std.specs.Io.KnownBytes.{Appends};
ghost use Rattle.ngc_text.specs.Failures.{CountsFailure};
ghost use Rattle.ngc_text.specs.Written.{AppendsPrefix};
ghost use Rattle.ngc_text.specs.Collected.{CHUNK_SIZE, HasSpaceForLine, WritesPrefix};

use crate::{Sink, WriteFault, write_all};
use itoa::Integer;
use std::marker::Model;

const MOST_TEXT: usize = 16384;

const MOST_BEFORE_A_LINE: usize = MOST_TEXT - 512;
// The length of the longest number's text.
const MOST_DIGITS: usize = 40;

/// Collects text and writes it in large pieces: one system call for each line would be too slow.
///
/// It holds at most 16,384 bytes. `make_space` leaves 512 of them free, enough for a line.
#[derive(Drop)]
pub struct Chunk {
    // An array and a length, because an `ArrayVec` wipes what is removed from it.
    bytes: [u8; MOST_TEXT],
    len: usize,
}

impl Model for Chunk {
    ghost Value = { List ℕ };

    ghost view = { λ c. take c.len c.bytes };

    ghost invariant = { λ c. c.len ≤ 16384 };
}

// Formats a number so that its text ends at the end of `room`, and returns where it begins.
fn format_at_end<I: Integer>(number: I, room: &mut [u8; MOST_DIGITS]) -> usize
    ensures text { drop result room.new ≡ I.text number }
    ensures length { length room.new ≡ 40 }
    ensures within { result ≤ 40 }
{
    number.write(room)
}

// Formats a number so that its text ends in the middle of `room`, and returns where it begins.
fn spell<I: Integer>(number: I, room: &mut [u8; 2 * MOST_DIGITS]) -> usize
    ensures text { take (40 - result) (drop result room.new) ≡ I.text number }
    ensures within { result ≤ 40 }
{
    let Some(front) = room.first_chunk_mut::<MOST_DIGITS>() else {
        unreachable!()
    };
    format_at_end(number, front)
}

impl Chunk {
    /// Returns an empty chunk.
    pub fn new() -> Chunk
        ensures { result ≡ [] }
    {
        Chunk {
            bytes: [0; MOST_TEXT],
            len: 0,
        }
    }

    /// Adds a text, for which there must be space.
    pub fn add_text(&mut self, text: &[u8])
        requires { length self.old + length text.now ≤ CHUNK_SIZE }
        ensures { self.new ≡ self.old ++ text.now }
    {
        let end = self.len + text.len();
        self.bytes[self.len..end].copy_from_slice(text);
        self.len = end;
    }

    /// Adds a number's decimal digits, after a minus sign if it is below zero. Space for 40 bytes
    /// must be free.
    pub fn add_number<I: Integer>(&mut self, number: I)
        requires { length self.old + 40 ≤ CHUNK_SIZE }
        ensures text { self.new ≡ self.old ++ I.text number }
        ensures short { length self.new ≤ length self.old + 40 }
    {
        let mut digits = [0; 2 * MOST_DIGITS];
        let start = spell(number, &mut digits);
        let end = self.len + MOST_DIGITS;
        // A copy of a known size takes a few instructions. The bytes that it adds after the text do
        // not count.
        self.bytes[self.len..end].copy_from_slice(&digits[start..start + MOST_DIGITS]);
        self.len = end - start;
    }

    /// Adds three numbers as `add_number` does, separated by spaces. Space for 122 bytes must be
    /// free.
    pub fn add_three<I: Integer>(&mut self, first: I, second: I, third: I)
        requires { length self.old + 122 ≤ CHUNK_SIZE }
        ensures text { self.new ≡ self.old ++ I.text first ++ codes " " ++ I.text second
            ++ codes " " ++ I.text third }
        ensures short { length self.new ≤ length self.old + 122 }
    {
        self.add_number(first);
        self.add_text(b" ");
        self.add_number(second);
        self.add_text(b" ");
        self.add_number(third);
    }

    /// Writes the collected text. After a fault a prefix of it is written, and the sink has counted
    /// the failure.
    pub fn write_out<W: Sink>(&mut self, sink: &mut W) -> Result<(), WriteFault>
        ensures ok { OnOk result (Appends (W.written sink.old) (W.written sink.new) self.old) }
        ensures empty { OnOk result (self.new ≡ []) }
        ensures fault { OnErr result
            (AppendsPrefix (W.written sink.old) (W.written sink.new) self.old) }
        ensures counts { CountsFailure (W.failures sink.old) (W.failures sink.new) result }
    {
        match write_all(sink, &self.bytes[..self.len]) {
            Ok(()) => {
                self.len = 0;
                Ok(())
            }
            Err(fault) => Err(fault),
        }
    }

    /// Frees space for a line of 512 bytes, by writing the collected text if necessary.
    ///
    /// After a fault a prefix of it is written, and the sink has counted the failure.
    pub fn make_space<W: Sink>(&mut self, sink: &mut W) -> Result<(), WriteFault>
        ensures room { OnOk result (HasSpaceForLine self.new) }
        ensures ok { OnOk result
            (WritesPrefix (W.written sink.old) (W.written sink.new) self.old self.new) }
        ensures fault { OnErr result
            (AppendsPrefix (W.written sink.old) (W.written sink.new) self.old) }
        ensures counts { CountsFailure (W.failures sink.old) (W.failures sink.new) result }
    {
        if self.len <= MOST_BEFORE_A_LINE {
            return Ok(());
        }
        self.write_out(sink)
    }
}
