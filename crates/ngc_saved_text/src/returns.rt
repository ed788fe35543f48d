//! Carriage returns before line feeds.
ghost use Rattle.std.specs.Prelude.{◌≡◌, ◌+◌, ◌<◌, ◌≤◌, ℕ, List, length, take};
ghost use Rattle.ngc_saved_text.specs.Saved.{IsMoved, ends_line, without_returns};

use memchr::memchr;
use ngc_text::{DeviceFault, Source};

/// What a source has taken and not yet given out.
#[derive(Clone, Copy, PartialEq, Eq)]
pub enum Held {
    /// Nothing.
    Nothing,
    /// A carriage return, which is left out if a line feed follows.
    Return,
    /// A byte that is no carriage return.
    Byte(u8),
}

/// A source of a text without the carriage returns that line feeds follow.
///
/// It gives out each byte but a carriage return as soon as it has it.
#[derive(Drop)]
pub struct Unreturned<S> {
    inner: S,
    held: Held,
}

// Returns whether a text begins with a carriage return and a line feed.
fn ends_line(text: &[u8]) -> bool
    ensures { result ≡ ends_line text.now }
{
    match text {
        [first, second, ..] => *first == b'\r' && *second == b'\n',
        _ => false,
    }
}

// Moves the byte at a place to the front, where `count` bytes are, unless a line ends there, and returns the
// number of bytes at the front.
#[tactic(auto, using(crate::proofs::ReturnLaws::left_out, crate::proofs::ReturnLaws::kept))]
fn move_byte(bytes: &mut [u8], count: usize, place: usize) -> usize
    requires before { count ≤ place }
    requires within { place < length bytes.old }
    ensures length { length bytes.new ≡ length bytes.old }
    ensures within { result ≤ place + 1 }
    ensures moved { (all : List ℕ) → IsMoved all bytes.old count place →
        IsMoved all bytes.new result (place + 1) }
{
    if ends_line(&bytes[place..]) {
        return count;
    }
    bytes[count] = bytes[place];
    count + 1
}

// Moves the bytes that are kept to the front, and returns their number.
fn move_to_front(bytes: &mut [u8]) -> usize
    ensures bound { result ≤ length bytes.new }
    ensures kept { length bytes.new ≡ length bytes.old }
    ensures front { take result bytes.new ≡ without_returns bytes.old }
{
    let mut count = 0;
    for place in 0..bytes.len() {
        count = move_byte(bytes, count, place);
    }
    count
}

// The same. A text without a carriage return stays where it is.
fn leave_out_returns(bytes: &mut [u8]) -> usize
    ensures bound { result ≤ length bytes.new }
    ensures kept { length bytes.new ≡ length bytes.old }
    ensures front { take result bytes.new ≡ without_returns bytes.old }
{
    match memchr(b'\r', bytes) {
        None => bytes.len(),
        Some(_) => move_to_front(bytes),
    }
}

impl<S: Source> Unreturned<S> {
    ghost use Rattle.std.specs.Prelude.{◌≡◌, ◌<◌, IfOk};
    ghost use Rattle.std.specs.Io.KnownBytes.{ReadConsumes};
    ghost use Rattle.ngc_text.specs.Failures.{CountsFailure};
    ghost use Rattle.ngc_saved_text.specs.Saved.{unreturned_remaining};
    ghost use Rattle.ngc_saved_text.specs.Sources.{unreturned_inner, unreturned_held};

    /// Returns the source of a text, from which nothing was taken.
    pub fn new(inner: S) -> Unreturned<S>
        ensures inner { unreturned_inner result ≡ inner }
        ensures held { unreturned_held result ≡ Held.Nothing }
    {
        Unreturned {
            inner,
            held: Held::Nothing,
        }
    }

    // Gives out what follows the carriage return that is held back, or that one itself.
    fn pull_after_return(&mut self, buf: &mut [u8]) -> Result<usize, DeviceFault>
        requires held { unreturned_held self.old ≡ Held.Return }
        requires room { 0 < length buf.old }
        ensures bound { IfOk result (λ n. n ≤ length buf.new) }
        ensures bytes { ReadConsumes
            (unreturned_remaining (unreturned_held self.old) (S.remaining (unreturned_inner self.old)))
            (unreturned_remaining (unreturned_held self.new) (S.remaining (unreturned_inner self.new)))
            result buf.new }
        ensures counts { CountsFailure (S.failures (unreturned_inner self.old))
            (S.failures (unreturned_inner self.new)) result }
    {
        let mut next = [0u8; 1];
        let count = self.inner.pull(&mut next)?;
        let byte = next[0];
        if count == 0 {
            buf[0] = b'\r';
            self.held = Held::Nothing;
        } else if byte == b'\n' {
            buf[0] = b'\n';
            self.held = Held::Nothing;
        } else if byte == b'\r' {
            buf[0] = b'\r';
        } else {
            buf[0] = b'\r';
            self.held = Held::Byte(byte);
        }
        Ok(1)
    }

    // Gives out the bytes of a piece.
    fn pull_piece(&mut self, buf: &mut [u8]) -> Result<usize, DeviceFault>
        requires held { unreturned_held self.old ≡ Held.Nothing }
        ensures bound { IfOk result (λ n. n ≤ length buf.new) }
        ensures bytes { ReadConsumes
            (unreturned_remaining (unreturned_held self.old) (S.remaining (unreturned_inner self.old)))
            (unreturned_remaining (unreturned_held self.new) (S.remaining (unreturned_inner self.new)))
            result buf.new }
        ensures counts { CountsFailure (S.failures (unreturned_inner self.old))
            (S.failures (unreturned_inner self.new)) result }
    {
        let taken = self.inner.pull(buf)?;
        if taken == 0 {
            return Ok(0);
        }
        if buf[taken - 1] != b'\r' {
            return Ok(leave_out_returns(&mut buf[..taken]));
        }
        self.held = Held::Return;
        if taken == 1 {
            return self.pull_after_return(buf);
        }
        Ok(leave_out_returns(&mut buf[..taken - 1]))
    }
}

impl<S: Source> Source for Unreturned<S> {
    ghost use Rattle.ngc_saved_text.specs.Saved.{unreturned_remaining};
    ghost use Rattle.ngc_saved_text.specs.Sources.{unreturned_inner, unreturned_held};

    ghost remaining = { λ s. unreturned_remaining (unreturned_held s) (S.remaining (unreturned_inner s)) };

    ghost failures = { λ s. S.failures (unreturned_inner s) };

    fn pull(&mut self, buf: &mut [u8]) -> Result<usize, DeviceFault> {
        if buf.is_empty() {
            return Ok(0);
        }
        match self.held {
            Held::Nothing => self.pull_piece(buf),
            Held::Return => self.pull_after_return(buf),
            Held::Byte(byte) => {
                buf[0] = byte;
                self.held = Held::Nothing;
                Ok(1)
            }
        }
    }
}
