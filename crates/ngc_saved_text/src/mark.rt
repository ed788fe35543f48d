//! The byte order mark at the beginning of a text.
ghost use Rattle.std.specs.Prelude.{◌≡◌, ◌≤◌, true};
ghost use Rattle.std.specs.Str.{bytes_eq};
ghost use Rattle.ngc_saved_text.specs.Saved.{byte_order_mark, is_undecided};

use ngc_text::{DeviceFault, Source};
use std::cell::Cell;

const MARK: [u8; 3] = [0xEF, 0xBB, 0xBF];

/// A source of a text without the byte order mark of UTF-8 at its beginning.
///
/// It waits for a second and a third byte only where the first one is that of a mark.
#[derive(Drop)]
pub struct Unmarked<'a, S> {
    inner: S,
    // Set where the first bytes are those of UTF-16.
    is_wide: &'a Cell<bool>,
    // Whether the mark wasn't looked for yet.
    is_at_start: bool,
    // The first bytes of the text: `taken` of them were taken from the source, and `given` were given out.
    front: [u8; 3],
    taken: usize,
    given: usize,
    ghost within: { given ≤ taken },
    ghost few: { taken ≤ 3 },
    ghost ungiven: { is_at_start ≡ true → given ≡ 0 },
}

// Returns whether these first bytes are too few to tell which mark a text has.
fn is_undecided(front: &[u8]) -> bool
    ensures { result ≡ is_undecided front.now }
{
    match front {
        [] => true,
        [first, rest @ ..] => (*first == MARK[0] || *first >= 0xFE) && rest.len() < 2,
    }
}

// Returns whether a text begins with one of the two marks of UTF-16.
fn has_wide_mark(front: &[u8]) -> bool {
    matches!(front, [0xFF, 0xFE, ..] | [0xFE, 0xFF, ..])
}

fn has_mark(front: &[u8]) -> bool
    ensures { result ≡ bytes_eq front.now byte_order_mark }
{
    front == &MARK[..]
}

impl<'a, S: Source> Unmarked<'a, S> {
    ghost use Rattle.std.specs.Prelude.{◌≡◌, ◌<◌, ◌≤◌, ◌++◌, ◌⊎◌, IfOk, Ok, OnOk, true, false, length, take, []};
    ghost use Rattle.std.specs.Io.KnownBytes.{IsAtEnd, Keeps, ReadConsumes};
    ghost use Rattle.ngc_text.specs.Failures.{CountsFailure};
    ghost use Rattle.ngc_saved_text.specs.Saved.{IsTold, is_undecided, unmarked_remaining};
    ghost use Rattle.ngc_saved_text.specs.Sources.{unmarked_at_start, unmarked_front, unmarked_inner};

    /// Returns the source of a text, from which nothing was taken. `is_wide` is set once the text turns out to
    /// begin with a mark of UTF-16.
    pub fn new(inner: S, is_wide: &'a Cell<bool>) -> Unmarked<'a, S>
        ensures inner { unmarked_inner result ≡ inner }
        ensures start { unmarked_at_start result ≡ true }
        ensures front { unmarked_front result ≡ [] }
    {
        Unmarked {
            inner,
            is_wide,
            is_at_start: true,
            front: [0; 3],
            taken: 0,
            given: 0,
        }
    }

    // Takes one more of the first bytes, and returns whether there was one.
    fn take_one(&mut self) -> Result<bool, DeviceFault>
        requires start { unmarked_at_start self.old ≡ true }
        requires few { length (unmarked_front self.old) < 3 }
        ensures start { unmarked_at_start self.new ≡ true }
        ensures keeps { Keeps
            (unmarked_remaining true (unmarked_front self.old) (S.remaining (unmarked_inner self.old)))
            (unmarked_remaining true (unmarked_front self.new) (S.remaining (unmarked_inner self.new))) }
        ensures counts { CountsFailure (S.failures (unmarked_inner self.old))
            (S.failures (unmarked_inner self.new)) result }
        ensures more { result ≡ Ok true →
            length (unmarked_front self.old) < length (unmarked_front self.new) }
        ensures none { result ≡ Ok false → unmarked_front self.new ≡ unmarked_front self.old }
        ensures end { result ≡ Ok false → IsAtEnd (S.remaining (unmarked_inner self.new)) }
    {
        let mut next = [0u8; 1];
        let count = self.inner.pull(&mut next)?;
        if count == 0 {
            return Ok(false);
        }
        self.front[self.taken] = next[0];
        self.taken += 1;
        Ok(true)
    }

    // Leaves out the first bytes if they are a mark.
    fn decide(&mut self)
        requires start { unmarked_at_start self.old ≡ true }
        requires told { IsTold (unmarked_front self.old) (S.remaining (unmarked_inner self.old)) }
        ensures looked { unmarked_at_start self.new ≡ false }
        ensures keeps { Keeps
            (unmarked_remaining true (unmarked_front self.old) (S.remaining (unmarked_inner self.old)))
            (unmarked_remaining false (unmarked_front self.new) (S.remaining (unmarked_inner self.new))) }
        ensures inner { unmarked_inner self.new ≡ unmarked_inner self.old }
    {
        self.is_at_start = false;
        if has_wide_mark(&self.front[..self.taken]) {
            self.is_wide.set(true);
        }
        if has_mark(&self.front[..self.taken]) {
            self.given = self.taken;
        }
    }

    // Takes the first bytes, and leaves them out if they are a mark.
    fn look_for_mark(&mut self) -> Result<(), DeviceFault>
        requires start { unmarked_at_start self.old ≡ true }
        ensures looked { OnOk result (unmarked_at_start self.new ≡ false) }
        ensures keeps { Keeps
            (unmarked_remaining true (unmarked_front self.old) (S.remaining (unmarked_inner self.old)))
            (unmarked_remaining (unmarked_at_start self.new) (unmarked_front self.new)
            (S.remaining (unmarked_inner self.new))) }
        ensures counts { CountsFailure (S.failures (unmarked_inner self.old))
            (S.failures (unmarked_inner self.new)) result }
    {
        while is_undecided(&self.front[..self.taken]) {
            match self.take_one() {
                Ok(true) => {}
                Ok(false) => {
                    self.decide();
                    return Ok(());
                }
                Err(fault) => return Err(fault),
            }
        }
        self.decide();
        Ok(())
    }

    // Gives out the first bytes.
    fn give_front(&mut self, buf: &mut [u8]) -> usize
        requires looked { unmarked_at_start self.old ≡ false }
        ensures looked { unmarked_at_start self.new ≡ false }
        ensures bound { result ≤ length buf.new }
        ensures front { unmarked_front self.old ≡ take result buf.new ++ unmarked_front self.new }
        ensures inner { unmarked_inner self.new ≡ unmarked_inner self.old }
        ensures some { result ≡ 0 → (length buf.new ≡ 0) ⊎ (unmarked_front self.old ≡ []) }
    {
        let count = buf.len().min(self.taken - self.given);
        buf[..count].copy_from_slice(&self.front[self.given..self.given + count]);
        self.given += count;
        count
    }

    // Gives out the next bytes, after those of a mark.
    fn pull_next(&mut self, buf: &mut [u8]) -> Result<usize, DeviceFault>
        requires looked { unmarked_at_start self.old ≡ false }
        ensures bound { IfOk result (λ n. n ≤ length buf.new) }
        ensures bytes { ReadConsumes
            (unmarked_remaining false (unmarked_front self.old) (S.remaining (unmarked_inner self.old)))
            (unmarked_remaining (unmarked_at_start self.new) (unmarked_front self.new)
            (S.remaining (unmarked_inner self.new))) result buf.new }
        ensures counts { CountsFailure (S.failures (unmarked_inner self.old))
            (S.failures (unmarked_inner self.new)) result }
    {
        if self.given < self.taken {
            return Ok(self.give_front(buf));
        }
        self.inner.pull(buf)
    }
}

impl<S: Source> Source for Unmarked<'_, S> {
    ghost use Rattle.ngc_saved_text.specs.Saved.{unmarked_remaining};
    ghost use Rattle.ngc_saved_text.specs.Sources.{unmarked_at_start, unmarked_front, unmarked_inner};

    ghost remaining = { λ s. unmarked_remaining (unmarked_at_start s) (unmarked_front s) (S.remaining (unmarked_inner s)) };

    ghost failures = { λ s. S.failures (unmarked_inner s) };

    fn pull(&mut self, buf: &mut [u8]) -> Result<usize, DeviceFault> {
        if !self.is_at_start {
            return self.pull_next(buf);
        }
        match self.look_for_mark() {
            Ok(()) => self.pull_next(buf),
            Err(fault) => Err(fault),
        }
    }
}
