//! Events whose text arrives in pieces of any size.
ghost use Rattle.std.specs.Prelude.{◌≡◌, ◌<◌, ◌≤◌, ◌+◌, ◌++◌, [], ◌∷◌, ℕ, List, length, IsTrue, Ok, Err};
ghost use Rattle.std.specs.Prelude.{MatchOption, IfOk, IfErr, IfSome, OnOk, OnErr, Some, None};
ghost use Rattle.ngc_events.specs.Arriving.{Ends, HaveArrived, IsSplit, LONGEST_LINE, MOST_LINES};
ghost use Rattle.ngc_events.specs.Arriving.{MOST_TEXT, Takes, filled, is_feedless};
ghost use Rattle.ngc_events.specs.Events.{parsed_event};
ghost use Rattle.ngc_events.specs.declared.event.EventLine.{EventLine as Line};

use crate::event::EventLine;
use crate::fault::EventsFault;
use crate::line::event_in;
use arrayvec::ArrayVec;
use memchr::memchr;
use std::marker::Model;

/// The events of a text that arrives in pieces of any size. Each event is read as soon as its line
/// feed has arrived.
///
/// The only bytes that are stored are those of a line that a piece cuts, at most 12.
#[derive(Drop)]
pub struct EventLines {
    complete: u64,
    begun: ArrayVec<u8, 12>,
}

impl Model for EventLines {
    ghost use Rattle.ngc_events.specs.Arriving.{Arriving};

    ghost Value = { Arriving };

    ghost view = { λ l. record { complete = l.complete; begun = l.begun.items } };

    ghost invariant = { λ l. Unit {0} };
}

// Returns the first line of some bytes, and the bytes after its line feed.
fn split_line(bytes: &[u8]) -> Option<(&[u8], &[u8])>
    ensures { MatchOption result (IsTrue (is_feedless bytes.now))
        (λ p. IsSplit bytes.now p.0.now p.1.now) }
{
    let end = memchr(b'\n', bytes)?;
    let (line, rest) = bytes.split_at(end);
    Some((line, &rest[1..]))
}

impl EventLines {
    /// Returns the state before any byte of the text has arrived.
    pub fn new() -> EventLines
        ensures { HaveArrived [] [] result }
    {
        EventLines {
            complete: 0,
            begun: ArrayVec::new(),
        }
    }

    // Adds bytes to the line that isn't complete. A line with an event has at most 12 bytes.
    fn add(&mut self, part: &[u8]) -> Result<(), EventsFault>
        requires { self.old.complete < MOST_LINES }
        ensures ok { OnOk result (self.new ≡ record self.old { begun = self.old.begun ++ part.now }) }
        ensures short { OnOk result (length (self.old.begun ++ part.now) ≤ LONGEST_LINE) }
        ensures long { OnErr result
            (LONGEST_LINE < length (self.old.begun ++ part.now)) }
        ensures fault { IfErr result (λ fault. fault ≡ EventsFault.BadLine (self.old.complete + 1)) }
    {
        match self.begun.try_extend_from_slice(part) {
            Ok(()) => Ok(()),
            Err(_) => Err(EventsFault::BadLine(self.complete + 1)),
        }
    }

    // Returns the event of the line, which is complete now.
    fn complete(&mut self) -> Result<EventLine, EventsFault>
        requires { self.old.complete < MOST_LINES }
        ensures line { IfOk result (λ line. parsed_event self.old.begun ≡ Some line) }
        ensures next { OnOk result (self.new ≡ record { complete = self.old.complete + 1; begun = [] }) }
        ensures none { OnErr result (parsed_event self.old.begun ≡ None) }
        ensures fault { IfErr result (λ fault. fault ≡ EventsFault.BadLine (self.old.complete + 1)) }
    {
        match event_in(self.begun.as_slice()) {
            Some(line) => {
                self.complete += 1;
                self.begun.clear();
                Ok(line)
            }
            None => Err(EventsFault::BadLine(self.complete + 1)),
        }
    }

    /// Takes bytes up to the first line feed, and returns the event of the line that it ends, with
    /// the bytes after it. Without a line feed it stores all bytes, and returns `None`.
    ///
    /// A line that is no event is 711, at its line feed or at its 13th byte. After 2^64 - 1 lines
    /// there are too many (712). After a fault no more bytes are taken.
    pub fn take<'p>(
        &mut self,
        piece: &'p [u8],
    ) -> Result<Option<(EventLine, &'p [u8])>, EventsFault>
        ensures takes { (text : List ℕ) (lines : List Line) → HaveArrived text lines self.old →
            Takes text lines piece.now self.new result }
        ensures shorter { IfOk result (λ o. IfSome o (λ p. length p.1.now < length piece.now)) }
        // The text is at most as long as the number of its lines allows.
        ensures fills { IfOk result (λ o. MatchOption o
            (filled self.old + length piece.now ≤ filled self.new)
            (λ p. filled self.old + length piece.now ≤ filled self.new + length p.1.now)) }
        ensures bound { OnOk result (filled self.new ≤ MOST_TEXT) }
    {
        if self.complete == u64::MAX {
            return Err(EventsFault::TooManyLines);
        }
        match split_line(piece) {
            Some((part, rest)) => {
                match self.add(part) {
                    Ok(()) => {}
                    Err(fault) => return Err(fault),
                }
                match self.complete() {
                    Ok(line) => Ok(Some((line, rest))),
                    Err(fault) => Err(fault),
                }
            }
            None => match self.add(piece) {
                Ok(()) => Ok(None),
                Err(fault) => Err(fault),
            },
        }
    }

    /// Ends the text. A last line without its line feed is 711.
    pub fn finish(&self) -> Result<(), EventsFault>
        ensures { (text : List ℕ) (lines : List Line) → HaveArrived text lines self.now →
            Ends text lines result }
    {
        if self.begun.is_empty() {
            return Ok(());
        }
        if self.complete == u64::MAX {
            return Err(EventsFault::TooManyLines);
        }
        Err(EventsFault::BadLine(self.complete + 1))
    }
}
