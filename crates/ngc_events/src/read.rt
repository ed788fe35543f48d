ghost use Rattle.std.specs.Prelude.{◌<◌, ◌+◌, length};
ghost use Rattle.ngc_events.specs.Events.{parsed_events};
ghost use Rattle.ngc_events.specs.Given.{EventsResultIs};
ghost use Rattle.ngc_events.specs.Reading.{TakesLine};

use crate::event::EventLine;
use crate::fault::EventsFault;
use crate::line::event_in;
use memchr::memchr;
use std::alloc::Allocator;

// The most lines that a file may have.
const LINE_LIMIT: usize = 1_000_000;

// Returns the event of the first line of a text, and the text after the line. `before` lines come
// before it.
fn first_line(before: usize, text: &[u8]) -> Result<(EventLine, &[u8]), EventsFault>
    requires { 0 < length text.now }
    ensures { TakesLine result (before + 1) text.now }
{
    if before >= LINE_LIMIT {
        return Err(EventsFault::TooManyLines);
    }
    let number = before as u64 + 1;
    let Some(end) = memchr(b'\n', text) else {
        return Err(EventsFault::BadLine(number));
    };
    match event_in(&text[..end]) {
        Some(line) => Ok((line, &text[end + 1..])),
        None => Err(EventsFault::BadLine(number)),
    }
}

/// Returns the events of a text, or the first fault: 711 if a line is no event or lacks its line
/// feed, 712 if there are more than 1,000,000 lines.
pub fn read_events<A: Allocator>(alloc: A, text: &[u8]) -> Result<Vec<EventLine, A>, EventsFault>
    ensures { EventsResultIs result (parsed_events text.now) }
{
    let mut events = Vec::new(alloc);
    let mut left = text;
    while !left.is_empty() {
        let (line, afterwards) = first_line(events.len(), left)?;
        if events.push(line).is_err() {
            return Err(EventsFault::Memory);
        }
        left = afterwards;
    }
    Ok(events)
}
