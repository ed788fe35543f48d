ghost use Rattle.std.specs.Prelude.{◌≡◌, ◌≤◌, IfSome};
ghost use Rattle.std.specs.Str.{bytes_eq};
ghost use Rattle.ngc_events.specs.Events.{number_to as number_said, once, ticks as ticks_said};
ghost use Rattle.ngc_events.specs.Events.{override as override_said};
ghost use Rattle.ngc_events.specs.Events.{parsed_word, parsed_event};

use crate::event::{Event, EventLine};
use ngc_text::decimal_in;

fn once(event: Event) -> EventLine
    ensures { result ≡ once event }
{
    EventLine { event, times: 1 }
}

// Returns the number that a text is in decimal digits, if it is at most the limit.
fn number_to(limit: u32, text: &[u8]) -> Option<u32>
    ensures value { result ≡ number_said limit text.now }
    ensures within { IfSome result (λ n. n ≤ limit) }
{
    match decimal_in(text) {
        Some(number) if number <= u64::from(limit) => Some(number as u32),
        _ => None,
    }
}

// Returns the event of a number of ticks, or `None` if the text isn't such a number.
fn ticks(number: &[u8]) -> Option<EventLine>
    ensures { result ≡ ticks_said (number_said 1000000 number.now) }
{
    match number_to(1_000_000, number) {
        Some(0) | None => None,
        Some(times) => Some(EventLine {
            event: Event::Tick,
            times,
        }),
    }
}

fn feed_override(number: &[u8]) -> Option<EventLine>
    ensures { result ≡ override_said (number_said 255 number.now) }
{
    match number_to(255, number) {
        Some(percent) => Some(once(Event::Override(percent as u8))),
        None => None,
    }
}

fn is_word(bytes: &[u8], word: &[u8]) -> bool
    ensures { result ≡ bytes_eq bytes.now word.now }
{
    bytes == word
}

#[tactic(auto, unfolding(crate::specs::Events::parsed_word))]
fn word_event(word: &[u8]) -> Option<Event>
    ensures { result ≡ parsed_word word.now }
{
    if is_word(word, b"load") {
        Some(Event::Load)
    } else if is_word(word, b"hold") {
        Some(Event::Hold)
    } else if is_word(word, b"resume") {
        Some(Event::Resume)
    } else if is_word(word, b"start") {
        Some(Event::Start)
    } else if is_word(word, b"switch on") {
        Some(Event::StopSwitch(true))
    } else if is_word(word, b"switch off") {
        Some(Event::StopSwitch(false))
    } else {
        None
    }
}

/// Returns the event of a line without its line feed, or `None`.
#[tactic(auto, unfolding(crate::specs::Events::parsed_event))]
pub(crate) fn event_in(line: &[u8]) -> Option<EventLine>
    ensures { result ≡ parsed_event line.now }
{
    if let Some(number) = line.strip_prefix(b"tick ") {
        return ticks(number);
    }
    if let Some(number) = line.strip_prefix(b"override ") {
        return feed_override(number);
    }
    match word_event(line) {
        Some(event) => Some(once(event)),
        None => None,
    }
}
