//! The text of a log.
ghost use Rattle.std.specs.Prelude.{◌≡◌, ◌+◌, ◌≤◌, ◌++◌, length};
ghost use Rattle.ngc_text.specs.Collected.{CHUNK_SIZE, HasSpaceForLine};
ghost use Rattle.ngc_run_through.specs.Log.{numbered_line, ending_text, position_text, switch_text};
ghost use Rattle.ngc_run_through.specs.Log.{text_of};
ghost use Rattle.ngc_run_through.specs.Times.{time_text, timed_ending, timed_position, timed_text};

use ngc_events::{Ending, EventFault, Reply};
use ngc_fixed_length::StepPos;
use ngc_text::Chunk;

fn add_numbered(chunk: &mut Chunk, word: &[u8], number: u32)
    requires room { length chunk.old + 100 ≤ CHUNK_SIZE }
    requires word { length word.now ≤ 10 }
    ensures text { chunk.new ≡ chunk.old ++ numbered_line word.now number }
    ensures short { length chunk.new ≤ length chunk.old + 52 }
{
    chunk.add_text(word);
    chunk.add_text(b" ");
    chunk.add_number(number);
    chunk.add_text(b"\n");
}

fn add_position(chunk: &mut Chunk, position: &StepPos)
    requires { length chunk.old + 130 ≤ CHUNK_SIZE }
    ensures text { chunk.new ≡ chunk.old ++ position_text (Some position.now) }
    ensures short { length chunk.new ≤ length chunk.old + 127 }
{
    chunk.add_text(b"pos ");
    chunk.add_three(position.x, position.y, position.z);
    chunk.add_text(b"\n");
}

fn add_ending(chunk: &mut Chunk, ending: &Ending)
    requires { length chunk.old + 100 ≤ CHUNK_SIZE }
    ensures text { chunk.new ≡ chunk.old ++ ending_text (Some ending.now) }
    ensures short { length chunk.new ≤ length chunk.old + 52 }
{
    match ending {
        Ending::Done(command) => add_numbered(chunk, b"done", *command),
        Ending::Stopped(command) => add_numbered(chunk, b"stop", *command),
        Ending::End => chunk.add_text(b"end\n"),
    }
}

fn add_tick(chunk: &mut Chunk, position: &Option<StepPos>, ending: &Option<Ending>)
    requires { length chunk.old + 240 ≤ CHUNK_SIZE }
    ensures text { chunk.new ≡ chunk.old ++ position_text position.now ++ ending_text ending.now }
    ensures short { length chunk.new ≤ length chunk.old + 200 }
{
    if let Some(position) = position {
        add_position(chunk, position);
    }
    if let Some(ending) = ending {
        add_ending(chunk, ending);
    }
}

fn switch_line(on: bool) -> &'static [u8]
    ensures text { result.now ≡ switch_text on }
    ensures short { length result.now ≤ 11 }
{
    if on { b"switch on\n" } else { b"switch off\n" }
}

fn add_reply(chunk: &mut Chunk, reply: &Reply)
    requires { length chunk.old + 240 ≤ CHUNK_SIZE }
    ensures text { chunk.new ≡ chunk.old ++ text_of (Ok reply.now) }
    ensures short { length chunk.new ≤ length chunk.old + 200 }
{
    match reply {
        Reply::Loaded(command) => add_numbered(chunk, b"load", *command),
        Reply::Ticked { position, ending } => add_tick(chunk, position, ending),
        Reply::Held => chunk.add_text(b"hold\n"),
        Reply::Resumed => chunk.add_text(b"resume\n"),
        Reply::Overridden(percent) => add_numbered(chunk, b"override", u32::from(*percent)),
        Reply::Switched(on) => chunk.add_text(switch_line(*on)),
        Reply::Started => chunk.add_text(b"start\n"),
    }
}

/// Adds the log's text for an outcome: nothing, one line, or two lines if a command ended with the
/// step.
pub(crate) fn add_outcome(chunk: &mut Chunk, outcome: &Result<Reply, EventFault>)
    requires { HasSpaceForLine chunk.old }
    ensures text { chunk.new ≡ chunk.old ++ text_of outcome.now }
    ensures short { length chunk.new ≤ length chunk.old + 200 }
{
    match outcome {
        Ok(reply) => add_reply(chunk, reply),
        Err(fault) => add_numbered(chunk, b"refused", u32::from(fault.number())),
    }
}

// Adds the number of ticks so far.
fn add_time(chunk: &mut Chunk, ticks: u64)
    requires { length chunk.old + 100 ≤ CHUNK_SIZE }
    ensures text { chunk.new ≡ chunk.old ++ time_text ticks }
    ensures short { length chunk.new ≤ length chunk.old + 41 }
{
    chunk.add_number(ticks);
    chunk.add_text(b" ");
}

fn add_timed_position(chunk: &mut Chunk, ticks: u64, position: &Option<StepPos>)
    requires { length chunk.old + 200 ≤ CHUNK_SIZE }
    ensures text { chunk.new ≡ chunk.old ++ timed_position ticks position.now }
    ensures short { length chunk.new ≤ length chunk.old + 168 }
{
    if let Some(position) = position {
        add_time(chunk, ticks);
        add_position(chunk, position);
    }
}

fn add_timed_ending(chunk: &mut Chunk, ticks: u64, ending: &Option<Ending>)
    requires { length chunk.old + 150 ≤ CHUNK_SIZE }
    ensures text { chunk.new ≡ chunk.old ++ timed_ending ticks ending.now }
    ensures short { length chunk.new ≤ length chunk.old + 93 }
{
    if let Some(ending) = ending {
        add_time(chunk, ticks);
        add_ending(chunk, ending);
    }
}

fn add_timed_reply(chunk: &mut Chunk, ticks: u64, reply: &Reply)
    requires { length chunk.old + 400 ≤ CHUNK_SIZE }
    ensures text { chunk.new ≡ chunk.old ++ timed_text ticks (Ok reply.now) }
    ensures short { length chunk.new ≤ length chunk.old + 300 }
{
    match reply {
        Reply::Ticked { position, ending } => {
            add_timed_position(chunk, ticks, position);
            add_timed_ending(chunk, ticks, ending);
        }
        _ => {
            add_time(chunk, ticks);
            add_reply(chunk, reply);
        }
    }
}

/// Adds the log's text for an outcome, as `add_outcome` does; each line begins with the number of
/// ticks so far.
pub(crate) fn add_timed_outcome(chunk: &mut Chunk, ticks: u64, outcome: &Result<Reply, EventFault>)
    requires { HasSpaceForLine chunk.old }
    ensures text { chunk.new ≡ chunk.old ++ timed_text ticks outcome.now }
    ensures short { length chunk.new ≤ length chunk.old + 300 }
{
    match outcome {
        Ok(reply) => add_timed_reply(chunk, ticks, reply),
        Err(fault) => {
            add_time(chunk, ticks);
            add_numbered(chunk, b"refused", u32::from(fault.number()));
        }
    }
}
