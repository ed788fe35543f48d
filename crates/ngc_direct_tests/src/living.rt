//! Live runs: fed in pieces of any size, they write the output of a run over the same events at
//! once.
use crate::checks::{holds, same};
use ngc_line_reader::Program;
use ngc_run_log::{LiveInput, feed_from, feed_next};
use ngc_simulator::{
    Accepted, Certificate, EventsFault, Format, LiveFault, LiveForm, LiveRun, Machine, Tools,
    certify, check, read_events, run, write_samples, write_timed_log,
};
use ngc_test_devices::{EndlessSource, FailingSink, MACHINE, SlowSource, TOOLS};
use ngc_text::Device;
use std::alloc::Global;
use std::process::Abort;
use std::test::Fail;

// The spindle turns while X and Y move two steps. The machine stops, and then X moves one back.
const PROGRAM: &str = "M3 S1000\nG0 X0.02 Y0.02\nM0\nG0 X0.01\nM2\n";

// Loads that the ring takes and one too many, an event that is refused, and ticks past the end.
const EVENTS: &str = "load\nload\nload\nload\nload\nload\noverride 201\nhold\ntick 1\nresume\n\
    tick 20\nswitch on\noverride 50\ntick 1000\nstart\ntick 7\nhold\ntick 3\nresume\ntick 1000\n";

fn accepted(alloc: Global) -> Result<Accepted<Global>, Fail> {
    let machine = Machine::read(alloc, MACHINE.as_bytes())?;
    let tools = Tools::read(alloc, TOOLS.as_bytes())?;
    let mut certificate = Device::new(Vec::new(alloc));
    let (copy, others) = (machine.copy(alloc)?, tools.copy(alloc)?);
    let mut source = Device::new(PROGRAM.as_bytes());
    certify(
        alloc,
        &mut source,
        copy,
        others,
        8,
        Format::One,
        &mut certificate,
    )?;
    let text = certificate.into_inner();
    let certificate = Certificate::read(alloc, &mut Device::new(text.as_slice()))?;
    let program = Program::read(alloc, &mut Device::new(PROGRAM.as_bytes()))?;
    Ok(check(alloc, &program, &machine, &tools, &certificate)?)
}

// Returns the output of a run over all events.
fn run_over(alloc: Global, events: &[u8], form: LiveForm) -> Result<Vec<u8>, Fail> {
    let lines = read_events(alloc, events)?;
    let mut sink = Device::new(Vec::new(alloc));
    let accepted = accepted(alloc)?;
    match form {
        LiveForm::Log => run(alloc, accepted, false, lines.as_slice(), &mut sink)?,
        LiveForm::Times => { write_timed_log(alloc, accepted, false, lines.as_slice(), &mut sink)? }
        LiveForm::Samples(inverted) => {
            write_samples(
                alloc,
                accepted,
                false,
                lines.as_slice(),
                inverted,
                &mut sink,
            )?
        }
    };
    Ok(sink.into_inner())
}

// Returns the output of a live run to which the events are fed in pieces of this size.
fn fed(alloc: Global, events: &[u8], form: LiveForm, size: usize) -> Result<Vec<u8>, Fail> {
    let mut live = LiveRun::new(alloc, accepted(alloc)?, false, form, false)?;
    let mut sink = Device::new(Vec::new(alloc));
    let mut source = SlowSource::new(events, size, usize::MAX);
    feed_from(&mut live, &mut source, &mut sink)?;
    Ok(sink.into_inner())
}

#[test]
fn pieces_of_any_size_make_the_run(rt: HostRuntime) -> Result<(), Fail> {
    let events = EVENTS.as_bytes();
    for form in [
        LiveForm::Log,
        LiveForm::Times,
        LiveForm::Samples(0),
        LiveForm::Samples(85),
    ] {
        let wanted = run_over(rt.alloc(), events, form)?;
        holds(&rt, &"something", wanted.len() > 40);
        for size in [1, 7, 100_000usize] {
            let found = fed(rt.alloc(), events, form, size)?;
            holds(&rt, &size, found.as_slice() == wanted.as_slice());
        }
    }
    Ok(())
}

// After each line the sink has the whole output of a run over the lines so far.
#[test]
fn each_line_is_answered_before_the_next(rt: HostRuntime) -> Result<(), Fail> {
    let events = EVENTS.as_bytes();
    for form in [LiveForm::Log, LiveForm::Times, LiveForm::Samples(0)] {
        let mut live = LiveRun::new(rt.alloc(), accepted(rt.alloc())?, false, form, false)?;
        let mut sink = FailingSink::new(rt.alloc(), 1_000, 100_000);
        let mut end = 0usize;
        for line in events.split_inclusive(|byte| *byte == b'\n') {
            live.feed(line, &mut sink)?;
            end = end.saturating_add(line.len());
            let wanted = run_over(rt.alloc(), &events[..end.min(events.len())], form)?;
            holds(&rt, &end, sink.taken.as_slice() == wanted.as_slice());
        }
    }
    Ok(())
}

// Each of the lines that arrive together has a write of its own: a sink that accepts some writes has
// the results of that number of lines.
#[test]
fn lines_that_arrive_together_have_a_write_each(rt: HostRuntime) -> Result<(), Fail> {
    let text = "override 50\nhold\nresume\n";
    for (writes, wanted) in [
        (1usize, "override 50\n"),
        (2, "override 50\nhold\n"),
        (3, "override 50\nhold\nresume\n"),
    ] {
        let mut live = LiveRun::new(
            rt.alloc(),
            accepted(rt.alloc())?,
            false,
            LiveForm::Log,
            false,
        )?;
        let mut sink = FailingSink::new(rt.alloc(), writes, 100_000);
        let mut source = SlowSource::new(text.as_bytes(), 4_096, usize::MAX);
        let ended = feed_from(&mut live, &mut source, &mut sink);
        holds(&rt, &writes, ended.is_ok() == (writes == 3));
        holds(&rt, &writes, sink.taken.as_slice() == wanted.as_bytes());
    }
    Ok(())
}

// Two lines and the first bytes of a third arrive in one reading. Each turn writes the result of one
// of them, and nothing is read before all bytes are fed.
#[test]
fn a_turn_reads_only_if_no_byte_waits(rt: HostRuntime) -> Result<(), Fail> {
    let mut live = LiveRun::new(
        rt.alloc(),
        accepted(rt.alloc())?,
        false,
        LiveForm::Log,
        false,
    )?;
    let mut sink = FailingSink::new(rt.alloc(), 1_000, 100_000);
    let mut source = EndlessSource::new(b"override 50\nhold\n", b'0');
    let mut input = LiveInput::new();
    for wanted in ["override 50\n", "override 50\nhold\n"] {
        let goes_on = feed_next(&mut live, &mut input, &mut source, &mut sink)?;
        holds(&rt, &wanted, goes_on && source.pulls == 1);
        holds(&rt, &wanted, sink.taken.as_slice() == wanted.as_bytes());
    }
    // A line of zeros is too long at its 13th byte.
    let ended = feed_next(&mut live, &mut input, &mut source, &mut sink);
    let wanted = LiveFault::Events(EventsFault::BadLine(3));
    holds(&rt, &"zeros", ended == Err(wanted));
    holds(&rt, &"zeros", source.pulls == 1);
    Ok(())
}

// A wrong line is reported at its line feed, a line that is too long at its 13th byte, and a last
// line without a line feed at the end. The output of the lines before it is written.
#[test]
fn a_wrong_line_ends_a_live_run(rt: HostRuntime) -> Result<(), Fail> {
    for (text, number) in [
        ("load\nhold", 2),
        ("load\nhol\nhold\n", 2),
        ("load\n\nhold\n", 2),
        ("load\nhold\r\n", 2),
        ("load\noverride 2550", 2),
    ] {
        let mut live = LiveRun::new(
            rt.alloc(),
            accepted(rt.alloc())?,
            false,
            LiveForm::Log,
            false,
        )?;
        let mut sink = FailingSink::new(rt.alloc(), 1_000, 100_000);
        let mut source = SlowSource::new(text.as_bytes(), 3, usize::MAX);
        let ended = feed_from(&mut live, &mut source, &mut sink);
        let wanted = LiveFault::Events(EventsFault::BadLine(number));
        same(&rt, &text, &ended, &Err(wanted));
        holds(&rt, &text, sink.taken.as_slice() == b"load 0\n".as_slice());
    }
    Ok(())
}
