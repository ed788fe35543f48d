//! Refused memory for code that reads texts and expands cycles, and sources without end.
use crate::checks::{holds, same};
use linked_list_allocator::LocalHeap;
use ngc_canned_cycles::{Cycle, CycleFault, Hole, Start, expand};
use ngc_dialect_execution::{DialectFault, Traced, Wanted, interpret_dialect, trace_dialect};
use ngc_dialect_names::Dialect;
use ngc_events::{EventsFault, read_events};
use ngc_fixed_length::{Distance, FeedMode, Nm, Plane, Point3, RetractMode};
use ngc_line_reader::{Program, ReadFault};
use ngc_machine_files::{Tools, built_in_machine};
use ngc_offsets::CoordinateRange;
use ngc_test_devices::EndlessSource;
use ngc_text::{Device, InputFault, PULL_SIZE, read_whole};
use std::alloc::{AllocError, Global};
use std::process::Abort;
use std::test::Fail;

// The use of a heap's memory.
#[derive(Clone, Copy, Debug)]
enum Job {
    Executed,
    Kept,
    Events,
    File,
    Program,
}

const LINES: Wanted = Wanted {
    notes: false,
    lines: true,
};

// Each job with its piece of text, the number of its repetitions, the number of bytes that are
// written, of commands that are executed, of plain lines that are kept, or of events, bytes or lines that
// are read, and the increments of its heap. A line to execute has two holes of three moves each; the end
// is a command too. In a program with flow each piece has a move and changes the unit twice. Each line to
// keep is one plain line, and so is the end.
const JOBS: &[(Job, &str, usize, usize, usize)] = &[
    (Job::Executed, "G91 G81 X1 Z-1 R0 L2 F100\n", 50, 301, 8_192),
    (
        Job::Executed,
        "O1 if [1]\nG91 G20 G0 X0.1\nG21\nO1 endif\n",
        50,
        51,
        8_192,
    ),
    (Job::Kept, "G1 X1 F100\n", 100, 101, 8_192),
    (Job::Events, "load\n", 1_000, 1_000, 2_048),
    (
        Job::File,
        "0123456789abcdef",
        PULL_SIZE / 8,
        2 * PULL_SIZE,
        8_192,
    ),
    (Job::Program, "G1 X2 Y3 F100\nX4\n\n", 2, 6, 16),
];

// Returns how much was written or read, or `None` if memory was refused.
fn read_in(heap: &LocalHeap, job: Job, text: &[u8]) -> Option<usize> {
    match job {
        Job::Executed => {
            let (machine, tools) = (built_in_machine(heap), Tools::empty(heap));
            match interpret_dialect(heap, Dialect::LinuxCnc, text, &machine, &tools, false) {
                Ok(commands) => Some(commands.len()),
                Err(DialectFault::Memory) => None,
                Err(DialectFault::At { .. }) => Some(0),
            }
        }
        Job::Kept => {
            let (machine, tools) = (built_in_machine(heap), Tools::empty(heap));
            let dialect = Dialect::LinuxCnc;
            match trace_dialect(heap, LINES, dialect, text, &machine, &tools, false) {
                Ok(Traced { lines, .. }) => match lines {
                    Some(lines) => Some(lines.len()),
                    None => Some(0),
                },
                Err(DialectFault::Memory) => None,
                Err(DialectFault::At { .. }) => Some(0),
            }
        }
        Job::Events => match read_events(heap, text) {
            Ok(events) => Some(events.len()),
            Err(EventsFault::Memory) => None,
            Err(_) => Some(0),
        },
        Job::File => match read_whole(heap, &mut Device::new(text), 1_000_000) {
            Ok(bytes) if bytes.as_slice() == text => Some(bytes.len()),
            Err(InputFault::Memory) => None,
            _ => Some(0),
        },
        Job::Program => match Program::read(heap, &mut Device::new(text)) {
            Ok(program) => Some(program.len()),
            Err(ReadFault::Memory) => None,
            Err(_) => Some(0),
        },
    }
}

// Runs a job in larger and larger heaps: it is refused at first, and done from some heap on. No
// memory stays in use.
fn grows(
    rt: &impl Abort,
    alloc: Global,
    (job, text, wanted, step): (Job, &str, usize, usize),
) -> Result<(), Fail> {
    let mut refused = 0u32;
    let mut done = 0u32;
    for steps in 1..80usize {
        let heap = LocalHeap::new(alloc, steps.saturating_mul(step))?;
        match read_in(&heap, job, text.as_bytes()) {
            None => {
                refused = refused.saturating_add(1);
                same(rt, &(job, steps), &done, &0);
            }
            Some(count) => {
                done = done.saturating_add(1);
                same(rt, &(job, steps), &count, &wanted);
            }
        }
        same(rt, &(job, steps), &heap.used(), &0);
    }
    holds(rt, &job, refused > 0 && done > 0);
    Ok(())
}

#[test]
fn refused_memory_is_reported(rt: HostRuntime) -> Result<(), Fail> {
    for (job, piece, times, wanted, step) in JOBS {
        let text = piece.repeat(rt.alloc(), *times)?;
        grows(&rt, rt.alloc(), (*job, text.as_str(), *wanted, *step))?;
    }
    Ok(())
}

// Returns the number of moves of a hole of a millimetre, with pecks of a micrometre or in one.
fn moves_in(heap: &LocalHeap, hole: Hole) -> Result<Result<usize, CycleFault>, Fail> {
    let cycle = Cycle {
        hole,
        plane: Plane::XY,
        distance: Distance::Absolute,
        clear: RetractMode::Series,
        feed_mode: FeedMode::PerMinute,
        u: Some(Nm::from_nanometres(1_000_000)?),
        v: None,
        retract: Nm::zero(),
        bottom: Nm::from_nanometres(-1_000_000)?,
        repeats: None,
    };
    let start = Start {
        place: Point3 {
            x: Nm::zero(),
            y: Nm::zero(),
            z: Nm::zero(),
        },
        series: Nm::zero(),
        turning: false,
        reach: CoordinateRange::Near,
    };
    cycle.check(&start)?;
    if cycle.repeats() < 1 || !cycle.is_in_range(&start) {
        return Err(Fail::new("the test's cycle is out of range"));
    }
    Ok(expand(heap, &cycle, &start, 1).map(|moves| moves.len()))
}

#[test]
fn only_many_pecks_need_memory(rt: HostRuntime) -> Result<(), Fail> {
    let heap = LocalHeap::new(rt.alloc(), 64)?;
    same(&rt, &"a hole", &moves_in(&heap, Hole::Drill)?, &Ok(3));
    let peck = Hole::Peck(Nm::from_nanometres(1_000)?);
    same(
        &rt,
        &"pecks",
        &moves_in(&heap, peck)?,
        &Err(CycleFault::Memory),
    );
    Ok(())
}

#[test]
fn an_empty_tool_table_takes_no_memory(rt: HostRuntime) -> Result<(), AllocError> {
    let heap = LocalHeap::new(rt.alloc(), 512)?;
    let copy = Tools::empty(&heap).copy(&heap)?;
    holds(&rt, &"copy", copy.tools().is_empty());
    same(&rt, &"used", &heap.used(), &0);
    Ok(())
}

const LIMITS: &[usize] = &[0, 1_000_000];

#[test]
fn a_file_without_end(rt: HostRuntime) {
    for limit in LIMITS {
        let mut source = EndlessSource::new(b"", 0);
        let fault = read_whole(rt.alloc(), &mut source, *limit).err();
        same(&rt, limit, &fault, &Some(InputFault::TooLong));
        holds(&rt, limit, source.given <= (*limit + PULL_SIZE) as u64);
    }
}
