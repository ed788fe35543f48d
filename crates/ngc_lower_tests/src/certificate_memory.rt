//! Behaviour that no clause states: certificates are read, checked, made, joined and drawn if there
//! is memory, and no memory stays in use.
use crate::checks::{holds, same};
use linked_list_allocator::LocalHeap;
use ngc_canonical::interpret;
use ngc_certificate::{join, make, uncleared};
use ngc_certificate_text::{Certificate, CertificateFault, Setting};
use ngc_checker::{CheckReader, check};
use ngc_commands::{Action, Command, Motion, Pace, Way};
use ngc_drawing::{Look, View, WorkOrigin, write_svg};
use ngc_fixed_length::{Nm, Point3};
use ngc_line_reader::Program;
use ngc_machine_files::{Fixture, Machine, Name, Tools, built_in_machine};
use ngc_test_devices::TOOLS;
use ngc_text::Device;
use std::alloc::{Allocator, Global};
use std::process::Abort;
use std::test::Fail;

const PROGRAM: &[u8] = b"G0 X1 M2\n";

const CERTIFICATE: &[u8] = b"ngc-certificate 1
setting off 1
motion 0 1
line 65536 0 0 0 100 0 0
setting on 1
motion 0 1
line 65536 0 0 0 100 0 0
end
";

#[derive(Clone, Copy, Debug)]
enum Job {
    Read,
    Check,
    CheckInPieces,
    Make,
    Join,
    List,
    Draw,
}

// Each job, with the number of bytes by which each heap is larger than the one before it.
const JOBS: &[(Job, usize)] = &[
    (Job::Read, 16),
    (Job::Check, 288),
    (Job::CheckInPieces, 288),
    (Job::Make, 64),
    (Job::Join, 16),
    (Job::List, 64),
    (Job::Draw, 64),
];

// Returns a machine with a fixture far from zero.
fn machine_in<A: Allocator>(alloc: A) -> Option<Machine<A>> {
    let mut machine = built_in_machine(alloc);
    let low = Nm::from_nanometres(200_000_000).ok()?;
    let high = Nm::from_nanometres(300_000_000).ok()?;
    let fixture = Fixture {
        low: Point3 {
            x: low,
            y: low,
            z: low,
        },
        high: Point3 {
            x: high,
            y: high,
            z: high,
        },
        name: Name::none(),
        system: 0,
    };
    machine.fixtures.push(fixture).ok()?;
    Some(machine)
}

fn traverse(start: Point3, end: Point3) -> Command {
    let way = Way::Line { start, end };
    let motion = Motion {
        way,
        pace: Pace::Rapid,
        stop: false,
    };
    Command {
        line: 1,
        action: Action::Move(motion),
    }
}

// Returns the motions from zero along X, and back.
fn out_and_back(x: i128) -> Result<[Command; 2], Fail> {
    let zero = Nm::zero();
    let start = Point3 {
        x: zero,
        y: zero,
        z: zero,
    };
    let end = Point3 {
        x: Nm::from_nanometres(x)?,
        y: zero,
        z: zero,
    };
    Ok([traverse(start, end), traverse(end, start)])
}

fn number_of_reading(heap: &LocalHeap) -> u16 {
    match Certificate::read(heap, &mut Device::new(CERTIFICATE)) {
        Ok(_) => 0,
        Err(fault) => fault.number(),
    }
}

// Returns `None` if the heap is too small even for the inputs of the check.
fn number_of_checking(heap: &LocalHeap) -> Option<u16> {
    let program = Program::read(heap, &mut Device::new(PROGRAM)).ok()?;
    let machine = machine_in(heap)?;
    let certificate = Certificate::read(heap, &mut Device::new(CERTIFICATE)).ok()?;
    let tools = Tools::empty(heap);
    match check(heap, &program, &machine, &tools, &certificate) {
        Ok(_) => Some(0),
        Err(fault) => Some(fault.number()),
    }
}

// Checks in pieces: feeding the reader allocates no memory.
fn number_of_checking_in_pieces(rt: &impl Abort, heap: &LocalHeap) -> Option<u16> {
    let program = Program::read(heap, &mut Device::new(PROGRAM)).ok()?;
    let machine = machine_in(heap)?;
    let tools = Tools::empty(heap);
    let Ok(mut reader) = CheckReader::new(heap, &program, &machine, &tools) else {
        return Some(900);
    };
    let used = heap.used();
    holds(rt, &"what is fed", reader.feed(CERTIFICATE).is_ok());
    same(rt, &"memory for what is fed", &heap.used(), &used);
    holds(rt, &"the end", reader.finish().is_ok());
    Some(0)
}

fn number_of_making(heap: &LocalHeap, commands: &[Command; 2]) -> u16 {
    match make(heap, commands, commands, &built_in_machine(heap), 8) {
        Ok(_) => 0,
        Err(fault) => fault.number(),
    }
}

// Joins with 96 bytes of the heap in use; returns `None` if it doesn't have them.
fn number_of_joining(
    alloc: Global,
    heap: &LocalHeap,
    commands: &[Command; 2],
) -> Result<Option<u16>, Fail> {
    let room = LocalHeap::new(alloc, 65_536)?;
    let certificate = make(&room, commands, commands, &built_in_machine(&room), 8)?;
    let Ok(filler) = Vec::<u8, _>::with_capacity(heap, 96) else {
        return Ok(None);
    };
    let number = match join(heap, certificate, commands, commands) {
        Ok(_) => 0,
        Err(fault) => fault.number(),
    };
    drop(filler);
    Ok(Some(number))
}

fn number_of_listing(heap: &LocalHeap, commands: &[Command; 2]) -> u16 {
    match uncleared(heap, commands, &built_in_machine(heap), 8) {
        Ok(_) => 0,
        Err(fault) => fault.number(),
    }
}

// Ten millimetres without a tool, and ten with one.
const DRAWN: &[u8] = b"G0 X10\nT1 M6\nG0 X20\nM2\n";

// Draws in a heap: nothing is written if memory is refused.
fn number_of_drawing(rt: &impl Abort, alloc: Global, heap: &LocalHeap) -> Result<u16, Fail> {
    let machine = built_in_machine(alloc);
    let program = Program::read(alloc, &mut Device::new(DRAWN))?;
    let tools = Tools::read(alloc, TOOLS.as_bytes())?;
    let commands = interpret(alloc, &program, &machine, &tools, false)?;
    let commands = commands.as_slice();
    let certificate = make(alloc, commands, commands, &machine, 8)?;
    let motions = certificate.motions(Setting::Off);
    let mut sink = Device::new(Vec::new(alloc));
    let look = Look {
        view: View::Top,
        whole: true,
        bodies: true,
    };
    let work = WorkOrigin {
        system: 0,
        origin: machine.start,
        axis_offset: machine.start,
    };
    let result = write_svg(
        heap, &look, &machine, commands, motions, &None, &work, &mut sink,
    );
    if let Err(fault) = result {
        same(rt, &"written", &sink.into_inner().len(), &0);
        return Ok(fault.number());
    }
    Ok(0)
}

fn number_of(
    rt: &impl Abort,
    alloc: Global,
    heap: &LocalHeap,
    job: Job,
) -> Result<Option<u16>, Fail> {
    let near = out_and_back(10_000_000)?;
    Ok(match job {
        Job::Read => Some(number_of_reading(heap)),
        Job::Check => number_of_checking(heap),
        Job::CheckInPieces => number_of_checking_in_pieces(rt, heap),
        Job::Make => Some(number_of_making(heap, &near)),
        Job::Join => number_of_joining(alloc, heap, &near)?,
        Job::List => Some(number_of_listing(heap, &out_and_back(400_000_000)?)),
        Job::Draw => Some(number_of_drawing(rt, alloc, heap)?),
    })
}

// Each job gets little memory, and then more and more: it is refused at first, and done from some
// size on.
#[test]
fn refused_memory_is_reported(rt: HostRuntime) -> Result<(), Fail> {
    for (job, step) in JOBS {
        let mut refused = 0u32;
        let mut done = 0u32;
        for count in 1..200usize {
            let heap = LocalHeap::new(rt.alloc(), count.saturating_mul(*step))?;
            match number_of(&rt, rt.alloc(), &heap, *job)? {
                Some(0) => done = done.saturating_add(1),
                Some(number) => {
                    same(&rt, job, &(number, done), &(900, 0));
                    refused = refused.saturating_add(1);
                }
                None => same(&rt, job, &refused, &0),
            }
            same(&rt, job, &heap.used(), &0);
        }
        holds(&rt, job, refused > 0 && done > 0);
    }
    Ok(())
}

#[test]
fn announced_counts_take_no_memory(rt: HostRuntime) -> Result<(), Fail> {
    let heap = LocalHeap::new(rt.alloc(), 256)?;
    let text = b"ngc-certificate 1\nsetting off 1000000\nmotion 0 65535\nline\n".as_slice();
    let fault = Certificate::read(&heap, &mut Device::new(text)).err();
    same(&rt, &"fault", &fault, &Some(CertificateFault::BadLine(4)));
    same(&rt, &"memory that is kept", &heap.used(), &0);
    Ok(())
}
