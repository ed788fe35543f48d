//! The controller itself: its latest replies, its tool, and too little memory for it.
use crate::checks::{holds, same};
use crate::given::NO_MOTIONS;
use linked_list_allocator::LocalHeap;
use ngc_line_reader::Program;
use ngc_simulator::{
    Accepted, ArcPath, Certificate, Controller, Event, Machine, Reply, Tools, built_in_machine,
    check,
};
use ngc_test_devices::TOOLS;
use ngc_text::Device;
use std::alloc::{Allocator, Global};
use std::process::Abort;
use std::test::Fail;

fn long_ringed<A: Allocator>(alloc: A) -> Machine<A> {
    let mut machine = built_in_machine(alloc);
    machine.ring = 1_024;
    machine
}

fn accepted_on<A: Allocator + Copy>(
    alloc: A,
    text: &str,
    certificate: &[u8],
    tools: &Tools<A>,
    has_long_ring: bool,
) -> Option<Accepted<A>> {
    let program = Program::read(alloc, &mut Device::new(text.as_bytes())).ok()?;
    let certificate = Certificate::read(alloc, &mut Device::new(certificate)).ok()?;
    let machine = if has_long_ring {
        long_ringed(alloc)
    } else {
        built_in_machine(alloc)
    };
    check(alloc, &program, &machine, tools, &certificate).ok()
}

// Calls `event` without its clauses: they would make the proof of each test longer.
fn give<A: Allocator + Copy>(controller: &mut Controller<ArcPath, A>, events: &[Event]) {
    for event in events {
        let _ = controller.event(*event);
    }
}

// Returns whether the reply `index` positions before the latest one is that to a hold.
fn is_hold<A: Allocator + Copy>(controller: &Controller<ArcPath, A>, index: usize) -> bool {
    matches!(controller.recent(index), Some(Reply::Held))
}

fn is_load<A: Allocator + Copy>(controller: &Controller<ArcPath, A>, index: usize) -> bool {
    matches!(controller.recent(index), Some(Reply::Loaded(1)))
}

// Tests the replies: the third load is refused, and its reply isn't stored. The last 256 replies
// are.
fn tells(rt: &impl Abort, controller: &mut Controller<ArcPath, Global>) {
    holds(rt, &"no reply", controller.recent(0).is_none());
    give(controller, &[Event::Load]);
    holds(rt, &"no tool", controller.tool().is_none());
    give(controller, &[Event::Tick]);
    let number = controller.tool().map(|tool| tool.number);
    same(rt, &"tool", &number, &Some(1));
    give(controller, &[Event::Load, Event::Load, Event::Hold]);
    holds(
        rt,
        &"last",
        is_hold(controller, 0) && is_load(controller, 1),
    );
    give(controller, &[Event::Tick; 255]);
    holds(rt, &"kept", is_hold(controller, 255));
    holds(rt, &"no more", controller.recent(256).is_none());
}

#[test]
fn what_a_controller_replies(rt: HostRuntime) -> Result<(), Fail> {
    let tools = Tools::read(rt.alloc(), TOOLS.as_bytes())?;
    let accepted = accepted_on(rt.alloc(), "T1 M6\nM2\n", NO_MOTIONS, &tools, false);
    match Controller::new(rt.alloc(), accepted.ok_or("not accepted")?, false) {
        Ok(mut controller) => tells(&rt, &mut controller),
        Err((_accepted, fault)) => Err(fault)?,
    }
    Ok(())
}

// Fills a heap with fillers of `size` bytes, and then frees `spare` of them.
fn fillers_of(
    alloc: Global,
    heap: &LocalHeap,
    size: usize,
    spare: usize,
) -> Result<Vec<Vec<u8, &LocalHeap>>, Fail> {
    let mut fillers = Vec::new(alloc);
    for _ in 0..300u32 {
        if let Ok(filler) = Vec::<u8, _>::with_capacity(heap, size) {
            fillers.push(filler)?;
        }
    }
    for _ in 0..spare {
        fillers.pop();
    }
    Ok(fillers)
}

// Returns whether there is memory for a controller with two commands.
fn is_made<'a>(rt: &impl Abort, heap: &'a LocalHeap, accepted: Accepted<&'a LocalHeap>) -> bool {
    match Controller::<ArcPath, _>::new(heap, accepted, true) {
        Ok(mut controller) => {
            give(&mut controller, &[Event::Load, Event::Load, Event::Hold]);
            holds(rt, &"loaded", is_load(&controller, 1));
            true
        }
        Err((accepted, fault)) => {
            same(rt, &"fault", &fault.number(), &900);
            same(rt, &"commands", &accepted.commands(true).len(), &2);
            false
        }
    }
}

// Makes controllers in a heap of `heap_size` bytes, of which 1 to 63 times `filler_size` bytes are
// free. So each growth of memory is refused once.
fn with_little_memory(
    rt: &impl Abort,
    alloc: Global,
    heap_size: usize,
    filler_size: usize,
    has_long_ring: bool,
) -> Result<(), Fail> {
    let mut refused = 0u32;
    let mut done = 0u32;
    for spare in 1..64usize {
        let heap = LocalHeap::new(alloc, heap_size)?;
        let tools = Tools::empty(&heap);
        let accepted = accepted_on(&heap, "M0\nM2\n", NO_MOTIONS, &tools, has_long_ring);
        let Some(accepted) = accepted else {
            continue;
        };
        let _fillers = fillers_of(alloc, &heap, filler_size, spare)?;
        if is_made(rt, &heap, accepted) {
            done = done.saturating_add(1);
        } else {
            refused = refused.saturating_add(1);
        }
    }
    holds(rt, &"refused and done", refused > 0 && done > 0);
    Ok(())
}

#[test]
fn a_controller_with_little_memory(rt: HostRuntime) -> Result<(), Fail> {
    with_little_memory(&rt, rt.alloc(), 262_144, 1_024, false)
}

#[test]
fn a_controller_with_a_long_ring_and_little_memory(rt: HostRuntime) -> Result<(), Fail> {
    with_little_memory(&rt, rt.alloc(), 2_097_152, 16_384, true)
}
