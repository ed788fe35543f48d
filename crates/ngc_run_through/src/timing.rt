//! The time of a run through a program, and the time with each tool.
ghost use Rattle.std.specs.Prelude.{◌≡◌, ◌≤◌, ◌<◌, ◌+◌, ◌^◌, length, false, None, OnOk, IfErr};
ghost use Rattle.std.specs.Prelude.{IfOk};
ghost use Rattle.ngc_machine_model.specs.Headline.{job_of, RunsInTime, RunsSafely};
ghost use Rattle.ngc_machine_model.specs.State.{loaded, opening};
ghost use Rattle.ngc_commands.specs.Sequence.{HasEnd};
ghost use Rattle.ngc_commands.specs.Sequence.{COMMAND_LIMIT};
ghost use Rattle.ngc_checker.specs.Accepted.{commands_at};
ghost use Rattle.ngc_machine_files.specs.MachineRanges.{IsMachine};
ghost use Rattle.ngc_run_through.specs.Parts.{FinishesPart, GoesParted, IsTimedThrough};
ghost use Rattle.ngc_run_through.specs.Parts.{part_length};
ghost use Rattle.ngc_run_through.specs.Recording.{HasFew};
ghost use Rattle.ngc_run_through.specs.Stretches.{GoesBy, IsUntouched};

use crate::recorder::Recorder;
use crate::report::RunFault;
use crate::through::{fill_ring, finish, keep_full};
use crate::trace::Trace;
use ngc_checker::Accepted;
use ngc_commands::Command;
use ngc_controller::Controller;
use ngc_step_kernel::ArcPath;
use ngc_text::{DeviceFault, Sink};
use std::alloc::Allocator;

/// The time of a run through a program.
#[derive(Drop)]
pub struct Timing<A: Allocator> {
    /// The number of ticks.
    pub ticks: u128,
    /// The ticks of each part. The first part ends with the first change of the tool. Each later
    /// one begins there and ends with the next change, or with the program.
    pub parts: Vec<u128, A>,
}

/// A sink that drops its input and never fails.
#[derive(Drop)]
struct Nowhere;

impl Sink for Nowhere {
    ghost written = { λ _. None };

    ghost failures = { λ _. 0 };

    fn push(&mut self, buf: &[u8]) -> Result<usize, DeviceFault> {
        Ok(buf.len())
    }
}

// Returns the number of commands up to the next change of the tool, including it.
fn part_length(commands: &[Command]) -> usize
    ensures { result ≡ part_length commands.now }
{
    for (i, command) in commands.iter().enumerate() {
        if command.action.mounts() {
            return i + 1;
        }
    }
    commands.len()
}

// Loads the first commands.
fn load_first<A: Allocator + Copy>(
    controller: &mut Controller<ArcPath, A>,
    count: usize,
    recorder: &mut Recorder,
)
    requires room { length controller.old.state.ring + count
        ≤ controller.old.job.machine.ring }
    requires left { loaded controller.old.state + count ≤ length controller.old.job.commands }
    requires untouched { IsUntouched controller.old.job controller.old.state }
    requires runs { controller.old.state.stopped ≡ false }
    requires few { HasFew 0 recorder.old }
    ensures goes { GoesBy count count 0 controller.old controller.new recorder.old
        recorder.new None None }
    ensures still { recorder.new.report.ticks ≡ recorder.old.report.ticks }
    ensures runs { controller.new.state.stopped ≡ false }
{
    let mut nowhere = Nowhere;
    match fill_ring(controller, count, recorder, &mut nowhere) {
        Ok(()) => {}
        Err(_) => unreachable!(),
    }
}

// Continues until `count` more commands are done. Loads up to `count` of the `unloaded` commands.
fn finish_part<A: Allocator + Copy>(
    controller: &mut Controller<ArcPath, A>,
    count: usize,
    unloaded: usize,
    recorder: &mut Recorder,
)
    requires enough { count ≤ length controller.old.state.ring + unloaded }
    requires full { 0 < unloaded →
        length controller.old.state.ring ≡ controller.old.job.machine.ring }
    requires room { length controller.old.state.ring ≤ controller.old.job.machine.ring }
    requires left { loaded controller.old.state + unloaded ≡ length controller.old.job.commands }
    requires few_commands { count ≤ COMMAND_LIMIT }
    requires untouched { IsUntouched controller.old.job controller.old.state }
    requires runs { controller.old.state.stopped ≡ false }
    requires few { HasFew (2 ^ 123) recorder.old }
    ensures goes { FinishesPart count unloaded controller.old controller.new recorder.old
        recorder.new }
    ensures runs { controller.new.state.stopped ≡ false }
{
    let mut nowhere = Nowhere;
    let loads = count.min(unloaded);
    match keep_full(controller, loads, recorder, &mut nowhere) {
        Ok(()) => {}
        Err(_) => unreachable!(),
    }
    match finish(controller, count - loads, recorder, &mut nowhere) {
        Ok(()) => {}
        Err(_) => unreachable!(),
    }
}

// Goes through all commands, of which `unloaded` aren't loaded yet. Returns the ticks of each part.
fn time_parts<A: Allocator + Copy>(
    alloc: A,
    controller: &mut Controller<ArcPath, A>,
    unloaded: usize,
    recorder: &mut Recorder,
) -> Result<Vec<u128, A>, RunFault>
    requires none_done { controller.old.state.done ≡ 0 }
    requires full { 0 < unloaded →
        length controller.old.state.ring ≡ controller.old.job.machine.ring }
    requires room { length controller.old.state.ring ≤ controller.old.job.machine.ring }
    requires left { loaded controller.old.state + unloaded ≡ length controller.old.job.commands }
    requires few_commands { length controller.old.job.commands ≤ COMMAND_LIMIT }
    requires untouched { IsUntouched controller.old.job controller.old.state }
    requires runs { controller.old.state.stopped ≡ false }
    requires few { HasFew (2 ^ 10) recorder.old }
    ensures parts { IfOk result
        (λ parts. GoesParted (2 ^ 123) unloaded
        (length controller.old.job.commands) controller.old controller.new recorder.old recorder.new
        parts.items) }
    ensures runs { OnOk result (controller.new.state.stopped ≡ false) }
    ensures memory { IfErr result (λ fault. fault ≡ RunFault.Memory) }
{
    let count = controller.commands().len();
    let mut parts = Vec::new(alloc);
    let mut done = 0;
    let mut left = unloaded;
    while done < count {
        let before = recorder.ticks();
        let length = part_length(&controller.commands()[done..]);
        finish_part(controller, length, left, recorder);
        match parts.push(recorder.ticks() - before) {
            Ok(()) => {}
            Err(_) => return Err(RunFault::Memory),
        }
        left = left.saturating_sub(length);
        done += length;
    }
    Ok(parts)
}

// Goes through all commands.
fn time_all<A: Allocator + Copy>(
    alloc: A,
    controller: &mut Controller<ArcPath, A>,
) -> Result<Timing<A>, RunFault>
    requires opens { controller.old.state ≡ opening controller.old.job.machine }
    requires machine { IsMachine controller.old.job.machine }
    requires safe { RunsSafely controller.old.job }
    requires in_time { RunsInTime controller.old.job }
    requires has_end { HasEnd controller.old.job.commands }
    requires few_commands { length controller.old.job.commands ≤ COMMAND_LIMIT }
    ensures times { IfOk result (λ t. IsTimedThrough controller.old.job t.ticks t.parts.items) }
    ensures accepted { IfOk result
        (λ _. controller.new.accepted ≡ controller.old.accepted) }
    ensures memory { IfErr result (λ fault. fault ≡ RunFault.Memory) }
{
    let mut recorder = Recorder::new(
        Trace::NotReported,
        controller.motors(),
        controller.position(),
    );
    let count = controller.commands().len();
    let first = count.min(controller.ring());
    load_first(controller, first, &mut recorder);
    match time_parts(alloc, controller, count - first, &mut recorder) {
        Ok(parts) => Ok(Timing {
            ticks: recorder.ticks(),
            parts,
        }),
        Err(fault) => Err(fault),
    }
}

/// Returns the ticks of a run of an accepted program through to its end, at a setting of block
/// delete, as [`run_through`](crate::run_through) does, and the ticks with each tool. It also
/// returns the accepted program. Nothing is written. Too little memory (900) is the only fault.
pub fn time_through<A: Allocator + Copy>(
    alloc: A,
    accepted: Accepted<A>,
    block_delete: bool,
) -> Result<(Timing<A>, Accepted<A>), RunFault>
    ensures times { IfOk result
        (λ r. IsTimedThrough (job_of accepted.machine (commands_at block_delete accepted))
        r.0.ticks r.0.parts.items) }
    ensures back { IfOk result (λ r. r.1 ≡ accepted) }
    ensures memory { IfErr result (λ fault. fault ≡ RunFault.Memory) }
{
    // The facts about the accepted program make the run safe and done in time.
    let _machine = accepted.machine();
    let mut controller = match Controller::<ArcPath, A>::new(alloc, accepted, block_delete) {
        Ok(controller) => controller,
        Err(_) => return Err(RunFault::Memory),
    };
    match time_all(alloc, &mut controller) {
        Ok(timing) => Ok((timing, controller.into_accepted())),
        Err(fault) => Err(fault),
    }
}
