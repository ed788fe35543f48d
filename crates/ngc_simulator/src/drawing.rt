//! Pictures of programs.
ghost use Rattle.std.specs.Prelude.{◌≡◌, ◌≤◌, ℕ, List, IfErr, Ok, Some, None, MatchResult, length};
ghost use Rattle.std.specs.Prelude.{option_map};
ghost use Rattle.ngc_canonical.specs.Interpreter.{setup_of};
ghost use Rattle.ngc_commands.specs.Sequence.{COMMAND_LIMIT};
ghost use Rattle.ngc_certificate_text.specs.Contents.{certificate_data};
ghost use Rattle.ngc_certificate_text.specs.ParsedPart.{parsed_certificate};
ghost use Rattle.ngc_line_reader.specs.ProgramText.{program_of, HaveReadings};
ghost use Rattle.ngc_line_reader.specs.ProgramView.{text_in};
ghost use Rattle.ngc_machine_files.specs.Machine.{file_of};
ghost use Rattle.ngc_inputs.specs.Faults.{FailsByOutput, OfDrawing};
ghost use Rattle.ngc_simulator.specs.Drawing.{DrawsCertified, DrawsCommands, DrawsNamed, DrawsProgram};
ghost use Rattle.ngc_simulator.specs.Drawing.{IsFirstRefused, IsMadeRefusal};
ghost use Rattle.ngc_simulator.specs.Drawing.{drawn_refusal, fault_at, shown_command};
ghost use Rattle.ngc_simulator.specs.Drawing.{origin_shown, work_of};
ghost use Rattle.ngc_offsets.specs.Frames.{index};
ghost use Rattle.ngc_program_report.specs.Framed.{history_in};
ghost use Rattle.ngc_program_report.specs.Met.{met_at};
ghost use Rattle.ngc_simulator.specs.Drawing.{refusal_answer, setting_of, view_named};

use ngc_certificate::{PieceFault, Setting, place_fault, uncleared};
use ngc_certificate_text::{Certificate, Motions};
use ngc_checker::{CheckFault, setting_fault};
use ngc_commands::Command;
use ngc_drawing::{DrawFault, Look, RefusedMotion, View, WorkOrigin, write_svg};
use ngc_fixed_length::System;
use ngc_frames::{Frame, FrameHistory, FramedCommands, interpret_with_frames};
use ngc_inputs::AnswerFault;
use ngc_line_reader::Program;
use ngc_machine_files::{Machine, Tools};
use ngc_program_report::met_at;
use ngc_text::Sink;
use std::alloc::Allocator;

/// Returns the view with this name, or the top if no name is passed.
pub(crate) fn view_of(name: Option<&str>) -> Option<View>
    ensures { result ≡ view_named (option_map (λ n. n.now) name.entry) }
{
    match name {
        None | Some("top") => Some(View::Top),
        Some("front") => Some(View::Front),
        Some("side") => Some(View::Side),
        Some("iso") => Some(View::Iso),
        Some(_) => None,
    }
}

/// Returns the refusal that a picture shows: one for travel or for a fixture.
fn drawn_refusal(fault: &CheckFault) -> Option<RefusedMotion>
    ensures { result ≡ drawn_refusal fault.now }
{
    match fault {
        CheckFault::Piece { command, fault, .. } => match fault {
            PieceFault::OutsideTravel => Some(RefusedMotion {
                command: *command as usize,
                fault: 315,
                fixture: None,
            }),
            PieceFault::MeetsFixture(fixture) => Some(RefusedMotion {
                command: *command as usize,
                fault: 316,
                fixture: Some(*fixture as usize),
            }),
            PieceFault::Chain | PieceFault::NotCovered => None,
        },
        CheckFault::ToolChange {
            command,
            fixture,
            ..
        } => Some(RefusedMotion {
            command: *command as usize,
            fault: 317,
            fixture: Some(*fixture as usize),
        }),
        CheckFault::Start { fixture } => Some(RefusedMotion {
            command: 0,
            fault: 318,
            fixture: Some(*fixture as usize),
        }),
        CheckFault::Program { .. }
        | CheckFault::MotionsDiffer { .. }
        | CheckFault::Divided { .. }
        | CheckFault::Memory => None,
    }
}

fn drawn_fixture(fixture: Option<u32>) -> Option<usize>
    ensures { result ≡ fixture }
{
    fixture.map(|i| i as usize)
}

// Returns the first of these commands that isn't cleared, or `None`. A start point that isn't clear
// counts as command 0. No pieces are stored, so that a picture of a long program needs little memory.
fn first_refused<A: Allocator + Copy>(
    alloc: A,
    commands: &[Command],
    machine: &Machine<A>,
) -> Result<Option<u32>, DrawFault>
    requires { length commands.now ≤ COMMAND_LIMIT }
    ensures { MatchResult result (IsFirstRefused (file_of machine.now) commands.now)
        (λ fault. fault ≡ DrawFault.Memory) }
{
    if place_fault(machine, None, &machine.start.to_grid(machine.step)).is_some() {
        return Ok(Some(0));
    }
    match uncleared(alloc, commands, machine, 8) {
        Ok(indices) => Ok(indices.first().copied()),
        Err(_) => Err(DrawFault::Memory),
    }
}

// Returns the refusal of these commands when a certificate is made for them.
fn made_refusal<A: Allocator + Copy>(
    alloc: A,
    commands: &[Command],
    machine: &Machine<A>,
) -> Result<Option<RefusedMotion>, DrawFault>
    requires { length commands.now ≤ COMMAND_LIMIT }
    ensures { MatchResult result (IsMadeRefusal (file_of machine.now) commands.now)
        (λ fault. fault ≡ DrawFault.Memory) }
{
    let Some(command) = first_refused(alloc, commands, machine)? else {
        return Ok(None);
    };
    Ok(Some(RefusedMotion {
        command: command as usize,
        fault: 304,
        fixture: drawn_fixture(met_at(machine, commands, command as usize)),
    }))
}

fn setting_of(block_delete: bool) -> Setting
    ensures { result ≡ setting_of block_delete }
{
    if block_delete {
        Setting::On
    } else {
        Setting::Off
    }
}

// Returns the refusal of these commands with a certificate that is drawn. Only refusals for travel
// or a fixture are drawn.
fn checked_refusal<A: Allocator>(
    machine: &Machine<A>,
    block_delete: bool,
    commands: &[Command],
    certificate: &Certificate<A>,
) -> Result<Option<RefusedMotion>, CheckFault>
    requires { length commands.now ≤ COMMAND_LIMIT }
    ensures { result ≡ refusal_answer
        (fault_at (file_of machine.now) (setting_of block_delete) commands.now
        (certificate_data certificate.now)) }
{
    let setting = setting_of(block_delete);
    match setting_fault(machine, setting, commands, certificate.motions(setting)) {
        None => Ok(None),
        Some(fault) => match drawn_refusal(&fault) {
            Some(refusal) => Ok(Some(refusal)),
            None => Err(fault),
        },
    }
}

fn index_of(system: System) -> usize
    ensures { result ≡ index system }
{
    match system {
        System::First => 0,
        System::Second => 1,
        System::Third => 2,
        System::Fourth => 3,
        System::Fifth => 4,
        System::Sixth => 5,
        System::Seventh => 6,
        System::Eighth => 7,
        System::Ninth => 8,
    }
}

fn work_of(frame: &Frame) -> WorkOrigin
    ensures { result ≡ work_of frame.now }
{
    WorkOrigin {
        system: index_of(frame.system()),
        origin: frame.selected_origin(),
        axis_offset: frame.frames.axis_offset,
    }
}

// Returns the command by whose frame the work origin is drawn: that of the refused motion, or the end
// of the program.
fn shown_command(commands: &[Command], refusal: &Option<RefusedMotion>) -> usize
    ensures { result ≡ shown_command commands.now refusal.now }
{
    match refusal {
        None => commands.len(),
        Some(refusal) => refusal.command,
    }
}

// Returns the work origin in force at the refused motion, or at the end of the program.
fn work_origin<A: Allocator>(
    frames: &FrameHistory<A>,
    commands: &[Command],
    refusal: &Option<RefusedMotion>,
) -> WorkOrigin
    ensures { result ≡ origin_shown frames.now.start frames.now.changes.items commands.now
        refusal.now }
{
    let in_force = frames.in_force(shown_command(commands, refusal));
    work_of(&in_force.frame)
}

/// Draws commands on their machine, with the motion that no certificate clears, and the fixture that it
/// meets in one piece. The work origin is that of the frame in force at that motion, or at the end.
pub(crate) fn draw_commands<A: Allocator + Copy, W: Sink>(
    alloc: A,
    framed: &FramedCommands<A>,
    machine: &Machine<A>,
    look: Look,
    output: &mut W,
) -> Result<(), AnswerFault>
    requires { length framed.now.commands.items ≤ COMMAND_LIMIT }
    ensures draws { DrawsCommands (file_of machine.now) look (history_in framed.now.frames)
        framed.now.commands.items (W.written output.old) (W.written output.new) result }
    ensures sink { FailsByOutput result (W.failures output.old) (W.failures output.new) }
    ensures faults { IfErr result OfDrawing }
{
    let commands = framed.commands.as_slice();
    let refusal = made_refusal(alloc, commands, machine)?;
    let work = work_origin(&framed.frames, commands, &refusal);
    let none = Motions::new(alloc);
    write_svg(
        alloc, &look, machine, commands, &none, &refusal, &work, output,
    )?;
    Ok(())
}

/// Draws commands on their machine, as `draw_commands` does, by a certificate at a setting of block
/// delete: with the motion that it doesn't clear.
pub(crate) fn draw_commands_by<A: Allocator + Copy, W: Sink>(
    alloc: A,
    framed: &FramedCommands<A>,
    machine: &Machine<A>,
    certificate: &Certificate<A>,
    look: Look,
    block_delete: bool,
    output: &mut W,
) -> Result<(), AnswerFault>
    requires { length framed.now.commands.items ≤ COMMAND_LIMIT }
    ensures draws { DrawsCertified (file_of machine.now) block_delete look
        (certificate_data certificate.now) (history_in framed.now.frames)
        framed.now.commands.items (W.written output.old) (W.written output.new) result }
    ensures sink { FailsByOutput result (W.failures output.old) (W.failures output.new) }
    ensures faults { IfErr result OfDrawing }
{
    let commands = framed.commands.as_slice();
    let refusal = checked_refusal(machine, block_delete, commands, certificate)?;
    let work = work_origin(&framed.frames, commands, &refusal);
    let motions = certificate.motions(setting_of(block_delete));
    write_svg(
        alloc, &look, machine, commands, motions, &refusal, &work, output,
    )?;
    Ok(())
}

/// Draws a program on a machine, at a setting of block delete, with the motion that no certificate
/// clears, and the fixture that it meets in one piece.
pub fn draw_program<A: Allocator + Copy, W: Sink>(
    alloc: A,
    program: &Program<A>,
    machine: &Machine<A>,
    tools: &Tools<A>,
    look: Look,
    block_delete: bool,
    output: &mut W,
) -> Result<(), AnswerFault>
    // For any file from which the program was read: the picture is that of its meaning.
    ensures draws { (bytes : List ℕ) → program_of bytes ≡ Ok (text_in program.now) →
        HaveReadings (text_in program.now).lines →
        DrawsProgram (setup_of machine.now tools.now) bytes block_delete look (W.written output.old)
        (W.written output.new) result }
    ensures sink { FailsByOutput result (W.failures output.old) (W.failures output.new) }
    ensures faults { IfErr result OfDrawing }
{
    let framed = interpret_with_frames(alloc, program, machine, tools, block_delete)?;
    draw_commands(alloc, &framed, machine, look, output)
}

/// Draws a program on a machine, at a setting of block delete. If `look` says so, the bodies of the
/// tools over the certificate's boxes are drawn. The motion for which the certificate doesn't show
/// that it keeps to the travel and clears the fixtures is drawn as well.
pub fn draw_certified<A: Allocator + Copy, W: Sink>(
    alloc: A,
    program: &Program<A>,
    machine: &Machine<A>,
    tools: &Tools<A>,
    certificate: &Certificate<A>,
    look: Look,
    block_delete: bool,
    output: &mut W,
) -> Result<(), AnswerFault>
    // For any files from which the program and the certificate were read.
    ensures draws { (bytes text : List ℕ) → program_of bytes ≡ Ok (text_in program.now) →
        HaveReadings (text_in program.now).lines →
        parsed_certificate text ≡ Ok (certificate_data certificate.now) →
        DrawsNamed (setup_of machine.now tools.now) bytes text block_delete look
        (W.written output.old) (W.written output.new) result }
    ensures sink { FailsByOutput result (W.failures output.old) (W.failures output.new) }
    ensures faults { IfErr result OfDrawing }
{
    let framed = interpret_with_frames(alloc, program, machine, tools, block_delete)?;
    draw_commands_by(
        alloc,
        &framed,
        machine,
        certificate,
        look,
        block_delete,
        output,
    )
}
