//! Maps of the heights that programs leave of the block of material.
ghost use Rattle.std.specs.Prelude.{◌≡◌, ℕ, List, IfErr, Ok, Some};
ghost use Rattle.ngc_canonical.specs.Interpreter.{setup_of};
ghost use Rattle.ngc_line_reader.specs.ProgramText.{program_of, HaveReadings};
ghost use Rattle.ngc_line_reader.specs.ProgramView.{text_in};
ghost use Rattle.ngc_machine_files.specs.Machine.{file_of};
ghost use Rattle.ngc_inputs.specs.Faults.{FailsByOutput, OfMapping};
ghost use Rattle.ngc_inputs.specs.Unread.{FailsByInput, SourceFails};
ghost use Rattle.ngc_simulator.specs.Answers.{DialectMapResult, MapResult, OwnMapResult, map_inputs};
ghost use Rattle.ngc_simulator.specs.Answers.{map_inputs_in, own_map_inputs};
ghost use Rattle.ngc_simulator.specs.Mapping.{MapsCommands, MapsDialect, MapsProgram};

use crate::dialects::{DialectFiles, Sent, framed_at, read_sent};
use crate::done::Done;
use crate::reporting_files::cells_of;
use ngc_canonical::interpret;
use ngc_command_line::DrawOptions;
use ngc_commands::Command;
use ngc_file_figures::ToolLimits;
use ngc_inputs::{AnswerFault, Files, Shop, read_placed, read_program};
use ngc_line_reader::Program;
use ngc_machine_files::Machine;
use ngc_stock_report::{find_marks, find_walk, write_walk_map};
use ngc_text::Sink;
use std::alloc::{Allocator, Global};

// Writes the map of what commands leave of the block of material of their machine.
fn map_commands<A: Allocator + Copy, B: Allocator, W: Sink>(
    alloc: A,
    most: u32,
    table: &[ToolLimits],
    machine: &Machine<B>,
    commands: &[Command],
    output: &mut W,
) -> Result<(), AnswerFault>
    ensures maps { MapsCommands most table.now (file_of machine.now) commands.now
        (W.written output.old) (W.written output.new) result }
    ensures sink { FailsByOutput result (W.failures output.old) (W.failures output.new) }
    ensures faults { IfErr result OfMapping }
{
    let walk = match find_walk(alloc, most, table, machine, commands) {
        Ok(Some(walk)) => walk,
        Ok(None) => return Err(AnswerFault::NoMap),
        Err(_) => return Err(AnswerFault::Memory),
    };
    let Ok(marks) = find_marks(alloc, &walk) else {
        return Err(AnswerFault::Memory);
    };
    match write_walk_map(&walk, marks.as_slice(), output) {
        Ok(()) => Ok(()),
        Err(fault) => Err(AnswerFault::Write(fault)),
    }
}

// Writes the map of what a program leaves, at a setting of block delete.
fn map_program<W: Sink>(
    alloc: Global,
    most: u32,
    program: &Program<Global>,
    shop: &Shop,
    block_delete: bool,
    output: &mut W,
) -> Result<(), AnswerFault>
    // For any file from which the program was read: the map is of its meaning.
    ensures maps { (bytes : List ℕ) → program_of bytes ≡ Ok (text_in program.now) →
        HaveReadings (text_in program.now).lines →
        MapsProgram most shop.now.figures.tools.items
        (setup_of shop.now.machine shop.now.tools) bytes block_delete (W.written output.old)
        (W.written output.new) result }
    ensures sink { FailsByOutput result (W.failures output.old) (W.failures output.new) }
    ensures faults { IfErr result OfMapping }
{
    let commands = interpret(alloc, program, &shop.machine, &shop.tools, block_delete)?;
    let table = shop.figures.tools.as_slice();
    map_commands(
        alloc,
        most,
        table,
        &shop.machine,
        commands.as_slice(),
        output,
    )
}

// Writes the map of a program in our own language. Each file is read before the next one is opened.
fn map_own<F: Files, W: Sink>(
    alloc: Global,
    options: &DrawOptions<'_>,
    files: &mut F,
    output: &mut W,
) -> Result<Done, AnswerFault>
    ensures comes { OwnMapResult (F.bytes files.old) options.now (W.written output.old)
        (W.written output.new) result }
    ensures unread { FailsByInput (SourceFails F.R.remaining F.R.failures) (F.bytes files.old)
        (own_map_inputs options.now) (F.failures files.old) (F.failures files.new) result }
    ensures sink { FailsByOutput result (W.failures output.old) (W.failures output.new) }
{
    let shop = read_placed(
        alloc,
        Some(options.machine),
        Some(options.tools),
        &options.changes,
        files,
    )?;
    let program = read_program(alloc, options.program, files)?;
    let most = cells_of(options.cells);
    map_program(alloc, most, &program, &shop, options.delete, output)?;
    Ok(Done::Quietly)
}

// Writes the map of a program for a control, or returns notes on why the program is refused.
fn map_sent<W: Sink>(
    alloc: Global,
    most: u32,
    sent: &Sent,
    block_delete: bool,
    output: &mut W,
) -> Result<Done, AnswerFault>
    ensures maps { MapsDialect most sent.now.shop.figures.tools.items sent.now.dialect
        (setup_of sent.now.shop.machine sent.now.shop.tools) block_delete sent.now.text.items
        (W.written output.old) (W.written output.new) result }
    ensures sink { FailsByOutput result (W.failures output.old) (W.failures output.new) }
{
    let shop = &sent.shop;
    let text = sent.text.as_slice();
    match framed_at(alloc, sent.dialect, text, shop, block_delete, None)? {
        Ok(framed) => {
            let table = shop.figures.tools.as_slice();
            let commands = framed.commands.as_slice();
            map_commands(alloc, most, table, &shop.machine, commands, output)?;
            Ok(Done::Quietly)
        }
        Err(notes) => Ok(Done::WithNotes(notes)),
    }
}

// Writes the map of a program for a control.
fn map_dialect<F: Files, W: Sink>(
    alloc: Global,
    control: &str,
    options: &DrawOptions<'_>,
    files: &mut F,
    output: &mut W,
) -> Result<Done, AnswerFault>
    ensures comes { DialectMapResult control.now (F.bytes files.old) options.now
        (W.written output.old) (W.written output.new) result }
    ensures unread { FailsByInput (SourceFails F.R.remaining F.R.failures) (F.bytes files.old)
        (map_inputs_in (Some control.now) options.now) (F.failures files.old)
        (F.failures files.new) result }
    ensures sink { FailsByOutput result (W.failures output.old) (W.failures output.new) }
{
    let names = DialectFiles {
        control,
        machine: Some(options.machine),
        tools: Some(options.tools),
        changes: options.changes,
        program: options.program,
    };
    let sent = read_sent(alloc, &names, files)?;
    let most = cells_of(options.cells);
    map_sent(alloc, most, &sent, options.delete, output)
}

/// Writes the map of what a program leaves of the block of material, as a PNG picture. Without a block, or
/// if it or the end of a motion is too far from the machine's zero, nothing is written (730).
pub(crate) fn map_files<F: Files, W: Sink>(
    alloc: Global,
    options: &DrawOptions<'_>,
    files: &mut F,
    output: &mut W,
) -> Result<Done, AnswerFault>
    ensures comes { MapResult (F.bytes files.old) options.now (W.written output.old)
        (W.written output.new) result }
    ensures unread { FailsByInput (SourceFails F.R.remaining F.R.failures) (F.bytes files.old)
        (map_inputs options.now) (F.failures files.old) (F.failures files.new) result }
    ensures sink { FailsByOutput result (W.failures output.old) (W.failures output.new) }
{
    match options.dialect {
        None => map_own(alloc, options, files, output),
        Some(control) => map_dialect(alloc, control, options, files, output),
    }
}
