ghost use Rattle.std.specs.Prelude.{◌≡◌, IfErr, IfSome, Err};
ghost use Rattle.ngc_canonical.specs.Interpreter.{setup_of};
ghost use Rattle.ngc_text.specs.Failures.{Rises};
ghost use Rattle.ngc_line_reader.specs.declared.program.fault.ReadFault.TheVariants.{Device};
ghost use Rattle.ngc_simulator.specs.Answers.{ListResult, OwnListResult, list_inputs};
ghost use Rattle.ngc_simulator.specs.Answers.{own_list_inputs};
ghost use Rattle.ngc_inputs.specs.Faults.{FailsByOutput, OfListing};
ghost use Rattle.ngc_simulator.specs.Lists.{Lists};
ghost use Rattle.ngc_inputs.specs.Unread.{FailsByInput, SourceFails};

use crate::dialect_lister::list_dialect;
use crate::done::Done;
use ngc_canonical::interpret;
use ngc_command_line::ListOptions;
use ngc_inputs::{AnswerFault, Files, open_file, read_placed};
use ngc_line_reader::Program;
use ngc_listing::write_list;
use ngc_machine_files::{Machine, Tools};
use ngc_text::{Sink, Source};
use std::alloc::{Allocator, Global};

/// Writes the listing of a program's commands on a machine with its tools, at a setting of block
/// delete. Nothing is written where the program isn't read (101, 111 to 119, 121, 122, 901) or is
/// refused (101, 102, 120, 131 to 133, 201 to 252), or memory runs out (900); if a write fails
/// (902), a prefix is written.
pub fn list<A: Allocator + Copy, R: Source, W: Sink>(
    alloc: A,
    source: &mut R,
    machine: &Machine<A>,
    tools: &Tools<A>,
    block_delete: bool,
    output: &mut W,
) -> Result<(), AnswerFault>
    // Where the source's bytes are known, the output is the listing of their meaning.
    ensures lists { IfSome (R.remaining source.old)
        (λ bytes. Lists (setup_of machine.now tools.now) bytes block_delete (W.written output.old)
        (W.written output.new) result) }
    // A fault of reading or writing results only from a device that failed.
    ensures source { result ≡ Err (AnswerFault.Read Device) →
        Rises (R.failures source.old) (R.failures source.new) }
    ensures sink { FailsByOutput result (W.failures output.old) (W.failures output.new) }
    ensures faults { IfErr result OfListing }
{
    let program = Program::read(alloc, source)?;
    let commands = interpret(alloc, &program, machine, tools, block_delete)?;
    write_list(commands.as_slice(), machine.step, output)?;
    Ok(())
}

// Writes the listing of a program in our own language.
fn list_own<F: Files, W: Sink>(
    alloc: Global,
    options: &ListOptions<'_>,
    files: &mut F,
    output: &mut W,
) -> Result<Done, AnswerFault>
    ensures comes { OwnListResult (F.bytes files.old) options.now (W.written output.old)
        (W.written output.new) result }
    ensures unread { FailsByInput (SourceFails F.R.remaining F.R.failures) (F.bytes files.old)
        (own_list_inputs options.now) (F.failures files.old) (F.failures files.new) result }
    ensures sink { FailsByOutput result (W.failures output.old) (W.failures output.new) }
{
    let shop = read_placed(
        alloc,
        options.machine,
        options.tools,
        &options.changes,
        files,
    )?;
    let mut source = open_file(options.program, files)?;
    list(
        alloc,
        &mut source,
        &shop.machine,
        &shop.tools,
        options.delete,
        output,
    )?;
    Ok(Done::Quietly)
}

// Writes the listing of a program.
pub(crate) fn list_files<F: Files, W: Sink>(
    alloc: Global,
    options: &ListOptions<'_>,
    files: &mut F,
    output: &mut W,
) -> Result<Done, AnswerFault>
    ensures comes { ListResult (F.bytes files.old) options.now (W.written output.old)
        (W.written output.new) result }
    ensures unread { FailsByInput (SourceFails F.R.remaining F.R.failures) (F.bytes files.old)
        (list_inputs options.now) (F.failures files.old) (F.failures files.new) result }
    ensures sink { FailsByOutput result (W.failures output.old) (W.failures output.new) }
{
    match options.dialect {
        None => list_own(alloc, options, files, output),
        Some(name) => list_dialect(alloc, name, options, files, output),
    }
}
