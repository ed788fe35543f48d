//! Programs for other controls that are executed in their own language: their files, their commands, and
//! why they are refused.
ghost use Rattle.std.specs.Prelude.{◌≡◌, false, IfErr, IfOk, IfSome, IsSome, MatchResult, None, OnOk, Ok, Some, option_map};
ghost use Rattle.ngc_file_figures.specs.Files.{stored};
ghost use Rattle.ngc_canonical.specs.Interpreter.{setup_of};
ghost use Rattle.ngc_dialect_execution.specs.Faults.{FailsBy};
ghost use Rattle.ngc_dialect_execution.specs.Program.{meaning_in};
ghost use Rattle.ngc_dialect_execution.specs.declared.fault.DialectFault.TheVariants.{At};
ghost use Rattle.ngc_dialect_faults.specs.Lines.{fault_line};
ghost use Rattle.ngc_simulator.specs.Answers.{StopsReport, dialect_inputs, report_inputs_in};
ghost use Rattle.ngc_simulator.specs.Cells.{is_idle};
ghost use Rattle.ngc_simulator.specs.DialectReports.{IsTraced, dialect_frames};
ghost use Rattle.ngc_simulator.specs.Dialects.{IsRead, IsSent, NotesFault, StopsSending};
ghost use Rattle.ngc_inputs.specs.Faults.{FailsByOutput};
ghost use Rattle.ngc_inputs.specs.Setups.{AreFiguresIn, KeepsFiles, KeepsNamed};
ghost use Rattle.ngc_inputs.specs.Unread.{FailsByInput, ReportsUnread, SourceFails};
ghost use Rattle.ngc_job.specs.Job.{AreCommands};
ghost use Rattle.ngc_machine_files.specs.Machine.{file_of};
ghost use Rattle.ngc_program_report.specs.Framed.{history_in};

use crate::done::Notes;
use crate::report_shop::read_report_shop;
use ngc_certificate_text::Setting;
use ngc_command_line::ReportOptions;
use ngc_dialect_execution::{
    Cause, DialectFault, Traced, Wanted, interpret_dialect_with_frames, trace_dialect,
};
use ngc_dialect_faults::write_dialect_fault;
use ngc_dialect_names::Dialect;
use ngc_frames::FramedCommands;
use ngc_inputs::{AnswerFault, FILE_LIMIT, Files, Shop, open_file, read_placed};
use ngc_margins::Changes;
use ngc_text::{Device, InputFault, Sink, read_whole};
use std::alloc::Global;

/// The names of a control and of the files for it.
#[derive(Clone, Copy)]
pub(crate) struct DialectFiles<'a> {
    pub(crate) control: &'a str,
    pub(crate) machine: Option<&'a str>,
    pub(crate) tools: Option<&'a str>,
    /// What replaces keys of the machine file.
    pub(crate) changes: Changes,
    pub(crate) program: Option<&'a str>,
}

/// The text of a program for another control, with the machine and its tools.
#[derive(Drop)]
pub(crate) struct Sent {
    pub(crate) dialect: Dialect,
    pub(crate) shop: Shop,
    pub(crate) text: Vec<u8, Global>,
}

// Returns the bytes of the named file, or of standard input.
fn source_bytes<F: Files>(
    alloc: Global,
    name: Option<&str>,
    files: &mut F,
) -> Result<Vec<u8>, InputFault>
    ensures value { IfSome (F.bytes files.old (option_map (λ n. n.now) name.entry))
        (λ bytes. IfOk result (λ v. v.items ≡ bytes)) }
    ensures keeps { IsSome name.entry → KeepsFiles (F.bytes files.old) (F.bytes files.new) }
    ensures named { KeepsNamed (F.bytes files.old) (F.bytes files.new) }
    ensures counts { OnOk result (F.failures files.new ≡ F.failures files.old) }
    ensures unread { IfErr result
        (ReportsUnread (SourceFails F.R.remaining F.R.failures)
        (F.bytes files.old (option_map (λ n. n.now) name.entry))
        (F.failures files.old) (F.failures files.new)) }
{
    let mut source = open_file(name, files)?;
    read_whole(alloc, &mut source, FILE_LIMIT)
}

/// Reads the files for a control: 724 if it isn't known. The machine file is read first, and then
/// the tool table and the program.
pub(crate) fn read_sent<F: Files>(
    alloc: Global,
    names: &DialectFiles<'_>,
    files: &mut F,
) -> Result<Sent, AnswerFault>
    ensures sent { IfOk result (IsSent names.now (F.bytes files.old)) }
    ensures figures { IfOk result (λ sent. AreFiguresIn (F.bytes files.old)
        (option_map (λ n. n.now) names.now.machine) (option_map (λ n. n.now) names.now.tools)
        (stored sent.shop.figures)) }
    ensures stops { IfErr result (StopsSending names.now (F.bytes files.old)) }
    ensures keeps { IsSome names.now.program → KeepsFiles (F.bytes files.old) (F.bytes files.new) }
    ensures named { KeepsNamed (F.bytes files.old) (F.bytes files.new) }
    ensures unread { FailsByInput (SourceFails F.R.remaining F.R.failures) (F.bytes files.old)
        (dialect_inputs (option_map (λ n. n.now) names.now.machine)
        (option_map (λ n. n.now) names.now.tools) (option_map (λ n. n.now) names.now.program))
        (F.failures files.old) (F.failures files.new) result }
{
    let Some(dialect) = Dialect::named(names.control) else {
        return Err(AnswerFault::UnknownControl);
    };
    let shop = read_placed(alloc, names.machine, names.tools, &names.changes, files)?;
    let text = source_bytes(alloc, names.program, files)?;
    Ok(Sent {
        dialect,
        shop,
        text,
    })
}

/// Reads the files of a report for a control, as `read_sent` does. If a machine file or a tool table is
/// refused, its mistake is written, and a sentence if a number of cells is requested without material.
pub(crate) fn read_sent_reporting<F: Files, W: Sink>(
    alloc: Global,
    control: &str,
    options: &ReportOptions<'_>,
    files: &mut F,
    output: &mut W,
) -> Result<Sent, AnswerFault>
    ensures sent { IfOk result (λ sent. IsRead control.now (Some options.now.machine.now)
        (Some options.now.tools.now) options.now.changes
        (option_map (λ n. n.now) options.now.program) (F.bytes files.old) sent
        × (W.written output.new ≡ W.written output.old)
        × (is_idle options.now.cells (file_of sent.shop.machine).stock ≡ false)) }
    ensures figures { IfOk result (λ sent. AreFiguresIn (F.bytes files.old)
        (Some options.now.machine.now) (Some options.now.tools.now) (stored sent.shop.figures)) }
    ensures stops { IfErr result (StopsReport control.now (F.bytes files.old) options.now
        (W.written output.old) (W.written output.new)) }
    ensures unread { FailsByInput (SourceFails F.R.remaining F.R.failures) (F.bytes files.old)
        (report_inputs_in (Some control.now) options.now) (F.failures files.old)
        (F.failures files.new) result }
    ensures sink { FailsByOutput result (W.failures output.old) (W.failures output.new) }
{
    let Some(dialect) = Dialect::named(control) else {
        return Err(AnswerFault::UnknownControl);
    };
    let shop = read_report_shop(alloc, options, files, output)?;
    let text = source_bytes(alloc, options.program, files)?;
    Ok(Sent {
        dialect,
        shop,
        text,
    })
}

/// Returns the notes on a program that is refused, at a setting of block delete where a command needs
/// both.
pub(crate) fn refused(
    alloc: Global,
    setting: Option<Setting>,
    line: u32,
    cause: &Cause,
) -> Result<Notes, AnswerFault>
    ensures notes { IfOk result (λ notes. (notes.is_written ≡ false)
        × (notes.text.items ≡ fault_line setting line cause.now)) }
    ensures fault { IfErr result (λ e. e ≡ AnswerFault.Memory) }
{
    let mut text = Device::new(Vec::new(alloc));
    match write_dialect_fault(setting, line, cause, &mut text) {
        Ok(()) => Ok(Notes {
            text: text.into_inner(),
            is_written: false,
        }),
        Err(_) => Err(AnswerFault::Memory),
    }
}

/// Executes a program at a setting of block delete, and returns what was executed with what is wanted
/// besides, or the line at which it is refused and why.
pub(crate) fn executed_at(
    alloc: Global,
    wanted: Wanted,
    dialect: Dialect,
    text: &[u8],
    shop: &Shop,
    block_delete: bool,
) -> Result<Result<Traced<Global>, (u32, Cause)>, AnswerFault>
    ensures executed { IfOk result (λ made. MatchResult made
        (IsTraced wanted dialect (setup_of shop.now.machine shop.now.tools) block_delete text.now)
        (λ why. FailsBy (At why.0 why.1)
        (meaning_in dialect (setup_of shop.now.machine shop.now.tools) block_delete text.now))) }
    ensures fault { IfErr result (λ e. e ≡ AnswerFault.Memory) }
{
    match trace_dialect(
        alloc,
        wanted,
        dialect,
        text,
        &shop.machine,
        &shop.tools,
        block_delete,
    ) {
        Ok(traced) => Ok(Ok(traced)),
        Err(DialectFault::Memory) => Err(AnswerFault::Memory),
        Err(DialectFault::At { line, cause }) => Ok(Err((line, cause))),
    }
}

/// Executes a program as `executed_at` does, and returns what was executed, or notes on why it is refused.
pub(crate) fn traced_at(
    alloc: Global,
    wanted: Wanted,
    dialect: Dialect,
    text: &[u8],
    shop: &Shop,
    block_delete: bool,
) -> Result<Result<Traced<Global>, Notes>, AnswerFault>
    ensures executed { IfOk result (λ made. MatchResult made
        (IsTraced wanted dialect (setup_of shop.now.machine shop.now.tools) block_delete text.now)
        (NotesFault dialect (setup_of shop.now.machine shop.now.tools) block_delete text.now
        None)) }
    ensures fault { IfErr result (λ e. e ≡ AnswerFault.Memory) }
{
    match executed_at(alloc, wanted, dialect, text, shop, block_delete)? {
        Ok(traced) => Ok(Ok(traced)),
        Err((line, cause)) => {
            let notes = refused(alloc, None, line, &cause)?;
            Ok(Err(notes))
        }
    }
}

/// Executes a program at a setting of block delete, and returns its commands and their frames, or notes
/// on why it is refused. They name the setting where a command needs both.
pub(crate) fn framed_at(
    alloc: Global,
    dialect: Dialect,
    text: &[u8],
    shop: &Shop,
    block_delete: bool,
    setting: Option<Setting>,
) -> Result<Result<FramedCommands<Global>, Notes>, AnswerFault>
    ensures executed { IfOk result (λ made. MatchResult made
        (λ f. (meaning_in dialect (setup_of shop.now.machine shop.now.tools) block_delete text.now
        ≡ Ok f.commands.items)
        × ((history_in f.frames ≡ dialect_frames dialect
        (setup_of shop.now.machine shop.now.tools) block_delete text.now)
        × AreCommands (file_of shop.now.machine).start f.commands.items))
        (NotesFault dialect (setup_of shop.now.machine shop.now.tools) block_delete text.now
        setting)) }
    ensures fault { IfErr result (λ e. e ≡ AnswerFault.Memory) }
{
    match interpret_dialect_with_frames(
        alloc,
        dialect,
        text,
        &shop.machine,
        &shop.tools,
        block_delete,
    ) {
        Ok(framed) => Ok(Ok(framed)),
        Err(DialectFault::Memory) => Err(AnswerFault::Memory),
        Err(DialectFault::At { line, cause }) => {
            let notes = refused(alloc, setting, line, &cause)?;
            Ok(Err(notes))
        }
    }
}
