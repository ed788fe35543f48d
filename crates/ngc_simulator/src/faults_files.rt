//! All faults of a program, written before its first is returned.
ghost use Rattle.std.specs.Prelude.{◌≡◌, [], ◌∷◌, IfErr, IfSome, None, OnOk, Some, true};
ghost use Rattle.std.specs.Prelude.{option_map};
ghost use Rattle.ngc_canonical.specs.Interpreter.{setup_of};
ghost use Rattle.ngc_simulator.specs.Answers.{program_input};
ghost use Rattle.ngc_simulator.specs.AllFaults.{ReportsFaults, answer_of, first_among};
ghost use Rattle.ngc_simulator.specs.AllFaults.{is_of_text};
ghost use Rattle.ngc_inputs.specs.Faults.{FailsByOutput};
ghost use Rattle.ngc_inputs.specs.Setups.{KeepsFiles};
ghost use Rattle.ngc_inputs.specs.Unread.{FailsByInput, SourceFails, unread_by};

use ngc_all_faults::{TextFault, faults_of};
use ngc_canonical::ProgramFault;
use ngc_certificate::Setting;
use ngc_command_line::ReportOptions;
use ngc_inputs::{AnswerFault, Files, Shop, bytes_of};
use ngc_line_reader::ReadFault;
use ngc_program_report::write_faults;
use ngc_report::Form;
use ngc_text::{InputFault, Sink};
use std::alloc::Global;

// Returns the first of the faults with block delete off, or else of those with block delete on.
fn first_among(off: &[TextFault], on: &[TextFault]) -> Option<(Setting, TextFault)>
    ensures { result ≡ first_among off.now on.now }
{
    match (off.first(), on.first()) {
        (Some(fault), _) => Some((Setting::Off, *fault)),
        (None, Some(fault)) => Some((Setting::On, *fault)),
        (None, None) => None,
    }
}

// Returns whether a fault is of the text: for a text in memory, no device fails.
fn is_of_text(fault: &TextFault) -> bool
    ensures { result ≡ is_of_text fault.now }
{
    match fault {
        TextFault::Unread(ReadFault::Device) => false,
        TextFault::Unread(_) | TextFault::Refused { .. } => true,
    }
}

fn answer_of(setting: Setting, fault: TextFault) -> AnswerFault
    ensures { result ≡ answer_of setting fault }
{
    match fault {
        TextFault::Unread(fault) => AnswerFault::Read(fault),
        TextFault::Refused { line, fault } => AnswerFault::Refused {
            setting,
            fault: ProgramFault::At { line, fault },
        },
    }
}

// Writes the faults of a text, if it has any, and returns the first. If memory runs out, nothing is
// written.
#[tactic(auto, using(crate::proofs::FaultsLaws::answered_read))]
fn print_failure<W: Sink>(
    alloc: Global,
    form: Form,
    text: &[u8],
    shop: &Shop,
    output: &mut W,
) -> Result<(), AnswerFault>
    ensures told { IfErr result (ReportsFaults (setup_of shop.now.machine shop.now.tools) form
        text.now (W.written output.old) (W.written output.new)) }
    ensures silent { OnOk result (W.written output.new ≡ W.written output.old) }
    ensures read { IfErr result (λ fault. unread_by fault ≡ None) }
    ensures sink { FailsByOutput result (W.failures output.old) (W.failures output.new) }
{
    let (machine, tools) = (&shop.machine, &shop.tools);
    let Ok(off) = faults_of(alloc, text, machine, tools, false) else {
        return Ok(());
    };
    let Ok(on) = faults_of(alloc, text, machine, tools, true) else {
        return Ok(());
    };
    let (setting, first) = match first_among(off.as_slice(), on.as_slice()) {
        Some(first) => first,
        None => return Ok(()),
    };
    if !is_of_text(&first) {
        return Ok(());
    }
    match write_faults(form, text, &first, off.as_slice(), on.as_slice(), output) {
        Ok(()) => Err(answer_of(setting, first)),
        Err(fault) => Err(AnswerFault::Write(fault)),
    }
}

fn report_named<F: Files, W: Sink>(
    alloc: Global,
    form: Form,
    name: &str,
    shop: &Shop,
    files: &mut F,
    output: &mut W,
) -> Result<(), AnswerFault>
    ensures told { IfSome (F.bytes files.old (Some name.now)) (λ bytes. IfErr result
        (ReportsFaults (setup_of shop.now.machine shop.now.tools) form bytes
        (W.written output.old) (W.written output.new))) }
    ensures silent { OnOk result (W.written output.new ≡ W.written output.old) }
    ensures keeps { KeepsFiles (F.bytes files.old) (F.bytes files.new) }
    ensures unread { FailsByInput (SourceFails F.R.remaining F.R.failures) (F.bytes files.old)
        (program_input (Some name.now) ∷ []) (F.failures files.old) (F.failures files.new) result }
    ensures sink { FailsByOutput result (W.failures output.old) (W.failures output.new) }
{
    let text = match bytes_of(alloc, name, files) {
        Ok(text) => text,
        Err(InputFault::Device) => return Err(AnswerFault::Read(ReadFault::Device)),
        Err(InputFault::Memory | InputFault::TooLong) => return Ok(()),
    };
    print_failure(alloc, form, text.as_slice(), shop, output)
}

/// Writes all faults of a named program if all are requested, and returns the first: its lines that
/// can't be read and those that are refused. Nothing is written for a program without a fault, or
/// if its file is too long or memory runs out.
pub(crate) fn report_all_faults<F: Files, W: Sink>(
    alloc: Global,
    options: &ReportOptions<'_>,
    form: Form,
    shop: &Shop,
    files: &mut F,
    output: &mut W,
) -> Result<(), AnswerFault>
    ensures told { IfSome (F.bytes files.old (option_map (λ n. n.now) options.now.program))
        (λ bytes. IfErr result
        (ReportsFaults (setup_of shop.now.machine shop.now.tools) form bytes
        (W.written output.old) (W.written output.new))) }
    ensures all { IfErr result (λ _. options.now.all ≡ true) }
    ensures silent { OnOk result (W.written output.new ≡ W.written output.old) }
    ensures keeps { KeepsFiles (F.bytes files.old) (F.bytes files.new) }
    ensures unread { FailsByInput (SourceFails F.R.remaining F.R.failures) (F.bytes files.old)
        (program_input (option_map (λ n. n.now) options.now.program) ∷ [])
        (F.failures files.old) (F.failures files.new) result }
    ensures sink { FailsByOutput result (W.failures output.old) (W.failures output.new) }
{
    if !options.all {
        return Ok(());
    }
    match options.program {
        Some(name) => report_named(alloc, form, name, shop, files, output),
        None => Ok(()),
    }
}
