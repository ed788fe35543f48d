//! Machine files from figures, of the command line or of a file that it names.
ghost use Rattle.std.specs.Prelude.{◌≡◌, ◌++◌, [], IfErr, IfOk, MatchResult, Ok, true, false};
ghost use Rattle.std.specs.Prelude.{is_some, option_map, Some};
ghost use Rattle.ngc_machine_files.specs.Machine.{file_of};
ghost use Rattle.ngc_machine_maker.specs.Asked.{scale_in};
ghost use Rattle.ngc_machine_maker.specs.InFile.{AreInFile};
ghost use Rattle.ngc_machine_maker.specs.Ranges.{IsScale};
ghost use Rattle.ngc_machine_maker.specs.Sentences.{refusal_line};
ghost use Rattle.ngc_simulator.specs.Answers.{MachineResult, machine_inputs};
ghost use Rattle.ngc_inputs.specs.Faults.{FailsByOutput};
ghost use Rattle.ngc_setup_sheet.specs.Sheets.{warning_remarks};
ghost use Rattle.ngc_simulator.specs.Making.{AreChoices, AreFigures, IsAskedFor, IsMadeText, keys_text};
ghost use Rattle.ngc_simulator.specs.Making.{IsNotRead, IsUnmade, Makes, MakesFile};
ghost use Rattle.ngc_simulator.specs.Making.{MakeFails, has_all_figures, has_source};
ghost use Rattle.ngc_inputs.specs.Unread.{FailsByInput, SourceFails};
ghost use Rattle.ngc_written_machines.specs.Reading.{any_machine};
ghost use Rattle.ngc_written_machines.specs.Written.{any_figures};

use crate::done::{Done, Notes};
use ngc_command_line::MachineOptions;
use ngc_file_figures::FileFigures;
use ngc_inputs::{AnswerFault, Files, bytes_of};
use ngc_machine_maker::{
    Choices, FigureRefusal, Figures, MachineNumbers, Options, numbers_of, read_grbl,
    write_machine_file, write_notes, write_refusal,
};
use ngc_machine_writer::write_written_file;
use ngc_setup_sheet::write_warning_remarks;
use ngc_text::{Device, Sink, write_all};
use ngc_written_machines::{WrittenMachine, read_file};
use std::alloc::Global;

fn has_source(options: &MachineOptions<'_>) -> bool
    ensures { result ≡ has_source options.now }
{
    let all = options.steps.is_some()
        && options.travel.is_some()
        && options.feed.is_some()
        && options.acceleration.is_some();
    let any = options.steps.is_some()
        || options.travel.is_some()
        || options.feed.is_some()
        || options.acceleration.is_some()
        || options.frame.is_some();
    if options.grbl.is_some() { !any } else { all }
}

fn bytes_in<'a>(text: Option<&'a str>) -> Option<&'a [u8]>
    ensures { option_map (λ t. t.now) result ≡ option_map (λ t. t.now) text.entry }
{
    match text {
        Some(text) => Some(text.as_bytes()),
        None => None,
    }
}

fn required_in<'a>(text: Option<&'a str>) -> &'a [u8]
    requires { is_some text ≡ true }
    ensures { option_map (λ t. t.now) text.entry ≡ Some result.now }
{
    match text {
        Some(text) => text.as_bytes(),
        None => unreachable!(),
    }
}

fn figure_options<'a>(options: &MachineOptions<'a>) -> Options<'a>
    requires { has_all_figures options.now ≡ true }
    ensures { AreFigures options.now result }
{
    Options {
        steps_per_mm: required_in(options.steps),
        travel: required_in(options.travel),
        feed: required_in(options.feed),
        acceleration: required_in(options.acceleration),
        frame: bytes_in(options.frame),
    }
}

fn choices_of<'a>(options: &MachineOptions<'a>) -> Choices<'a>
    ensures { AreChoices options.now result }
{
    Choices {
        corner: bytes_in(options.corner),
        jump: bytes_in(options.jump),
        arcs: bytes_in(options.turn),
        ticks: bytes_in(options.ticks),
        ring: bytes_in(options.ring),
        arc_feed: options.arc_feed,
        rates: options.rates,
        start: bytes_in(options.start),
        home28: bytes_in(options.home28),
        home30: bytes_in(options.home30),
    }
}

// Returns the requested figures: of a dump of GRBL's settings, or of the options.
fn requested_figures(
    options: &MachineOptions<'_>,
    dump: Option<&[u8]>,
) -> Result<Figures, FigureRefusal>
    requires { is_some dump ≡ false → has_all_figures options.now ≡ true }
    ensures asked { IsAskedFor options.now (option_map (λ d. d.now) dump.entry) result }
{
    let choices = choices_of(options);
    let given = match dump {
        Some(dump) => read_grbl(!options.rates, dump),
        None => Figures::from_options(&figure_options(options)),
    };
    match given {
        Ok(figures) => figures.with_choices(&choices),
        Err(refusal) => Err(refusal),
    }
}

// Returns the notes of figures that are refused.
fn refused(alloc: Global, refusal: FigureRefusal) -> Result<Notes, AnswerFault>
    ensures notes { IfOk result (λ notes. (notes.is_written ≡ false)
        × (notes.text.items ≡ refusal_line refusal)) }
    ensures fault { IfErr result (λ fault. fault ≡ AnswerFault.Memory) }
{
    let mut told = Device::new(Vec::new(alloc));
    match write_refusal(refusal, &mut told) {
        Ok(()) => Ok(Notes {
            text: told.into_inner(),
            is_written: false,
        }),
        Err(_) => Err(AnswerFault::Memory),
    }
}

// Returns the keys of a machine file: figures with their units, or the rates of version 2, each with
// its remark, if those are asked for.
fn keys_text(
    alloc: Global,
    rates: bool,
    numbers: &MachineNumbers,
    figures: &Figures,
) -> Result<Vec<u8, Global>, AnswerFault>
    requires numbers { AreInFile numbers.now }
    requires scale { IsScale (scale_in numbers.now figures.now) }
    ensures text { IfOk result (λ text. text.items ≡ keys_text rates numbers.now figures.now) }
    ensures fault { IfErr result (λ fault. fault ≡ AnswerFault.Memory) }
{
    let mut keys = Device::new(Vec::new(alloc));
    let written = if rates {
        write_machine_file(numbers, figures, &mut keys)
    } else {
        write_written_file(figures, &mut keys)
    };
    match written {
        Ok(()) => Ok(keys.into_inner()),
        Err(_) => Err(AnswerFault::Memory),
    }
}

// Returns the machine that a text describes, with its figures as they are written.
fn machine_in(alloc: Global, text: &[u8]) -> Result<WrittenMachine, AnswerFault>
    ensures machine { MatchResult result (λ m. any_machine text.now ≡ Ok (file_of m.machine))
        (IsNotRead text.now) }
    ensures figures { IfOk result (λ m. m.figures ≡ any_figures text.now) }
{
    match read_file(alloc, text) {
        Ok(machine) => Ok(machine),
        Err(fault) => Err(AnswerFault::Machine(fault)),
    }
}

// Returns a text followed by the warnings of a machine, as comments.
fn with_warnings(
    text: Vec<u8, Global>,
    machine: &WrittenMachine,
) -> Result<Vec<u8, Global>, AnswerFault>
    ensures text { IfOk result (λ made. made.items
        ≡ text.items ++ warning_remarks (file_of machine.now.machine)
        (record { machine = machine.now.figures; tools = [] }) []) }
    ensures fault { IfErr result (λ fault. fault ≡ AnswerFault.Memory) }
{
    let mut made = Device::new(text);
    let figures = FileFigures {
        machine: machine.figures,
        tools: &[],
    };
    match write_warning_remarks(&machine.machine, &figures, &[], &mut made) {
        Ok(()) => Ok(made.into_inner()),
        Err(_) => Err(AnswerFault::Memory),
    }
}

// Returns the whole text of a machine file: its keys, followed by the warnings of the machine that
// they describe. The keys are read for the warnings, and then the whole text, so that the output is
// a machine file.
fn made_text(
    alloc: Global,
    rates: bool,
    numbers: &MachineNumbers,
    figures: &Figures,
) -> Result<Vec<u8, Global>, AnswerFault>
    requires numbers { AreInFile numbers.now }
    requires scale { IsScale (scale_in numbers.now figures.now) }
    ensures made { MatchResult result
        (λ text. IsMadeText (keys_text rates numbers.now figures.now) text.items)
        (IsUnmade (keys_text rates numbers.now figures.now)) }
{
    let keys = keys_text(alloc, rates, numbers, figures)?;
    let machine = machine_in(alloc, keys.as_slice())?;
    let text = with_warnings(keys, &machine)?;
    let _read = machine_in(alloc, text.as_slice())?;
    Ok(text)
}

// Writes the machine file of some figures. Nothing is written if they are refused, or if the text
// isn't read as a machine file.
fn make<W: Sink>(
    alloc: Global,
    options: &MachineOptions<'_>,
    dump: Option<&[u8]>,
    output: &mut W,
) -> Result<Notes, AnswerFault>
    requires { is_some dump ≡ false → has_all_figures options.now ≡ true }
    ensures makes { Makes options.now (option_map (λ d. d.now) dump.entry) (W.written output.old)
        (W.written output.new) result }
    ensures sink { FailsByOutput result (W.failures output.old) (W.failures output.new) }
{
    let figures = match requested_figures(options, dump) {
        Ok(figures) => figures,
        Err(refusal) => return refused(alloc, refusal),
    };
    let numbers = match numbers_of(&figures) {
        Ok(numbers) => numbers,
        Err(refusal) => return refused(alloc, refusal),
    };
    let mut told = Device::new(Vec::new(alloc));
    if write_notes(options.rates, &numbers, &figures, &mut told).is_err() {
        return Err(AnswerFault::Memory);
    }
    let text = made_text(alloc, options.rates, &numbers, &figures)?;
    write_all(output, text.as_slice())?;
    Ok(Notes {
        text: told.into_inner(),
        is_written: true,
    })
}

// Makes a machine file. The file with a dump of GRBL's settings is read first, if one is named. 726
// if it is named together with figures, or if neither it nor all figures are present.
pub(crate) fn machine_files<F: Files, W: Sink>(
    alloc: Global,
    options: &MachineOptions<'_>,
    files: &mut F,
    output: &mut W,
) -> Result<Done, AnswerFault>
    ensures comes { MachineResult (F.bytes files.old) options.now (W.written output.old)
        (W.written output.new) result }
    ensures unread { FailsByInput (SourceFails F.R.remaining F.R.failures) (F.bytes files.old)
        (machine_inputs options.now) (F.failures files.old) (F.failures files.new) result }
    ensures sink { FailsByOutput result (W.failures output.old) (W.failures output.new) }
{
    if !has_source(options) {
        return Err(AnswerFault::NoFigures);
    }
    match options.grbl {
        Some(name) => {
            let dump = bytes_of(alloc, name, files)?;
            let notes = make(alloc, options, Some(dump.as_slice()), output)?;
            Ok(Done::WithNotes(notes))
        }
        None => {
            let notes = make(alloc, options, None, output)?;
            Ok(Done::WithNotes(notes))
        }
    }
}
