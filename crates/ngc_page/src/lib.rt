//! The program's commands as calls of a static library: files go in as bytes, and the command's
//! output comes out as bytes. A web page calls them as WebAssembly.
//!
//! Each call writes the command's output and the lines of its standard error to the front of two
//! slices, as far as there is space, and their lengths to `lengths`. It returns the exit status of
//! the program: 0 for done, 1 if memory runs out or a file is too long, 2 if a command line is
//! refused, 3 if a file or a program is refused, 4 if a certificate is refused or isn't made.
//!
//! `ngc_command` takes any command with any of its options, as the words of its command line. Each
//! other call is one command with few of its options.
#![tactic(auto)]

ghost use Rattle.std.specs.Prelude.{[]};
ghost use Rattle.ngc_page.specs.Answered.{Answered, space};
ghost use Rattle.ngc_page.specs.Asked.{RequestsAdapt, RequestsCertify, RequestsCheck, RequestsDraw, RequestsExplain};
ghost use Rattle.ngc_page.specs.Asked.{RequestsList, RequestsMachine, RequestsPulses, RequestsReport, RequestsShow};
ghost use Rattle.ngc_page.specs.Commanded.{Commanded};
ghost use Rattle.ngc_page.specs.JobCalls.{CalledWith};
ghost use Rattle.ngc_page.specs.Passed.{passed};

mod answering;
mod asking;
mod commanding;
mod files;
mod job;
mod lines;
#[cfg(test)]
mod tests;

pub use crate::answering::Lengths;
use crate::answering::answer_into;
use crate::asking::{
    adapt_options, certify_options, check_options, draw_options, list_options, machine_options,
    pulses_options, report_options, show_options,
};
use crate::commanding::command_into;
use crate::files::PassedFiles;
use crate::job::job_into;
use ngc_command_line::Options;
use std::alloc::Global;

/// Executes the command whose words are the lines of `words`, as `report` and `--margin=2`. In them
/// the four files are named `program`, `machine`, `tools` and `certificate`, so that an option is
/// `--machine=machine`. Any other file and standard input are empty.
///
/// Returns 2 if the words aren't a command line of `ngc`; the errors are then the text that `ngc`
/// writes for them.
#[unsafe(no_mangle)]
pub extern "C" fn ngc_command(
    alloc: Global,
    words: &[u8],
    program: &[u8],
    machine: &[u8],
    tools: &[u8],
    certificate: &[u8],
    output: &mut [u8],
    errors: &mut [u8],
    lengths: &mut Lengths,
) -> u32
    ensures { Commanded (passed program.now machine.now tools.now certificate.now) words.now
        (space output.old output.new lengths.new.output)
        (space errors.old errors.new lengths.new.errors) result }
{
    let files = PassedFiles {
        program,
        machine,
        tools,
        certificate,
    };
    command_into(alloc, words, files, output, errors, lengths)
}

/// Reads the words of a call, which are the lines of `words`, with those that a job file of this name
/// adds, and writes them for `ngc_command`: a line each. The errors are the line that says what was
/// added. Any file but the job file is empty, so a call whose job file has another name has none.
///
/// Returns what `ngc` returns if it refuses the words or the job file; the errors are then its text,
/// and the output is empty. A word with a line break is refused too, with 2.
#[unsafe(no_mangle)]
pub extern "C" fn ngc_job(
    alloc: Global,
    words: &[u8],
    name: &[u8],
    job: &[u8],
    output: &mut [u8],
    errors: &mut [u8],
    lengths: &mut Lengths,
) -> u32
    ensures { CalledWith name.now job.now words.now
        (space output.old output.new lengths.new.output)
        (space errors.old errors.new lengths.new.errors) result }
{
    job_into(alloc, words, name, job, output, errors, lengths)
}

/// Writes the report of a part program on a machine with its tools. With `all` it has every command
/// that isn't cleared, and not only the first one. With `json` it is a JSON document.
#[unsafe(no_mangle)]
pub extern "C" fn ngc_report(
    alloc: Global,
    program: &[u8],
    machine: &[u8],
    tools: &[u8],
    all: bool,
    json: bool,
    output: &mut [u8],
    errors: &mut [u8],
    lengths: &mut Lengths,
) -> u32
    ensures { Answered (passed program.now machine.now tools.now []) (RequestsReport all json)
        (space output.old output.new lengths.new.output)
        (space errors.old errors.new lengths.new.errors) result }
{
    // Here and below a pattern binds the options: the prover's borrow checker refuses a plain `let`.
    let Some(options) = Some(report_options(all, json)) else {
        unreachable!()
    };
    let files = PassedFiles {
        program,
        machine,
        tools,
        certificate: b"",
    };
    answer_into(alloc, &options, files, output, errors, lengths)
}

/// Writes the picture of a part program at a setting of block delete: from the front if `view` is
/// 1, from the side if it is 2, isometric if it is 3, and otherwise from the top.
#[unsafe(no_mangle)]
pub extern "C" fn ngc_draw(
    alloc: Global,
    program: &[u8],
    machine: &[u8],
    tools: &[u8],
    view: u32,
    delete: bool,
    output: &mut [u8],
    errors: &mut [u8],
    lengths: &mut Lengths,
) -> u32
    ensures { Answered (passed program.now machine.now tools.now []) (RequestsDraw view delete)
        (space output.old output.new lengths.new.output)
        (space errors.old errors.new lengths.new.errors) result }
{
    let Some(options) = Some(draw_options(view, delete)) else {
        unreachable!()
    };
    let files = PassedFiles {
        program,
        machine,
        tools,
        certificate: b"",
    };
    answer_into(alloc, &options, files, output, errors, lengths)
}

/// Writes the commands of a part program at a setting of block delete.
#[unsafe(no_mangle)]
pub extern "C" fn ngc_list(
    alloc: Global,
    program: &[u8],
    machine: &[u8],
    tools: &[u8],
    delete: bool,
    output: &mut [u8],
    errors: &mut [u8],
    lengths: &mut Lengths,
) -> u32
    ensures { Answered (passed program.now machine.now tools.now []) (RequestsList delete)
        (space output.old output.new lengths.new.output)
        (space errors.old errors.new lengths.new.errors) result }
{
    let Some(options) = Some(list_options(delete)) else {
        unreachable!()
    };
    let files = PassedFiles {
        program,
        machine,
        tools,
        certificate: b"",
    };
    answer_into(alloc, &options, files, output, errors, lengths)
}

/// Writes a certificate of a part program, in version 2 of the text if `second` is set, and
/// otherwise in version 1.
#[unsafe(no_mangle)]
pub extern "C" fn ngc_certify(
    alloc: Global,
    program: &[u8],
    machine: &[u8],
    tools: &[u8],
    second: bool,
    output: &mut [u8],
    errors: &mut [u8],
    lengths: &mut Lengths,
) -> u32
    ensures { Answered (passed program.now machine.now tools.now []) (RequestsCertify second)
        (space output.old output.new lengths.new.output)
        (space errors.old errors.new lengths.new.errors) result }
{
    let Some(options) = Some(certify_options(second)) else {
        unreachable!()
    };
    let files = PassedFiles {
        program,
        machine,
        tools,
        certificate: b"",
    };
    answer_into(alloc, &options, files, output, errors, lengths)
}

/// Checks a certificate of a part program. If it is accepted, the output says so.
#[unsafe(no_mangle)]
pub extern "C" fn ngc_check(
    alloc: Global,
    program: &[u8],
    machine: &[u8],
    tools: &[u8],
    certificate: &[u8],
    output: &mut [u8],
    errors: &mut [u8],
    lengths: &mut Lengths,
) -> u32
    ensures { Answered (passed program.now machine.now tools.now certificate.now) RequestsCheck
        (space output.old output.new lengths.new.output)
        (space errors.old errors.new lengths.new.errors) result }
{
    let Some(options) = Some(check_options()) else {
        unreachable!()
    };
    let files = PassedFiles {
        program,
        machine,
        tools,
        certificate,
    };
    answer_into(alloc, &options, files, output, errors, lengths)
}

/// Writes the pulses of a run to the end of a part program whose certificate is accepted, at a
/// setting of block delete.
#[unsafe(no_mangle)]
pub extern "C" fn ngc_pulses(
    alloc: Global,
    program: &[u8],
    machine: &[u8],
    tools: &[u8],
    certificate: &[u8],
    delete: bool,
    output: &mut [u8],
    errors: &mut [u8],
    lengths: &mut Lengths,
) -> u32
    ensures { Answered (passed program.now machine.now tools.now certificate.now) (RequestsPulses delete)
        (space output.old output.new lengths.new.output)
        (space errors.old errors.new lengths.new.errors) result }
{
    let Some(options) = Some(pulses_options(delete)) else {
        unreachable!()
    };
    let files = PassedFiles {
        program,
        machine,
        tools,
        certificate,
    };
    answer_into(alloc, &options, files, output, errors, lengths)
}

/// Writes the setup sheet of a machine file and a tool table.
#[unsafe(no_mangle)]
pub extern "C" fn ngc_show(
    alloc: Global,
    machine: &[u8],
    tools: &[u8],
    output: &mut [u8],
    errors: &mut [u8],
    lengths: &mut Lengths,
) -> u32
    ensures { Answered (passed [] machine.now tools.now []) RequestsShow
        (space output.old output.new lengths.new.output)
        (space errors.old errors.new lengths.new.errors) result }
{
    let Some(options) = Some(show_options()) else {
        unreachable!()
    };
    let files = PassedFiles {
        program: b"",
        machine,
        tools,
        certificate: b"",
    };
    answer_into(alloc, &options, files, output, errors, lengths)
}

/// Writes a part program for another control as one in our own language at a setting of block delete, and
/// the notes on it to the errors. The program is for GRBL if `control` is 1, Mach3 if it is 2, Fanuc if it
/// is 3, and otherwise LinuxCNC.
#[unsafe(no_mangle)]
pub extern "C" fn ngc_adapt(
    alloc: Global,
    program: &[u8],
    machine: &[u8],
    tools: &[u8],
    control: u32,
    delete: bool,
    output: &mut [u8],
    errors: &mut [u8],
    lengths: &mut Lengths,
) -> u32
    ensures { Answered (passed program.now machine.now tools.now []) (RequestsAdapt control delete)
        (space output.old output.new lengths.new.output)
        (space errors.old errors.new lengths.new.errors) result }
{
    let Some(options) = Some(adapt_options(control, delete)) else {
        unreachable!()
    };
    let files = PassedFiles {
        program,
        machine,
        tools,
        certificate: b"",
    };
    answer_into(alloc, &options, files, output, errors, lengths)
}

/// Writes a machine file from a dump of GRBL's settings, and how each number is rounded to the
/// errors.
#[unsafe(no_mangle)]
pub extern "C" fn ngc_machine(
    alloc: Global,
    settings: &[u8],
    output: &mut [u8],
    errors: &mut [u8],
    lengths: &mut Lengths,
) -> u32
    ensures { Answered (passed settings.now [] [] []) RequestsMachine
        (space output.old output.new lengths.new.output)
        (space errors.old errors.new lengths.new.errors) result }
{
    let Some(options) = Some(machine_options()) else {
        unreachable!()
    };
    let files = PassedFiles {
        program: settings,
        machine: b"",
        tools: b"",
        certificate: b"",
    };
    answer_into(alloc, &options, files, output, errors, lengths)
}

/// Writes the meaning of the fault with this number.
#[unsafe(no_mangle)]
pub extern "C" fn ngc_explain(
    alloc: Global,
    number: u16,
    output: &mut [u8],
    errors: &mut [u8],
    lengths: &mut Lengths,
) -> u32
    ensures { Answered (passed [] [] [] []) (RequestsExplain number)
        (space output.old output.new lengths.new.output)
        (space errors.old errors.new lengths.new.errors) result }
{
    let Some(options) = Some(Options::Explain(number)) else {
        unreachable!()
    };
    let files = PassedFiles::none();
    answer_into(alloc, &options, files, output, errors, lengths)
}
