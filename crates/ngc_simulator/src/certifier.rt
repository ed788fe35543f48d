ghost use Rattle.std.specs.Prelude.{◌≡◌, ◌≤◌, IfErr, IfOk, IfSome, Ok, Err, MatchResult, true};
ghost use Rattle.ngc_canonical.specs.Interpreter.{setup_of};
ghost use Rattle.ngc_certificate.specs.Common.{IsJoinedOf};
ghost use Rattle.ngc_certificate.specs.Plans.{both_planned};
ghost use Rattle.ngc_certificate_text.specs.Certificate.{AreEntries};
ghost use Rattle.ngc_text.specs.Failures.{Rises};
ghost use Rattle.ngc_line_reader.specs.declared.program.fault.ReadFault.TheVariants.{Device};
ghost use Rattle.ngc_simulator.specs.Answers.{CertifyResult, OwnCertifyResult, certify_inputs};
ghost use Rattle.ngc_simulator.specs.Answers.{own_certify_inputs};
ghost use Rattle.ngc_inputs.specs.Faults.{FailsByOutput, OfCertifying};
ghost use Rattle.ngc_inputs.specs.Jobs.{Certifies, IsMadeOf, IsUnmade, IsWrittenAs, refused_at};
ghost use Rattle.ngc_inputs.specs.Unread.{FailsByInput, SourceFails};
ghost use Rattle.ngc_job.specs.Job.{commands_in};
ghost use Rattle.ngc_simulator.specs.Certifying.{WritesForm};

use crate::dialect_certificates::certify_dialect;
use crate::done::Done;
use ngc_canonical::ProgramFault;
use ngc_certificate::{MakeFault, Plans, Setting, common_motions, make_plans, make_plans_alike};
use ngc_certificate_text::{MotionList, first_joined, write_joined, write_parted};
use ngc_command_line::{CertifyOptions, Format};
use ngc_commands::Command;
use ngc_inputs::{AnswerFault, Files, open_file, read_placed};
use ngc_job::{Job, JobFault};
use ngc_line_reader::Program;
use ngc_machine_files::{Machine, Tools};
use ngc_text::{Sink, Source};
use std::alloc::{Allocator, Global};

/// Returns why a program that has no job has no certificate.
pub(crate) fn refused(refusal: JobFault) -> AnswerFault
    ensures value { result ≡ refused_at refusal.setting refusal.fault }
    ensures faults { OfCertifying result }
{
    match refusal.fault {
        ProgramFault::At { .. } => AnswerFault::Refused {
            setting: refusal.setting,
            fault: refusal.fault,
        },
        ProgramFault::Memory => AnswerFault::Make(MakeFault::Memory),
    }
}

/// Returns the plans of the motions of a job: those of the certificate that is made for it. If no
/// line begins with `/`, one plan serves both settings of block delete.
pub(crate) fn plans_for<A: Allocator + Copy>(
    alloc: A,
    job: &Job<A>,
    cuts: u16,
) -> Result<Plans<A>, MakeFault>
    requires { 1 ≤ cuts }
    ensures made { MatchResult result
        (λ p. IsMadeOf job.now cuts
        (both_planned job.now.machine.step job.now.off (commands_in true job.now) p))
        (IsUnmade job.now cuts) }
    ensures off_are { IfOk result (λ p. AreEntries
        (both_planned job.now.machine.step job.now.off (commands_in true job.now) p).off) }
    ensures on_are { IfOk result (λ p. AreEntries
        (both_planned job.now.machine.step job.now.off (commands_in true job.now) p).on) }
{
    let (off, machine) = (job.commands(false), job.machine());
    if job.has_deleted_lines() {
        make_plans(alloc, off, job.commands(true), machine, cuts)
    } else {
        make_plans_alike(alloc, off, machine, cuts)
    }
}

// Writes motions as a certificate of version 2, joined where the settings begin alike. If memory
// runs out (900), nothing is written; if a write fails (902), a prefix is written.
fn write_alike<A: Allocator, M: MotionList, W: Sink>(
    alloc: A,
    off: &[Command],
    on: &[Command],
    off_motions: &M,
    on_motions: &M,
    output: &mut W,
) -> Result<(), AnswerFault>
    ensures writes { WritesForm (IsJoinedOf off.now on.now
        (record { off = M.entries off_motions.now; on = M.entries on_motions.now }))
        (W.written output.old) (W.written output.new) result }
    ensures sink { FailsByOutput result (W.failures output.old) (W.failures output.new) }
    ensures faults { IfErr result OfCertifying }
{
    let both = common_motions(off, on, off_motions, on_motions);
    let order = match first_joined(alloc, both, off_motions, on_motions) {
        Ok(order) => order,
        Err(_) => return Err(AnswerFault::Make(MakeFault::Memory)),
    };
    match write_joined(order.as_slice(), off_motions, on_motions, output) {
        Ok(()) => Ok(()),
        Err(fault) => Err(AnswerFault::Write(fault)),
    }
}

// Writes the motions of a job's plans as a certificate, in a format.
pub(crate) fn write_plans<A: Allocator + Copy, W: Sink>(
    alloc: A,
    job: &Job<A>,
    plans: &Plans<A>,
    format: Format,
    output: &mut W,
) -> Result<(), AnswerFault>
    requires off_are { AreEntries
        (both_planned job.now.machine.step job.now.off (commands_in true job.now) plans.now).off }
    requires on_are { AreEntries
        (both_planned job.now.machine.step job.now.off (commands_in true job.now) plans.now).on }
    ensures writes { WritesForm (IsWrittenAs format job.now.off (commands_in true job.now)
        (both_planned job.now.machine.step job.now.off (commands_in true job.now) plans.now))
        (W.written output.old) (W.written output.new) result }
    ensures sink { FailsByOutput result (W.failures output.old) (W.failures output.new) }
    ensures faults { IfErr result OfCertifying }
{
    let machine = job.machine();
    let off = job.commands(false);
    let on = job.commands(true);
    let off_motions = plans.plan(Setting::Off).motions(off, machine.step);
    let on_motions = plans.plan(Setting::On).motions(on, machine.step);
    match format {
        Format::One => match write_parted(&off_motions, &on_motions, output) {
            Ok(()) => Ok(()),
            Err(fault) => Err(AnswerFault::Write(fault)),
        },
        Format::Two => write_alike(alloc, off, on, &off_motions, &on_motions, output),
    }
}

/// Writes the certificate of a program on a machine with its tools, in which a straight motion has
/// at most `cuts` pieces. The format is version 1, or version 2, joined where the settings of block
/// delete begin alike. Nothing is written if there is no certificate; if a write fails, a prefix is
/// written.
pub fn certify<A: Allocator + Copy, R: Source, W: Sink>(
    alloc: A,
    source: &mut R,
    machine: Machine<A>,
    tools: Tools<A>,
    cuts: u16,
    format: Format,
    output: &mut W,
) -> Result<(), AnswerFault>
    requires { 1 ≤ cuts }
    // Where the source's bytes are known, the output is the certificate that is made for their
    // meaning.
    ensures certifies { IfSome (R.remaining source.old)
        (λ bytes. Certifies (setup_of machine tools) bytes cuts format
        (W.written output.old) (W.written output.new) result) }
    // A fault of reading or writing results only from a device that failed.
    ensures source { result ≡ Err (AnswerFault.Read Device) →
        Rises (R.failures source.old) (R.failures source.new) }
    ensures sink { FailsByOutput result (W.failures output.old) (W.failures output.new) }
    ensures faults { IfErr result OfCertifying }
{
    let program = Program::read(alloc, source)?;
    let job = match Job::new(alloc, &program, machine, tools) {
        Ok(job) => job,
        Err(refusal) => return Err(refused(refusal)),
    };
    let plans = plans_for(alloc, &job, cuts)?;
    write_plans(alloc, &job, &plans, format, output)
}

// Writes the certificate of a program in our own language.
fn certify_own<F: Files, W: Sink>(
    alloc: Global,
    options: &CertifyOptions<'_>,
    files: &mut F,
    output: &mut W,
) -> Result<Done, AnswerFault>
    requires { 1 ≤ options.now.cuts }
    ensures comes { OwnCertifyResult (F.bytes files.old) options.now (W.written output.old)
        (W.written output.new) result }
    ensures unread { FailsByInput (SourceFails F.R.remaining F.R.failures) (F.bytes files.old)
        (own_certify_inputs options.now) (F.failures files.old) (F.failures files.new) result }
    ensures sink { FailsByOutput result (W.failures output.old) (W.failures output.new) }
{
    let shop = read_placed(
        alloc,
        Some(options.machine),
        Some(options.tools),
        &options.changes,
        files,
    )?;
    let mut source = open_file(options.program, files)?;
    certify(
        alloc,
        &mut source,
        shop.machine,
        shop.tools,
        options.cuts,
        options.format,
        output,
    )?;
    Ok(Done::Quietly)
}

// Writes the certificate of a program.
pub(crate) fn certify_files<F: Files, W: Sink>(
    alloc: Global,
    options: &CertifyOptions<'_>,
    files: &mut F,
    output: &mut W,
) -> Result<Done, AnswerFault>
    requires { 1 ≤ options.now.cuts }
    ensures comes { CertifyResult (F.bytes files.old) options.now (W.written output.old)
        (W.written output.new) result }
    ensures unread { FailsByInput (SourceFails F.R.remaining F.R.failures) (F.bytes files.old)
        (certify_inputs options.now) (F.failures files.old) (F.failures files.new) result }
    ensures sink { FailsByOutput result (W.failures output.old) (W.failures output.new) }
{
    match options.dialect {
        None => certify_own(alloc, options, files, output),
        Some(control) => certify_dialect(alloc, control, options, files, output),
    }
}
