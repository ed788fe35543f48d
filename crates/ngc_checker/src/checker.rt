ghost use Rattle.std.specs.Prelude.{◌≡◌, ◌≤◌, length, List, MatchResult, None, Ok, Some, true};
ghost use Rattle.ngc_line_reader.specs.Grammar.{Reading};
ghost use Rattle.ngc_line_reader.specs.ProgramText.{AreReadings};
ghost use Rattle.ngc_line_reader.specs.ProgramView.{text_in};
ghost use Rattle.ngc_machine_files.specs.Machine.{file_of};
ghost use Rattle.ngc_canonical.specs.Interpreter.{setup_of};
ghost use Rattle.ngc_canonical.specs.Meaning.{parsed_program};
ghost use Rattle.ngc_commands.specs.Sequence.{COMMAND_LIMIT};
ghost use Rattle.ngc_certificate.specs.Valid.{IsValid};
ghost use Rattle.ngc_certificate_text.specs.Contents.{certificate_data};
ghost use Rattle.ngc_checker.specs.FirstRefusal.{settings_fault};
ghost use Rattle.ngc_checker.specs.Accepted.{Answers};
ghost use Rattle.ngc_checker.specs.Held.{accepted_of, program_fault};
ghost use Rattle.ngc_job.specs.Job.{commands_in};

use crate::accepted::Accepted;
use crate::fault::CheckFault;
use crate::setting::setting_fault;
use ngc_canonical::ProgramFault;
use ngc_certificate::Setting;
use ngc_certificate_text::{Certificate, MotionList};
use ngc_commands::Command;
use ngc_job::{Job, JobFault};
use ngc_line_reader::Program;
use ngc_machine_files::{Machine, Tools};
use std::alloc::Allocator;

/// Returns the refusal of a program that has no job.
pub(crate) fn refused(refusal: JobFault) -> CheckFault
    ensures { result ≡ program_fault refusal.setting refusal.fault }
{
    match refusal.fault {
        ProgramFault::At { .. } => CheckFault::Program {
            setting: refusal.setting,
            fault: refusal.fault,
        },
        ProgramFault::Memory => CheckFault::Memory,
    }
}

// Returns the first fault of the commands at both settings.
fn settings_fault<A: Allocator, M: MotionList>(
    machine: &Machine<A>,
    off: &[Command],
    on: &[Command],
    off_motions: &M,
    on_motions: &M,
) -> Option<CheckFault>
    requires off { length off.now ≤ COMMAND_LIMIT }
    requires on { length on.now ≤ COMMAND_LIMIT }
    ensures { result ≡ settings_fault (file_of machine.now) (Ok off.now) (Ok on.now)
        (record { off = M.entries off_motions.now; on = M.entries on_motions.now }) }
{
    if let Some(fault) = setting_fault(machine, Setting::Off, off, off_motions) {
        return Some(fault);
    }
    setting_fault(machine, Setting::On, on, on_motions)
}

/// Checks whether a certificate shows that a job is safe, at both settings of block delete. It
/// allocates no memory.
///
/// It returns the first refusal: for block delete off, and then for on, 312, 318, and then the
/// commands in order. A tool change is refused with 317. The pieces of a motion are checked in
/// order, each with 313 to 316, and the fixtures in order. It then drops the job.
pub fn check_job<A: Allocator>(
    job: Job<A>,
    certificate: &Certificate<A>,
) -> Result<Accepted<A>, CheckFault>
    ensures verdict { MatchResult result
        (λ a. (settings_fault job.machine (Ok job.off) (Ok (commands_in true job))
        (certificate_data certificate.now) ≡ None) × (a ≡ accepted_of job))
        (λ fault. settings_fault job.machine (Ok job.off) (Ok (commands_in true job))
        (certificate_data certificate.now) ≡ Some fault) }
    // A certificate that is valid for the job is accepted.
    ensures accepts { IsValid job.machine job.off (certificate_data certificate.now).off →
        IsValid job.machine (commands_in true job) (certificate_data certificate.now).on →
        MatchResult result (λ a. Unit {0}) (λ fault. ⊥) }
{
    let (off, on) = (job.commands(false), job.commands(true));
    let off_motions = certificate.motions(Setting::Off);
    let on_motions = certificate.motions(Setting::On);
    match settings_fault(job.machine(), off, on, off_motions, on_motions) {
        Some(fault) => Err(fault),
        None => Ok(Accepted::new(job)),
    }
}

/// Checks whether a certificate shows that a program is safe on a machine with its tools, at both
/// settings of block delete.
///
/// It returns the first refusal: 311 with block delete off, then on; and then for off, and after it
/// for on, 312, 318, and then the commands in order. A tool change is refused with 317. The pieces
/// of a motion are checked in order, each with 313 to 316, and the fixtures in order. 900 (lack of
/// memory) tells nothing about the program.
pub fn check<A: Allocator + Copy>(
    alloc: A,
    program: &Program<A>,
    machine: &Machine<A>,
    tools: &Tools<A>,
    certificate: &Certificate<A>,
) -> Result<Accepted<A>, CheckFault>
    // This holds for all readings of the lines: each line has exactly one.
    ensures { (rs : List Reading) → AreReadings (text_in program.now).lines rs →
        Answers (λ a. a) (parsed_program (text_in program.now) rs) (setup_of machine.now tools.now)
        (certificate_data certificate.now) result }
{
    let Ok(own_machine) = machine.copy(alloc) else {
        return Err(CheckFault::Memory);
    };
    let Ok(own_tools) = tools.copy(alloc) else {
        return Err(CheckFault::Memory);
    };
    match Job::new(alloc, program, own_machine, own_tools) {
        Ok(job) => check_job(job, certificate),
        Err(refusal) => Err(refused(refusal)),
    }
}
