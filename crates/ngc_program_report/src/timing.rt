//! The time of a program on a machine.
ghost use Rattle.std.specs.Prelude.{◌≡◌, IfErr, IfOk, true};
ghost use Rattle.ngc_certificate.specs.Valid.{IsValid};
ghost use Rattle.ngc_certificate.specs.Plans.{both_planned};
ghost use Rattle.ngc_checker.specs.Accepted.{commands_at};
ghost use Rattle.ngc_checker.specs.Held.{accepted_of};
ghost use Rattle.ngc_job.specs.Job.{commands_in};
ghost use Rattle.ngc_program_report.specs.Texts.{LastsFor};

use crate::program_time::ProgramTime;
use crate::run_time::RunTime;
use ngc_certificate::Plans;
use ngc_checker::Accepted;
use ngc_job::Job;
use ngc_report::ReportFault;
use ngc_run_through::time_through;
use std::alloc::Allocator;

/// Accepts a job with plans whose motions are valid for it, as those are that were made for it. So
/// nothing is tested again.
pub(crate) fn accept<A: Allocator>(job: Job<A>, plans: &Plans<A>) -> Accepted<A>
    requires off { IsValid job.machine job.off
        (both_planned job.machine.step job.off (commands_in true job) plans.now).off }
    requires on { IsValid job.machine (commands_in true job)
        (both_planned job.machine.step job.off (commands_in true job) plans.now).on }
    ensures { result ≡ accepted_of job }
{
    // Its contract says what holds for every job.
    let _ = job.machine();
    Accepted::new(job)
}

/// Returns the time of an accepted program, at a setting of block delete, together with the
/// accepted program. If memory runs out, that is 900.
pub(crate) fn time_of<A: Allocator + Copy>(
    alloc: A,
    accepted: Accepted<A>,
    block_delete: bool,
) -> Result<(ProgramTime<A>, Accepted<A>), ReportFault>
    ensures lasts { IfOk result
        (λ t. LastsFor accepted.machine (commands_at block_delete accepted) t.0) }
    ensures back { IfOk result (λ t. t.1 ≡ accepted) }
    ensures memory { IfErr result (λ fault. fault ≡ ReportFault.Memory) }
{
    let ticks_per_second = accepted.machine().ticks_per_second;
    match time_through(alloc, accepted, block_delete) {
        Ok((timing, accepted)) => Ok((
            ProgramTime {
                whole: RunTime {
                    ticks: timing.ticks,
                    ticks_per_second,
                },
                parts: timing.parts,
            },
            accepted,
        )),
        Err(_) => Err(ReportFault::Memory),
    }
}
