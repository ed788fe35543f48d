//! A job with the frames of its commands, from one execution at each setting of block delete.
ghost use Rattle.std.specs.Prelude.{◌≡◌, List, IfOk};
ghost use Rattle.ngc_canonical.specs.Interpreter.{setup_of};
ghost use Rattle.ngc_canonical.specs.Meaning.{parsed_program};
ghost use Rattle.ngc_job.specs.Job.{JobResultIs};
ghost use Rattle.ngc_line_reader.specs.Grammar.{Reading};
ghost use Rattle.ngc_line_reader.specs.ProgramText.{AreReadings};
ghost use Rattle.ngc_line_reader.specs.ProgramView.{text_in};
ghost use Rattle.ngc_program_report.specs.Framed.{IsFramed, frames_at, frames_or};

use ngc_canonical::has_deleted_lines;
use ngc_certificate::Setting;
use ngc_frames::{FrameHistory, interpret_with_frames};
use ngc_job::{Job, JobFault};
use ngc_line_reader::Program;
use ngc_machine_files::{Machine, Tools};
use std::alloc::Allocator;

/// A job with the frames of its commands at both settings of block delete. They are stored twice
/// only if a line begins with `/`.
#[derive(Drop)]
pub struct FramedJob<A: Allocator> {
    pub job: Job<A>,
    pub off: FrameHistory<A>,
    /// If there are none, those of `off` serve both settings.
    pub on: Option<FrameHistory<A>>,
}

// Returns the frames with block delete on.
pub(crate) fn frames_or<'a, A: Allocator>(
    off: &'a FrameHistory<A>,
    on: &'a Option<FrameHistory<A>>,
) -> &'a FrameHistory<A>
    ensures { result.now ≡ frames_or off.now on.now }
{
    match on {
        Some(on) => on,
        None => off,
    }
}

impl<A: Allocator> FramedJob<A> {
    /// Returns the frames at a setting of block delete.
    pub fn frames(&self, setting: Setting) -> &FrameHistory<A>
        ensures { result.now ≡ frames_at setting self.now }
    {
        match setting {
            Setting::Off => &self.off,
            Setting::On => frames_or(&self.off, &self.on),
        }
    }
}

/// Executes a program on a machine with its tools, as `Job::new` does: with block delete off, and
/// then, if a line begins with `/`, with block delete on. It returns the program's job with the
/// frames by which the commands are executed, or the fault that `Job::new` returns.
pub fn framed_job<A: Allocator + Copy>(
    alloc: A,
    program: &Program<A>,
    machine: Machine<A>,
    tools: Tools<A>,
) -> Result<FramedJob<A>, JobFault>
    // This holds for all readings of the lines: each line has exactly one.
    ensures job { (rs : List Reading) → AreReadings (text_in program.now).lines rs →
        JobResultIs (λ f. f.job) (parsed_program (text_in program.now) rs) (setup_of machine tools)
        result }
    ensures frames { IfOk result (λ f. IsFramed f (text_in program.now).lines) }
{
    let setting = Setting::Off;
    let off = match interpret_with_frames(alloc, program, &machine, &tools, false) {
        Ok(framed) => framed,
        Err(fault) => return Err(JobFault { setting, fault }),
    };
    if !has_deleted_lines(program) {
        let job = Job::from_commands(machine, tools, off.commands, None);
        let off = off.frames;
        return Ok(FramedJob { job, off, on: None });
    }
    let setting = Setting::On;
    let on = match interpret_with_frames(alloc, program, &machine, &tools, true) {
        Ok(framed) => framed,
        Err(fault) => return Err(JobFault { setting, fault }),
    };
    let job = Job::from_commands(machine, tools, off.commands, Some(on.commands));
    let (off, on) = (off.frames, Some(on.frames));
    Ok(FramedJob { job, off, on })
}
