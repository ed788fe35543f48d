ghost use Rattle.std.specs.Prelude.{◌≡◌};
ghost use Rattle.ngc_canonical.specs.Interpreter.{setup_of};
ghost use Rattle.ngc_dialect_job.specs.Job.{DialectJobIs};

use ngc_certificate_text::Setting;
use ngc_dialect_execution::{DialectFault, has_deleted_lines, interpret_dialect};
use ngc_dialect_names::Dialect;
use ngc_job::Job;
use ngc_machine_files::{Machine, Tools};
use std::alloc::Allocator;

/// The reason why a program for another control has no job: its fault, or lack of memory, and the
/// setting of block delete.
#[derive(Clone, Copy)]
pub struct DialectJobFault {
    /// The setting at which it is refused: `On` only if it isn't refused at `Off`.
    pub setting: Setting,
    pub fault: DialectFault,
}

/// Executes the program of a text for another control on a machine with its tools: with block delete
/// off, and then, if a line begins with `/`, with block delete on. It returns the first fault: a
/// refusal of the program, or lack of memory (900). It then drops machine and tools.
pub fn dialect_job<A: Allocator + Copy>(
    alloc: A,
    dialect: Dialect,
    text: &[u8],
    machine: Machine<A>,
    tools: Tools<A>,
) -> Result<Job<A>, DialectJobFault>
    ensures { DialectJobIs (λ j. j) dialect text.now (setup_of machine tools) result }
{
    let off = match interpret_dialect(alloc, dialect, text, &machine, &tools, false) {
        Ok(commands) => commands,
        Err(fault) => {
            return Err(DialectJobFault {
                setting: Setting::Off,
                fault,
            });
        }
    };
    if !has_deleted_lines(text) {
        let job = Job::from_commands(machine, tools, off, None);
        return Ok(job);
    }
    let on = match interpret_dialect(alloc, dialect, text, &machine, &tools, true) {
        Ok(commands) => commands,
        Err(fault) => {
            return Err(DialectJobFault {
                setting: Setting::On,
                fault,
            });
        }
    };
    Ok(Job::from_commands(machine, tools, off, Some(on)))
}
