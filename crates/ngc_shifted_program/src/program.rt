//! Part programs in whatever language, executed on a machine with its tools.
ghost use Rattle.std.specs.Prelude.{◌≡◌, IfOk, option_map};
ghost use Rattle.ngc_canonical.specs.Interpreter.{setup_of};
ghost use Rattle.ngc_line_reader.specs.ProgramView.{text_in};
ghost use Rattle.ngc_shifted_program.specs.Executions.{Execution, IsExecution, IsOwnExecution};
ghost use Rattle.ngc_shifted_program.specs.Executions.{dialect_execution, executed_of};

use ngc_canonical::ProgramFault;
use ngc_dialect_execution::DialectFault;
use ngc_dialect_job::dialect_job;
use ngc_dialect_names::Dialect;
use ngc_job::Job;
use ngc_line_reader::Program;
use ngc_machine_files::{Machine, Tools};
use std::alloc::{AllocError, Allocator};

/// A part program in our own language, or the text of one for another control.
#[derive(Drop)]
pub enum PartProgram<'a, A: Allocator> {
    Own(&'a Program<A>),
    Other { dialect: Dialect, text: &'a [u8] },
}

// Returns the job of a program in our own language, or `None` if it is refused.
fn execute_own<A: Allocator + Copy>(
    alloc: A,
    program: &Program<A>,
    machine: Machine<A>,
    tools: Tools<A>,
) -> Result<Option<Job<A>>, AllocError>
    ensures { (does : Execution) → IsOwnExecution (text_in program.now) does →
        IfOk result (λ found. option_map (λ j. executed_of j) found ≡ does (setup_of machine tools)) }
{
    match Job::new(alloc, program, machine, tools) {
        Ok(job) => Ok(Some(job)),
        Err(refusal) => match refusal.fault {
            ProgramFault::Memory => Err(AllocError),
            ProgramFault::At { .. } => Ok(None),
        },
    }
}

// Returns the job of a program for another control, or `None` if it is refused.
fn execute_other<A: Allocator + Copy>(
    alloc: A,
    dialect: Dialect,
    text: &[u8],
    machine: Machine<A>,
    tools: Tools<A>,
) -> Result<Option<Job<A>>, AllocError>
    ensures { IfOk result (λ found. option_map (λ j. executed_of j) found
        ≡ dialect_execution dialect text.now (setup_of machine tools)) }
{
    match dialect_job(alloc, dialect, text, machine, tools) {
        Ok(job) => Ok(Some(job)),
        Err(refusal) => match refusal.fault {
            DialectFault::Memory => Err(AllocError),
            DialectFault::At { .. } => Ok(None),
        },
    }
}

impl<A: Allocator + Copy> PartProgram<'_, A> {
    /// Executes the program at both settings of block delete, and returns its job, or `None` if it is
    /// refused. It fails if memory is refused.
    pub(crate) fn execute(
        &self,
        alloc: A,
        machine: Machine<A>,
        tools: Tools<A>,
    ) -> Result<Option<Job<A>>, AllocError>
        ensures { (does : Execution) → IsExecution self.now does →
            IfOk result (λ found. option_map (λ j. executed_of j) found
            ≡ does (setup_of machine tools)) }
    {
        match self {
            PartProgram::Own(program) => execute_own(alloc, program, machine, tools),
            PartProgram::Other { dialect, text } => {
                execute_other(alloc, *dialect, text, machine, tools)
            }
        }
    }
}
