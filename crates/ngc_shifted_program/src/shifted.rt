//! A program that is executed with an origin shifted, and which of its commands move.
ghost use Rattle.std.specs.Prelude.{◌≡◌, List, Bool, true, false, IfOk, MatchOption, option_map};
ghost use Rattle.ngc_place.specs.Marks.{AreMarks};
ghost use Rattle.ngc_place.specs.Shifts.{IsShift};
ghost use Rattle.ngc_shifted_program.specs.Executions.{Execution, IsExecution, executed_of};
ghost use Rattle.ngc_shifted_program.specs.Shifted as spec;

use crate::origin::with_shifted_origin;
use crate::program::PartProgram;
use ngc_fixed_length::{StepPos, System};
use ngc_job::Job;
use ngc_place::{Program, are_shifted, marks};
use std::alloc::{AllocError, Allocator};

/// The commands of a program at both settings of block delete, with their marks.
#[derive(Clone, Copy)]
pub struct Programs<'a> {
    pub off: Program<'a>,
    pub on: Program<'a>,
}

/// The marks of a program at both settings of block delete.
#[derive(Drop)]
pub struct Marks<A: Allocator> {
    pub off: Vec<bool, A>,
    pub on: Vec<bool, A>,
}

/// Executes a program on the machine of a job with an origin shifted. Returns `None` if the origin
/// is out of range there or the program is refused.
pub fn executed_at<A: Allocator + Copy>(
    alloc: A,
    program: &PartProgram<'_, A>,
    job: &Job<A>,
    system: System,
    by: &StepPos,
) -> Result<Option<Job<A>>, AllocError>
    ensures { (does : Execution) → IsExecution program.now does →
        IfOk result (λ found. option_map (λ j. executed_of j) found
        ≡ spec.executed_at does job.now system by.now) }
{
    let machine = match with_shifted_origin(alloc, job.machine(), system, by)? {
        Some(machine) => machine,
        None => return Ok(None),
    };
    let tools = job.tools().copy(alloc)?;
    program.execute(alloc, machine, tools)
}

/// Returns the marks of a job's commands, found by another execution with the origin shifted, or
/// `None` if no marks explain it.
pub fn marks_between<A: Allocator + Copy>(
    alloc: A,
    job: &Job<A>,
    shifted: &Job<A>,
    by: &StepPos,
) -> Result<Option<Marks<A>>, AllocError>
    requires { IsShift by.now }
    ensures { IfOk result (λ found. MatchOption found
        ((off on : List Bool) →
        spec.AreBothMarks job.now by.now (executed_of shifted.now) off on → ⊥)
        (λ m. spec.AreBothMarks job.now by.now (executed_of shifted.now) m.off.items
        m.on.items)) }
{
    let step = job.machine().step;
    let (own, others) = (job.commands(false), shifted.commands(false));
    let off = match marks(alloc, step, by, own, others)? {
        Some(off) => off,
        None => return Ok(None),
    };
    let (own, others) = (job.commands(true), shifted.commands(true));
    let on = match marks(alloc, step, by, own, others)? {
        Some(on) => on,
        None => return Ok(None),
    };
    Ok(Some(Marks { off, on }))
}

/// Returns whether the program, executed with the origin shifted, has the commands that its marks
/// state, at both settings of block delete.
pub fn move_at<A: Allocator + Copy>(
    alloc: A,
    program: &PartProgram<'_, A>,
    job: &Job<A>,
    system: System,
    by: &StepPos,
    programs: Programs,
) -> Result<bool, AllocError>
    requires { IsShift by.now }
    ensures yes { (does : Execution) → IsExecution program.now does →
        IfOk result (λ yes. yes ≡ true →
        spec.MoveAt does job.now system programs.entry.off programs.entry.on by.now) }
    ensures no { (does : Execution) → IsExecution program.now does →
        IfOk result (λ yes. yes ≡ false →
        spec.MoveAt does job.now system programs.entry.off programs.entry.on by.now → ⊥) }
{
    let shifted = match executed_at(alloc, program, job, system, by)? {
        Some(shifted) => shifted,
        None => return Ok(false),
    };
    let step = job.machine().step;
    if !are_shifted(step, by, &programs.off, shifted.commands(false)) {
        return Ok(false);
    }
    Ok(are_shifted(step, by, &programs.on, shifted.commands(true)))
}
