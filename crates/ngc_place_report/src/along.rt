//! The shifts of an origin along an axis at which a program fits.
ghost use Rattle.std.specs.Prelude.{◌≡◌, ◌≤◌, true, IfOk, IfSome, unsigned_abs, [], ◌∷◌};
ghost use Rattle.ngc_place.specs.Longest.{IsInLimit, IsNearest};
ghost use Rattle.ngc_place.specs.Shifts.{SHIFT_LIMIT, IsShift, along as shift_along};
ghost use Rattle.ngc_shifted_program.specs.Executions.{Execution, IsExecution};
ghost use Rattle.ngc_place_report.specs.Findings as spec;
ghost use Rattle.ngc_place_report.specs.Same.{AreSame};

use crate::placement::{AlongAxis, Finding, Here, Placement};
use crate::range::{in_range, origin_along, takes_far};
use crate::staying::staying;
use ngc_fixed_length::{StepPos, System};
use ngc_job::Job;
use ngc_place::{Axis, Interval, Program, nearest};
use ngc_shifted_program::{PartProgram, Programs, executed_at, marks_between, move_at};
use std::alloc::{AllocError, Allocator};

/// Returns the shift along an axis by this number of steps.
fn shift(axis: Axis, steps: i32) -> StepPos
    requires { unsigned_abs steps ≤ SHIFT_LIMIT }
    ensures value { result ≡ shift_along axis steps }
    ensures limit { IsShift result }
{
    axis.shifts(steps, steps).low
}

fn same_marks(a: &[bool], b: &[bool]) -> bool
    ensures { result ≡ true → a.now ≡ b.now }
{
    if a.len() != b.len() {
        return false;
    }
    for i in 0..a.len() {
        if a[i] != b[i] {
            return false;
        }
    }
    true
}

/// Returns whether the programs of both settings are known to have the same commands and marks.
fn are_same<A: Allocator>(job: &Job<A>, programs: &Programs) -> bool
    requires { spec.AreMarked job.now programs.now.off programs.now.on }
    ensures { result ≡ true → AreSame programs.now.off programs.now.on }
{
    if job.has_deleted_lines() {
        return false;
    }
    same_marks(programs.off.moving, programs.on.moving)
}

/// Returns the interval around the first of the shifts that are tried at which the programs of both
/// settings fit. The same program isn't judged twice.
fn nearest_of_both<A: Allocator>(
    job: &Job<A>,
    axis: Axis,
    programs: &Programs,
    cuts: u16,
) -> Option<Interval>
    requires cuts { 1 ≤ cuts }
    requires marked { spec.AreMarked job.now programs.now.off programs.now.on }
    ensures nearest { IsNearest job.now.machine cuts axis
        (programs.now.off ∷ programs.now.on ∷ []) result }
    ensures limit { IfSome result IsInLimit }
{
    if are_same(job, programs) {
        nearest(job.machine(), &[programs.off], axis, cuts)
    } else {
        nearest(job.machine(), &[programs.off, programs.on], axis, cuts)
    }
}

/// Returns the interval of shifts that is found along an axis.
fn interval_along<A: Allocator>(
    job: &Job<A>,
    system: System,
    axis: Axis,
    programs: Programs,
    cuts: u16,
) -> Option<Interval>
    requires cuts { 1 ≤ cuts }
    requires marked { spec.AreMarked job.now programs.off programs.on }
    ensures value { spec.IsIntervalAlong job.now system axis cuts programs.entry.off
        programs.entry.on result }
    ensures limit { IfSome result IsInLimit }
{
    let machine = job.machine();
    let interval = match nearest_of_both(job, axis, &programs, cuts) {
        Some(interval) => interval,
        None => return None,
    };
    in_range(
        takes_far(machine, system),
        machine.step,
        origin_along(machine, system, axis),
        interval,
    )
}

/// Returns whether the commands move at both ends of an interval as their marks state.
fn move_at_ends<A: Allocator + Copy>(
    alloc: A,
    program: &PartProgram<'_, A>,
    job: &Job<A>,
    system: System,
    axis: Axis,
    programs: Programs,
    interval: Interval,
) -> Result<bool, AllocError>
    requires { IsInLimit interval }
    ensures { (does : Execution) → IsExecution program.now does →
        IfOk result (λ yes. spec.MoveAtEnds does job.now system
        axis programs.entry.off programs.entry.on interval yes) }
{
    let low = shift(axis, interval.from);
    let at_low = move_at(alloc, program, job, system, &low, programs)?;
    if !at_low {
        return Ok(false);
    }
    let high = shift(axis, interval.to);
    move_at(alloc, program, job, system, &high, programs)
}

/// Returns the interval that is found along an axis if the commands move at both ends of it.
fn finding_along<A: Allocator + Copy>(
    alloc: A,
    program: &PartProgram<'_, A>,
    job: &Job<A>,
    system: System,
    axis: Axis,
    programs: Programs,
    cuts: u16,
) -> Result<Finding, AllocError>
    requires cuts { 1 ≤ cuts }
    requires marked { spec.AreMarked job.now programs.off programs.on }
    ensures { (does : Execution) → IsExecution program.now does →
        IfOk result (λ finding. spec.IsFinding does job.now
        system axis cuts programs.entry.off programs.entry.on finding) }
{
    let interval = match interval_along(job, system, axis, programs, cuts) {
        Some(interval) => interval,
        None => return Ok(Finding::Nowhere),
    };
    if move_at_ends(alloc, program, job, system, axis, programs, interval)? {
        Ok(Finding::Fits(interval))
    } else {
        Ok(Finding::Unmoved)
    }
}

/// Returns what is known of an axis if no marks explain the commands one step further along it.
fn unmarked() -> AlongAxis
    ensures { result ≡ spec.unmarked }
{
    AlongAxis {
        finding: Finding::Unmoved,
        staying: None,
    }
}

/// Returns what is known of the shifts along an axis.
fn find_along<A: Allocator + Copy>(
    alloc: A,
    program: &PartProgram<'_, A>,
    job: &Job<A>,
    system: System,
    axis: Axis,
    cuts: u16,
) -> Result<AlongAxis, AllocError>
    requires { 1 ≤ cuts }
    ensures { (does : Execution) → IsExecution program.now does →
        IfOk result (λ a. spec.IsAlongAxis does job.now system
        axis cuts a) }
{
    let step = shift(axis, 1);
    let shifted = match executed_at(alloc, program, job, system, &step)? {
        Some(shifted) => shifted,
        None => return Ok(unmarked()),
    };
    let marks = match marks_between(alloc, job, &shifted, &step)? {
        Some(marks) => marks,
        None => return Ok(unmarked()),
    };
    // its memory is free for the executions at both ends
    drop(shifted);
    let off = Program {
        commands: job.commands(false),
        moving: marks.off.as_slice(),
    };
    let on = Program {
        commands: job.commands(true),
        moving: marks.on.as_slice(),
    };
    let programs = Programs { off, on };
    let finding = finding_along(alloc, program, job, system, axis, programs, cuts)?;
    Ok(AlongAxis {
        finding,
        staying: staying(&off),
    })
}

/// Returns what is known of the shifts of an origin along each axis alone, at both settings of
/// block delete. It fails if memory is refused.
///
/// Which commands move is found by executing the program with the origin one step further. Each
/// interval is tested by executing the program at both of its ends. `cuts` is at least 1, and `here`
/// states whether the program fits where the origin is.
pub fn find_placement<A: Allocator + Copy>(
    alloc: A,
    program: &PartProgram<'_, A>,
    job: &Job<A>,
    system: System,
    here: Here,
    cuts: u16,
) -> Result<Placement, AllocError>
    requires { 1 ≤ cuts }
    ensures { (does : Execution) → IsExecution program.now does →
        IfOk result (λ p. spec.IsPlacement does job.now system
        here cuts p) }
{
    let x = find_along(alloc, program, job, system, Axis::X, cuts)?;
    let y = find_along(alloc, program, job, system, Axis::Y, cuts)?;
    let z = find_along(alloc, program, job, system, Axis::Z, cuts)?;
    Ok(Placement { here, x, y, z })
}
