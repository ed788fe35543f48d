//! The reports of jobs that fit, and of those that don't.
ghost use Rattle.std.specs.Prelude.{◌≡◌, ◌≤◌, List, is_some, Err, IfErr, IfOk, true};
ghost use Rattle.ngc_certificate.specs.Made.{IsMade};
ghost use Rattle.ngc_certificate.specs.Uncleared.{AreUncleared};
ghost use Rattle.ngc_certificate.specs.Valid.{IsValid};
ghost use Rattle.ngc_certificate.specs.Planned.{planned};
ghost use Rattle.ngc_certificate.specs.PlannedBy.{planned_by};
ghost use Rattle.ngc_certificate.specs.Plans.{both_planned, plan_at};
ghost use Rattle.ngc_certificate_text.specs.Certificate.{AreEntries};
ghost use Rattle.ngc_checker.specs.Accepted.{commands_at};
ghost use Rattle.ngc_job.specs.Job.{commands_in};
ghost use Rattle.ngc_lowest_tips.specs.Tips.{lowest_tips};
ghost use Rattle.ngc_program_report.specs.Framed.{framed_in};
ghost use Rattle.ngc_program_report.specs.Coordinates.{history_of};
ghost use Rattle.ngc_program_report.specs.JobReports.{FailsByWriting, IsFitText};
ghost use Rattle.ngc_program_report.specs.JobReports.{IsRefusalText, IsRefusalsText};
ghost use Rattle.ngc_program_report.specs.JobReports.{IsStartClear, OffBegins, OnBegins, Prints};
ghost use Rattle.ngc_program_report.specs.JobReports.{first_text};
ghost use Rattle.ngc_program_report.specs.Reported.{reported};
ghost use Rattle.ngc_program_report.specs.Texts.{is_on};
ghost use Rattle.ngc_program_report.specs.Writing.{Writes};
ghost use Rattle.ngc_stock_report.specs.Walked.{IsWalked};

use crate::fit_writer::{is_on, write_both, write_once};
use crate::framed::{FramedJob, frames_or};
use crate::refusal_writer::{is_start_refused, write_all_both, write_all_once, write_refused};
use crate::reported::{ReportedText, limits_in};
use crate::request::ReportRequest;
use crate::subject::{Execution, Fit, Subject};
use crate::timing::{accept, time_of};
use ngc_certificate::{
    MakeFault, MemoryFault, PlannedMotions, Plans, Setting, uncleared, uncleared_from,
};
use ngc_checker::Accepted;
use ngc_commands::Command;
use ngc_file_figures::ToolLimits;
use ngc_frames::FrameHistory;
use ngc_job::Job;
use ngc_lowest_tips::{LowestTip, lowest_tips};
use ngc_report::ReportFault;
use ngc_stock_report::{Walk, find_walk};
use ngc_text::{Sink, WriteFault};
use std::alloc::Allocator;

// Returns the motions of an accepted program at a setting, from its plans.
fn motions_at<'a, A: Allocator>(
    accepted: &'a Accepted<A>,
    plans: &'a Plans<A>,
    setting: Setting,
) -> PlannedMotions<'a, A>
    requires are { AreEntries (planned accepted.now.machine.step
        (commands_at (is_on setting) accepted.now) (plan_at setting plans.now)) }
    ensures { planned_by result ≡ planned accepted.now.machine.step
        (commands_at (is_on setting) accepted.now) (plan_at setting plans.now) }
{
    let commands = accepted.commands(is_on(setting));
    plans
        .plan(setting)
        .motions(commands, accepted.machine().step)
}

// Returns the lowest heights of an accepted program at a setting of block delete, or 900 if memory
// runs out.
fn tips_at<A: Allocator + Copy>(
    alloc: A,
    history: &FrameHistory<A>,
    accepted: &Accepted<A>,
    block_delete: bool,
) -> Result<Vec<LowestTip, A>, ReportFault>
    ensures are { IfOk result (λ v. v.items
        ≡ lowest_tips accepted.now.tools history.now.start history.now.changes.items
        (commands_at block_delete accepted.now)) }
    ensures memory { IfErr result (λ fault. fault ≡ ReportFault.Memory) }
{
    let table = accepted.tools().tools();
    match lowest_tips(alloc, table, history, accepted.commands(block_delete)) {
        Ok(tips) => Ok(tips),
        Err(_) => Err(ReportFault::Memory),
    }
}

// Returns which traverses of an accepted program may touch material, at a setting of block delete, or
// 900 if memory runs out. The material is divided into at most `cells` cells, and the cutters have the shapes
// that `table` says.
fn material_at<A: Allocator + Copy>(
    alloc: A,
    cells: u32,
    table: &[ToolLimits],
    accepted: &Accepted<A>,
    block_delete: bool,
) -> Result<Option<Walk<A>>, ReportFault>
    ensures walked { IfOk result
        (IsWalked cells table.now accepted.now.machine (commands_at block_delete accepted.now)) }
    ensures memory { IfErr result (λ fault. fault ≡ ReportFault.Memory) }
{
    let commands = accepted.commands(block_delete);
    match find_walk(alloc, cells, table, accepted.machine(), commands) {
        Ok(walk) => Ok(walk),
        Err(_) => Err(ReportFault::Memory),
    }
}

/// Writes the report of a job with plans of its motions: its extent and margins, the use of each
/// tool, the time, the figures of each tool that feeds, the lowest heights, the warnings about its
/// commands, the words of the program and the origins from which it moves, and which straight
/// traverses may touch the material of the machine, which is divided into at most `request.cells`
/// cells. The plans are those of the job's commands, and their motions are valid for it. `text` is the
/// text of the job's program. Of the request, the form, the origins and the cells are used.
///
/// Nothing is written before the time, the lowest heights and the traverses are found, and nothing if
/// memory runs out (900). If a write fails (902), a prefix is written.
pub fn report_fit<A: Allocator + Copy, W: Sink>(
    alloc: A,
    text: &ReportedText<'_, A>,
    framed: FramedJob<A>,
    plans: &Plans<A>,
    request: &ReportRequest<'_>,
    output: &mut W,
) -> Result<(), ReportFault>
    requires off_are { AreEntries
        (both_planned framed.job.machine.step framed.job.off (commands_in true framed.job)
        plans.now).off }
    requires on_are { AreEntries
        (both_planned framed.job.machine.step framed.job.off (commands_in true framed.job)
        plans.now).on }
    requires off { IsValid framed.job.machine framed.job.off
        (both_planned framed.job.machine.step framed.job.off (commands_in true framed.job)
        plans.now).off }
    requires on { IsValid framed.job.machine (commands_in true framed.job)
        (both_planned framed.job.machine.step framed.job.off (commands_in true framed.job)
        plans.now).on }
    ensures tells { Prints
        (IsFitText (framed_in framed)
        (both_planned framed.job.machine.step framed.job.off (commands_in true framed.job)
        plans.now) request.now.form request.now.origins request.now.cells (reported text.now))
        (W.written output.old) (W.written output.new) result }
    ensures counts { FailsByWriting result (W.failures output.old) (W.failures output.new) }
{
    let FramedJob { job, off, on } = framed;
    let (form, origins, cells) = (request.form, &request.origins, request.cells);
    let table = limits_in(text);
    let apart = job.has_deleted_lines();
    let accepted = accept(job, plans);
    let (off_time, accepted) = time_of(alloc, accepted, false)?;
    if !apart {
        let tips = tips_at(alloc, &off, &accepted, false)?;
        let material = material_at(alloc, cells, table, &accepted, false)?;
        let motions = motions_at(&accepted, plans, Setting::Off);
        let fit = Fit {
            history: &off,
            time: off_time,
            tips,
            material,
        };
        write_once(form, origins, text, &accepted, &motions, &fit, output)?;
        return Ok(());
    }
    let (on_time, accepted) = time_of(alloc, accepted, true)?;
    let on_history = frames_or(&off, &on);
    let off_tips = tips_at(alloc, &off, &accepted, false)?;
    let on_tips = tips_at(alloc, on_history, &accepted, true)?;
    let off_material = material_at(alloc, cells, table, &accepted, false)?;
    let on_material = material_at(alloc, cells, table, &accepted, true)?;
    let off_motions = motions_at(&accepted, plans, Setting::Off);
    let on_motions = motions_at(&accepted, plans, Setting::On);
    let off_fit = Fit {
        history: &off,
        time: off_time,
        tips: off_tips,
        material: off_material,
    };
    let on_fit = Fit {
        history: on_history,
        time: on_time,
        tips: on_tips,
        material: on_material,
    };
    write_both(
        form,
        origins,
        text,
        &accepted,
        &off_motions,
        &off_fit,
        &on_motions,
        &on_fit,
        output,
    )?;
    Ok(())
}

// Writes the report of a command that isn't cleared at a setting.
fn report_first<A: Allocator, W: Sink>(
    text: &ReportedText<'_, A>,
    job: &Job<A>,
    setting: Setting,
    command: u32,
    history: &FrameHistory<A>,
    request: &ReportRequest<'_>,
    output: &mut W,
) -> Result<(), WriteFault>
    ensures { Writes (W.written output.old) (W.written output.new) (W.failures output.old)
        (W.failures output.new) result
        (first_text job.now request.now.form request.now.origins setting command
        (reported text.now) (history_of history.now.start history.now.changes.items)) }
{
    let subject = Subject {
        form: request.form,
        origins: &request.origins,
        text,
        machine: job.machine(),
        tools: job.tools(),
    };
    let commands = job.commands(is_on(setting));
    let named = job.has_deleted_lines();
    let execution = Execution { commands, history };
    write_refused(&subject, named, setting, &execution, command, output)
}

// Returns the commands that aren't cleared with block delete off, if no certificate is made because
// of a command at a setting. If the settings differ and one is refused at `On`, all are cleared
// with block delete off.
fn off_uncleared<A: Allocator + Copy>(
    alloc: A,
    job: &Job<A>,
    setting: Setting,
    command: u32,
    cuts: u16,
) -> Result<Vec<u32, A>, MemoryFault>
    requires cuts { 1 ≤ cuts }
    requires refused { IsMade job.now.machine cuts job.now.off (commands_in true job.now)
        (Err (MakeFault.NotCleared setting command)) }
    ensures are { IfOk result (λ v. AreUncleared job.now.machine cuts job.now.off v.items) }
    ensures begins { IfOk result (λ v. IsStartClear job.now.machine →
        OffBegins (is_some job.now.on) setting command v.items) }
{
    let machine = job.machine();
    let off = job.commands(false);
    if is_start_refused(machine) {
        return uncleared(alloc, off, machine, cuts);
    }
    match setting {
        Setting::On if job.has_deleted_lines() => Ok(Vec::new(alloc)),
        _ => uncleared_from(alloc, off, machine, cuts, command),
    }
}

// Returns the commands that aren't cleared with block delete on.
fn on_uncleared<A: Allocator + Copy>(
    alloc: A,
    job: &Job<A>,
    setting: Setting,
    command: u32,
    cuts: u16,
) -> Result<Vec<u32, A>, MemoryFault>
    requires cuts { 1 ≤ cuts }
    requires refused { IsMade job.now.machine cuts job.now.off (commands_in true job.now)
        (Err (MakeFault.NotCleared setting command)) }
    ensures are { IfOk result
        (λ v. AreUncleared job.now.machine cuts (commands_in true job.now) v.items) }
    ensures begins { IfOk result (λ v. IsStartClear job.now.machine →
        OnBegins setting command v.items) }
{
    let machine = job.machine();
    let on = job.commands(true);
    match setting {
        Setting::On if !is_start_refused(machine) => {
            uncleared_from(alloc, on, machine, cuts, command)
        }
        _ => uncleared(alloc, on, machine, cuts),
    }
}

// Writes the report of all commands that aren't cleared, if no certificate is made because of one.
fn report_all<A: Allocator + Copy, W: Sink>(
    alloc: A,
    text: &ReportedText<'_, A>,
    framed: &FramedJob<A>,
    setting: Setting,
    command: u32,
    request: &ReportRequest<'_>,
    output: &mut W,
) -> Result<(), ReportFault>
    requires made { IsMade framed.now.job.machine request.now.cuts framed.now.job.off
        (commands_in true framed.now.job) (Err (MakeFault.NotCleared setting command)) }
    ensures tells { Prints
        (IsRefusalsText (framed_in framed.now) request.now.cuts setting command request.now.form
        request.now.origins (reported text.now))
        (W.written output.old) (W.written output.new) result }
    ensures counts { FailsByWriting result (W.failures output.old) (W.failures output.new) }
{
    let job = &framed.job;
    let subject = Subject {
        form: request.form,
        origins: &request.origins,
        text,
        machine: job.machine(),
        tools: job.tools(),
    };
    let off = Execution {
        commands: job.commands(false),
        history: &framed.off,
    };
    let cuts = request.cuts;
    let off_indices = match off_uncleared(alloc, job, setting, command, cuts) {
        Ok(indices) => indices,
        Err(_) => return Err(ReportFault::Memory),
    };
    if !job.has_deleted_lines() {
        write_all_once(&subject, &off, off_indices.as_slice(), output)?;
        return Ok(());
    }
    let on_indices = match on_uncleared(alloc, job, setting, command, cuts) {
        Ok(indices) => indices,
        Err(_) => return Err(ReportFault::Memory),
    };
    let on = Execution {
        commands: job.commands(true),
        history: framed.frames(Setting::On),
    };
    let (off_indices, on_indices) = (off_indices.as_slice(), on_indices.as_slice());
    write_all_both(&subject, &off, off_indices, &on, on_indices, output)?;
    Ok(())
}

/// Writes the report of a job without a certificate, because a command, counted from 0, isn't
/// cleared at a setting of block delete. It reports the obstacle of that command, or those of all
/// commands that aren't cleared, the coordinates of these commands in the program, and the warnings
/// about the program, the machine and its tools. `text` is the text of the job's program.
///
/// If memory runs out (900), nothing is written. If a write fails (902), a prefix is written.
pub fn report_refusal<A: Allocator + Copy, W: Sink>(
    alloc: A,
    text: &ReportedText<'_, A>,
    framed: &FramedJob<A>,
    setting: Setting,
    command: u32,
    request: &ReportRequest<'_>,
    output: &mut W,
) -> Result<(), ReportFault>
    requires made { IsMade framed.now.job.machine request.now.cuts framed.now.job.off
        (commands_in true framed.now.job) (Err (MakeFault.NotCleared setting command)) }
    ensures tells { Prints
        (IsRefusalText request.now.all (framed_in framed.now) request.now setting command
        (reported text.now))
        (W.written output.old) (W.written output.new) result }
    ensures counts { FailsByWriting result (W.failures output.old) (W.failures output.new) }
{
    if request.all {
        return report_all(alloc, text, framed, setting, command, request, output);
    }
    report_first(
        text,
        &framed.job,
        setting,
        command,
        framed.frames(setting),
        request,
        output,
    )?;
    Ok(())
}
