//! How reports are written.
ghost use Rattle.std.specs.Prelude.{◌≡◌, min, OnOk, OnErr};
ghost use Rattle.std.specs.Io.KnownBytes.{Appends};
ghost use Rattle.ngc_text.specs.Failures.{CountsFailure};
ghost use Rattle.ngc_fixed_length.specs.Length.{IsStep};
ghost use Rattle.ngc_text.specs.Written.{AppendsPrefix};
ghost use Rattle.ngc_machine_files.specs.Machine.{file_of};
ghost use Rattle.ngc_sentences.specs.Saying.{Says};
ghost use Rattle.ngc_report.specs.Reports.{motions_in, along, alongs, use_lines, fit_lines};
ghost use Rattle.ngc_report.specs.Reports.{start_lines, scene_lines, cause_lines, refusal_lines};
ghost use Rattle.ngc_report.specs.Reports.{fit_line, near_line};
ghost use Rattle.ngc_findings.specs.Uses.{tool_uses};
ghost use Rattle.ngc_report.specs.Forms.{spelled, report_text};

use crate::facts::say_fact;
use crate::form::Form;
use crate::words::say_line;
use ngc_certificate_text::MotionList;
use ngc_commands::Command;
use ngc_findings::{
    Along, Axis, AxisSpace, Clearing, Concern, Line, Nearest, Room, Scene, ToolUse, ToolUses,
    extent, fit_extent, nearest_name, warning_about,
};
use ngc_fixed_length::{GridBox, Nm, nanometres_at};
use ngc_machine_files::Machine;
use ngc_sentences::Page;
use ngc_text::{Sink, WriteFault};
use std::alloc::Allocator;

#[tactic(auto, unfolding(crate::specs::Forms::spelled))]
fn say_spelled<W: Sink>(form: Form, line: &Line, page: &mut Page, output: &mut W)
    ensures { Says (W.written output.old) (W.written output.new)
        (W.failures output.old) (W.failures output.new) page.old page.new (spelled form line.now) }
{
    match form {
        Form::Words => say_line(line, page, output),
        Form::Json => say_fact(line, page, output),
    }
}

pub(crate) fn say_lines<W: Sink>(form: Form, lines: &[Line], page: &mut Page, output: &mut W)
    ensures { Says (W.written output.old) (W.written output.new)
        (W.failures output.old) (W.failures output.new) page.old page.new
        (report_text form lines.now) }
{
    for line in lines {
        say_spelled(form, line, page, output);
    }
}

fn along(axis: Axis, step: Nm, low: i32, high: i32, room: AxisSpace) -> Line
    requires { IsStep step }
    ensures { result ≡ along axis step low high room }
{
    Line::Along(Along {
        axis,
        low: nanometres_at(step, low),
        high: nanometres_at(step, high),
        room,
    })
}

pub(crate) fn alongs<A: Allocator>(machine: &Machine<A>, bounds: &GridBox) -> [Line; 3]
    ensures { result ≡ alongs (file_of machine.now) bounds.now }
{
    let (step, low, high) = (machine.step, &bounds.low, &bounds.high);
    let room = Room::about(machine, bounds);
    [
        along(Axis::X, step, low.x, high.x, room.x),
        along(Axis::Y, step, low.y, high.y, room.y),
        along(Axis::Z, step, low.z, high.z, room.z),
    ]
}

/// Returns the number of motions of a use, but at most `most`.
fn motions_up_to(one: &ToolUse, most: usize) -> usize
    ensures { result ≡ min (motions_in one.now) most }
{
    one.traverses
        .saturating_add(one.feeds)
        .saturating_add(one.arcs)
        .min(most)
}

fn near_line<A: Allocator>(machine: &Machine<A>, nearest: &Option<Nearest>) -> Line
    ensures { result ≡ near_line (file_of machine.now) nearest.now }
{
    Line::Near(*nearest, nearest_name(machine, nearest))
}

fn say_uses<A: Allocator, M: MotionList, W: Sink>(
    form: Form,
    machine: &Machine<A>,
    commands: &[Command],
    motions: &M,
    page: &mut Page,
    output: &mut W,
)
    ensures { Says (W.written output.old) (W.written output.new)
        (W.failures output.old) (W.failures output.new) page.old page.new
        (report_text form
        (use_lines (file_of machine.now) (tool_uses commands.now) (M.entries motions.now))) }
{
    let mut uses = ToolUses::new(commands);
    let mut first = 0;
    while let Some(one) = uses.next_use() {
        let end = first + motions_up_to(&one, motions.count() - first);
        let nearest = Nearest::over(machine, &one.tool, motions, first, end);
        let lines = [Line::Use(one), near_line(machine, &nearest)];
        say_lines(form, &lines, page, output);
        first = end;
    }
}

/// Returns the line that a program fits, with the motions on which only the spindle nose was tested,
/// and with whether the machine file describes a fixture.
pub(crate) fn fit_line<A: Allocator>(machine: &Machine<A>, commands: &[Command]) -> Line
    ensures { result ≡ fit_line (file_of machine.now) commands.now }
{
    let nose = warning_about(machine, Concern::Untested, commands);
    Line::Fits(nose, !machine.fixtures.is_empty())
}

fn say_fit<A: Allocator, M: MotionList, W: Sink>(
    form: Form,
    machine: &Machine<A>,
    commands: &[Command],
    motions: &M,
    page: &mut Page,
    output: &mut W,
)
    ensures { Says (W.written output.old) (W.written output.new)
        (W.failures output.old) (W.failures output.new) page.old page.new
        (report_text form
        (fit_lines (file_of machine.now) commands.now (M.entries motions.now))) }
{
    say_lines(form, &[fit_line(machine, commands)], page, output);
    let sides = alongs(machine, &fit_extent(machine, motions));
    say_lines(form, &sides, page, output);
    say_uses(form, machine, commands, motions, page, output);
}

pub(crate) fn say_start_point<A: Allocator, W: Sink>(
    form: Form,
    machine: &Machine<A>,
    fixture: Option<u32>,
    page: &mut Page,
    output: &mut W,
)
    ensures { Says (W.written output.old) (W.written output.new)
        (W.failures output.old) (W.failures output.new) page.old page.new
        (report_text form (start_lines (file_of machine.now) fixture)) }
{
    let scene = Scene::start(machine);
    let cause = scene.obstacle(machine, fixture);
    let lines = [Line::Start(scene), Line::InTheWay(cause)];
    say_lines(form, &lines, page, output);
}

pub(crate) fn say_scene<A: Allocator, W: Sink>(
    form: Form,
    machine: &Machine<A>,
    command: usize,
    fixture: Option<u32>,
    scene: &Option<Scene>,
    page: &mut Page,
    output: &mut W,
)
    ensures { Says (W.written output.old) (W.written output.new)
        (W.failures output.old) (W.failures output.new) page.old page.new
        (report_text form
        (scene_lines (file_of machine.now) command fixture scene.now)) }
{
    if let Some(scene) = scene {
        let cause = scene.obstacle(machine, fixture);
        let clearing = Clearing::of(machine, scene, &cause);
        let lines = [
            Line::Command(command, *scene),
            Line::InTheWay(cause),
            Line::Clear(clearing),
        ];
        say_lines(form, &lines, page, output);
    }
}

fn say_cause<A: Allocator, W: Sink>(
    form: Form,
    machine: &Machine<A>,
    commands: &[Command],
    command: Option<usize>,
    fixture: Option<u32>,
    page: &mut Page,
    output: &mut W,
)
    ensures { Says (W.written output.old) (W.written output.new)
        (W.failures output.old) (W.failures output.new) page.old page.new
        (report_text form
        (cause_lines (file_of machine.now) commands.now command fixture)) }
{
    match command {
        None => say_start_point(form, machine, fixture, page, output),
        Some(command) => {
            let scene = Scene::at(machine, commands, command);
            say_scene(form, machine, command, fixture, &scene, page, output);
        }
    }
}

fn say_refusal<A: Allocator, W: Sink>(
    form: Form,
    machine: &Machine<A>,
    commands: &[Command],
    command: Option<usize>,
    fixture: Option<u32>,
    page: &mut Page,
    output: &mut W,
)
    ensures { Says (W.written output.old) (W.written output.new)
        (W.failures output.old) (W.failures output.new) page.old page.new
        (report_text form
        (refusal_lines (file_of machine.now) commands.now command fixture)) }
{
    say_lines(form, &[Line::Refused], page, output);
    let sides = alongs(machine, &extent(machine, commands));
    say_lines(form, &sides, page, output);
    say_cause(form, machine, commands, command, fixture, page, output);
}

/// Writes the report of a program that fits, whose certificate has these motions: its extent along
/// each axis with the margins there, and the uses of tools, each with its nearest fixture.
///
/// After a fault (902, only if the sink failed) a prefix of the text is written.
pub fn write_fit<A: Allocator, M: MotionList, W: Sink>(
    form: Form,
    machine: &Machine<A>,
    commands: &[Command],
    motions: &M,
    sink: &mut W,
) -> Result<(), WriteFault>
    ensures ok { OnOk result
        (Appends (W.written sink.old) (W.written sink.new)
        (report_text form (fit_lines (file_of machine.now) commands.now
        (M.entries motions.now)))) }
    ensures fault { OnErr result
        (AppendsPrefix (W.written sink.old) (W.written sink.new)
        (report_text form (fit_lines (file_of machine.now) commands.now
        (M.entries motions.now)))) }
    ensures counts { CountsFailure (W.failures sink.old) (W.failures sink.new) result }
{
    let mut page = Page::new();
    say_fit(form, machine, commands, motions, &mut page, sink);
    page.finish(sink)
}

/// Writes the report of a program that is refused at a command, by its index from 0, or at the
/// start: its extent along each axis, what the command does, its obstacle, and how far the command
/// must move to be clear of that. A fixture that the fault names is reported with its number from 0.
///
/// After a fault (902, only if the sink failed) a prefix of the text is written.
pub fn write_refusal<A: Allocator, W: Sink>(
    form: Form,
    machine: &Machine<A>,
    commands: &[Command],
    command: Option<usize>,
    fixture: Option<u32>,
    sink: &mut W,
) -> Result<(), WriteFault>
    ensures ok { OnOk result
        (Appends (W.written sink.old) (W.written sink.new)
        (report_text form (refusal_lines (file_of machine.now) commands.now command fixture))) }
    ensures fault { OnErr result
        (AppendsPrefix (W.written sink.old) (W.written sink.new)
        (report_text form (refusal_lines (file_of machine.now) commands.now command fixture))) }
    ensures counts { CountsFailure (W.failures sink.old) (W.failures sink.new) result }
{
    let mut page = Page::new();
    say_refusal(form, machine, commands, command, fixture, &mut page, sink);
    page.finish(sink)
}
