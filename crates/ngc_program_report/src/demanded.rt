//! What a report adds where only a margin is in the way, or where a traverse may take any way.
ghost use Rattle.std.specs.Prelude.{◌≡◌, Some, [], if◌then◌else◌};
ghost use Rattle.ngc_machine_files.specs.Machine.{file_of};
ghost use Rattle.ngc_program_report.specs.Demanded as spec;
ghost use Rattle.ngc_program_report.specs.Writing.{Writes};
ghost use Rattle.ngc_sentences.specs.Parts.{parts_text};
ghost use Rattle.ngc_sentences.specs.Saying.{Says};

use ngc_certificate::takes_any_way;
use ngc_commands::{Action, Command, Reached};
use ngc_findings::{Shifts, reach};
use ngc_fixed_length::{GridBox, Nm};
use ngc_machine_files::{Fixture, Machine, Tool};
use ngc_report::Form;
use ngc_sentences::{Page, Part, say};
use ngc_text::{Sink, WriteFault};
use std::alloc::Allocator;

/// The tool of a command, and the box of its grid points.
#[derive(Clone, Copy)]
pub(crate) struct Swept {
    tool: Option<Tool>,
    bounds: GridBox,
}

// Returns the least distance of the six directions.
fn least(shifts: &Shifts) -> u128
    ensures { result ≡ spec.least shifts.now }
{
    let (x, y, z) = (&shifts.x, &shifts.y, &shifts.z);
    x.up.min(x.down.min(y.up.min(y.down.min(z.up.min(z.down)))))
}

// Returns what is missing of a margin, where a command must move by at least a distance to keep it.
fn missing_of(margin: Nm, distance: u128) -> Option<u128>
    ensures { result ≡ spec.missing_of margin distance }
{
    let margin = u128::from(margin.nanometres().unsigned_abs());
    if 0 < margin && distance <= margin {
        Some(distance)
    } else {
        None
    }
}

fn missing_past<A: Allocator>(
    machine: &Machine<A>,
    swept: &Swept,
    fixture: &Fixture,
) -> Option<u128>
    ensures { result ≡ spec.missing_past (file_of machine.now) swept.now fixture.now }
{
    let shifts = Shifts::past(machine.step, swept.tool, &swept.bounds, fixture);
    missing_of(machine.margins.fixtures, least(&shifts))
}

fn swept_by<A: Allocator>(machine: &Machine<A>, reached: &Reached, action: &Action) -> Option<Swept>
    ensures { result ≡ spec.swept_by (file_of machine.now) reached.now action.now }
{
    match action {
        Action::Move(motion) => Some(Swept {
            tool: reached.tool,
            bounds: reach(machine.step, &motion.way),
        }),
        Action::Mount(tool) => Some(Swept {
            tool: *tool,
            bounds: GridBox::only(reached.place.to_grid(machine.step)),
        }),
        _ => None,
    }
}

// Returns what an action that meets a fixture lacks of the margin.
fn missing_by<A: Allocator>(
    machine: &Machine<A>,
    reached: &Reached,
    number: u32,
    action: &Action,
) -> Option<u128>
    ensures { result ≡ spec.missing_by (file_of machine.now) reached.now number action.now }
{
    match swept_by(machine, reached, action) {
        None => None,
        Some(swept) => match machine.fixtures.get(number as usize) {
            None => None,
            Some(fixture) => missing_past(machine, &swept, fixture),
        },
    }
}

#[tactic(auto, unfolding(crate::specs::Demanded::missing_words))]
fn missing_words(margin: Nm, missing: u128) -> [Part<'static>; 5]
    ensures { parts_text result ≡ spec.missing_words margin missing }
{
    [
        Part::Text(b"Without the margin it would be clear of it: "),
        Part::Size(missing),
        Part::Text(b" mm of the "),
        Part::Millimetres(margin.nanometres()),
        Part::Text(b" are missing.\n"),
    ]
}

#[tactic(auto, unfolding(crate::specs::Demanded::missing_fact))]
fn missing_fact(margin: Nm, missing: u128) -> [Part<'static>; 5]
    ensures { parts_text result ≡ spec.missing_fact margin missing }
{
    [
        Part::Text(b",\n{\"fact\":\"margin_missing\",\"margin\":"),
        Part::Signed(margin.nanometres()),
        Part::Text(b",\"missing\":"),
        Part::Number(missing),
        Part::Text(b"}"),
    ]
}

fn say_missing<W: Sink>(form: Form, margin: Nm, missing: u128, page: &mut Page, output: &mut W)
    ensures { Says (W.written output.old) (W.written output.new)
        (W.failures output.old) (W.failures output.new) page.old page.new
        (spec.missing_text form margin missing) }
{
    match form {
        Form::Words => page.say(output, &missing_words(margin, missing)),
        Form::Json => page.say(output, &missing_fact(margin, missing)),
    }
}

fn say_missing_if<W: Sink>(
    form: Form,
    margin: Nm,
    missing: Option<u128>,
    page: &mut Page,
    output: &mut W,
)
    ensures { Says (W.written output.old) (W.written output.new)
        (W.failures output.old) (W.failures output.new) page.old page.new
        (spec.missing_if form margin missing) }
{
    match missing {
        None => {}
        Some(missing) => say_missing(form, margin, missing, page, output),
    }
}

fn is_any_way<A: Allocator>(machine: &Machine<A>, action: &Action) -> bool
    ensures { result ≡ spec.is_any_way (file_of machine.now) action.now }
{
    match action {
        Action::Move(motion) => takes_any_way(machine, &motion.pace),
        _ => false,
    }
}

fn say_any_way<W: Sink>(form: Form, page: &mut Page, output: &mut W)
    ensures { Says (W.written output.old) (W.written output.new)
        (W.failures output.old) (W.failures output.new) page.old page.new
        (spec.any_way_text form) }
{
    match form {
        Form::Words => {
            say!(page, output; b"It may take any way within the box of its ends: first retract, then move.\n")
        }
        Form::Json => say!(page, output; b",\n{\"fact\":\"any_way\"}"),
    }
}

fn say_any_way_if<W: Sink>(any_way: bool, form: Form, page: &mut Page, output: &mut W)
    ensures { Says (W.written output.old) (W.written output.new)
        (W.failures output.old) (W.failures output.new) page.old page.new
        (if any_way then spec.any_way_text form else []) }
{
    if any_way {
        say_any_way(form, page, output);
    }
}

fn say_by<A: Allocator, W: Sink>(
    form: Form,
    machine: &Machine<A>,
    reached: &Reached,
    number: u32,
    action: &Action,
    page: &mut Page,
    output: &mut W,
)
    ensures { Says (W.written output.old) (W.written output.new)
        (W.failures output.old) (W.failures output.new) page.old page.new
        (spec.demanded_by form (file_of machine.now) reached.now number action.now) }
{
    let missing = missing_by(machine, reached, number, action);
    say_missing_if(form, machine.margins.fixtures, missing, page, output);
    let any_way = is_any_way(machine, action);
    say_any_way_if(any_way, form, page, output);
}

fn say_first<A: Allocator, W: Sink>(
    form: Form,
    machine: &Machine<A>,
    reached: &Reached,
    number: u32,
    commands: &[Command],
    page: &mut Page,
    output: &mut W,
)
    ensures { Says (W.written output.old) (W.written output.new)
        (W.failures output.old) (W.failures output.new) page.old page.new
        (spec.demanded_first form (file_of machine.now) reached.now number commands.now) }
{
    match commands {
        [] => {}
        [command, ..] => say_by(
            form,
            machine,
            reached,
            number,
            &command.action,
            page,
            output,
        ),
    }
}

// Says it of command `at`, counted from 0.
fn say_at<A: Allocator, W: Sink>(
    form: Form,
    machine: &Machine<A>,
    commands: &[Command],
    at: usize,
    number: u32,
    page: &mut Page,
    output: &mut W,
)
    ensures { Says (W.written output.old) (W.written output.new)
        (W.failures output.old) (W.failures output.new) page.old page.new
        (spec.demanded_text form (file_of machine.now) commands.now (Some at) (Some number)) }
{
    let at = at.min(commands.len());
    let reached = Reached::at_start(machine).after_all(&commands[..at]);
    say_first(
        form,
        machine,
        &reached,
        number,
        &commands[at..],
        page,
        output,
    );
}

fn say_demanded<A: Allocator, W: Sink>(
    form: Form,
    machine: &Machine<A>,
    commands: &[Command],
    told: Option<usize>,
    fixture: Option<u32>,
    page: &mut Page,
    output: &mut W,
)
    ensures { Says (W.written output.old) (W.written output.new)
        (W.failures output.old) (W.failures output.new) page.old page.new
        (spec.demanded_text form (file_of machine.now) commands.now told fixture) }
{
    let Some(at) = told else {
        return;
    };
    let Some(number) = fixture else {
        return;
    };
    say_at(form, machine, commands, at, number, page, output);
}

/// Writes what a reported command that meets a fixture lacks of the margin, and that a traverse may
/// take any way.
pub(crate) fn write_demanded<A: Allocator, W: Sink>(
    form: Form,
    machine: &Machine<A>,
    commands: &[Command],
    told: Option<usize>,
    fixture: Option<u32>,
    output: &mut W,
) -> Result<(), WriteFault>
    ensures { Writes (W.written output.old) (W.written output.new) (W.failures output.old)
        (W.failures output.new) result
        (spec.demanded_text form (file_of machine.now) commands.now told fixture) }
{
    let mut page = Page::new();
    say_demanded(form, machine, commands, told, fixture, &mut page, output);
    page.finish(output)
}
