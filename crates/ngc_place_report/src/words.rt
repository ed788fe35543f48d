//! What is said of a placement, in words.
ghost use Rattle.std.specs.Prelude.{◌≡◌};
ghost use Rattle.ngc_fixed_length.specs.Length.{IsStep};
ghost use Rattle.ngc_sentences.specs.Saying.{Says};
ghost use Rattle.ngc_place_report.specs.Words as spec;

use crate::nearest::{Shift, shortest};
use crate::placement::{AlongAxis, Finding, Here, Placement, Staying};
use crate::systems::code_text;
use ngc_certificate_text::Setting;
use ngc_fixed_length::{Nm, Point3, System, nanometres_at};
use ngc_place::{Axis, Interval};
use ngc_sentences::{Page, Part, say};
use ngc_text::Sink;

/// Says where the origin is.
#[tactic(auto, unfolding(crate::specs::Words::origin_words))]
fn say_origin<W: Sink>(system: System, origin: &Point3, page: &mut Page, output: &mut W)
    ensures { Says (W.written output.old) (W.written output.new)
        (W.failures output.old) (W.failures output.new) page.old page.new
        (spec.origin_words system origin.now) }
{
    say!(page, output; Part::Text(code_text(system)), b" is at X ", Part::Millimetres(origin.x.nanometres()), b", Y ", Part::Millimetres(origin.y.nanometres()), b", Z ", Part::Millimetres(origin.z.nanometres()), b".\n");
}

#[tactic(auto, unfolding(crate::specs::Words::setting_words))]
fn setting_words(setting: Setting) -> &'static [u8]
    ensures { result.now ≡ spec.setting_words setting }
{
    match setting {
        Setting::Off => b" with block delete off",
        Setting::On => b" with block delete on",
    }
}

/// Says whether the program fits there.
#[tactic(auto, unfolding(crate::specs::Words::here_words))]
fn say_here<W: Sink>(here: &Here, page: &mut Page, output: &mut W)
    ensures { Says (W.written output.old) (W.written output.new)
        (W.failures output.old) (W.failures output.new) page.old page.new
        (spec.here_words here.now) }
{
    match here {
        Here::Fits => say!(page, output; b"The program fits there.\n"),
        Here::NotCleared { setting, line } =>
            say!(page, output; b"The program doesn't fit there: see line ", Part::Number(u128::from(*line)), Part::Text(setting_words(*setting)), b". `ngc report` tells more.\n"),
    }
}

/// Returns the name of an axis.
pub(crate) fn axis_text(axis: Axis) -> &'static [u8]
    ensures { result.now ≡ spec.axis_text axis }
{
    match axis {
        Axis::X => b"X",
        Axis::Y => b"Y",
        Axis::Z => b"Z",
    }
}

#[tactic(auto, unfolding(crate::specs::Words::plus_text))]
fn plus_text(shift: i32) -> &'static [u8]
    ensures { result.now ≡ spec.plus_text shift }
{
    if shift > 0 { b"+" } else { b"" }
}

/// Says a shift in millimetres, with its sign.
#[tactic(auto, unfolding(crate::specs::Words::shift_words))]
fn say_shift<W: Sink>(step: Nm, shift: &i32, page: &mut Page, output: &mut W)
    requires { IsStep step }
    ensures { Says (W.written output.old) (W.written output.new)
        (W.failures output.old) (W.failures output.new) page.old page.new
        (spec.shift_words step shift.now) }
{
    say!(page, output; Part::Text(plus_text(*shift)), Part::Millimetres(nanometres_at(step, *shift)));
}

#[tactic(auto, unfolding(crate::specs::Words::interval_words))]
fn say_interval<W: Sink>(step: Nm, interval: &Interval, page: &mut Page, output: &mut W)
    requires { IsStep step }
    ensures { Says (W.written output.old) (W.written output.new)
        (W.failures output.old) (W.failures output.new) page.old page.new
        (spec.interval_words step interval.now) }
{
    say!(page, output; b" it fits at shifts from ");
    say_shift(step, &interval.from, page, output);
    say!(page, output; b" to ");
    say_shift(step, &interval.to, page, output);
}

#[tactic(auto, unfolding(crate::specs::Words::finding_words))]
fn say_finding<W: Sink>(
    system: System,
    step: Nm,
    finding: &Finding,
    page: &mut Page,
    output: &mut W,
)
    requires { IsStep step }
    ensures { Says (W.written output.old) (W.written output.new)
        (W.failures output.old) (W.failures output.new) page.old page.new
        (spec.finding_words system step finding.now) }
{
    match finding {
        Finding::Unmoved =>
            say!(page, output; b" nothing is known: with ", Part::Text(code_text(system)), b" shifted it is refused or moves otherwise"),
        Finding::Nowhere => say!(page, output; b" it fits at no shift that was tried"),
        Finding::Fits(interval) => say_interval(step, interval, page, output),
    }
}

fn motions_text(motions: usize) -> &'static [u8]
    ensures { result.now ≡ spec.motions_words motions }
{
    if motions == 1 {
        b" motion stays, in line "
    } else {
        b" motions stay, the first in line "
    }
}

#[tactic(auto, unfolding(crate::specs::Words::staying_words))]
fn say_staying<W: Sink>(staying: &Option<Staying>, page: &mut Page, output: &mut W)
    ensures { Says (W.written output.old) (W.written output.new)
        (W.failures output.old) (W.failures output.new) page.old page.new
        (spec.staying_words staying.now) }
{
    match staying {
        None => {}
        Some(staying) =>
            say!(page, output; b"; ", Part::Number(staying.motions as u128), Part::Text(motions_text(staying.motions)), Part::Number(u128::from(staying.line))),
    }
}

/// Says what is known of one axis.
#[tactic(auto, unfolding(crate::specs::Words::along_words))]
fn say_along<W: Sink>(
    axis: Axis,
    system: System,
    step: Nm,
    along: &AlongAxis,
    page: &mut Page,
    output: &mut W,
)
    requires { IsStep step }
    ensures { Says (W.written output.old) (W.written output.new)
        (W.failures output.old) (W.failures output.new) page.old page.new
        (spec.along_words axis system step along.now) }
{
    say!(page, output; b"Along ", Part::Text(axis_text(axis)));
    say_finding(system, step, &along.finding, page, output);
    say_staying(&along.staying, page, output);
    say!(page, output; b".\n");
}

#[tactic(auto, unfolding(crate::specs::Words::axes_words))]
fn say_axes<W: Sink>(
    system: System,
    step: Nm,
    placement: &Placement,
    page: &mut Page,
    output: &mut W,
)
    requires { IsStep step }
    ensures { Says (W.written output.old) (W.written output.new)
        (W.failures output.old) (W.failures output.new) page.old page.new
        (spec.axes_words system step placement.now) }
{
    say_along(Axis::X, system, step, &placement.x, page, output);
    say_along(Axis::Y, system, step, &placement.y, page, output);
    say_along(Axis::Z, system, step, &placement.z, page, output);
}

#[tactic(auto, unfolding(crate::specs::Words::shortest_words))]
fn say_shortest<W: Sink>(here: &Here, step: Nm, shift: &Shift, page: &mut Page, output: &mut W)
    requires { IsStep step }
    ensures { Says (W.written output.old) (W.written output.new)
        (W.failures output.old) (W.failures output.new) page.old page.new
        (spec.shortest_words here.now step shift.now) }
{
    match here {
        Here::Fits => {}
        Here::NotCleared { .. } => {
            say!(page, output; b"Nearest: ", Part::Text(axis_text(shift.axis)), b" ");
            say_shift(step, &shift.steps, page, output);
            say!(page, output; b".\n");
        }
    }
}

/// Says how the intervals were tested, and the shortest shift, where there is one.
#[tactic(auto, unfolding(crate::specs::Words::nearest_words))]
fn say_nearest<W: Sink>(
    here: &Here,
    step: Nm,
    nearest: &Option<Shift>,
    page: &mut Page,
    output: &mut W,
)
    requires { IsStep step }
    ensures { Says (W.written output.old) (W.written output.new)
        (W.failures output.old) (W.failures output.new) page.old page.new
        (spec.nearest_words here.now step nearest.now) }
{
    match nearest {
        None => {}
        Some(shift) => {
            say!(page, output; b"Both ends of each interval were tested by executing the program there.\n");
            say_shortest(here, step, shift, page, output);
        }
    }
}

/// Returns whether an origin is the machine's zero.
pub(crate) fn is_missing(origin: &Point3) -> bool
    ensures { result ≡ spec.is_missing origin.now }
{
    origin.x.nanometres() == 0 && origin.y.nanometres() == 0 && origin.z.nanometres() == 0
}

/// Says that the machine file has no origin.
fn say_missing_line<W: Sink>(system: System, page: &mut Page, output: &mut W)
    ensures { Says (W.written output.old) (W.written output.new)
        (W.failures output.old) (W.failures output.new) page.old page.new
        (spec.missing_line system) }
{
    say!(page, output; Part::Text(code_text(system)), b" has no origin in the machine file: give it there or with `--origin`.\n");
}

/// Says so if this origin is the machine's zero.
fn say_if_missing<W: Sink>(system: System, origin: &Point3, page: &mut Page, output: &mut W)
    ensures { Says (W.written output.old) (W.written output.new)
        (W.failures output.old) (W.failures output.new) page.old page.new
        (spec.missing_at system origin.now) }
{
    if is_missing(origin) {
        say_missing_line(system, page, output);
    }
}

/// Says so where the program fits neither there nor at a shift.
#[tactic(auto, unfolding(crate::specs::Words::missing_words))]
fn say_missing<W: Sink>(
    system: System,
    origin: &Point3,
    here: &Here,
    nearest: &Option<Shift>,
    page: &mut Page,
    output: &mut W,
)
    ensures { Says (W.written output.old) (W.written output.new)
        (W.failures output.old) (W.failures output.new) page.old page.new
        (spec.missing_words system origin.now here.now nearest.now) }
{
    match (here, nearest) {
        (Here::NotCleared { .. }, None) => say_if_missing(system, origin, page, output),
        _ => {}
    }
}

/// Says a placement in words.
#[tactic(auto, unfolding(crate::specs::Words::placement_words))]
pub(crate) fn say_words<W: Sink>(
    system: System,
    origin: &Point3,
    step: Nm,
    placement: &Placement,
    page: &mut Page,
    output: &mut W,
)
    requires { IsStep step }
    ensures { Says (W.written output.old) (W.written output.new)
        (W.failures output.old) (W.failures output.new) page.old page.new
        (spec.placement_words system origin.now step placement.now) }
{
    say_origin(system, origin, page, output);
    say_here(&placement.here, page, output);
    say_axes(system, step, placement, page, output);
    let nearest = shortest(placement);
    say_nearest(&placement.here, step, &nearest, page, output);
    say_missing(system, origin, &placement.here, &nearest, page, output);
}
