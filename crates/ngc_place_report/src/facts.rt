//! What is said of a placement, as JSON.
ghost use Rattle.std.specs.Prelude.{◌≡◌, ◌*ℤ◌};
ghost use Rattle.std.specs.Fmt.{signed_decimal};
ghost use Rattle.ngc_fixed_length.specs.Length.{IsStep};
ghost use Rattle.ngc_sentences.specs.Parts.{part_text, parts_text};
ghost use Rattle.ngc_sentences.specs.Saying.{Says};
ghost use Rattle.ngc_place_report.specs.Facts as spec;

use crate::nearest::{Shift, shortest};
use crate::placement::{AlongAxis, Finding, Here, Placement, Staying};
use crate::systems::code_text;
use crate::words::{axis_text, is_missing};
use ngc_certificate_text::Setting;
use ngc_fixed_length::{Nm, Point3, System, nanometres_at};
use ngc_place::{Axis, Interval};
use ngc_sentences::{Page, Part, say};
use ngc_text::Sink;

#[tactic(auto, unfolding(crate::specs::Facts::place_fact))]
fn place(place: &Point3) -> [Part<'static>; 7]
    ensures { parts_text result ≡ spec.place_fact place.now }
{
    [
        Part::Text(b"["),
        Part::Signed(place.x.nanometres()),
        Part::Text(b","),
        Part::Signed(place.y.nanometres()),
        Part::Text(b","),
        Part::Signed(place.z.nanometres()),
        Part::Text(b"]"),
    ]
}

#[tactic(auto, unfolding(crate::specs::Facts::origin_fact))]
fn say_origin<W: Sink>(system: System, origin: &Point3, page: &mut Page, output: &mut W)
    ensures { Says (W.written output.old) (W.written output.new)
        (W.failures output.old) (W.failures output.new) page.old page.new
        (spec.origin_fact system origin.now) }
{
    say!(page, output; b",\n{\"fact\":\"origin\",\"system\":\"", Part::Text(code_text(system)), b"\",\"at\":");
    page.say(output, &place(origin));
    say!(page, output; b"}");
}

#[tactic(auto, unfolding(crate::specs::Facts::setting_fact))]
fn setting_fact(setting: Setting) -> &'static [u8]
    ensures { result.now ≡ spec.setting_fact setting }
{
    match setting {
        Setting::Off => b"false",
        Setting::On => b"true",
    }
}

#[tactic(auto, unfolding(crate::specs::Facts::here_fact))]
fn say_here<W: Sink>(here: &Here, page: &mut Page, output: &mut W)
    ensures { Says (W.written output.old) (W.written output.new)
        (W.failures output.old) (W.failures output.new) page.old page.new
        (spec.here_fact here.now) }
{
    match here {
        Here::Fits => say!(page, output; b",\n{\"fact\":\"here\",\"fits\":true}"),
        Here::NotCleared { setting, line } =>
            say!(page, output; b",\n{\"fact\":\"here\",\"fits\":false,\"block_delete\":", Part::Text(setting_fact(*setting)), b",\"line\":", Part::Number(u128::from(*line)), b"}"),
    }
}

/// Returns a shift's length in nanometres.
fn length(step: Nm, shift: &i32) -> Part<'static>
    requires { IsStep step }
    ensures { part_text result ≡ signed_decimal (shift.now *ℤ step) }
{
    Part::Signed(nanometres_at(step, *shift))
}

#[tactic(auto, unfolding(crate::specs::Facts::interval_fact))]
fn say_interval<W: Sink>(step: Nm, interval: &Interval, page: &mut Page, output: &mut W)
    requires { IsStep step }
    ensures { Says (W.written output.old) (W.written output.new)
        (W.failures output.old) (W.failures output.new) page.old page.new
        (spec.interval_fact step interval.now) }
{
    say!(page, output; b",\"moves\":true,\"fits\":true,\"from\":", length(step, &interval.from), b",\"to\":", length(step, &interval.to));
}

#[tactic(auto, unfolding(crate::specs::Facts::finding_fact))]
fn say_finding<W: Sink>(step: Nm, finding: &Finding, page: &mut Page, output: &mut W)
    requires { IsStep step }
    ensures { Says (W.written output.old) (W.written output.new)
        (W.failures output.old) (W.failures output.new) page.old page.new
        (spec.finding_fact step finding.now) }
{
    match finding {
        Finding::Unmoved =>
            say!(page, output; b",\"moves\":false,\"fits\":null,\"from\":null,\"to\":null"),
        Finding::Nowhere =>
            say!(page, output; b",\"moves\":true,\"fits\":false,\"from\":null,\"to\":null"),
        Finding::Fits(interval) => say_interval(step, interval, page, output),
    }
}

#[tactic(auto, unfolding(crate::specs::Facts::staying_fact))]
fn say_staying<W: Sink>(staying: &Option<Staying>, page: &mut Page, output: &mut W)
    ensures { Says (W.written output.old) (W.written output.new)
        (W.failures output.old) (W.failures output.new) page.old page.new
        (spec.staying_fact staying.now) }
{
    match staying {
        None => say!(page, output; b",\"staying\":0,\"first_line\":null}"),
        Some(staying) =>
            say!(page, output; b",\"staying\":", Part::Number(staying.motions as u128), b",\"first_line\":", Part::Number(u128::from(staying.line)), b"}"),
    }
}

#[tactic(auto, unfolding(crate::specs::Facts::along_fact))]
fn say_along<W: Sink>(axis: Axis, step: Nm, along: &AlongAxis, page: &mut Page, output: &mut W)
    requires { IsStep step }
    ensures { Says (W.written output.old) (W.written output.new)
        (W.failures output.old) (W.failures output.new) page.old page.new
        (spec.along_fact axis step along.now) }
{
    say!(page, output; b",\n{\"fact\":\"along\",\"axis\":\"", Part::Text(axis_text(axis)), b"\"");
    say_finding(step, &along.finding, page, output);
    say_staying(&along.staying, page, output);
}

#[tactic(auto, unfolding(crate::specs::Facts::axes_facts))]
fn say_axes<W: Sink>(step: Nm, placement: &Placement, page: &mut Page, output: &mut W)
    requires { IsStep step }
    ensures { Says (W.written output.old) (W.written output.new)
        (W.failures output.old) (W.failures output.new) page.old page.new
        (spec.axes_facts step placement.now) }
{
    say_along(Axis::X, step, &placement.x, page, output);
    say_along(Axis::Y, step, &placement.y, page, output);
    say_along(Axis::Z, step, &placement.z, page, output);
}

#[tactic(auto, unfolding(crate::specs::Facts::shift_fact))]
fn say_shift<W: Sink>(step: Nm, shift: &Shift, page: &mut Page, output: &mut W)
    requires { IsStep step }
    ensures { Says (W.written output.old) (W.written output.new)
        (W.failures output.old) (W.failures output.new) page.old page.new
        (spec.shift_fact step shift.now) }
{
    say!(page, output; b",\n{\"fact\":\"nearest\",\"axis\":\"", Part::Text(axis_text(shift.axis)), b"\",\"shift\":", length(step, &shift.steps), b"}");
}

#[tactic(auto, unfolding(crate::specs::Facts::nearest_fact))]
fn say_nearest<W: Sink>(
    here: &Here,
    step: Nm,
    nearest: &Option<Shift>,
    page: &mut Page,
    output: &mut W,
)
    requires { IsStep step }
    ensures { Says (W.written output.old) (W.written output.new)
        (W.failures output.old) (W.failures output.new) page.old page.new
        (spec.nearest_fact here.now step nearest.now) }
{
    match (here, nearest) {
        (Here::NotCleared { .. }, Some(shift)) => say_shift(step, shift, page, output),
        _ => {}
    }
}

fn say_missing_line<W: Sink>(system: System, page: &mut Page, output: &mut W)
    ensures { Says (W.written output.old) (W.written output.new)
        (W.failures output.old) (W.failures output.new) page.old page.new
        (spec.missing_line_fact system) }
{
    say!(page, output; b",\n{\"fact\":\"no_origin\",\"system\":\"", Part::Text(code_text(system)), b"\"}");
}

fn say_if_missing<W: Sink>(system: System, origin: &Point3, page: &mut Page, output: &mut W)
    ensures { Says (W.written output.old) (W.written output.new)
        (W.failures output.old) (W.failures output.new) page.old page.new
        (spec.missing_fact_at system origin.now) }
{
    if is_missing(origin) {
        say_missing_line(system, page, output);
    }
}

#[tactic(auto, unfolding(crate::specs::Facts::missing_fact))]
fn say_missing<W: Sink>(
    system: System,
    origin: &Point3,
    here: &Here,
    nearest: &Option<Shift>,
    page: &mut Page,
    output: &mut W,
)
    ensures { Says (W.written output.old) (W.written output.new)
        (W.failures output.old) (W.failures output.new) page.old page.new
        (spec.missing_fact system origin.now here.now nearest.now) }
{
    match (here, nearest) {
        (Here::NotCleared { .. }, None) => say_if_missing(system, origin, page, output),
        _ => {}
    }
}

/// Says a placement as a JSON document.
#[tactic(auto, unfolding(crate::specs::Facts::placement_facts))]
pub(crate) fn say_document<W: Sink>(
    system: System,
    origin: &Point3,
    step: Nm,
    placement: &Placement,
    page: &mut Page,
    output: &mut W,
)
    requires { IsStep step }
    ensures { Says (W.written output.old) (W.written output.new)
        (W.failures output.old) (W.failures output.new) page.old page.new
        (spec.placement_facts system origin.now step placement.now) }
{
    say!(page, output; b"[{\"fact\":\"place\",\"version\":1}");
    say_origin(system, origin, page, output);
    say_here(&placement.here, page, output);
    say_axes(step, placement, page, output);
    let nearest = shortest(placement);
    say_nearest(&placement.here, step, &nearest, page, output);
    say_missing(system, origin, &placement.here, &nearest, page, output);
    say!(page, output; b"\n]\n");
}
