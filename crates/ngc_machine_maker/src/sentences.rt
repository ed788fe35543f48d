//! The texts of refusals.
ghost use Rattle.std.specs.Prelude.{◌≡◌, ◌++◌, OnOk, OnErr};
ghost use Rattle.std.specs.Io.KnownBytes.{Appends};
ghost use Rattle.ngc_sentences.specs.Saying.{Says};
ghost use Rattle.ngc_text.specs.Failures.{CountsFailure};
ghost use Rattle.ngc_text.specs.Written.{AppendsPrefix};
ghost use Rattle.ngc_machine_maker.specs.declared.refusal.FigureRefusal.TheVariants as refusals;
ghost use Rattle.ngc_machine_maker.specs.Sentences.{axis_text, stop_text, field_text, refusal_text};
ghost use Rattle.ngc_machine_maker.specs.Sentences.{refusal_line};
ghost use Rattle.ngc_machine_maker.specs.Sentences as spec;

use crate::figures::{Axis, PerAxis, StepsPerMillimetre};
use crate::refusal::{Field, FigureRefusal, Stop, Stored};
use crate::stored::stored_name;
use ngc_sentences::{Page, Part, say};
use ngc_text::{Sink, WriteFault};

#[tactic(auto, unfolding(crate::specs::Sentences::axis_text))]
fn axis_name(axis: Axis) -> &'static [u8]
    ensures { result.now ≡ axis_text axis }
{
    match axis {
        Axis::X => b"X",
        Axis::Y => b"Y",
        Axis::Z => b"Z",
    }
}

#[tactic(auto, unfolding(crate::specs::Sentences::stop_text))]
fn stop_name(stop: Stop) -> &'static [u8]
    ensures { result.now ≡ stop_text stop }
{
    match stop {
        Stop::Start => b"start",
        Stop::Home28 => b"home28",
        Stop::Home30 => b"home30",
    }
}

// Says three texts.
fn say_named<W: Sink>(
    before: &'static [u8],
    name: &'static [u8],
    after: &'static [u8],
    page: &mut Page,
    output: &mut W,
)
    ensures { Says (W.written output.old) (W.written output.new)
        (W.failures output.old) (W.failures output.new) page.old page.new
        (before.now ++ name.now ++ after.now) }
{
    say!(page, output; Part::Text(before), Part::Text(name), Part::Text(after));
}

#[tactic(auto, unfolding(crate::specs::Sentences::field_text))]
fn say_field<W: Sink>(field: Field, page: &mut Page, output: &mut W)
    ensures { Says (W.written output.old) (W.written output.new)
        (W.failures output.old) (W.failures output.new) page.old page.new
        (field_text field) }
{
    match field {
        Field::Steps => {
            say!(page, output; b"--steps-per-mm is not one number or three, with at most six decimals, as 188.976 or 100,100,400")
        }
        Field::Travel => {
            say!(page, output; b"--travel is not three lengths in mm, with at most six decimals, as 300,180,45")
        }
        Field::Feed => {
            say!(page, output; b"--feed is not three speeds in mm/min, with at most three decimals, as 1000,1000,600")
        }
        Field::Acceleration => {
            say!(page, output; b"--acceleration is not three numbers in mm/s^2 with up to three decimals, as 30,30,20")
        }
        Field::Frame => say!(page, output; b"--frame is neither low nor high"),
        Field::Corner => {
            say!(page, output; b"--corner is not a speed in mm/s, with at most three decimals, as 5")
        }
        Field::Jump => {
            say!(page, output; b"--jump is not a speed in mm/s, with at most three decimals, as 5")
        }
        Field::Arcs => {
            say!(page, output; b"--turn is not a number in mm/s^2, with at most three decimals, as 30")
        }
        Field::Ticks => say!(page, output; b"--ticks is not a whole number, as 40000"),
        Field::Ring => say!(page, output; b"--ring is not a whole number, as 64"),
        Field::Stop(stop) => say_named(
            b"--",
            stop_name(stop),
            b" is not three coordinates in mm, as 0,0,-1: below zero where zero is the high end",
            page,
            output,
        ),
    }
}

#[tactic(auto, unfolding(crate::specs::Sentences::refusal_text))]
fn say_outside<W: Sink>(stop: Stop, axis: Axis, page: &mut Page, output: &mut W)
    ensures { Says (W.written output.old) (W.written output.new)
        (W.failures output.old) (W.failures output.new) page.old page.new
        (refusal_text (refusals.Outside stop axis)) }
{
    say!(page, output; Part::Text(stop_name(stop)), b" is outside the travel of ", Part::Text(axis_name(axis)), b": give a place within it");
}

#[tactic(auto, unfolding(crate::specs::Sentences::refusal_text))]
fn say_missing<W: Sink>(number: u32, page: &mut Page, output: &mut W)
    ensures { Says (W.written output.old) (W.written output.new)
        (W.failures output.old) (W.failures output.new) page.old page.new
        (refusal_text (refusals.Missing number)) }
{
    say!(page, output; b"the setting $", Part::Number(u128::from(number)), b" is missing: give all lines that Grbl prints after $$");
}

// Says what is wrong with the value of a setting.
#[tactic(auto, unfolding(crate::specs::Sentences::value_text))]
fn say_value<W: Sink>(
    number: u32,
    at: usize,
    mistake: &'static [u8],
    page: &mut Page,
    output: &mut W,
)
    ensures { Says (W.written output.old) (W.written output.new)
        (W.failures output.old) (W.failures output.new) page.old page.new
        (spec.value_text number at mistake.now) }
{
    say!(page, output; b"line ", Part::Number(at as u128), b": the value of $", Part::Number(u128::from(number)), Part::Text(mistake));
}

// Says what a place in a dump must be; `limit` says how far from zero it may be.
#[tactic(auto, unfolding(crate::specs::Sentences::place_text))]
fn say_place<W: Sink>(
    stored: Stored,
    at: usize,
    limit: &'static [u8],
    page: &mut Page,
    output: &mut W,
)
    ensures { Says (W.written output.old) (W.written output.new)
        (W.failures output.old) (W.failures output.new) page.old page.new
        (spec.place_text stored at limit.now) }
{
    say!(page, output; b"line ", Part::Number(at as u128), b": the place of ", Part::Text(stored_name(stored)), b" is not X, Y and Z, each at most ", Part::Text(limit), b" from zero: correct it");
}

#[tactic(auto, unfolding(crate::specs::Sentences::unequal_text))]
fn say_unequal<W: Sink>(motors: &PerAxis<StepsPerMillimetre>, page: &mut Page, output: &mut W)
    ensures { Says (W.written output.old) (W.written output.new)
        (W.failures output.old) (W.failures output.new) page.old page.new
        (spec.unequal_text motors.now) }
{
    let (x, y, z) = (
        motors.x.millionths,
        motors.y.millionths,
        motors.z.millionths,
    );
    say!(page, output; b"the motors have ", Part::Size(u128::from(x)), b", ", Part::Size(u128::from(y)), b" and ", Part::Size(u128::from(z)), b" steps a mm, and with --rates one step serves all axes: leave out --rates");
}

#[tactic(auto, unfolding(crate::specs::Sentences::refusal_text))]
fn say_refusal<W: Sink>(refusal: FigureRefusal, page: &mut Page, output: &mut W)
    ensures { Says (W.written output.old) (W.written output.new)
        (W.failures output.old) (W.failures output.new) page.old page.new
        (refusal_text refusal) }
{
    match refusal {
        FigureRefusal::Unread(field) => say_field(field, page, output),
        FigureRefusal::Step => {
            say!(page, output; b"a step is not from 500 to 50000 nm: give from 20 to 2000 steps a mm")
        }
        FigureRefusal::Ticks => {
            say!(page, output; b"the ticks a second are not from 1 to 1000000: give a number between")
        }
        FigureRefusal::Ring => {
            say!(page, output; b"the ring is not from 16 to 1024 commands: give a number between")
        }
        FigureRefusal::SlowFeed(axis) => say_named(
            b"",
            axis_name(axis),
            b" has less than a millionth of a step in a tick: give a greater feed or fewer ticks",
            page,
            output,
        ),
        FigureRefusal::FastFeed(axis) => say_named(
            b"",
            axis_name(axis),
            b" has more than a step in a tick: give a smaller feed or more ticks",
            page,
            output,
        ),
        FigureRefusal::SlowCorner => {
            say!(page, output; b"the corner speed is below a millionth of a step a tick: give more, or fewer ticks")
        }
        FigureRefusal::LowAcceleration => {
            say!(page, output; b"the acceleration is too small for a machine file: give more, or fewer ticks")
        }
        FigureRefusal::LowArcs => {
            say!(page, output; b"the acceleration on arcs is too small for a machine file: give more, or fewer ticks")
        }
        FigureRefusal::Travel(axis) => say_named(
            b"the travel of ",
            axis_name(axis),
            b" is not from a step to 1000 mm: give a length between",
            page,
            output,
        ),
        FigureRefusal::FarTravel(axis) => say_named(
            b"the travel of ",
            axis_name(axis),
            b" is not from a step to 3999 mm: give a length between",
            page,
            output,
        ),
        FigureRefusal::Outside(stop, axis) => say_outside(stop, axis, page, output),
        FigureRefusal::Missing(number) => say_missing(number, page, output),
        FigureRefusal::Setting(number, at) => say_value(
            number,
            at,
            b" is not a number, as in $100=800.000",
            page,
            output,
        ),
        FigureRefusal::Negative(number, at) => say_value(
            number,
            at,
            b" is below zero, and this setting can't be: write it without the minus sign",
            page,
            output,
        ),
        FigureRefusal::Digits(number, at) => say_value(
            number,
            at,
            b" has too many digits: write it as Grbl does, with at most three decimals",
            page,
            output,
        ),
        FigureRefusal::Place(stored, at) => say_place(stored, at, b"1000 mm", page, output),
        FigureRefusal::FarPlace(stored, at) => say_place(stored, at, b"4000 mm", page, output),
        FigureRefusal::UnequalSteps(motors) => say_unequal(&motors, page, output),
    }
}

fn say_refusal_line<W: Sink>(refusal: FigureRefusal, page: &mut Page, output: &mut W)
    ensures { Says (W.written output.old) (W.written output.new)
        (W.failures output.old) (W.failures output.new) page.old page.new
        (refusal_line refusal) }
{
    say_refusal(refusal, page, output);
    say!(page, output; b"\n");
}

/// Writes what is wrong and what to enter instead, on a line. After a fault a prefix of it is
/// written, and the sink has counted the failure.
pub fn write_refusal<W: Sink>(refusal: FigureRefusal, sink: &mut W) -> Result<(), WriteFault>
    ensures ok { OnOk result
        (Appends (W.written sink.old) (W.written sink.new) (refusal_line refusal)) }
    ensures fault { OnErr result
        (AppendsPrefix (W.written sink.old) (W.written sink.new) (refusal_line refusal)) }
    ensures counts { CountsFailure (W.failures sink.old) (W.failures sink.new) result }
{
    let mut page = Page::new();
    say_refusal_line(refusal, &mut page, sink);
    page.finish(sink)
}
