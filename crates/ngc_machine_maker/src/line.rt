//! The lines of a machine file.
ghost use Rattle.std.specs.Prelude.{◌≡◌, ◌++◌, codes, decimal};
ghost use Rattle.std.specs.Fmt.{signed_decimal};
ghost use Rattle.ngc_sentences.specs.Parts.{part_text, parts_text};
ghost use Rattle.ngc_sentences.specs.Saying.{Says};
ghost use Rattle.ngc_text.specs.Millimetres.{length_text, size_text};
ghost use Rattle.ngc_machine_maker.specs.Texts.{three_text, value_text, thousandths_text};
ghost use Rattle.ngc_machine_maker.specs.Texts.{axes_text, remark_text, line_text};

use crate::figures::PerAxis;
use ngc_sentences::{Page, Part, say};
use ngc_text::Sink;

/// The value of a key.
#[derive(Clone, Copy)]
pub(crate) enum Value {
    Number(u64),
    Rates(PerAxis<u32>),
    /// A place, in nanometres.
    Place(PerAxis<i64>),
}

/// A key's value in the units of a shop. Rounded values are in thousandths of the unit.
#[derive(Clone, Copy)]
pub(crate) enum Remark {
    /// A step, in nanometres.
    Step(u32),
    Ticks,
    /// A speed, in millimetres per minute.
    Speed(u128),
    /// A speed of each axis, in millimetres per minute.
    Speeds(PerAxis<u128>),
    /// An acceleration, in millimetres per second squared.
    Acceleration(u128),
    /// The greatest acceleration towards the centre of an arc, in millimetres per second squared.
    Arcs(u128),
    /// The greatest one that is aimed at, where the turn holds at every place.
    ArcsByPlace(u128),
    Ring,
    ArcFeed,
    /// A place, in nanometres.
    Place(PerAxis<i64>),
}

fn signed(number: &i64) -> Part<'static>
    ensures { part_text result ≡ signed_decimal number.now }
{
    Part::Signed(*number)
}

fn length(nanometres: &i64) -> Part<'static>
    ensures { part_text result ≡ length_text nanometres.now }
{
    Part::Length(*nanometres)
}

fn rates(rates: &PerAxis<u32>) -> [Part<'static>; 7]
    ensures { parts_text result
        ≡ three_text (decimal rates.now.x) (decimal rates.now.y) (decimal rates.now.z) }
{
    [
        Part::Text(b"["),
        Part::Number(u128::from(rates.x)),
        Part::Text(b", "),
        Part::Number(u128::from(rates.y)),
        Part::Text(b", "),
        Part::Number(u128::from(rates.z)),
        Part::Text(b"]"),
    ]
}

fn place(place: &PerAxis<i64>) -> [Part<'static>; 7]
    ensures { parts_text result ≡ three_text (signed_decimal place.now.x)
        (signed_decimal place.now.y) (signed_decimal place.now.z) }
{
    [
        Part::Text(b"["),
        signed(&place.x),
        Part::Text(b", "),
        signed(&place.y),
        Part::Text(b", "),
        signed(&place.z),
        Part::Text(b"]"),
    ]
}

fn speeds(speeds: &PerAxis<u128>) -> [Part<'static>; 7]
    ensures { parts_text result ≡ axes_text (thousandths_text speeds.now.x)
        (thousandths_text speeds.now.y) (thousandths_text speeds.now.z) ++ codes " mm/min" }
{
    [
        Part::Text(b"X "),
        Part::Thousandths(speeds.x),
        Part::Text(b", Y "),
        Part::Thousandths(speeds.y),
        Part::Text(b", Z "),
        Part::Thousandths(speeds.z),
        Part::Text(b" mm/min"),
    ]
}

fn coordinates(place: &PerAxis<i64>) -> [Part<'static>; 7]
    ensures { parts_text result ≡ axes_text (length_text place.now.x) (length_text place.now.y)
        (length_text place.now.z) ++ codes " mm" }
{
    [
        Part::Text(b"X "),
        length(&place.x),
        Part::Text(b", Y "),
        length(&place.y),
        Part::Text(b", Z "),
        length(&place.z),
        Part::Text(b" mm"),
    ]
}

#[tactic(auto, unfolding(crate::specs::Texts::value_text))]
pub(crate) fn say_value<W: Sink>(value: &Value, page: &mut Page, output: &mut W)
    ensures { Says (W.written output.old) (W.written output.new)
        (W.failures output.old) (W.failures output.new) page.old page.new
        (value_text value.now) }
{
    match value {
        Value::Number(number) => say!(page, output; Part::Number(u128::from(*number))),
        Value::Rates(each) => page.say(output, &rates(each)),
        Value::Place(at) => page.say(output, &place(at)),
    }
}

// Says a number of thousandths and its unit.
fn say_rounded<W: Sink>(number: u128, unit: &[u8], page: &mut Page, output: &mut W)
    ensures { Says (W.written output.old) (W.written output.new)
        (W.failures output.old) (W.failures output.new) page.old page.new
        (thousandths_text number ++ unit.now) }
{
    say!(page, output; Part::Thousandths(number), Part::Text(unit));
}

fn say_step<W: Sink>(nanometres: u32, page: &mut Page, output: &mut W)
    ensures { Says (W.written output.old) (W.written output.new)
        (W.failures output.old) (W.failures output.new) page.old page.new
        (size_text nanometres ++ codes " mm") }
{
    say!(page, output; Part::Size(u128::from(nanometres)), b" mm");
}

#[tactic(auto, unfolding(crate::specs::Texts::remark_text))]
pub(crate) fn say_remark<W: Sink>(remark: &Remark, page: &mut Page, output: &mut W)
    ensures { Says (W.written output.old) (W.written output.new)
        (W.failures output.old) (W.failures output.new) page.old page.new
        (remark_text remark.now) }
{
    match remark {
        Remark::Step(nanometres) => say_step(*nanometres, page, output),
        Remark::Ticks => say!(page, output; b"how often the controller may make steps"),
        Remark::Speed(number) => say_rounded(*number, b" mm/min", page, output),
        Remark::Speeds(each) => page.say(output, &speeds(each)),
        Remark::Acceleration(number) => say_rounded(*number, b" mm/s^2", page, output),
        Remark::Arcs(number) => say_rounded(*number, b" mm/s^2 on arcs at most", page, output),
        Remark::ArcsByPlace(number) => say_rounded(
            *number,
            b" mm/s^2 on arcs, up to twice that while slowing down",
            page,
            output,
        ),
        Remark::Ring => { say!(page, output; b"how many commands are loaded and not done at most") }
        Remark::ArcFeed => {
            say!(page, output; b"arcs run at their feed and their turn at every place")
        }
        Remark::Place(at) => page.say(output, &coordinates(at)),
    }
}

/// Says the line of a key.
#[tactic(auto, unfolding(crate::specs::Texts::line_text))]
pub(crate) fn say_line<W: Sink>(
    key: &[u8],
    value: Value,
    remark: Remark,
    page: &mut Page,
    output: &mut W,
)
    ensures { Says (W.written output.old) (W.written output.new)
        (W.failures output.old) (W.failures output.new) page.old page.new
        (line_text key.now value remark) }
{
    say!(page, output; Part::Text(key), b" = ");
    say_value(&value, page, output);
    say!(page, output; b" # ");
    say_remark(&remark, page, output);
    say!(page, output; b"\n");
}
