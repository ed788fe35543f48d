//! The lines of a machine file on what the dump of a controller with Grbl has besides figures.
ghost use Rattle.std.specs.Prelude.{◌≡◌, ◌++◌, ◌≤◌};
ghost use Rattle.ngc_sentences.specs.Saying.{Says};
ghost use Rattle.ngc_machine_maker.specs.DumpLines as spec;

use crate::figures::{Length, PerAxis, StoredPlaces, Supplied};
use crate::line::{Remark, Value, say_remark, say_value};
use ngc_sentences::{Page, Part, say};
use ngc_text::Sink;

// Says that a setting isn't in the dump, and which value it has.
#[tactic(auto, unfolding(crate::specs::DumpLines::default_line))]
fn say_default<W: Sink>(number: u32, value: &[u8], page: &mut Page, output: &mut W)
    ensures { Says (W.written output.old) (W.written output.new)
        (W.failures output.old) (W.failures output.new) page.old page.new
        (spec.default_line number value.now) }
{
    say!(page, output; b"# $", Part::Number(u128::from(number)), b" isn't in the settings: ", Part::Text(value), b", as GRBL has it.\n");
}

fn say_default_if<W: Sink>(
    missing: bool,
    number: u32,
    value: &[u8],
    page: &mut Page,
    output: &mut W,
)
    ensures { Says (W.written output.old) (W.written output.new)
        (W.failures output.old) (W.failures output.new) page.old page.new
        (spec.default_lines missing number value.now) }
{
    if missing {
        say_default(number, value, page, output);
    }
}

#[tactic(auto, unfolding(crate::specs::DumpLines::axis_defaults))]
fn say_axis_defaults<W: Sink>(
    missing: &PerAxis<bool>,
    number: u32,
    value: &[u8],
    page: &mut Page,
    output: &mut W,
)
    requires { number ≤ 1000 }
    ensures { Says (W.written output.old) (W.written output.new)
        (W.failures output.old) (W.failures output.new) page.old page.new
        (spec.axis_defaults missing.now number value.now) }
{
    say_default_if(missing.x, number, value, page, output);
    say_default_if(missing.y, number + 1, value, page, output);
    say_default_if(missing.z, number + 2, value, page, output);
}

/// Says which of GRBL's defaults are supplied.
#[tactic(auto, unfolding(crate::specs::DumpLines::supplied_lines))]
pub fn say_supplied<W: Sink>(supplied: &Supplied, page: &mut Page, output: &mut W)
    ensures { Says (W.written output.old) (W.written output.new)
        (W.failures output.old) (W.failures output.new) page.old page.new
        (spec.supplied_lines supplied.now) }
{
    say_default_if(supplied.unit, 13, b"0, places are in mm", page, output);
    say_default_if(supplied.ends, 23, b"0", page, output);
    say_default_if(supplied.pull_off, 27, b"1 mm", page, output);
    say_axis_defaults(&supplied.feed, 110, b"500 mm/min", page, output);
    say_axis_defaults(&supplied.acceleration, 120, b"10 mm/s^2", page, output);
}

fn is_zero(place: &Option<PerAxis<i64>>) -> bool
    ensures { result ≡ spec.is_zero place.now }
{
    match place {
        None => true,
        Some(place) => place.x == 0 && place.y == 0 && place.z == 0,
    }
}

#[tactic(auto, unfolding(crate::specs::DumpLines::offset_text))]
fn say_offset<W: Sink>(before: &[u8], page: &mut Page, output: &mut W)
    ensures { Says (W.written output.old) (W.written output.new)
        (W.failures output.old) (W.failures output.new) page.old page.new
        (before.now ++ spec.offset_text) }
{
    say!(page, output; Part::Text(before), b"[G92:..] isn't zero: this offset was in force, and here programs start without it: clear it with G92.1\n");
}

/// Says a remark or a note, after its first word, on an offset of G92 that was in force.
#[tactic(auto, unfolding(crate::specs::DumpLines::offset_after))]
pub fn say_offset_after<W: Sink>(
    before: &[u8],
    places: &StoredPlaces,
    page: &mut Page,
    output: &mut W,
)
    ensures { Says (W.written output.old) (W.written output.new)
        (W.failures output.old) (W.failures output.new) page.old page.new
        (spec.offset_after before.now places.now) }
{
    if !is_zero(&places.g92) {
        say_offset(before, page, output);
    }
}

fn or_zero(place: &Option<PerAxis<i64>>) -> PerAxis<i64>
    ensures { result ≡ spec.or_zero place.now }
{
    match place {
        None => PerAxis { x: 0, y: 0, z: 0 },
        Some(place) => *place,
    }
}

#[tactic(auto, unfolding(crate::specs::DumpLines::origin_text))]
fn say_origin<W: Sink>(name: &[u8], value: Value, remark: Remark, page: &mut Page, output: &mut W)
    ensures { Says (W.written output.old) (W.written output.new)
        (W.failures output.old) (W.failures output.new) page.old page.new
        (spec.origin_text name.now value remark) }
{
    say!(page, output; b"    ");
    say_value(&value, page, output);
    say!(page, output; b", # ", Part::Text(name), b": ");
    say_remark(&remark, page, output);
    say!(page, output; b"\n");
}

// Says an origin, which is zero if a dump doesn't have it.
fn say_stored<W: Sink>(name: &[u8], place: &Option<PerAxis<i64>>, page: &mut Page, output: &mut W)
    ensures { Says (W.written output.old) (W.written output.new)
        (W.failures output.old) (W.failures output.new) page.old page.new
        (spec.origin_line name.now (spec.or_zero place.now)) }
{
    let origin = or_zero(place);
    say_origin(
        name,
        Value::Place(origin),
        Remark::Place(origin),
        page,
        output,
    );
}

#[tactic(auto, unfolding(crate::specs::DumpLines::all_origins))]
fn say_all_origins<W: Sink>(places: &StoredPlaces, page: &mut Page, output: &mut W)
    ensures { Says (W.written output.old) (W.written output.new)
        (W.failures output.old) (W.failures output.new) page.old page.new
        (spec.all_origins places.now) }
{
    say!(page, output; b"origins = [\n");
    say_stored(b"G54", &places.g54, page, output);
    say_stored(b"G55", &places.g55, page, output);
    say_stored(b"G56", &places.g56, page, output);
    say_stored(b"G57", &places.g57, page, output);
    say_stored(b"G58", &places.g58, page, output);
    say_stored(b"G59", &places.g59, page, output);
    say!(page, output; b"    [0, 0, 0], [0, 0, 0], [0, 0, 0],\n]\n");
}

/// Returns whether the stored origins of `G54` to `G59` are all zero, or not stored.
pub fn are_zero(places: &StoredPlaces) -> bool
    ensures { result ≡ spec.are_zero places.now }
{
    is_zero(&places.g54)
        && is_zero(&places.g55)
        && is_zero(&places.g56)
        && is_zero(&places.g57)
        && is_zero(&places.g58)
        && is_zero(&places.g59)
}

/// Says the key of the origins, if one isn't zero.
pub(crate) fn say_origins<W: Sink>(places: &StoredPlaces, page: &mut Page, output: &mut W)
    ensures { Says (W.written output.old) (W.written output.new)
        (W.failures output.old) (W.failures output.new) page.old page.new
        (spec.origin_lines places.now) }
{
    if !are_zero(places) {
        say_all_origins(places, page, output);
    }
}

/// Returns a home position: that of an option, or that of the dump, or the start.
pub(crate) fn home_by(
    home: &PerAxis<i64>,
    option: &Option<PerAxis<Length>>,
    stored: &Option<PerAxis<i64>>,
) -> PerAxis<i64>
    ensures { result ≡ spec.home_by home.now option.now stored.now }
{
    match (option, stored) {
        (None, Some(place)) => *place,
        _ => *home,
    }
}
