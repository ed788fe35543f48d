//! The lines of a machine file: a key and a text with its unit.
ghost use Rattle.std.specs.Prelude.{◌≡◌, codes};
ghost use Rattle.ngc_sentences.specs.Saying.{Says};
ghost use Rattle.ngc_machine_writer.specs.Lines as spec;

use ngc_machine_maker::{Acceleration, End, Length, PerAxis, Speed};
use ngc_sentences::{Page, Part, say};
use ngc_text::Sink;

// Says the line of a key with a number in millionths and its unit.
#[tactic(auto, unfolding(crate::specs::Lines::quantity_line))]
pub(crate) fn say_quantity<'a, W: Sink>(
    key: &'a [u8],
    millionths: u64,
    unit: &'a [u8],
    page: &mut Page,
    output: &mut W,
)
    ensures { Says (W.written output.old) (W.written output.new)
        (W.failures output.old) (W.failures output.new) page.old page.new
        (spec.quantity_line key.now millionths unit.now) }
{
    say!(page, output; Part::Text(key), b" = \"", Part::Size(u128::from(millionths)), b" ", Part::Text(unit), b"\"\n");
}

pub(crate) fn say_speed<W: Sink>(key: &[u8], speed: Speed, page: &mut Page, output: &mut W)
    ensures { Says (W.written output.old) (W.written output.new)
        (W.failures output.old) (W.failures output.new) page.old page.new
        (spec.speed_line key.now speed) }
{
    say_quantity(key, speed.nanometres_a_minute, b"mm/min", page, output);
}

pub(crate) fn say_acceleration<W: Sink>(
    key: &[u8],
    acceleration: Acceleration,
    page: &mut Page,
    output: &mut W,
)
    ensures { Says (W.written output.old) (W.written output.new)
        (W.failures output.old) (W.failures output.new) page.old page.new
        (spec.acceleration_line key.now acceleration) }
{
    say_quantity(
        key,
        acceleration.nanometres_a_second_squared,
        b"mm/s2",
        page,
        output,
    );
}

pub(crate) fn say_number<W: Sink>(key: &[u8], number: u32, page: &mut Page, output: &mut W)
    ensures { Says (W.written output.old) (W.written output.new)
        (W.failures output.old) (W.failures output.new) page.old page.new
        (spec.number_line key.now number) }
{
    say!(page, output; Part::Text(key), b" = ", Part::Number(u128::from(number)), b"\n");
}

fn coordinate(zero: End, distance: Length) -> i64
    ensures { result ≡ spec.coordinate zero distance }
{
    match zero {
        End::Low => i64::from(distance.nanometres),
        End::High => -i64::from(distance.nanometres),
    }
}

// Returns the coordinates of a place by its distances from zero, into the travel.
pub(crate) fn coordinates(zero: &PerAxis<End>, place: &PerAxis<Length>) -> PerAxis<i64>
    ensures { result ≡ spec.coordinates zero.now place.now }
{
    PerAxis {
        x: coordinate(zero.x, place.x),
        y: coordinate(zero.y, place.y),
        z: coordinate(zero.z, place.z),
    }
}

#[tactic(auto, unfolding(crate::specs::Lines::place_line))]
pub(crate) fn say_place<W: Sink>(key: &[u8], place: &PerAxis<i64>, page: &mut Page, output: &mut W)
    ensures { Says (W.written output.old) (W.written output.new)
        (W.failures output.old) (W.failures output.new) page.old page.new
        (spec.place_line key.now place.now) }
{
    let (x, y, z) = (
        Part::Length(place.x),
        Part::Length(place.y),
        Part::Length(place.z),
    );
    say!(page, output; Part::Text(key), b" = \"", x, b", ", y, b", ", z, b" mm\"\n");
}

pub(crate) fn say_some_place<W: Sink>(
    key: &[u8],
    place: &Option<PerAxis<i64>>,
    page: &mut Page,
    output: &mut W,
)
    ensures { Says (W.written output.old) (W.written output.new)
        (W.failures output.old) (W.failures output.new) page.old page.new
        (spec.some_place_line key.now place.now) }
{
    if let Some(place) = place {
        say_place(key, place, page, output);
    }
}
