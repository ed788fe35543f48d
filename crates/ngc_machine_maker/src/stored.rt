//! The places that a controller with Grbl prints after `$#`.
ghost use Rattle.std.specs.Prelude.{◌≡◌, ◌≤◌, IfSome};
ghost use Rattle.ngc_machine_maker.specs.Stored as spec;

use crate::decimal::{begins, number_in, split_three, without_first};
use crate::figures::{PerAxis, PlaceForm, StoredPlaces};
use crate::refusal::{FigureRefusal, Stored};
use ngc_grbl_lines::{before, place_name, place_values, split_line};

#[tactic(auto, unfolding(crate::specs::Stored::stored_text))]
pub(crate) fn stored_name(stored: Stored) -> &'static [u8]
    ensures { result.now ≡ spec.stored_text stored }
{
    match stored {
        Stored::G54 => b"G54",
        Stored::G55 => b"G55",
        Stored::G56 => b"G56",
        Stored::G57 => b"G57",
        Stored::G58 => b"G58",
        Stored::G59 => b"G59",
        Stored::G28 => b"G28",
        Stored::G30 => b"G30",
        Stored::G92 => b"G92",
    }
}

fn near(far: bool, nanometres: u64) -> Option<u64>
    ensures value { result ≡ spec.near far nanometres }
    ensures range { IfSome result (λ n. n ≤ 4000000000) }
{
    let limit = if far { 4_000_000_000 } else { 1_000_000_000 };
    if nanometres <= limit {
        Some(nanometres)
    } else {
        None
    }
}

// Returns a size in nanometres, at most 4,000 mm.
fn size_in(form: PlaceForm, text: &[u8]) -> Option<u64>
    ensures value { result ≡ spec.size_in form text.now }
    ensures range { IfSome result (λ n. n ≤ 4000000000) }
{
    if form.inches {
        match number_in(text, 5) {
            None => None,
            Some(number) => near(form.far, 254 * u64::from(number)),
        }
    } else {
        match number_in(text, 6) {
            None => None,
            Some(number) => near(form.far, u64::from(number)),
        }
    }
}

fn signed(minus: bool, size: Option<u64>) -> Option<i64>
    requires { IfSome size (λ n. n ≤ 4000000000) }
    ensures { result ≡ spec.signed minus size }
{
    match size {
        None => None,
        Some(size) if minus => Some(0 - size as i64),
        Some(size) => Some(size as i64),
    }
}

fn coordinate_in(form: PlaceForm, text: &[u8]) -> Option<i64>
    ensures { result ≡ spec.coordinate_in form text.now }
{
    if begins(b'-', text) {
        signed(true, size_in(form, without_first(text)))
    } else {
        signed(false, size_in(form, text))
    }
}

// Returns the place that the first three coordinates of a text write.
#[tactic(auto, unfolding(crate::specs::Stored::stored_in))]
fn stored_in(form: PlaceForm, text: &[u8]) -> Option<PerAxis<i64>>
    ensures { result ≡ spec.stored_in form text.now }
{
    let (x, y, z) = split_three(text);
    match (
        coordinate_in(form, x),
        coordinate_in(form, y),
        coordinate_in(form, before(b',', z)),
    ) {
        (Some(x), Some(y), Some(z)) => Some(PerAxis { x, y, z }),
        _ => None,
    }
}

fn is_at(stored: Stored, line: &[u8]) -> bool
    ensures { result ≡ spec.is_at stored line.now }
{
    place_name(line) == stored_name(stored)
}

fn stored_by(
    far: bool,
    stored: Stored,
    at: usize,
    place: Option<PerAxis<i64>>,
) -> Result<Option<PerAxis<i64>>, FigureRefusal>
    ensures { result ≡ spec.stored_by far stored at place }
{
    match place {
        None if far => Err(FigureRefusal::FarPlace(stored, at)),
        None => Err(FigureRefusal::Place(stored, at)),
        Some(place) => Ok(Some(place)),
    }
}

// Returns a place of a dump, if the dump has it.
#[tactic(auto, unfolding(crate::specs::Stored::place))]
fn place(
    text: &[u8],
    form: PlaceForm,
    stored: Stored,
) -> Result<Option<PerAxis<i64>>, FigureRefusal>
    ensures { result ≡ spec.place text.now form stored }
{
    let mut at: usize = 1;
    let mut rest = text;
    while !rest.is_empty() {
        let (line, others) = split_line(rest);
        if is_at(stored, line) {
            return stored_by(form.far, stored, at, stored_in(form, place_values(line)));
        }
        at += 1;
        rest = others;
    }
    Ok(None)
}

/// Returns the places of a dump. It refuses the first that can't be read, in the order of the names.
pub(crate) fn places_in(text: &[u8], form: PlaceForm) -> Result<StoredPlaces, FigureRefusal>
    ensures { result ≡ spec.places_in text.now form }
{
    let g54 = place(text, form, Stored::G54)?;
    let g55 = place(text, form, Stored::G55)?;
    let g56 = place(text, form, Stored::G56)?;
    let g57 = place(text, form, Stored::G57)?;
    let g58 = place(text, form, Stored::G58)?;
    let g59 = place(text, form, Stored::G59)?;
    let g28 = place(text, form, Stored::G28)?;
    let g30 = place(text, form, Stored::G30)?;
    let g92 = place(text, form, Stored::G92)?;
    Ok(StoredPlaces {
        g54,
        g55,
        g56,
        g57,
        g58,
        g59,
        g28,
        g30,
        g92,
    })
}
