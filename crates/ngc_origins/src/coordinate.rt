//! The coordinates of an origin: three numbers in millimetres, or lengths with a unit.
ghost use Rattle.std.specs.Prelude.{◌≡◌, ◌≤◌, IfSome, unsigned_abs};
ghost use Rattle.ngc_machine_files.specs.Ranges.{IsSized, NEAR_LIMIT};
ghost use Rattle.ngc_origins.specs.Texts as spec;

use ngc_fixed_length::{Nm, Point3};
use ngc_machine_maker::{number_in, split_three};
use ngc_quantities::{Place, place_of};

// Returns a length in nanometres, at most 10^9 in size.
fn size_in(text: &[u8]) -> Option<u32>
    ensures value { result ≡ spec.size_in text.now }
    ensures range { IfSome result (λ n. n ≤ 1000000000) }
{
    match number_in(text, 6) {
        Some(size) if size <= 1_000_000_000 => Some(size),
        _ => None,
    }
}

fn length(nanometres: i64) -> Nm
    requires { unsigned_abs nanometres ≤ 1000000000 }
    ensures { result ≡ nanometres }
{
    Nm::from_nanometres(i128::from(nanometres)).unwrap()
}

fn positive(size: Option<u32>) -> Option<Nm>
    requires { IfSome size (λ n. n ≤ 1000000000) }
    ensures value { result ≡ spec.positive size }
    ensures range { IfSome result (λ z. unsigned_abs z ≤ 1000000000) }
{
    match size {
        Some(size) => Some(length(i64::from(size))),
        None => None,
    }
}

fn negative(size: Option<u32>) -> Option<Nm>
    requires { IfSome size (λ n. n ≤ 1000000000) }
    ensures value { result ≡ spec.negative size }
    ensures range { IfSome result (λ z. unsigned_abs z ≤ 1000000000) }
{
    match size {
        Some(size) => Some(length(0 - i64::from(size))),
        None => None,
    }
}

fn coordinate_in(text: &[u8]) -> Option<Nm>
    ensures value { result ≡ spec.coordinate_in text.now }
    ensures range { IfSome result (λ z. unsigned_abs z ≤ 1000000000) }
{
    match text {
        [b'-', size @ ..] => negative(size_in(size)),
        _ => positive(size_in(text)),
    }
}

// Returns the place of three numbers in millimetres, separated by commas.
fn plain_place(text: &[u8]) -> Option<Point3>
    ensures value { result ≡ spec.plain_place text.now }
    ensures range { IfSome result (IsSized NEAR_LIMIT) }
{
    let (x, y, z) = split_three(text);
    match (coordinate_in(x), coordinate_in(y), coordinate_in(z)) {
        (Some(x), Some(y), Some(z)) => Some(Point3 { x, y, z }),
        _ => None,
    }
}

fn near(nanometres: i64) -> Option<Nm>
    ensures value { result ≡ spec.near nanometres }
    ensures range { IfSome result (λ z. unsigned_abs z ≤ 1000000000) }
{
    if nanometres.unsigned_abs() <= 1_000_000_000 {
        Some(length(nanometres))
    } else {
        None
    }
}

fn near_place(place: Place) -> Option<Point3>
    ensures value { result ≡ spec.near_place place }
    ensures range { IfSome result (IsSized NEAR_LIMIT) }
{
    match (near(place.x), near(place.y), near(place.z)) {
        (Some(x), Some(y), Some(z)) => Some(Point3 { x, y, z }),
        _ => None,
    }
}

// Returns the place of three lengths with a unit, as of `2.5, 1, -3 in`.
fn written_place(text: &[u8]) -> Option<Point3>
    ensures value { result ≡ spec.written_place text.now }
    ensures range { IfSome result (IsSized NEAR_LIMIT) }
{
    match place_of(text) {
        Ok(place) => near_place(place),
        Err(_) => None,
    }
}

/// Returns the place that a text writes as X, Y and Z, separated by commas: numbers in millimetres, or
/// lengths with a unit as a machine file has them.
pub(crate) fn place_in(text: &[u8]) -> Option<Point3>
    ensures value { result ≡ spec.place_in text.now }
    ensures range { IfSome result (IsSized NEAR_LIMIT) }
{
    match plain_place(text) {
        Some(place) => Some(place),
        None => written_place(text),
    }
}
