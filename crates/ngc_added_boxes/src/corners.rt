//! Two opposite corners of a box: six numbers in millimetres, or two places with a unit.
ghost use Rattle.std.specs.Prelude.{◌≡◌, ◌≤◌, IfSome, length, option_map, unsigned_abs};
ghost use Rattle.std.specs.List.{prefix_len};
ghost use Rattle.ngc_machine_files.specs.Ranges.{IsSized};
ghost use Rattle.ngc_added_boxes.specs.Texts as spec;

use ngc_fixed_length::{Nm, Point3};
use ngc_machine_maker::{number_in, split_three};
use ngc_quantities::{Place, place_of};

// Returns a length in nanometres, at most `limit` in size.
fn size_in(text: &[u8], limit: u32) -> Option<u32>
    ensures value { result ≡ spec.size_in limit text.now }
    ensures range { IfSome result (λ n. n ≤ limit) }
{
    match number_in(text, 6) {
        Some(size) if size <= limit => Some(size),
        _ => None,
    }
}

fn length(nanometres: i64) -> Nm
    requires { unsigned_abs nanometres ≤ 4294967295 }
    ensures { result ≡ nanometres }
{
    Nm::from_nanometres(i128::from(nanometres)).unwrap()
}

fn coordinate_in(text: &[u8], limit: u32) -> Option<Nm>
    ensures value { result ≡ spec.coordinate_in limit text.now }
    ensures range { IfSome result (λ z. unsigned_abs z ≤ limit) }
{
    match text {
        [b'-', size @ ..] => match size_in(size, limit) {
            Some(size) => Some(length(0 - i64::from(size))),
            None => None,
        },
        _ => match size_in(text, limit) {
            Some(size) => Some(length(i64::from(size))),
            None => None,
        },
    }
}

fn corner_in(x: &[u8], y: &[u8], z: &[u8], limit: u32) -> Option<Point3>
    ensures value { result ≡ spec.corner_in limit x.now y.now z.now }
    ensures range { IfSome result (IsSized limit) }
{
    match (
        coordinate_in(x, limit),
        coordinate_in(y, limit),
        coordinate_in(z, limit),
    ) {
        (Some(x), Some(y), Some(z)) => Some(Point3 { x, y, z }),
        _ => None,
    }
}

fn is_other(byte: u8, end: u8) -> bool
    ensures { result ≡ spec.is_other end byte }
{
    byte != end
}

#[tactic(auto, using(ngc_machine_maker::proofs::Digits::counted))]
fn count_to(text: &[u8], end: u8) -> usize
    ensures count { result ≡ prefix_len (spec.is_other end) text.now }
    ensures within { result ≤ length text.now }
{
    text.iter().take_while(|b| is_other(**b, end)).count()
}

/// Returns the texts before and after the first byte `end`, if there is one.
pub(crate) fn split_first(text: &[u8], end: u8) -> Option<(&[u8], &[u8])>
    ensures { option_map (λ s. (s.0.now, s.1.now)) result ≡ spec.split_first end text.now }
{
    let (before, rest) = text.split_at(count_to(text, end));
    match rest {
        [_, after @ ..] => Some((before, after)),
        [] => None,
    }
}

// Returns the corners of six numbers in millimetres, separated by commas.
fn plain_corners(text: &[u8], limit: u32) -> Option<(Point3, Point3)>
    ensures value { result ≡ spec.plain_corners limit text.now }
    ensures range { IfSome result (λ c. IsSized limit c.0 × IsSized limit c.1) }
{
    let (x, y, rest) = split_three(text);
    let Some((z, second)) = split_first(rest, b',') else {
        return None;
    };
    let first = corner_in(x, y, z, limit);
    let (x, y, z) = split_three(second);
    match (first, corner_in(x, y, z, limit)) {
        (Some(p), Some(q)) => Some((p, q)),
        _ => None,
    }
}

fn near(nanometres: i64, limit: u32) -> Option<Nm>
    ensures value { result ≡ spec.near limit nanometres }
    ensures range { IfSome result (λ z. unsigned_abs z ≤ limit) }
{
    if nanometres.unsigned_abs() <= u64::from(limit) {
        Some(length(nanometres))
    } else {
        None
    }
}

fn near_place(place: Place, limit: u32) -> Option<Point3>
    ensures value { result ≡ spec.near_place limit place }
    ensures range { IfSome result (IsSized limit) }
{
    match (
        near(place.x, limit),
        near(place.y, limit),
        near(place.z, limit),
    ) {
        (Some(x), Some(y), Some(z)) => Some(Point3 { x, y, z }),
        _ => None,
    }
}

fn written_corner(text: &[u8], limit: u32) -> Option<Point3>
    ensures value { result ≡ spec.written_corner limit text.now }
    ensures range { IfSome result (IsSized limit) }
{
    match place_of(text) {
        Ok(place) => near_place(place, limit),
        Err(_) => None,
    }
}

// Returns the texts before and after the word `to`, whose t is the first one.
fn split_to(text: &[u8]) -> Option<(&[u8], &[u8])>
    ensures { option_map (λ s. (s.0.now, s.1.now)) result ≡ spec.split_to text.now }
{
    match split_first(text, b't') {
        Some((before, [b'o', after @ ..])) => Some((before, after)),
        _ => None,
    }
}

// Returns the corners of two places with a unit, as of `0, 0, -1 in to 4, 2, 0 in`.
fn written_corners(text: &[u8], limit: u32) -> Option<(Point3, Point3)>
    ensures value { result ≡ spec.written_corners limit text.now }
    ensures range { IfSome result (λ c. IsSized limit c.0 × IsSized limit c.1) }
{
    let Some((from, to)) = split_to(text) else {
        return None;
    };
    match (written_corner(from, limit), written_corner(to, limit)) {
        (Some(p), Some(q)) => Some((p, q)),
        _ => None,
    }
}

/// Returns two corners, each coordinate at most `limit` nanometres in size: six numbers in
/// millimetres, or two places with a unit and the word `to` between them.
pub(crate) fn corners_in(text: &[u8], limit: u32) -> Option<(Point3, Point3)>
    ensures value { result ≡ spec.corners_in limit text.now }
    ensures range { IfSome result (λ c. IsSized limit c.0 × IsSized limit c.1) }
{
    match plain_corners(text, limit) {
        Some(corners) => Some(corners),
        None => written_corners(text, limit),
    }
}
