ghost use Rattle.std.specs.Prelude.{◌≡◌, ◌≤◌, IfOk, MatchResult, Ok, Err, map, option_map};
ghost use Rattle.std.specs.Int.{int_min, int_max};
ghost use Rattle.std.specs.Path.{rsplit_once};
ghost use Rattle.ngc_machine_files.specs.Ranges.{CORNER_LIMIT, IsSized};
ghost use Rattle.ngc_added_boxes.specs.Boxes.{IsAdded, IsBox};
ghost use Rattle.ngc_added_boxes.specs.Texts as spec;

use crate::boxes::{AddedFixture, Boxes, SystemBox};
use crate::corners::{corners_in, split_first};
use ngc_fixed_length::{Nm, Point3};
use ngc_machine_files::{Name, StockBox};
use ngc_origins::system_in;

/// The reason why a text isn't a fixture or a block of material.
#[derive(Clone, Copy, Debug, PartialEq, Eq)]
pub enum BoxMistake {
    /// What precedes the last equals sign isn't 1 to 40 printable ASCII characters.
    NoName,
    /// No coordinate system has the code before the first colon.
    NoSystem,
    /// The rest isn't six lengths in range, with at most six decimals.
    NoCorners,
    /// The two corners have the same coordinate on an axis.
    Flat,
    /// Sixteen fixtures are added already.
    TooMany,
}

/// A text that isn't a fixture or a block of material, and the reason.
#[derive(Clone, Copy)]
pub struct RefusedBox<'a> {
    pub text: &'a str,
    pub mistake: BoxMistake,
}

fn lesser(a: Nm, b: Nm) -> Nm
    ensures { result ≡ int_min a b }
{
    if b < a { b } else { a }
}

fn greater(a: Nm, b: Nm) -> Nm
    ensures { result ≡ int_max a b }
{
    if b < a { a } else { b }
}

fn least(p: &Point3, q: &Point3) -> Point3
    ensures { result ≡ spec.least p.now q.now }
{
    Point3 {
        x: lesser(p.x, q.x),
        y: lesser(p.y, q.y),
        z: lesser(p.z, q.z),
    }
}

fn greatest(p: &Point3, q: &Point3) -> Point3
    ensures { result ≡ spec.greatest p.now q.now }
{
    Point3 {
        x: greater(p.x, q.x),
        y: greater(p.y, q.y),
        z: greater(p.z, q.z),
    }
}

fn has_volume(low: &Point3, high: &Point3) -> bool
    ensures { result ≡ spec.has_volume low.now high.now }
{
    low.x < high.x && low.y < high.y && low.z < high.z
}

// Returns the box in a coordinate system whose two opposite corners the text writes.
fn box_of(system: u32, text: &[u8], limit: u32) -> Result<SystemBox, BoxMistake>
    requires { system ≤ 9 }
    ensures value { result ≡ spec.box_of system (spec.corners_in limit text.now) }
    ensures range { IfOk result (IsBox limit) }
{
    let Some((p, q)) = corners_in(text, limit) else {
        return Err(BoxMistake::NoCorners);
    };
    let (low, high) = (least(&p, &q), greatest(&p, &q));
    if !has_volume(&low, &high) {
        return Err(BoxMistake::Flat);
    }
    Ok(SystemBox { system, low, high })
}

fn box_in(text: &[u8], limit: u32) -> Result<SystemBox, BoxMistake>
    ensures value { result ≡ spec.box_in limit text.now }
    ensures range { IfOk result (IsBox limit) }
{
    match split_first(text, b':') {
        Some((code, corners)) => match system_in(code) {
            Some(system) => box_of(system as u32 + 1, corners, limit),
            None => Err(BoxMistake::NoSystem),
        },
        None => box_of(0, text, limit),
    }
}

// Returns the texts before and after the last equals sign, if there is one.
fn split_name(text: &str) -> Option<(&str, &str)>
    ensures { option_map (λ s. (s.0.now, s.1.now)) result ≡ rsplit_once 61 text.now }
{
    text.rsplit_once('=')
}

fn with_name(name: Name, text: &str) -> Result<AddedFixture, BoxMistake>
    ensures value { result ≡ spec.fixture_of name (spec.box_in CORNER_LIMIT text.now) }
    ensures range { IfOk result IsAdded }
{
    match box_in(text.as_bytes(), 4_000_000_000) {
        Ok(place) => Ok(AddedFixture { name, place }),
        Err(mistake) => Err(mistake),
    }
}

fn fixture_in(text: &str) -> Result<AddedFixture, BoxMistake>
    ensures value { result ≡ spec.fixture_in text.now }
    ensures range { IfOk result IsAdded }
{
    match split_name(text) {
        Some((name, place)) => match Name::of(name) {
            Some(name) => with_name(name, place),
            None => Err(BoxMistake::NoName),
        },
        None => with_name(Name::none(), text),
    }
}

fn with_text(boxes: Boxes, text: &str) -> Result<Boxes, BoxMistake>
    ensures { result ≡ spec.with_text boxes text.now }
{
    let fixture = match fixture_in(text) {
        Ok(fixture) => fixture,
        Err(mistake) => return Err(mistake),
    };
    if boxes.fixtures().len() >= 16 {
        return Err(BoxMistake::TooMany);
    }
    Ok(boxes.with_fixture(fixture))
}

/// Returns the fixtures that these texts write, each as `left clamp=54:-30,20,-10,-5,40,15` in
/// millimetres, or as `left clamp=G54: 0, 0, -1 in to 1, 2, 0 in`; or the first text that is no such
/// fixture, or the seventeenth.
pub fn read_fixtures<'a>(list: &[&'a str]) -> Result<Boxes, RefusedBox<'a>>
    ensures { MatchResult result
        (λ boxes. spec.parsed_fixtures (map (λ t. t.now) list.now) ≡ Ok boxes)
        (λ refused. spec.parsed_fixtures (map (λ t. t.now) list.now) ≡ Err refused.mistake) }
{
    let mut boxes = Boxes::none();
    for text in list {
        match with_text(boxes, text) {
            Ok(more) => boxes = more,
            Err(mistake) => return Err(RefusedBox { text, mistake }),
        }
    }
    Ok(boxes)
}

/// Returns the boxes with the block of material that the text writes, as `54:0,0,-20,100,60,0` in
/// millimetres, or as `G54: 0, 0, -1 in to 4, 2, 0 in`; or the reason why it is none.
pub fn read_stock(boxes: Boxes, text: &str) -> Result<Boxes, BoxMistake>
    ensures { result ≡ spec.with_stock boxes text.now }
{
    match box_in(text.as_bytes(), 1_000_000_000) {
        Ok(place) => Ok(boxes.with_stock(StockBox {
            system: place.system,
            low: place.low,
            high: place.high,
        })),
        Err(mistake) => Err(mistake),
    }
}
