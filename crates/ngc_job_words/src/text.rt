//! The values of options, as texts.
ghost use Rattle.std.specs.Prelude.{◌≡◌, ◌<◌, ◌++◌, ◌∷◌, ◌+◌, [], IfOk, OnOk, codes, decimal, string_bytes, take};
ghost use Rattle.std.specs.List.{All};
ghost use Rattle.ngc_text.specs.Millimetres.{decimals, kept, length_text, number_text, size_text};
ghost use Rattle.ngc_job_words.specs.Texts as spec;

use itoa::Buffer;
use ngc_job_files::JobFixture;
use ngc_machine_figures::{BoxSheet, StockSheet, System};
use ngc_machine_files::Name;
use ngc_quantities::Place;
use std::alloc::{AllocError, Global};

// ---- a length in millimetres

fn add_digit(text: &mut String, digit: u32) -> Result<(), AllocError>
    requires { digit < 10 }
    ensures { OnOk result (string_bytes text.new ≡ string_bytes text.old ++ (48 + digit) ∷ []) }
{
    text.push(char::from(b'0' + digit as u8))
}

// Adds the first of the six decimals, and the others as far as they aren't zeros at the end.
fn add_decimals(text: &mut String, millionths: u32) -> Result<(), AllocError>
    requires { millionths < 1000000 }
    ensures { OnOk result (string_bytes text.new
        ≡ string_bytes text.old ++ take (kept millionths) (decimals millionths)) }
{
    if millionths == 0 {
        return Ok(());
    }
    text.push_str(".")?;
    add_digit(text, millionths / 100_000)?;
    if millionths % 100_000 == 0 {
        return Ok(());
    }
    add_digit(text, millionths / 10_000 % 10)?;
    if millionths % 10_000 == 0 {
        return Ok(());
    }
    add_digit(text, millionths / 1_000 % 10)?;
    if millionths % 1_000 == 0 {
        return Ok(());
    }
    add_digit(text, millionths / 100 % 10)?;
    if millionths % 100 == 0 {
        return Ok(());
    }
    add_digit(text, millionths / 10 % 10)?;
    if millionths % 10 == 0 {
        return Ok(());
    }
    add_digit(text, millionths % 10)
}

fn add_whole(text: &mut String, whole: u64) -> Result<(), AllocError>
    ensures { OnOk result (string_bytes text.new ≡ string_bytes text.old ++ decimal whole) }
{
    let mut buffer = Buffer::new();
    text.push_str(buffer.format(whole))
}

#[tactic(auto, unfolding(ngc_text::specs::Millimetres::number_text))]
fn add_number(text: &mut String, whole: u64, millionths: u32) -> Result<(), AllocError>
    requires { millionths < 1000000 }
    ensures { OnOk result (string_bytes text.new ≡ string_bytes text.old ++ number_text whole millionths) }
{
    add_whole(text, whole)?;
    add_decimals(text, millionths)
}

fn add_size(text: &mut String, nanometres: u64) -> Result<(), AllocError>
    ensures { OnOk result (string_bytes text.new ≡ string_bytes text.old ++ size_text nanometres) }
{
    add_number(
        text,
        nanometres / 1_000_000,
        (nanometres % 1_000_000) as u32,
    )
}

#[tactic(auto, unfolding(ngc_text::specs::Millimetres::length_text))]
fn add_length(text: &mut String, nanometres: &i64) -> Result<(), AllocError>
    ensures { OnOk result (string_bytes text.new ≡ string_bytes text.old ++ length_text nanometres.now) }
{
    if *nanometres < 0 {
        text.push_str("-")?;
    }
    add_size(text, nanometres.unsigned_abs())
}

/// Returns a length in millimetres, exactly.
pub(crate) fn millimetres(alloc: Global, nanometres: i64) -> Result<String, AllocError>
    ensures { IfOk result (λ text. string_bytes text ≡ length_text nanometres) }
{
    let mut text = String::new(alloc);
    add_length(&mut text, &nanometres)?;
    Ok(text)
}

// ---- places and boxes

// Adds a length and a comma.
#[tactic(auto, unfolding(crate::specs::Texts::coordinate_text))]
fn add_coordinate(text: &mut String, nanometres: &i64) -> Result<(), AllocError>
    ensures { OnOk result (string_bytes text.new ≡ string_bytes text.old ++ spec.coordinate_text nanometres.now) }
{
    add_length(text, nanometres)?;
    text.push_str(",")
}

#[tactic(auto, unfolding(crate::specs::Texts::place_text))]
fn add_place(text: &mut String, place: &Place) -> Result<(), AllocError>
    ensures { OnOk result (string_bytes text.new ≡ string_bytes text.old ++ spec.place_text place.now) }
{
    add_coordinate(text, &place.x)?;
    add_coordinate(text, &place.y)?;
    add_length(text, &place.z)
}

/// Returns the code of a coordinate system without its G, which is empty for a number other than 1 to 9.
pub(crate) fn system_code(system: u8) -> &'static str
    ensures { result.now ≡ spec.system_code system }
{
    match system {
        1 => "54",
        2 => "55",
        3 => "56",
        4 => "57",
        5 => "58",
        6 => "59",
        7 => "59.1",
        8 => "59.2",
        9 => "59.3",
        _ => "",
    }
}

#[tactic(auto, unfolding(crate::specs::Texts::corners_text))]
fn add_corners(text: &mut String, corners: &BoxSheet) -> Result<(), AllocError>
    ensures { OnOk result (string_bytes text.new ≡ string_bytes text.old ++ spec.corners_text corners.now) }
{
    add_place(text, &corners.from)?;
    text.push_str(",")?;
    add_place(text, &corners.to)
}

fn add_system(text: &mut String, system: Option<System>) -> Result<(), AllocError>
    ensures { OnOk result (string_bytes text.new ≡ string_bytes text.old ++ spec.system_text system) }
{
    match system {
        Some(system) => {
            text.push_str(system_code(system.number))?;
            text.push_str(":")
        }
        None => Ok(()),
    }
}

#[tactic(auto, unfolding(crate::specs::Texts::box_text))]
fn add_box(text: &mut String, system: Option<System>, corners: &BoxSheet) -> Result<(), AllocError>
    ensures { OnOk result (string_bytes text.new ≡ string_bytes text.old ++ spec.box_text system corners.now) }
{
    add_system(text, system)?;
    add_corners(text, corners)
}

fn add_ascii(text: &mut String, bytes: &[u8]) -> Result<(), AllocError>
    requires { All spec.IsAscii bytes.now }
    ensures { OnOk result (string_bytes text.new ≡ string_bytes text.old ++ bytes.now) }
{
    for byte in bytes {
        text.push(char::from(*byte))?;
    }
    Ok(())
}

fn add_name(text: &mut String, name: Option<Name>) -> Result<(), AllocError>
    ensures { OnOk result (string_bytes text.new ≡ string_bytes text.old ++ spec.name_text name) }
{
    match name {
        Some(name) => {
            add_ascii(text, name.as_bytes())?;
            text.push_str("=")
        }
        None => Ok(()),
    }
}

/// Returns the value of `--stock` for a block of material.
pub(crate) fn stock_text(alloc: Global, stock: &StockSheet) -> Result<String, AllocError>
    ensures { IfOk result (λ text. string_bytes text ≡ spec.stock_text stock.now) }
{
    let mut text = String::new(alloc);
    add_box(&mut text, stock.system, &stock.corners)?;
    Ok(text)
}

/// Returns the value of `--fixture` for a fixture.
#[tactic(auto, unfolding(crate::specs::Texts::fixture_text))]
pub(crate) fn fixture_text(alloc: Global, fixture: &JobFixture) -> Result<String, AllocError>
    ensures { IfOk result (λ text. string_bytes text ≡ spec.fixture_text fixture.now) }
{
    let mut text = String::new(alloc);
    add_name(&mut text, fixture.name)?;
    add_box(&mut text, fixture.system, &fixture.corners)?;
    Ok(text)
}

/// Returns the value of `--origin` for a coordinate system.
#[tactic(auto, unfolding(crate::specs::Texts::origin_text))]
pub(crate) fn origin_text(alloc: Global, system: u8, place: &Place) -> Result<String, AllocError>
    ensures { IfOk result (λ text. string_bytes text ≡ spec.origin_text system place.now) }
{
    let mut text = String::from_str(alloc, system_code(system))?;
    text.push_str("=")?;
    add_place(&mut text, place)?;
    Ok(text)
}
