//! Places and boxes as the contents of a machine file have them.
ghost use Rattle.std.specs.Prelude.{◌≡◌, ◌<◌};
ghost use Rattle.std.specs.Int.{int_min, int_max};
ghost use Rattle.ngc_written_machines.specs.Corners as spec;

use ngc_machine_figures::{BoxSheet, FixtureSheet, StockSheet, System};
use ngc_machine_files::{Coordinates, Corners, Name, StockNumbers};
use ngc_quantities::Place;

/// Returns the coordinates of a place.
pub(crate) fn coordinates(place: Place) -> Coordinates
    ensures { result ≡ spec.coordinates place }
{
    Coordinates {
        x: place.x,
        y: place.y,
        z: place.z,
    }
}

// Returns the multiple of a step that is nearest to a coordinate towards zero.
fn on_grid(step: u32, coordinate: i64) -> i64
    requires { 0 < step }
    ensures { result ≡ spec.on_grid step coordinate }
{
    coordinate - coordinate % i64::from(step)
}

/// Returns the place on the grid of the steps that is nearest to a place towards zero.
pub(crate) fn place_on_grid(step: u32, place: Place) -> Coordinates
    requires { 0 < step }
    ensures { result ≡ spec.place_on_grid step place }
{
    Coordinates {
        x: on_grid(step, place.x),
        y: on_grid(step, place.y),
        z: on_grid(step, place.z),
    }
}

fn lesser(a: i64, b: i64) -> i64
    ensures { result ≡ int_min a b }
{
    if b < a { b } else { a }
}

fn greater(a: i64, b: i64) -> i64
    ensures { result ≡ int_max a b }
{
    if b < a { a } else { b }
}

fn low_of(corners: &BoxSheet) -> Coordinates
    ensures { result ≡ spec.low_of corners.now }
{
    Coordinates {
        x: lesser(corners.from.x, corners.to.x),
        y: lesser(corners.from.y, corners.to.y),
        z: lesser(corners.from.z, corners.to.z),
    }
}

fn high_of(corners: &BoxSheet) -> Coordinates
    ensures { result ≡ spec.high_of corners.now }
{
    Coordinates {
        x: greater(corners.from.x, corners.to.x),
        y: greater(corners.from.y, corners.to.y),
        z: greater(corners.from.z, corners.to.z),
    }
}

// Returns a fixture's name, without characters if it has none.
fn name_of(written: Option<Name>) -> Name
    ensures { result ≡ spec.name_of written }
{
    match written {
        None => Name::none(),
        Some(name) => name,
    }
}

// Returns the number of a coordinate system, 0 for the machine's own.
fn system_number(system: Option<System>) -> u32
    ensures { result ≡ spec.system_number system }
{
    match system {
        None => 0,
        Some(system) => u32::from(system.number),
    }
}

/// Returns the corners of a fixture, and the system from which they were counted.
pub(crate) fn fixture(sheet: &FixtureSheet) -> Corners
    ensures { result ≡ spec.fixture sheet.now }
{
    Corners {
        low: low_of(&sheet.corners),
        high: high_of(&sheet.corners),
        name: Some(name_of(sheet.name)),
        system: system_number(sheet.system),
    }
}

fn block(sheet: &StockSheet) -> StockNumbers
    ensures { result ≡ spec.block sheet.now }
{
    StockNumbers {
        system: i64::from(system_number(sheet.system)),
        low: low_of(&sheet.corners),
        high: high_of(&sheet.corners),
    }
}

/// Returns the corners of the block of material, if there is one.
pub(crate) fn stock(sheet: &Option<StockSheet>) -> Option<StockNumbers>
    ensures { result ≡ spec.stock sheet.now }
{
    match sheet {
        None => None,
        Some(sheet) => Some(block(sheet)),
    }
}
