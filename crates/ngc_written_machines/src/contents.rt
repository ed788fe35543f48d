//! The contents of a machine file of what is written in one of version 3.
ghost use Rattle.std.specs.Prelude.{◌≡◌, ◌<◌, ◌≤◌, IfOk, map};
ghost use Rattle.ngc_machine_files.specs.MachineText.{values_of};
ghost use Rattle.ngc_machine_maker.specs.Formulas.{greatest_of};
ghost use Rattle.ngc_machine_maker.specs.InFile.{AreInFile};
ghost use Rattle.ngc_machine_maker.specs.Ranges.{AreTurns};
ghost use Rattle.ngc_machine_figures.specs.Files.{values_of as sheet_values};
ghost use Rattle.ngc_written_machines.specs.Contents as spec;
ghost use Rattle.ngc_written_machines.specs.Corners.{fixture as fixture_of};
ghost use Rattle.ngc_written_machines.specs.Motors.{AreScales};

use crate::corners::{coordinates, fixture, place_on_grid, stock};
use crate::motors::travel_ends;
use ngc_machine_figures::{FixtureSheet, HeadSheet, Length, PlaceSheet, Sheet};
use ngc_machine_files::{
    Coordinates, Corners, LimitNumbers, MachineContents, MachineNumbers, MachineOptions,
    MachinePoints, OptionalNumbers, Rapids,
};
use ngc_machine_maker::{MachineNumbers as Rates, PerAxis};
use ngc_motors::MotorSteps;
use ngc_quantities::{Place, Range};
use std::alloc::{AllocError, Global};

// Returns a length in nanometres, 0 without its key.
fn or_zero(length: Option<Length>) -> i64
    ensures { result ≡ spec.or_zero length }
{
    match length {
        None => 0,
        Some(length) => length.nanometres,
    }
}

fn changer_number(has_changer: Option<bool>) -> i64
    ensures { result ≡ spec.changer_number has_changer }
{
    match has_changer {
        Some(true) => 1,
        _ => 0,
    }
}

// Returns what holds on arcs: the feed and the turn, unless the file says otherwise.
fn arc_feed_number(written: Option<u32>) -> i64
    ensures { result ≡ spec.arc_feed_number written }
{
    match written {
        None => 2,
        Some(written) => i64::from(written),
    }
}

fn optional_numbers(head: &HeadSheet, rates: &Rates) -> OptionalNumbers
    ensures { result ≡ spec.optional_numbers head.now rates.now }
{
    OptionalNumbers {
        jump: i64::from(rates.jump),
        ring: i64::from(rates.ring),
        arc_feed: arc_feed_number(head.control.arc_feed),
        changer: changer_number(head.control.changer),
        margin: or_zero(head.places.margin),
        travel_margin: or_zero(head.places.travel_margin),
    }
}

fn greatest_of(changes: &PerAxis<u32>) -> u32
    ensures { result ≡ greatest_of changes.now }
{
    changes.x.max(changes.y).max(changes.z)
}

fn greatest_turn(turns: &PerAxis<u64>) -> u64
    requires { AreTurns turns.now }
    ensures value { result ≡ greatest_of turns.now }
    ensures bound { result ≤ 1000000000000 }
{
    turns.x.max(turns.y).max(turns.z)
}

// Returns the numbers of a file. The machine's change is the greatest of the axes' changes, and its
// turn that of their turns.
fn numbers(head: &HeadSheet, rates: &Rates) -> MachineNumbers
    requires { AreInFile rates.now }
    ensures { result ≡ spec.numbers head.now rates.now }
{
    MachineNumbers {
        version: 2,
        step: i64::from(rates.step),
        ticks_per_second: i64::from(rates.ticks_per_second),
        max_rate: i64::from(rates.max_rate),
        change: i64::from(greatest_of(&rates.changes)),
        corner: i64::from(rates.corner),
        turn: greatest_turn(&rates.turns) as i64,
        optional: optional_numbers(head, rates),
    }
}

// Returns the ways of traverses: straight, unless the file says otherwise.
fn rapids(written: Option<Rapids>) -> Rapids
    ensures { result ≡ spec.rapids written }
{
    match written {
        None => Rapids::Straight,
        Some(rapids) => rapids,
    }
}

fn options(sheet: &Sheet) -> MachineOptions
    ensures { result ≡ spec.options (sheet_values sheet.now) }
{
    MachineOptions {
        rapids: rapids(sheet.head.places.rapids),
        dialect: sheet.head.control.dialect,
        stock: stock(&sheet.stock),
    }
}

fn axis_rates(rates: &PerAxis<u32>) -> Coordinates
    ensures { result ≡ spec.axis_rates rates.now }
{
    Coordinates {
        x: i64::from(rates.x),
        y: i64::from(rates.y),
        z: i64::from(rates.z),
    }
}

fn axis_turns(turns: &PerAxis<u64>) -> Coordinates
    requires { AreTurns turns.now }
    ensures { result ≡ spec.axis_rates turns.now }
{
    Coordinates {
        x: turns.x as i64,
        y: turns.y as i64,
        z: turns.z as i64,
    }
}

// Returns the limits of each axis: the change of its own acceleration, and the turn of that on arcs.
fn own_limits(rates: &Rates) -> LimitNumbers
    requires { AreInFile rates.now }
    ensures { result ≡ spec.own_limits rates.now }
{
    LimitNumbers {
        changes: axis_rates(&rates.changes),
        turns: axis_turns(&rates.turns),
    }
}

// Returns where the axes are when a program starts: at zero, unless the file says otherwise.
fn start(step: u32, places: &PlaceSheet) -> Coordinates
    requires { 0 < step }
    ensures { result ≡ spec.start step places.now }
{
    match places.start {
        None => Coordinates { x: 0, y: 0, z: 0 },
        Some(place) => place_on_grid(step, place),
    }
}

// Returns a home position, which is the start without its key.
fn home(start: Coordinates, written: Option<Place>) -> Coordinates
    ensures { result ≡ spec.home start written }
{
    match written {
        None => start,
        Some(place) => coordinates(place),
    }
}

fn points(step: u32, travel: &PerAxis<Range>, places: &PlaceSheet) -> MachinePoints
    requires { 0 < step }
    ensures { result ≡ spec.points step travel.now places.now }
{
    let start = start(step, places);
    MachinePoints {
        low: Coordinates {
            x: travel.x.low,
            y: travel.y.low,
            z: travel.z.low,
        },
        high: Coordinates {
            x: travel.x.high,
            y: travel.y.high,
            z: travel.z.high,
        },
        start,
        home28: home(start, places.home28),
        home30: home(start, places.home30),
        far: true,
    }
}

// Returns an origin: zero, unless the file says otherwise.
fn origin(written: Option<Place>) -> Coordinates
    ensures { result ≡ spec.origin written }
{
    match written {
        None => Coordinates { x: 0, y: 0, z: 0 },
        Some(place) => coordinates(place),
    }
}

fn origins(places: &[Option<Place>; 9]) -> [Coordinates; 9]
    ensures { result ≡ map spec.origin places.now }
{
    let mut origins = [origin(places[0]); 9];
    for (i, place) in places.iter().enumerate() {
        origins[i] = origin(*place);
    }
    origins
}

fn fixtures(alloc: Global, sheets: &[FixtureSheet]) -> Result<Vec<Corners>, AllocError>
    ensures { IfOk result (λ fixtures. fixtures.items ≡ map fixture_of sheets.now) }
{
    let mut fixtures = Vec::with_capacity(alloc, sheets.len())?;
    for sheet in sheets {
        fixtures.push(fixture(sheet))?;
    }
    Ok(fixtures)
}

/// Returns the contents of a machine file of version 2 for a sheet, with the step and the rates of
/// its figures, with the step of each axis' motor, and with limits of each axis. Home positions,
/// origins, fixtures and the block of material are as they are written. The start is on the grid of
/// the steps, and the travel of an axis ends at whole steps of its motor, if that isn't the grid's.
/// It fails if memory is refused.
pub(crate) fn contents_of(
    alloc: Global,
    sheet: &Sheet,
    motors: &MotorSteps,
    rates: &Rates,
) -> Result<MachineContents, AllocError>
    requires motors { AreScales motors.now }
    requires rates { AreInFile rates.now }
    ensures { IfOk result
        (λ c. values_of c ≡ spec.values_by (sheet_values sheet.now) motors.now rates.now) }
{
    let travel = travel_ends(rates.step, motors, &sheet.head.axes);
    let fixtures = fixtures(alloc, sheet.fixtures.as_slice())?;
    Ok(MachineContents {
        numbers: numbers(&sheet.head, rates),
        options: options(sheet),
        motor_steps: *motors,
        axis_rates: axis_rates(&rates.axis_rate),
        own: Some(own_limits(rates)),
        points: points(rates.step, &travel, &sheet.head.places),
        origins: origins(&sheet.head.origins),
        fixtures,
    })
}
