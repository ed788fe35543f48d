ghost use Rattle.std.specs.Prelude.{◌≡◌, IfOk, IfErr, IsSome, codes, Some, replicate, pos};
ghost use Rattle.std.specs.Prelude.{option_map};
ghost use Rattle.toml.specs.Data.{get};
ghost use Rattle.toml.specs.View.{view, items_view};
ghost use Rattle.ngc_machine_files.specs.Tree.{has_only};
ghost use Rattle.ngc_machine_files.specs.MachineText.{machine_options, stock_at, stock_numbers};
ghost use Rattle.ngc_machine_files.specs.MachineText.{values_of, optional_numbers, machine_numbers};
ghost use Rattle.ngc_machine_files.specs.MachineText.{machine_points, machine_origins, has_axis_rates};
ghost use Rattle.ngc_machine_files.specs.MachineText.{machine_axis_rates, corners, grid_steps};
ghost use Rattle.ngc_machine_files.specs.MachineText.{machine_keys};
ghost use Rattle.ngc_machine_files.specs.MachineText.{machine_values, nine_coordinates, has_fixture_keys};

use crate::machine::Rapids;
use crate::name::Name;
use crate::tree::{
    Entry, coordinates, coordinates_at, dialect_at, entries_at, has_only, name_at, rapids_at,
    whole_at, whole_or,
};
use ngc_dialect_names::Dialect;
use ngc_motors::MotorSteps;
use std::alloc::{AllocError, Global};
use toml::Value;

/// Three whole numbers of a file, of any size.
#[derive(Clone, Copy)]
pub struct Coordinates {
    pub x: i64,
    pub y: i64,
    pub z: i64,
}

/// A fixture as read from the file, with numbers of any size.
#[derive(Clone, Copy)]
pub struct Corners {
    pub low: Coordinates,
    pub high: Coordinates,
    /// The name, without characters if the key is missing; `None` if the text is not a name.
    pub name: Option<Name>,
    /// The coordinate system from whose origin the corners were counted: 1 is G54, .., 9 is G59.3; 0
    /// is the machine's own. The origin is in the corners already.
    pub system: u32,
}

/// The single numbers of a machine file, of any size.
#[derive(Clone, Copy)]
pub struct MachineNumbers {
    pub version: i64,
    pub step: i64,
    pub ticks_per_second: i64,
    pub max_rate: i64,
    pub change: i64,
    pub corner: i64,
    pub turn: i64,
    pub optional: OptionalNumbers,
}

/// The single numbers that may be missing, of any size.
#[derive(Clone, Copy)]
pub struct OptionalNumbers {
    pub jump: i64,
    pub ring: i64,
    pub arc_feed: i64,
    pub changer: i64,
    pub margin: i64,
    pub travel_margin: i64,
}

/// The single points of a machine file, of any size.
#[derive(Clone, Copy)]
pub struct MachinePoints {
    pub low: Coordinates,
    pub high: Coordinates,
    pub start: Coordinates,
    pub home28: Coordinates,
    pub home30: Coordinates,
    /// Whether home positions and origins may be up to 4*10^9 nm from zero, and travel limits up to
    /// 3,999,000,000 nm, as in version 3. If not, all of them may be up to 10^9 nm.
    pub far: bool,
}

/// The block of material as read from the file, with numbers of any size.
#[derive(Clone, Copy)]
pub struct StockNumbers {
    /// The coordinate system, 0 if the key is missing.
    pub system: i64,
    pub low: Coordinates,
    pub high: Coordinates,
}

/// The keys that may be missing and aren't numbers.
#[derive(Clone, Copy)]
pub struct MachineOptions {
    pub rapids: Rapids,
    pub dialect: Option<Dialect>,
    pub stock: Option<StockNumbers>,
}

/// The limits of each axis, with numbers of any size.
#[derive(Clone, Copy)]
pub struct LimitNumbers {
    pub changes: Coordinates,
    pub turns: Coordinates,
}

/// The contents of a machine file, with numbers of any size.
#[derive(Drop)]
pub struct MachineContents {
    pub numbers: MachineNumbers,
    pub options: MachineOptions,
    /// The step of each motor.
    pub motor_steps: MotorSteps,
    pub axis_rates: Coordinates,
    /// The limits of each axis, if they are known.
    pub own: Option<LimitNumbers>,
    pub points: MachinePoints,
    pub origins: [Coordinates; 9],
    pub fixtures: Vec<Corners>,
}

fn has_fixture_keys(version: i64, value: &Value) -> bool
    ensures { result ≡ has_fixture_keys version (view value.now) }
{
    if version == 2 {
        has_only(value, &["low", "high", "name"])
    } else {
        has_only(value, &["low", "high"])
    }
}

impl Entry for Corners {
    ghost reading = { corners };

    fn read(version: i64, value: &Value) -> Option<Corners> {
        if !has_fixture_keys(version, value) {
            return None;
        }
        Some(Corners {
            low: coordinates_at(value, "low")?,
            high: coordinates_at(value, "high")?,
            name: name_at(value)?,
            system: 0,
        })
    }
}

fn optional_numbers(tree: &Value) -> Option<OptionalNumbers>
    ensures { result ≡ optional_numbers (view tree.now) }
{
    Some(OptionalNumbers {
        jump: whole_or(0, tree, "jump")?,
        ring: whole_or(16, tree, "ring")?,
        arc_feed: whole_or(0, tree, "arc_feed")?,
        changer: whole_or(0, tree, "changer")?,
        margin: whole_or(0, tree, "margin")?,
        travel_margin: whole_or(0, tree, "travel_margin")?,
    })
}

fn machine_numbers(tree: &Value) -> Option<MachineNumbers>
    ensures { result ≡ machine_numbers (view tree.now) }
{
    Some(MachineNumbers {
        version: whole_at(tree, "version")?,
        step: whole_at(tree, "step")?,
        ticks_per_second: whole_at(tree, "ticks_per_second")?,
        max_rate: whole_at(tree, "max_rate")?,
        change: whole_at(tree, "change")?,
        corner: whole_at(tree, "corner")?,
        turn: whole_at(tree, "turn")?,
        optional: optional_numbers(tree)?,
    })
}

/// Returns the steps of motors that all have the step of the grid.
fn grid_steps(numbers: &MachineNumbers) -> MotorSteps
    ensures { result ≡ grid_steps numbers.now.step }
{
    MotorSteps::equal(numbers.step.unsigned_abs())
}

/// Returns whether the version has rates of the axes.
fn has_axis_rates(numbers: &MachineNumbers) -> bool
    ensures { result ≡ has_axis_rates numbers.now.version }
{
    numbers.version == 2
}

/// Returns the rates of the axes: those of a file of version 2, and for any other version those
/// that bound no rate.
#[tactic(auto, unfolding(crate::specs::MachineText::machine_axis_rates))]
fn machine_axis_rates(numbers: &MachineNumbers, tree: &Value) -> Option<Coordinates>
    ensures { result ≡ machine_axis_rates numbers.now.version (view tree.now) }
{
    if has_axis_rates(numbers) {
        coordinates_at(tree, "axis_rate")
    } else {
        Some(Coordinates {
            x: 1_000_000,
            y: 1_000_000,
            z: 1_000_000,
        })
    }
}

fn stock_numbers(table: &Value) -> Option<StockNumbers>
    ensures { result ≡ stock_numbers (view table.now) }
{
    if !has_only(table, &["system", "low", "high"]) {
        return None;
    }
    Some(StockNumbers {
        system: whole_or(0, table, "system")?,
        low: coordinates_at(table, "low")?,
        high: coordinates_at(table, "high")?,
    })
}

fn stock_at(tree: &Value) -> Option<Option<StockNumbers>>
    ensures { result ≡ stock_at (view tree.now) }
{
    match tree.get("stock") {
        Some(table) => Some(Some(stock_numbers(table)?)),
        None => Some(None),
    }
}

fn machine_options(tree: &Value) -> Option<MachineOptions>
    ensures { result ≡ machine_options (view tree.now) }
{
    Some(MachineOptions {
        rapids: rapids_at(tree)?,
        dialect: dialect_at(tree)?,
        stock: stock_at(tree)?,
    })
}

fn machine_points(tree: &Value) -> Option<MachinePoints>
    ensures { result ≡ machine_points (view tree.now) }
{
    Some(MachinePoints {
        low: coordinates_at(tree, "low")?,
        high: coordinates_at(tree, "high")?,
        start: coordinates_at(tree, "start")?,
        home28: coordinates_at(tree, "home28")?,
        home30: coordinates_at(tree, "home30")?,
        far: false,
    })
}

fn zero_origins() -> [Coordinates; 9]
    ensures { result ≡ replicate 9 (record { x = pos 0; y = pos 0; z = pos 0 }) }
{
    [Coordinates { x: 0, y: 0, z: 0 }; 9]
}

fn nine(values: &[Value]) -> Option<[Coordinates; 9]>
    ensures { result ≡ nine_coordinates (items_view values.now) }
{
    if values.len() != 9 {
        return None;
    }
    let mut origins = zero_origins();
    for (i, value) in values.iter().enumerate() {
        origins[i] = coordinates(value)?;
    }
    Some(origins)
}

fn machine_origins(tree: &Value) -> Option<[Coordinates; 9]>
    ensures { result ≡ machine_origins (view tree.now) }
{
    match tree.get("origins") {
        Some(value) => nine(value.as_array()?.as_slice()),
        None => Some(zero_origins()),
    }
}

/// The keys of a machine file of version 2. Version 1 has all but the first ten.
pub const MACHINE_KEYS: [&str; 24] = [
    "axis_rate",
    "jump",
    "ring",
    "arc_feed",
    "changer",
    "margin",
    "travel_margin",
    "rapids",
    "dialect",
    "stock",
    "version",
    "step",
    "ticks_per_second",
    "max_rate",
    "change",
    "corner",
    "turn",
    "low",
    "high",
    "start",
    "home28",
    "home30",
    "origins",
    "fixture",
];

fn has_machine_keys(numbers: &MachineNumbers, tree: &Value) -> bool
    ensures { result ≡ has_only (machine_keys numbers.now.version) (view tree.now) }
{
    if has_axis_rates(numbers) {
        has_only(tree, &MACHINE_KEYS)
    } else {
        has_only(tree, &MACHINE_KEYS[10..])
    }
}

impl MachineContents {
    /// Reads the values of the keys. Returns `None` if a key is unknown, missing or of the wrong
    /// kind or length.
    pub(crate) fn read(alloc: Global, tree: &Value) -> Result<Option<MachineContents>, AllocError>
        ensures contents { IfOk result
            (λ o. option_map values_of o ≡ machine_values (view tree.now)) }
        ensures memory { IfErr result (λ _. IsSome (get (codes "fixture") (view tree.now))) }
    {
        let Some(numbers) = machine_numbers(tree) else {
            return Ok(None);
        };
        if !has_machine_keys(&numbers, tree) {
            return Ok(None);
        }
        let Some(options) = machine_options(tree) else {
            return Ok(None);
        };
        let Some(axis_rates) = machine_axis_rates(&numbers, tree) else {
            return Ok(None);
        };
        let Some(points) = machine_points(tree) else {
            return Ok(None);
        };
        let Some(origins) = machine_origins(tree) else {
            return Ok(None);
        };
        match entries_at(alloc, numbers.version, tree, "fixture")? {
            Some(fixtures) => Ok(Some(MachineContents {
                numbers,
                options,
                motor_steps: grid_steps(&numbers),
                axis_rates,
                own: None,
                points,
                origins,
                fixtures,
            })),
            None => Ok(None),
        }
    }
}
