//! The axes.
ghost use Rattle.std.specs.Prelude.{◌≡◌};
ghost use Rattle.toml.specs.View.{view};
ghost use Rattle.ngc_machine_figures.specs.Sheets as spec;

use crate::found::only_known;
use crate::key::{AXES_KEYS, AxisName, Key, axis_keys};
use crate::refusal::{FileRefusal, Wrong};
use crate::sheet::{AxesSheet, AxisSheet};
use crate::written::required;
use toml::Value;

#[tactic(auto, unfolding(crate::specs::Sheets::axis_of))]
fn axis_of(axis: AxisName, table: &Value) -> Result<AxisSheet, FileRefusal>
    ensures { result ≡ spec.axis_of axis (view table.now) }
{
    only_known(Key::Axis(axis), &axis_keys(axis), table)?;
    let motor = required(Key::Motor(axis), table)?;
    let travel = required(Key::Travel(axis), table)?;
    let speed = required(Key::Speed(axis), table)?;
    let acceleration = required(Key::Acceleration(axis), table)?;
    Ok(AxisSheet {
        motor,
        travel,
        speed,
        acceleration,
    })
}

#[tactic(auto, unfolding(crate::specs::Sheets::axis_at))]
fn axis_at(axis: AxisName, table: &Value) -> Result<AxisSheet, FileRefusal>
    ensures { result ≡ spec.axis_at axis (view table.now) }
{
    match table.get(axis.name()) {
        Some(table) => axis_of(axis, table),
        None => Err(FileRefusal {
            key: Key::Axis(axis),
            wrong: Wrong::Missing,
        }),
    }
}

#[tactic(auto, unfolding(crate::specs::Sheets::axes_of))]
fn axes_of(table: &Value) -> Result<AxesSheet, FileRefusal>
    ensures { result ≡ spec.axes_of (view table.now) }
{
    only_known(Key::Axes, &AXES_KEYS, table)?;
    let x = axis_at(AxisName::X, table)?;
    let y = axis_at(AxisName::Y, table)?;
    let z = axis_at(AxisName::Z, table)?;
    Ok(AxesSheet { x, y, z })
}

/// Reads the axes of a file.
#[tactic(auto, unfolding(crate::specs::Sheets::axes_at))]
pub(crate) fn axes_at(tree: &Value) -> Result<AxesSheet, FileRefusal>
    ensures { result ≡ spec.axes_at (view tree.now) }
{
    match tree.get("axis") {
        Some(table) => axes_of(table),
        None => Err(FileRefusal {
            key: Key::Axes,
            wrong: Wrong::Missing,
        }),
    }
}
