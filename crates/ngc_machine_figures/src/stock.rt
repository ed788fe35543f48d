//! The block of material.
ghost use Rattle.std.specs.Prelude.{◌≡◌};
ghost use Rattle.toml.specs.View.{view};
ghost use Rattle.ngc_machine_figures.specs.Boxes as spec;

use crate::boxes::{BoxKeys, corners_of};
use crate::found::only_known;
use crate::key::{Key, STOCK_KEYS};
use crate::refusal::FileRefusal;
use crate::sheet::StockSheet;
use crate::written::optional;
use toml::Value;

#[tactic(auto, unfolding(crate::specs::Boxes::stock_of))]
fn stock_of(table: &Value) -> Result<StockSheet, FileRefusal>
    ensures { result ≡ spec.stock_of (view table.now) }
{
    only_known(Key::Stock, &STOCK_KEYS, table)?;
    let system = optional(Key::StockIn, table)?;
    let keys = BoxKeys {
        table: Key::Stock,
        from: Key::StockFrom,
        to: Key::StockTo,
        size: Key::StockSize,
    };
    let corners = corners_of(&keys, table)?;
    Ok(StockSheet { system, corners })
}

/// Reads the block of material of a file, if it has one.
#[tactic(auto, unfolding(crate::specs::Boxes::stock_at))]
pub fn stock_at(tree: &Value) -> Result<Option<StockSheet>, FileRefusal>
    ensures { result ≡ spec.stock_at (view tree.now) }
{
    match tree.get("stock") {
        Some(table) => Ok(Some(stock_of(table)?)),
        None => Ok(None),
    }
}
