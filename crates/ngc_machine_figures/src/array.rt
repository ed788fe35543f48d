//! The items of an array, each with its number.
ghost use Rattle.std.specs.Prelude.{◌≡◌, ◌≤◌, length, IfOk};
ghost use Rattle.toml.specs.View.{view, items_view};
ghost use Rattle.ngc_machine_figures.specs.Reading.{ok_map};
ghost use Rattle.ngc_machine_figures.specs.Fixtures as spec;

use crate::refusal::FileRefusal;
use std::alloc::{AllocError, Global};
use toml::Value;

/// What an item of an array may say, with what is known from elsewhere in the file.
pub trait Numbered<C>: Drop {
    ghost use Rattle.std.specs.Prelude.{◌≡◌, ℕ, Result};
    ghost use Rattle.toml.specs.Data.{Data};
    ghost use Rattle.toml.specs.View.{view};
    ghost use Rattle.ngc_machine_figures.specs.declared.refusal.FileRefusal.{FileRefusal};

    ghost reading: { C → ℕ → Data → Result Self FileRefusal };

    /// Reads the item with this number, from 0.
    fn read(context: &C, number: u16, value: &Value) -> Result<Self, FileRefusal>
        ensures { result ≡ reading context.now number (view value.now) };
}

/// Reads the items in order, up to the first refusal.
///
/// Returns an error if memory is refused.
pub fn each<C, E: Numbered<C>>(
    alloc: Global,
    context: &C,
    values: &[Value],
) -> Result<Result<Vec<E>, FileRefusal>, AllocError>
    requires { length values.now ≤ 1000 }
    ensures { IfOk result (λ said. ok_map (λ v. v.items) said
        ≡ spec.each (E.reading context.now) 0 (items_view values.now)) }
{
    let mut items = Vec::with_capacity(alloc, values.len())?;
    for (i, value) in values.iter().enumerate() {
        match E::read(context, i as u16, value) {
            Ok(item) => items.push(item)?,
            Err(refusal) => return Ok(Err(refusal)),
        }
    }
    Ok(Ok(items))
}
