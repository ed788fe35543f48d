//! The values of an option.
ghost use Rattle.std.specs.Prelude.{◌≡◌, IfOk, map};
ghost use Rattle.std.specs.List.{list_any};
ghost use Rattle.ngc_job_words.specs.Words as spec;

use crate::word::value_in;
use std::alloc::{AllocError, Global};

/// Returns the values of an option among the words, in their order.
pub(crate) fn values_of<'a>(
    alloc: Global,
    name: &str,
    words: &[&'a str],
) -> Result<Vec<&'a str>, AllocError>
    ensures { IfOk result (λ values. map (λ v. v.now) values.items
        ≡ spec.values_of name.now (map (λ w. w.now) words.now)) }
{
    let mut values = Vec::new(alloc);
    let mut is_open = false;
    for word in words {
        if is_open {
            values.push(*word)?;
            is_open = false;
        } else if *word == name {
            is_open = true;
        } else if let Some(value) = value_in(name, word) {
            values.push(value)?;
        }
    }
    Ok(values)
}
