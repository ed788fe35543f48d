ghost use Rattle.std.specs.Prelude.{◌≡◌, IfOk, IfErr, IsOk, IsSome, map, Option, List, option_map};
ghost use Rattle.std.specs.Prelude.{string_bytes, ℤ};
ghost use Rattle.std.specs.List.{list_all, list_any};
ghost use Rattle.std.specs.Map.{keys_of};
ghost use Rattle.std.specs.Str.{bytes_eq};
ghost use Rattle.toml.specs.Data.{Data, get};
ghost use Rattle.toml.specs.Errors.{IsBlank};
ghost use Rattle.toml.specs.View.{view, items_view};
ghost use Rattle.ngc_machine_files.specs.Tree.{tree_of, is_one_of, has_only, whole_at, whole_or, coordinates};
ghost use Rattle.ngc_machine_files.specs.Tree.{coordinates_at, each, list_at, named, name_at};
ghost use Rattle.ngc_machine_files.specs.Tree.{dialect_at, dialect_of, rapids_named, rapids_at};

use crate::machine::Rapids;
use crate::machine_contents::Coordinates;
use crate::name::Name;
use ngc_dialect_names::Dialect;
use std::alloc::{AllocError, Global};
use toml::{Table, Value};

/// Reads a TOML document. Returns `None` if the bytes are not a document in UTF-8, and an error if
/// memory is refused.
pub fn read_tree(alloc: Global, bytes: &[u8]) -> Result<Option<Value>, AllocError>
    ensures tree { IfOk result (λ tree. option_map view tree ≡ tree_of bytes.now) }
    ensures blank { IsBlank bytes.now → IsOk result }
{
    match toml::table_from_slice(alloc, bytes) {
        Ok(table) => Ok(Some(Value::Table(table))),
        Err(error) if error.is_memory() => Err(AllocError),
        Err(_) => Ok(None),
    }
}

/// Returns whether a key is one of `keys`.
pub fn is_one_of(key: &str, keys: &[&str]) -> bool
    ensures { result ≡ is_one_of (map (λ k. k.now) keys.entry.now) key.now }
{
    for known in keys {
        if key == *known {
            return true;
        }
    }
    false
}

fn are_known(table: &Table, keys: &[&str]) -> bool
    ensures { result ≡ list_all (λ k. is_one_of (map (λ k. k.now) keys.entry.now) (string_bytes k))
        (keys_of table.now.entries) }
{
    table.keys().all(|key| is_one_of(key.as_str(), keys))
}

/// Returns whether the value is a table without keys other than `keys`.
pub fn has_only(tree: &Value, keys: &[&str]) -> bool
    ensures { result ≡ has_only (map (λ k. k.now) keys.entry.now) (view tree.now) }
{
    match tree.as_table() {
        Some(table) => are_known(table, keys),
        None => false,
    }
}

/// Returns the whole number of a key, or `None` if the key is missing or has another value.
pub fn whole_at(tree: &Value, key: &str) -> Option<i64>
    ensures { result ≡ whole_at key.now (view tree.now) }
{
    tree.get(key)?.as_integer()
}

/// Returns the whole number of a key, `missing` if the key is missing, or `None` if it has another
/// value.
pub fn whole_or(missing: i64, tree: &Value, key: &str) -> Option<i64>
    ensures { result ≡ whole_or missing key.now (view tree.now) }
{
    match tree.get(key) {
        Some(value) => value.as_integer(),
        None => Some(missing),
    }
}

/// Returns an array of three whole numbers, or `None` for another value.
pub fn coordinates(value: &Value) -> Option<Coordinates>
    ensures { result ≡ coordinates (view value.now) }
{
    let [x, y, z] = value.as_array()?.as_slice() else {
        return None;
    };
    Some(Coordinates {
        x: x.as_integer()?,
        y: y.as_integer()?,
        z: z.as_integer()?,
    })
}

/// Returns the array of three whole numbers of a key, or `None` if the key is missing or has
/// another value.
pub fn coordinates_at(tree: &Value, key: &str) -> Option<Coordinates>
    ensures { result ≡ coordinates_at key.now (view tree.now) }
{
    coordinates(tree.get(key)?)
}

fn named(value: &Value) -> Option<Option<Name>>
    ensures { result ≡ named (view value.now) }
{
    Some(Name::of(value.as_str()?))
}

/// Returns the name of the key `name`: without characters if the key is missing, an inner `None`
/// for a text that is not a name, and `None` for another value.
pub fn name_at(tree: &Value) -> Option<Option<Name>>
    ensures { result ≡ name_at (view tree.now) }
{
    match tree.get("name") {
        Some(value) => named(value),
        None => Some(Some(Name::none())),
    }
}

fn rapids_named(text: &str) -> Option<Rapids>
    ensures { result ≡ rapids_named text.now }
{
    if text == "straight" {
        Some(Rapids::Straight)
    } else if text == "free" {
        Some(Rapids::Free)
    } else {
        None
    }
}

/// Returns the traverses of the key `rapids`, which are straight if the key is missing, or `None`
/// for a value other than `"straight"` and `"free"`.
pub fn rapids_at(tree: &Value) -> Option<Rapids>
    ensures { result ≡ rapids_at (view tree.now) }
{
    match tree.get("rapids") {
        Some(value) => rapids_named(value.as_str()?),
        None => Some(Rapids::Straight),
    }
}

fn dialect_of(value: &Value) -> Option<Option<Dialect>>
    ensures { result ≡ dialect_of (view value.now) }
{
    Some(Some(Dialect::named(value.as_str()?)?))
}

/// Returns the language of the key `dialect`: an inner `None` if the key is missing, and `None` for a
/// value that isn't the name of one.
pub fn dialect_at(tree: &Value) -> Option<Option<Dialect>>
    ensures { result ≡ dialect_at (view tree.now) }
{
    match tree.get("dialect") {
        Some(value) => dialect_of(value),
        None => Some(None),
    }
}

/// An item of an array, read as in a file of a version.
pub(crate) trait Entry: Drop {
    ghost reading: { ℤ → Data → Option Self };

    /// Reads a value as an entry. Returns `None` if it is of the wrong kind or length.
    fn read(version: i64, value: &Value) -> Option<Self>
        ensures { result ≡ reading version (view value.now) };
}

fn entries<E: Entry>(
    alloc: Global,
    version: i64,
    values: &[Value],
) -> Result<Option<Vec<E>>, AllocError>
    ensures { IfOk result
        (λ o. option_map (λ v. v.items) o ≡ each (E.reading version) (items_view values.now)) }
{
    let mut entries = Vec::with_capacity(alloc, values.len())?;
    for value in values {
        match E::read(version, value) {
            Some(entry) => entries.push(entry)?,
            None => return Ok(None),
        }
    }
    Ok(Some(entries))
}

/// Reads the entries of the array of a key. If the key is missing there are none, and nothing is
/// allocated.
pub(crate) fn entries_at<E: Entry>(
    alloc: Global,
    version: i64,
    tree: &Value,
    key: &str,
) -> Result<Option<Vec<E>>, AllocError>
    ensures entries { IfOk result
        (λ o. option_map (λ v. v.items) o ≡ list_at (E.reading version) key.now (view tree.now)) }
    ensures memory { IfErr result (λ _. IsSome (get key.now (view tree.now))) }
{
    let Some(value) = tree.get(key) else {
        return Ok(Some(Vec::new(alloc)));
    };
    match value.as_array() {
        Some(array) => entries(alloc, version, array.as_slice()),
        None => Ok(None),
    }
}
