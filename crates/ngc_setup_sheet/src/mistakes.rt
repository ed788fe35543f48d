//! The first mistake of a file.
ghost use Rattle.std.specs.Prelude.{◌≡◌};
ghost use Rattle.toml.specs.View.{view, items_view};
ghost use Rattle.ngc_setup_sheet.specs.Asks.{unknown_in};
ghost use Rattle.ngc_setup_sheet.specs.Mistakes.{keys_of, complaint, table_mistake, items_at};
ghost use Rattle.ngc_setup_sheet.specs.Mistakes.{numbered, first_in, is_again, is_repeated};
ghost use Rattle.ngc_setup_sheet.specs.Mistakes.{first_again, machine_mistake_in, first_tool};
ghost use Rattle.ngc_setup_sheet.specs.Mistakes.{tool_mistake, tools_mistake_in, first_fixture};

use crate::mistake::{Mistake, Rule, Section, Word};
use crate::rows::{key, unmet};
use crate::tree::{is_second, unknown_key};
use ngc_machine_files::{FileFault, MACHINE_KEYS, whole_at};
use toml::Value;

fn complaint(section: Section, tree: &Value, rule: Rule) -> Mistake
    ensures { result ≡ complaint section (view tree.now) rule }
{
    if tree.get(key(rule)).is_some() {
        Mistake::Refused(section, rule)
    } else {
        Mistake::Missing(section, rule)
    }
}

fn unknown(section: Section, tree: &Value) -> Option<Word>
    ensures { result ≡ unknown_in (keys_of section) (view tree.now) }
{
    match section {
        Section::Machine => unknown_key(tree, &MACHINE_KEYS),
        Section::FirstFixture(_) => unknown_key(tree, &["low", "high"]),
        Section::SecondFixture(_) => unknown_key(tree, &["low", "high", "name"]),
        Section::Tools => unknown_key(tree, &["version", "tool"]),
        Section::FirstTool(_) => unknown_key(tree, &["number", "length", "radius", "offset"]),
        Section::SecondTool(_) => unknown_key(
            tree,
            &["number", "offset", "bottom", "parts", "name"],
        ),
    }
}

/// Returns the first mistake of a table. An unknown key takes precedence over a rule that isn't
/// met.
fn table_mistake(fault: FileFault, section: Section, tree: &Value) -> Option<Mistake>
    ensures { result ≡ table_mistake fault section (view tree.now) }
{
    match unknown(section, tree) {
        Some(key) => Some(Mistake::Unknown(section, key)),
        None => match unmet(fault, section, tree) {
            Some(rule) => Some(complaint(section, tree, rule)),
            None => None,
        },
    }
}

/// Returns the values of the array under a key, or none if it is missing.
fn values_at<'t>(tree: &'t Value, key: &str) -> &'t [Value]
    ensures { items_view result.now ≡ items_at key.now (view tree.now) }
{
    match tree.get(key) {
        Some(Value::Array(array)) => array.as_slice(),
        _ => &[],
    }
}

fn numbered(section: Section, number: usize) -> Section
    ensures { result ≡ numbered section number }
{
    match section {
        Section::FirstFixture(_) => Section::FirstFixture(number),
        Section::SecondFixture(_) => Section::SecondFixture(number),
        Section::FirstTool(_) => Section::FirstTool(number),
        Section::SecondTool(_) => Section::SecondTool(number),
        Section::Machine | Section::Tools => section,
    }
}

fn first_in(fault: FileFault, section: Section, values: &[Value]) -> Option<Mistake>
    ensures { result ≡ first_in fault section 0 (items_view values.now) }
{
    for (i, value) in values.iter().enumerate() {
        if let Some(mistake) = table_mistake(fault, numbered(section, i), value) {
            return Some(mistake);
        }
    }
    None
}

fn first_fixture(tree: &Value) -> Section
    ensures { result ≡ first_fixture (view tree.now) }
{
    if is_second(tree) {
        Section::SecondFixture(0)
    } else {
        Section::FirstFixture(0)
    }
}

/// Returns the first mistake of a machine file that is a document.
pub(crate) fn machine_mistake_in(fault: FileFault, tree: &Value) -> Mistake
    ensures { result ≡ machine_mistake_in fault (view tree.now) }
{
    match table_mistake(fault, Section::Machine, tree) {
        Some(mistake) => mistake,
        None => match first_in(fault, first_fixture(tree), values_at(tree, "fixture")) {
            Some(mistake) => mistake,
            None => Mistake::Other(fault),
        },
    }
}

fn is_again(value: &Value, other: &Value) -> bool
    ensures { result ≡ is_again (view value.now) (view other.now) }
{
    match (whole_at(value, "number"), whole_at(other, "number")) {
        (Some(number), Some(again)) => number == again,
        _ => false,
    }
}

fn is_repeated(value: &Value, afterwards: &[Value]) -> bool
    ensures { result ≡ is_repeated (view value.now) (items_view afterwards.now) }
{
    for other in afterwards {
        if is_again(value, other) {
            return true;
        }
    }
    false
}

fn first_again(section: Section, values: &[Value]) -> Option<Mistake>
    ensures { result ≡ first_again section 0 (items_view values.now) }
{
    for (i, value) in values.iter().enumerate() {
        if is_repeated(value, &values[i + 1..]) {
            return Some(Mistake::Refused(numbered(section, i), Rule::NumberOnce));
        }
    }
    None
}

fn first_tool(tree: &Value) -> Section
    ensures { result ≡ first_tool (view tree.now) }
{
    if is_second(tree) {
        Section::SecondTool(0)
    } else {
        Section::FirstTool(0)
    }
}

fn tool_mistake(fault: FileFault, section: Section, values: &[Value]) -> Option<Mistake>
    ensures { result ≡ tool_mistake fault section (items_view values.now) }
{
    match first_in(fault, section, values) {
        Some(mistake) => Some(mistake),
        None => first_again(section, values),
    }
}

/// Returns the first mistake of a tool table that is a document.
pub(crate) fn tools_mistake_in(fault: FileFault, tree: &Value) -> Mistake
    ensures { result ≡ tools_mistake_in fault (view tree.now) }
{
    match table_mistake(fault, Section::Tools, tree) {
        Some(mistake) => mistake,
        None => match tool_mistake(fault, first_tool(tree), values_at(tree, "tool")) {
            Some(mistake) => mistake,
            None => Mistake::Other(fault),
        },
    }
}
