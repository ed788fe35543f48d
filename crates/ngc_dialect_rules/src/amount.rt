//! A line's F, S, T, H and dwell.
ghost use Rattle.std.specs.Prelude.{◌≡◌, pos};
ghost use Rattle.ngc_fixed_length.specs.Rounding.{nearest};
ghost use Rattle.ngc_dialect_rules.specs.Amounts as spec;
ghost use Rattle.ngc_dialect_rules.specs.Words.{word_of as word_at};

use crate::code::Code;
use crate::codes;
use crate::fault::{Cause, Fault, about_code, about_letter};
use crate::front::{Front, Known};
use crate::plan::Amounts;
use crate::table::{code_in, has, is_fanuc, is_linuxcnc};
use crate::word::{amount, count, rounded, word_of};
use ngc_dialect_names::Dialect;
use ngc_dialect_parameters::Word;
use ngc_fixed_length::{Value, rounded_quotient};

pub(crate) fn selected_after(front: &Front, tool: Option<Value>) -> Value
    ensures { result ≡ spec.selected_after front.now tool }
{
    match tool {
        Some(tool) => tool,
        None => front.selected,
    }
}

pub(crate) fn mounted_after(front: &Front, line: &[Code], tool: Option<Value>) -> Value
    ensures { result ≡ spec.mounted_after front.now line.now tool }
{
    if has(&codes::TOOL_CHANGE, line) {
        selected_after(front, tool)
    } else {
        front.mounted
    }
}

// Returns the tool whose offset G43 takes.
fn named_tool(
    known: &Known,
    line: &[Code],
    tool: Option<Value>,
    code: Code,
    h: Option<Value>,
) -> Result<Option<Value>, Fault>
    ensures { result ≡ spec.named_tool known.now line.now tool code h }
{
    let mounted = mounted_after(&known.front, line, tool);
    match h {
        Some(h) => {
            if is_linuxcnc(known.dialect) && h.millionths() == 0 {
                Ok(Some(mounted))
            } else {
                Ok(Some(h))
            }
        }
        None => {
            if is_fanuc(known.dialect) {
                Err(about_code(Cause::WordMissing, code))
            } else {
                Ok(Some(mounted))
            }
        }
    }
}

#[tactic(auto, unfolding(crate::specs::Amounts::offset_tool))]
fn offset_tool(
    known: &Known,
    line: &[Code],
    words: &[Word],
    tool: &Option<Value>,
) -> Result<Option<Value>, Fault>
    ensures { result ≡ spec.offset_tool known.now line.now words.now tool.now }
{
    match code_in(&codes::TABLE_LENGTHS, line) {
        None => Ok(None),
        Some(code) => {
            let h = count(b'H', words)?;
            named_tool(known, line, *tool, code, h)
        }
    }
}

/// Returns a dwell's P in seconds; without a point Fanuc's is in milliseconds.
#[tactic(auto, unfolding(crate::specs::Amounts::seconds))]
pub fn seconds(dialect: Dialect, word: &Word) -> Value
    ensures { result ≡ spec.seconds dialect word.now }
{
    let value = word.value.to_value();
    if is_fanuc(dialect) && !word.point {
        thousandth(value)
    } else {
        value
    }
}

// Returns the thousandth part of a value.
fn thousandth(value: Value) -> Value
    ensures { result ≡ nearest value (pos 1000) }
{
    match Value::from_millionths(rounded_quotient(i128::from(value.millionths()), 1000)) {
        Ok(value) => value,
        Err(_) => Value::zero(),
    }
}

fn dwell_by(dialect: Dialect, words: &[Word]) -> Option<Value>
    ensures { result ≡ spec.dwell_by dialect words.now (word_at 80 words.now) }
{
    match word_of(b'P', words) {
        Some(word) => Some(seconds(dialect, &word)),
        None => {
            if !is_fanuc(dialect) {
                return None;
            }
            match rounded(b'X', words) {
                Some(value) => Some(value),
                None => rounded(b'U', words),
            }
        }
    }
}

#[tactic(auto, unfolding(crate::specs::Amounts::dwell))]
fn dwell_of(dialect: Dialect, line: &[Code], words: &[Word]) -> Result<Option<Value>, Fault>
    ensures { result ≡ spec.dwell dialect line.now words.now }
{
    if !has(&codes::DWELL, line) {
        return Ok(None);
    }
    match dwell_by(dialect, words) {
        None => Err(about_code(Cause::WordMissing, Code::G(40))),
        Some(value) => {
            if value.millionths() < 0 {
                Err(about_letter(Cause::Negative, b'P'))
            } else {
                Ok(Some(value))
            }
        }
    }
}

/// Returns F, S, T, H and the dwell, or the first refusal in this order.
#[tactic(auto, unfolding(crate::specs::Amounts::amounts_of))]
pub(crate) fn amounts_of(known: &Known, line: &[Code], words: &[Word]) -> Result<Amounts, Fault>
    ensures { result ≡ spec.amounts_of known.now line.now words.now }
{
    let feed = amount(b'F', words)?;
    let speed = amount(b'S', words)?;
    let tool = count(b'T', words)?;
    let offset = offset_tool(known, line, words, &tool)?;
    let dwell = dwell_of(known.dialect, line, words)?;
    Ok(Amounts {
        feed,
        speed,
        tool,
        offset,
        dwell,
    })
}
