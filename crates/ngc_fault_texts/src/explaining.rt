ghost use Rattle.std.specs.Prelude.{◌≡◌, ◌==◌, ◌↔◌, OnErr, OnOk, Err, false};
ghost use Rattle.std.specs.List.{list_any};
ghost use Rattle.std.specs.Io.KnownBytes.{Appends};
ghost use Rattle.ngc_text.specs.Failures.{CountsFailure};
ghost use Rattle.ngc_text.specs.Written.{AppendsPrefix};
ghost use Rattle.ngc_fault_texts.specs.Numbers.{is_fault};
ghost use Rattle.ngc_fault_texts.specs.Explanations.{FailsByWriting, ExplainsOrFails, all_of, column_line};
ghost use Rattle.ngc_fault_texts.specs.Explanations.{explanation_prefix, explain_fault_number, fix_of, row_text};
ghost use Rattle.ngc_fault_texts.specs.Explanations.{told, told_in};

use crate::parts::{Part, Row, page};
use itoa::Buffer;
use ngc_text::{Sink, WriteFault, write_all};
use thiserror::Error;

/// The reason why a number isn't explained.
#[derive(Clone, Copy, Debug, PartialEq, Eq, Error)]
pub enum ExplainFault {
    /// No fault has the number: 721.
    #[error("no fault has this number")]
    Unknown,
    /// A write failed: 902.
    #[error(transparent)]
    Write(WriteFault),
}

impl ExplainFault {
    /// Returns the fault's number.
    pub fn number(&self) -> u16
        ensures { result ≡ explain_fault_number self.now }
    {
        match self {
            ExplainFault::Unknown => 721,
            ExplainFault::Write(fault) => fault.number(),
        }
    }
}

// Writes texts in order.
fn write_texts<W: Sink>(texts: &[&[u8]], output: &mut W) -> Result<(), WriteFault>
    ensures ok { OnOk result
        (Appends (W.written output.old) (W.written output.new) (all_of texts.now)) }
    ensures fault { OnErr result
        (AppendsPrefix (W.written output.old) (W.written output.new) (all_of texts.now)) }
    ensures counts { CountsFailure (W.failures output.old) (W.failures output.new) result }
{
    for text in texts {
        match write_all(output, text) {
            Ok(()) => {}
            Err(fault) => return Err(fault),
        }
    }
    Ok(())
}

// Writes the line of the part's column, if it has one.
fn write_column<W: Sink>(part: &Part, row: &Row, output: &mut W) -> Result<(), WriteFault>
    ensures ok { OnOk result
        (Appends (W.written output.old) (W.written output.new)
        (column_line part.now.column row.now.place)) }
    ensures fault { OnErr result
        (AppendsPrefix (W.written output.old) (W.written output.new)
        (column_line part.now.column row.now.place)) }
    ensures counts { CountsFailure (W.failures output.old) (W.failures output.new) result }
{
    match (part.column, row.place) {
        (Some(column), Some(place)) => {
            write_texts(&[column.as_bytes(), b": ", place.as_bytes(), b"\n"], output)
        }
        _ => Ok(()),
    }
}

fn write_start<W: Sink>(part: &Part, row: &Row, output: &mut W) -> Result<(), WriteFault>
    ensures ok { OnOk result
        (Appends (W.written output.old) (W.written output.new) (explanation_prefix part.now row.now)) }
    ensures fault { OnErr result
        (AppendsPrefix (W.written output.old) (W.written output.new)
        (explanation_prefix part.now row.now)) }
    ensures counts { CountsFailure (W.failures output.old) (W.failures output.new) result }
{
    let mut buffer = Buffer::new();
    let texts: [&[u8]; 11] = [
        b"Fault ",
        buffer.format(row.number).as_bytes(),
        b" (",
        part.title.as_bytes(),
        b")\n\n",
        row.rule.as_bytes(),
        b"\n\nExample: ",
        row.example.as_bytes(),
        b"\nMessage: ",
        row.answer.as_bytes(),
        b"\n",
    ];
    write_texts(&texts, output)
}

fn write_fix<W: Sink>(row: &Row, output: &mut W) -> Result<(), WriteFault>
    ensures ok { OnOk result
        (Appends (W.written output.old) (W.written output.new) (fix_of row.now)) }
    ensures fault { OnErr result
        (AppendsPrefix (W.written output.old) (W.written output.new) (fix_of row.now)) }
    ensures counts { CountsFailure (W.failures output.old) (W.failures output.new) result }
{
    write_texts(&[b"\n", row.mend.as_bytes(), b"\n\n"], output)
}

fn write_row<W: Sink>(part: &Part, row: &Row, output: &mut W) -> Result<(), WriteFault>
    ensures ok { OnOk result
        (Appends (W.written output.old) (W.written output.new) (row_text part.now row.now)) }
    ensures fault { OnErr result
        (AppendsPrefix (W.written output.old) (W.written output.new)
        (row_text part.now row.now)) }
    ensures counts { CountsFailure (W.failures output.old) (W.failures output.new) result }
{
    match write_start(part, row, output) {
        Ok(()) => {}
        Err(fault) => return Err(fault),
    }
    match write_column(part, row, output) {
        Ok(()) => {}
        Err(fault) => return Err(fault),
    }
    write_fix(row, output)
}

// Writes the rows of a part that have the number.
fn write_part<W: Sink>(part: &Part, number: u16, output: &mut W) -> Result<(), WriteFault>
    ensures ok { OnOk result
        (Appends (W.written output.old) (W.written output.new)
        (told_in number part.now part.now.rows.now)) }
    ensures fault { OnErr result
        (AppendsPrefix (W.written output.old) (W.written output.new)
        (told_in number part.now part.now.rows.now)) }
    ensures counts { CountsFailure (W.failures output.old) (W.failures output.new) result }
{
    for row in part.rows {
        if row.number == number {
            match write_row(part, row, output) {
                Ok(()) => {}
                Err(fault) => return Err(fault),
            }
        }
    }
    Ok(())
}

fn write_parts<W: Sink>(parts: &[Part], number: u16, output: &mut W) -> Result<(), WriteFault>
    ensures ok { OnOk result
        (Appends (W.written output.old) (W.written output.new) (told number parts.now)) }
    ensures fault { OnErr result
        (AppendsPrefix (W.written output.old) (W.written output.new) (told number parts.now)) }
    ensures counts { CountsFailure (W.failures output.old) (W.failures output.new) result }
{
    for part in parts {
        match write_part(part, number, output) {
            Ok(()) => {}
            Err(fault) => return Err(fault),
        }
    }
    Ok(())
}

fn is_in(rows: &[Row], number: u16) -> bool
    ensures { result ≡ list_any (λ row. row.number == number) rows.now }
{
    rows.iter().any(|row| row.number == number)
}

fn is_on(parts: &[Part], number: u16) -> bool
    ensures { result ≡ list_any
        (λ part. list_any (λ row. row.number == number) part.rows.now) parts.now }
{
    parts.iter().any(|part| is_in(part.rows, number))
}

/// Writes the text of the page docs/FAULTS.md about a fault: about ten lines for each of its rows,
/// of at most 96 characters.
pub fn explain<W: Sink>(number: u16, output: &mut W) -> Result<(), ExplainFault>
    // Only a number that no fault has is unknown.
    ensures unknown { (result ≡ Err ExplainFault.Unknown) ↔ (is_fault number ≡ false) }
    // The output is the rows with this number of a page that has all faults, or a prefix of them if
    // a write failed.
    ensures tells { ExplainsOrFails number (W.written output.old) (W.written output.new) result }
    // A fault of writing results only from a sink that failed.
    ensures sink { FailsByWriting result (W.failures output.old) (W.failures output.new) }
{
    let parts = page();
    if !is_on(&parts, number) {
        return Err(ExplainFault::Unknown);
    }
    match write_parts(&parts, number, output) {
        Ok(()) => Ok(()),
        Err(fault) => Err(ExplainFault::Write(fault)),
    }
}
