//! The kinds of values of a tool table.
ghost use Rattle.std.specs.Prelude.{◌≡◌};
ghost use Rattle.toml.specs.View.{view};
ghost use Rattle.ngc_written_tools.specs.Kinds as spec;

use crate::sheet::{Offset, Size, ToolNumber};
use ngc_machine_figures::{FileRefusal, Key, Length, ToolWrong, Written, Wrong};
use toml::Value;

// The longest length of a tool, in nanometres.
const MOST: i64 = 1_000_000_000;

fn size_by(key: Key, length: Length) -> Result<Size, FileRefusal>
    ensures { result ≡ spec.size_by key length }
{
    if 1 <= length.nanometres && length.nanometres <= MOST {
        Ok(Size {
            nanometres: length.nanometres as u32,
        })
    } else {
        Err(FileRefusal {
            key,
            wrong: Wrong::Tool(ToolWrong::Size),
        })
    }
}

impl Written for Size {
    ghost reading = { spec.size_value };

    #[tactic(auto, unfolding(crate::specs::Kinds::size_value))]
    fn read(key: Key, value: &Value) -> Result<Size, FileRefusal> {
        let length = Length::read(key, value)?;
        size_by(key, length)
    }
}

fn offset_by(key: Key, length: Length) -> Result<Offset, FileRefusal>
    ensures { result ≡ spec.offset_by key length }
{
    if -MOST <= length.nanometres && length.nanometres <= MOST {
        Ok(Offset {
            nanometres: length.nanometres,
        })
    } else {
        Err(FileRefusal {
            key,
            wrong: Wrong::Tool(ToolWrong::Offset),
        })
    }
}

impl Written for Offset {
    ghost reading = { spec.offset_value };

    #[tactic(auto, unfolding(crate::specs::Kinds::offset_value))]
    fn read(key: Key, value: &Value) -> Result<Offset, FileRefusal> {
        let length = Length::read(key, value)?;
        offset_by(key, length)
    }
}

fn number_by(key: Key, number: i64) -> Result<ToolNumber, FileRefusal>
    ensures { result ≡ spec.number_by key number }
{
    if 1 <= number && number <= 9_999 {
        Ok(ToolNumber {
            number: number as u32,
        })
    } else {
        Err(FileRefusal {
            key,
            wrong: Wrong::Tool(ToolWrong::Number),
        })
    }
}

impl Written for ToolNumber {
    ghost reading = { spec.number_value };

    #[tactic(auto, unfolding(crate::specs::Kinds::number_value))]
    fn read(key: Key, value: &Value) -> Result<ToolNumber, FileRefusal> {
        match value.as_integer() {
            Some(number) => number_by(key, number),
            None => Err(FileRefusal {
                key,
                wrong: Wrong::NoWhole {
                    low: 1,
                    high: 9_999,
                },
            }),
        }
    }
}
