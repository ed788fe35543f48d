//! Tools with the same number.
ghost use Rattle.std.specs.Prelude.{◌≡◌};
ghost use Rattle.std.specs.List.{list_any};
ghost use Rattle.ngc_written_tools.specs.Repeats as spec;

use crate::sheet::MeasuredTool;
use ngc_machine_figures::{FileRefusal, Key, ToolKey, ToolWrong, Wrong};

fn has_number(number: u32, tool: &MeasuredTool) -> bool
    ensures { result ≡ spec.has_number number tool.now }
{
    number == tool.sheet.number.number
}

fn is_again(number: u32, tools: &[MeasuredTool]) -> bool
    ensures { result ≡ spec.is_again number tools.now }
{
    tools.iter().any(|tool| has_number(number, tool))
}

/// Refuses the first tool whose number a later one has too.
pub(crate) fn check_numbers(tools: &[MeasuredTool]) -> Result<(), FileRefusal>
    ensures { result ≡ spec.checked_numbers tools.now }
{
    for (i, tool) in tools.iter().enumerate() {
        if is_again(tool.sheet.number.number, &tools[i + 1..]) {
            return Err(FileRefusal {
                key: Key::Tool(ToolKey::Number(tool.place)),
                wrong: Wrong::Tool(ToolWrong::NumberTwice),
            });
        }
    }
    Ok(())
}
