//! The texts of `ngc explain` and `ngc help`.
use crate::checks::holds;
use ngc_command_line::{HelpFault, help_text};
use ngc_fault_texts::explain;
use ngc_text::Device;
use std::alloc::Global;
use std::test::Fail;

// Returns the explanation of a fault; empty for a number that no fault has.
fn explanation(alloc: Global, number: u16) -> Vec<u8> {
    let mut output = Device::new(Vec::new(alloc));
    let _ = explain(number, &mut output);
    output.into_inner()
}

#[test]
fn explanations_have_short_lines(rt: HostRuntime) -> Result<(), Fail> {
    for number in 0u16..1000 {
        let output = explanation(rt.alloc(), number);
        let text = std::str::from_utf8(output.as_slice()).map_err(|_| "text")?;
        let is_short = text.lines().all(|line| line.chars().count() <= 96);
        holds(&rt, &number, is_short);
    }
    Ok(())
}

// Blanks separate the words of a row, so that none of them is empty.
#[test]
fn an_empty_word_is_no_command(rt: HostRuntime) {
    let found = help_text(rt.alloc(), Some(""));
    holds(&rt, &"help", matches!(found, Err(HelpFault::Unknown)));
}
