use ngc_fault_texts::{Row, page};

// The lines of the faults that say no more than their number, and the numbers.
const LINES: &[(&[u8], u16)] = &[
    (b"ngc: fault 721\n", 721),
    (b"ngc: fault 722\n", 722),
    (b"ngc: fault 723\n", 723),
    (b"ngc: fault 724\n", 724),
    (b"ngc: fault 726\n", 726),
    (b"ngc: fault 727\n", 727),
    (b"ngc: fault 728\n", 728),
    (b"ngc: fault 730\n", 730),
];

// Returns what is wrong and what to write, by the row of a fault: its first sentence.
fn first_sentence(row: &Row) -> &'static str {
    match row.rule.split_once("(our own)") {
        Some((sentence, _)) => sentence,
        None => row.rule,
    }
}

/// Returns what is wrong, and what to write instead, where this line of standard error says no more than
/// that the command line has a fault.
pub fn meaning_of(told: &[u8]) -> Option<&'static str> {
    let (_, number) = LINES.iter().find(|(line, _)| *line == told)?;
    page()
        .iter()
        .flat_map(|part| part.rows)
        .find(|row| row.number == *number)
        .map(first_sentence)
}
