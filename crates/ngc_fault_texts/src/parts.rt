ghost use Rattle.std.specs.Prelude.{◌≡◌};
ghost use Rattle.ngc_fault_texts.specs.Numbers.{fault_numbers};
ghost use Rattle.ngc_fault_texts.specs.Explanations.{numbers_of};

use crate::dialects::dialects;
use crate::programs::{places, values, words};
use crate::reading::{files, lines};
use crate::runs::{events, log, shell};
use crate::setups::{certificates, setup};
use crate::shapes::{arcs, cycles};

/// A row of the page: its texts about a fault. The lines of a text are at most 96 characters long.
/// The first lines of example, message and place include the words before them.
#[derive(Clone, Copy)]
pub struct Row {
    pub number: u16,
    /// A text that says what is wrong and what to write instead, and then the rule.
    pub rule: &'static str,
    /// An example with the fault.
    pub example: &'static str,
    /// The message for the example.
    pub answer: &'static str,
    /// The entry in the part's `column`: where the fault is, or the exit status.
    pub place: Option<&'static str>,
    /// How to fix it: help beyond the first sentence.
    pub mend: &'static str,
}

/// A part of the page, with a table of faults.
#[derive(Clone, Copy)]
pub struct Part {
    pub title: &'static str,
    /// The table's further column: where the fault is, or the exit status.
    pub column: Option<&'static str>,
    pub rows: &'static [Row],
}

/// Returns the parts of the page in their order.
pub fn page() -> [Part; 13]
    ensures { numbers_of result ≡ fault_numbers }
{
    [
        Part {
            title: "Reading a line",
            column: Some("Column"),
            rows: lines(),
        },
        Part {
            title: "Reading a file",
            column: Some("Where"),
            rows: files(),
        },
        Part {
            title: "Values",
            column: None,
            rows: values(),
        },
        Part {
            title: "Codes and words",
            column: None,
            rows: words(),
        },
        Part {
            title: "Places, tools and feeds",
            column: None,
            rows: places(),
        },
        Part {
            title: "Canned cycles",
            column: None,
            rows: cycles(),
        },
        Part {
            title: "Arcs",
            column: None,
            rows: arcs(),
        },
        Part {
            title: "Programs for other controls",
            column: None,
            rows: dialects(),
        },
        Part {
            title: "Machine file and tool table",
            column: None,
            rows: setup(),
        },
        Part {
            title: "Certificates",
            column: None,
            rows: certificates(),
        },
        Part {
            title: "Events",
            column: None,
            rows: events(),
        },
        Part {
            title: "In the log",
            column: None,
            rows: log(),
        },
        Part {
            title: "Input, output and the command line",
            column: Some("Status"),
            rows: shell(),
        },
    ]
}
