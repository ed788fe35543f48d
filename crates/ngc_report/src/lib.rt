//! Reports of a program on a machine, in numbers and in words: its extent, and the margins to the
//! travel limits.
//!
//! A report is lines of text, with lengths in millimetres, exactly. An example for a program that
//! fits, where tool 3 is mounted after a motion without a tool:
//!
//! ```text
//! The program fits: every position is inside the travel and clear of every fixture.
//! X from 0 mm to 120.5 mm, 30 mm left below and 79.5 mm left above.
//! Y from 0 mm to 40 mm, 30 mm left below and 160 mm left above.
//! Z from -3 mm to 50 mm, 97 mm left below and 0 mm left above.
//! With no tool: traverses 1 along 50 mm, feeds 0 along 0 mm, arcs 0, dwells 0, stops 0; nearest
//! fixture 0, 40 mm away.
//! With tool 3: traverses 12 along 374.5 mm, feeds 40 along 812.142135 mm, arcs 8, dwells 0, stops
//! 1; nearest fixture 2, 4.25 mm away.
//! ```
//!
//! If motions without a tool leave the height of the start, the first line is `The program fits,
//! but without a tool only the spindle nose was tested: motions 2, the first in line 3, the last in
//! line 4.` Without fixtures a use ends after its stops. In the report of a program that is
//! refused, commands and fixtures count from 0:
//!
//! ```text
//! The program does not fit.
//! X from 0 mm to 302.5 mm, 0 mm left below and 2.5 mm too far above.
//! Y from 0 mm to 0 mm, 0 mm left below and 300 mm left above.
//! Z from 0 mm to 0 mm, 100 mm left below and 0 mm left above.
//! Command 0 of line 1, with no tool, from X 0 mm, Y 0 mm, Z 0 mm to X 302.5 mm, Y 0 mm, Z 0 mm.
//! It leaves the travel above X: 2.5 mm too far.
//! It is too long for the travel along X.
//! ```
//!
//! The obstacle may be `It meets fixture 2, from X 10 mm, Y 20 mm, Z -30 mm to X 40 mm, Y 60 mm, Z 0
//! mm.`, and the last line `It is inside the travel along X if it moves by 2.5 mm in X-.` or `It is
//! clear of fixture 2 if it moves by 35 mm in X+, 15 mm in X-, 50 mm in Y+, 10 mm in Y-, 5 mm in Z+
//! or 25 mm in Z-.`
//!
//! Warnings, each with the number of commands and the line of the first:
//!
//! ```text
//! warning: motions without a tool, away from the height of the start: 2, the first in line 3.
//! warning: feeds with a tool and the spindle off: 4, the first in line 5.
//! warning: feeds above the greatest speed of the machine: 5, the first in line 7.
//! warning: arcs of over 359 degrees with ends less than 0.01 mm apart: 1, the first in line 8.
//! warning: traverses home along X or Y, below the top of a fixture: 1, the first in line 9.
//! warning: traverses across the work without a retract before them: 1, the first in line 9.
//! ```
#![tactic(auto)]

mod facts;
mod form;
pub mod laws;
mod marks;
mod quotes;
mod refusals;
mod report;
mod report_fault;
mod source_lines;
mod warned;
mod words;

pub use form::Form;
pub use marks::{letter_byte, mark_of, write_named, write_named_source, written_number};
pub use quotes::{say_escaped, write_line};
pub use refusals::{collect_refusals_head, collect_refused_command};
pub use report::{write_fit, write_refusal};
pub use report_fault::ReportFault;
pub use source_lines::{write_source_line, write_text_line};
pub use warned::write_warnings;
