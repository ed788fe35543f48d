//! The rules by which a line of a program for LinuxCNC, Grbl, Mach3 or Fanuc becomes plain lines of
//! our own language.
#![tactic(auto)]

mod action;
mod amount;
mod arc;
mod code;
pub mod codes;
mod fault;
mod force;
mod front;
mod length;
mod moves;
mod offsets;
mod plain;
mod plan;
mod rules;
mod straight_line;
mod table;
mod word;

pub use action::{has_no_feed, is_mode, no_lengths};
pub use amount::seconds;
pub use arc::{arc_line, offsets_of};
pub use code::Code;
pub use fault::{About, Cause, Fault, LeftOut, about_code, about_letter};
pub use force::force_of;
pub use front::{Front, KeptSeries, Known};
pub use length::{is_exact, length_in, limited, word_length};
pub use offsets::origin_of;
pub use plain::{Plain, PlainLines, add_action, code_word, end_line};
pub use plan::{Action, Amounts, InForce, LineCycle, LineResult, Plan};
pub use rules::{add_feed, front_after, line_plan, plain_lines, write_modes};
pub use straight_line::{StraightLine, straight_motion};
pub use table::{code_in, has, is_among, is_fanuc, is_linuxcnc};
pub use word::{add_codes, count, has_letter, value_of, word_of};
