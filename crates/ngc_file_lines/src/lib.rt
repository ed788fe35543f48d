//! Where a key is in the text of a TOML file, for messages: its line, and the column of its value.
//!
//! A TOML reader returns no positions of keys. So a key is found by its spelling: the line that begins
//! with it, in the table after a header such as `[axis.x]`, or after the third `[[fixture]]`. Where the
//! reader stops at a byte, its line is found by counting.
#![tactic(auto)]

mod line;
mod place;
mod search;
mod value;

pub use line::gives;
pub use place::{FilePlace, place_after};
pub use search::{FileLine, key_line};
pub use value::{Value, token, value_in};
