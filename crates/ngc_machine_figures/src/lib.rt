//! Machine files of version 3: what is written in one, or why it is refused. The keys of tool tables,
//! and the readers of single values, are here too.
#![tactic(auto)]

mod array;
mod axes;
mod boxes;
mod fixtures;
mod found;
mod head;
mod key;
mod key_word;
mod kinds;
mod limits;
mod near;
mod origins;
mod reader;
mod refusal;
mod sheet;
mod stock;
mod tool_key;
mod version;
mod written;

pub use array::{Numbered, each};
pub use boxes::{BoxKeys, corners_of};
pub use fixtures::fixture_box;
pub use found::only_known;
pub use head::third;
pub use key::{AxisName, Key, fixture_keys, system_name};
pub use key_word::KeyWord;
pub use limits::{FeedLimits, TurningLimits};
pub use origins::origins_at;
pub use reader::read_sheet;
pub use refusal::{FileRefusal, Form, SheetFault, Wrong};
pub use sheet::{
    Acceleration, AxesSheet, AxisSheet, BoxSheet, ControlSheet, FixtureSheet, HeadSheet, Length,
    PlaceSheet, Sheet, Speed, StockSheet, System,
};
pub use stock::stock_at;
pub use tool_key::{ToolKey, ToolWrong};
pub use version::is_written;
pub use written::{Written, optional, required};
