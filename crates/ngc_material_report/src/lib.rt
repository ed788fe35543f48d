//! Sentences about traverses and feeds that may touch material, about tool changes in it, about feeds below
//! its bottom and about how deep feeds cut, or facts of a JSON document.
//!
//! ```text
//! Line 15 goes through material at traverse: tool 2 is at least 2 mm deep at X 30.5 mm, Y 7.5 mm.
//! Line 22 may touch material at traverse: tool 1 is at most 0.4 mm deep at X 30.5 mm, Y 7.5 mm.
//! There are 13 such traverses, the last in line 40.
//! Line 9 may touch material at feed: part 1 of tool 2, counted from 0, is at most 1 mm deep at X 30.5 mm, Y 7.5 mm.
//! Line 31 changes the tool below the stock's top: tool 2 is 2 mm below it at X 30.5 mm, Y 7.5 mm.
//! Line 50 feeds below the stock's bottom: tool 2 is at most 0.2 mm below it.
//! With tool 2 straight feeds cut at most 5 mm deep, the deepest in line 151.
//! Traverses were tested and depths measured for each tool less 0.29 mm of its radius.
//! Tool 3 (0.25 mm wide) is too thin for cells of 0.2 mm: its traverses were not tested.
//! ```
#![tactic(auto)]

mod changes;
mod cuts;
mod depths;
mod parts;
mod touches;
mod untested;

pub use cuts::write_cuts;
pub use depths::write_depths;
pub use touches::write_touches;
pub use untested::write_untested;
