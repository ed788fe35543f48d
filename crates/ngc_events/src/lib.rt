//! The events of a controller, which come from the panel, the loader and the pulse clock, the
//! controller's replies, and the file that lists events, one per line.
#![tactic(auto)]

mod arriving;
mod event;
mod event_fault;
mod fault;
pub mod laws;
mod line;
mod read;
mod reply;

pub use arriving::EventLines;
pub use event::{Event, EventLine};
pub use event_fault::EventFault;
pub use fault::EventsFault;
pub use read::read_events;
pub use reply::{Ending, Reply};
