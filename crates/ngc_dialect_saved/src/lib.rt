//! M70 to M73 of LinuxCNC: the modes that they save, at each level of calls, and the words that
//! restore them.
#![tactic(auto)]

mod modes;
mod restore;
mod saving;
mod stack;
mod switches;

pub use modes::{SavedModes, modes_now};
pub use restore::restoring;
pub use saving::{Saving, saving_code, saving_in};
pub use stack::{SavedLevel, SavedStack};
pub use switches::Switches;
