//! Notes on a program for LinuxCNC, Grbl, Mach3 or Fanuc: what its lines leave out when they are
//! executed, and words whose meaning the control may not share.
#![tactic(auto)]

mod code_notes;
mod dialect;
mod in_force;
mod kind;
mod motion;
mod motion_notes;
mod moved_centre;
mod noted;
mod notes;
mod word_notes;

pub use kind::{Class, Kind};
pub use notes::{Note, Notes, Said};
