//! A line's words by modal groups, the codes that use them, and the line's effects in order of
//! execution.
#![tactic(auto)]

mod block;
mod check;
mod code;
mod effect;
mod fault;
mod kind;
pub mod laws;
mod modes;
mod order;
mod range;
mod table;
mod used;

pub use block::{AxisWords, Block};
pub use code::{
    Coolant, CycleCode, LengthCode, MotionMode, NonModal, PathControl, Spindle, Stopping,
};
pub use effect::{ArcWords, CycleWords, Effect, Home};
pub use fault::{MissingWord, ModalFault};
pub use modes::Modes;
