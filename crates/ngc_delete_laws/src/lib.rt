//! That block delete does in programs of other controls what it says, also where it isn't looked at.
#![tactic(auto)]

pub mod laws;
