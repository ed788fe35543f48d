//! Laws about how the walks of a wheel follow an arc.
#![tactic(auto)]

pub mod laws;
