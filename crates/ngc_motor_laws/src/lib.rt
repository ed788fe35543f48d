//! Laws about the positions that motors command whose steps are longer than the path's.
#![tactic(auto)]

pub mod laws;
