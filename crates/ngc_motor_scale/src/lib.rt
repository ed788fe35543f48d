//! A motor's step as a ratio in lowest terms.
#![tactic(auto)]

mod divisor;
mod scale;

pub use scale::{ScaleRefusal, scale_of};
