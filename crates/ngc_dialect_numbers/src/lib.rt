//! Numbers that programs of other controls compute with: whole multiples of 10^-12, at most 10^9
//! in size, and the functions of their expressions.
#![tactic(auto)]

mod arc;
mod circle;
mod comparison;
mod fault;
mod growth;
mod number;
mod power;
mod root;
mod rounding;
mod tangent;

pub use fault::NoValue;
pub use number::Number;
