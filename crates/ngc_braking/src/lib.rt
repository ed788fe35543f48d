//! Braking on motions that each have a change of their own, measured in work: change times distance.
#![tactic(auto)]

pub mod laws;
mod leg;
mod outlook;
mod slowing;
mod stretch;

pub use leg::Leg;
pub use outlook::Outlook;
pub use slowing::{brakes_within, braking};
pub use stretch::{beyond, can_brake, legs_beyond};
