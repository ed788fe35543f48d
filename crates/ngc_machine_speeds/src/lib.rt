//! The rates of a machine as speeds and accelerations, in metric units.
#![tactic(auto)]

mod speeds;

pub use speeds::{
    acceleration, arc_acceleration, axis_changes, gain, millimetres_a_minute,
    motor_steps_a_millimetre, pull, speed, steps_a_millimetre,
};
