//! Texts with a unit, as `12.5 mm` or `8000 mm/min`, read exactly.
#![tactic(auto)]

mod digits;
mod fault;
mod motor;
mod near;
mod number;
mod quantity;
mod range;
mod sum;
mod text;
mod unit;
mod written;

pub use fault::{Cause, Fault};
pub use motor::{Drive, Gear, Step, motor_of};
pub use near::is_nearly;
pub use quantity::{acceleration_of, length_of, speed_of, turning_of};
pub use range::{
    Place, Range, length_range_of, place_of, speed_limits_of, speed_range_of, turning_limits_of,
    turning_range_of,
};
pub use unit::{Ending, Kind, Unit};
