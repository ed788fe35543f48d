//! Values, lengths and grid points of a numerical controller, computed with whole numbers only.
#![tactic(auto)]

mod fault;
mod length;
mod modes;
mod points;
mod roots;
mod rounding;
mod steps;
mod units;
mod value;

pub use fault::NumberFault;
pub use length::Nm;
pub use modes::{Distance, FeedMode, Plane, RetractMode, System, Turn};
pub use points::{GridBox, Point2, Point3, StepPos};
pub use roots::{root_ceil, root_floor};
pub use rounding::{rounded_quotient, short_quotient};
pub use steps::nanometres_at;
pub use units::Units;
pub use value::{MILLIONTHS, Value};
