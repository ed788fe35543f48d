//! Lines of another control that are executed as lines of other words: polar words become X and Y,
//! and a repeated polar hole and an arc of several turns become several lines.
#![tactic(auto)]

mod barred;
mod kept;
mod place;
mod point;
mod polar;
mod refusal;
mod turns;

pub use barred::{BARRED, Barred, Group};
pub use kept::{Kept, WordLine};
pub use point::{PolarEnd, PolarPoint};
pub use polar::{PolarLine, has_polar, polar_line};
pub use refusal::{PolarFault, PolarRefusal};
pub use turns::{Height, OffsetWords, Turning, count_in, turning_on};
