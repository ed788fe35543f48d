//! Pictures of programs, as SVG.
#![tactic(auto)]

mod bodies;
mod fault;
mod holes;
mod label;
mod origin;
mod outline;
mod picture;
mod refusal;
mod sweep;

pub use fault::DrawFault;
pub use ngc_picture_shapes::{Look, View};
pub use origin::WorkOrigin;
pub use picture::write_svg;
pub use refusal::RefusedMotion;
