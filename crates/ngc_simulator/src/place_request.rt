//! A request for the shifts of an origin at which a program fits.
ghost use Rattle.std.specs.Prelude.{◌≤◌};

use ngc_fixed_length::System;
use ngc_report::Form;

/// The request for the shifts of an origin at which a program fits.
#[derive(Clone, Copy)]
pub struct PlaceRequest {
    /// The coordinate system whose origin is shifted.
    pub system: System,
    /// The greatest number of pieces into which a motion is cut, at least 1.
    pub cuts: u16,
    /// The form of the output.
    pub form: Form,
    ghost some_cuts: { 1 ≤ cuts },
}
