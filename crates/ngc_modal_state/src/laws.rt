//! Laws about the definitions only.
ghost use Rattle.ngc_modal_state.specs.Effects.{IsOrdered, IsShort};

/// States that a line's effects are in order of execution: their ranks never fall.
pub fn order_of_execution()
    ensures { IsOrdered }
{}

/// States that a line has at most 24 effects.
pub fn few_effects()
    ensures { IsShort }
{}
