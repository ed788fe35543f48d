//! Laws about the definitions only.
ghost use Rattle.ngc_pulses.specs.Samples.{ReadBack};

/// States that hardware reads the pulses from the samples, if each axis moves at most a step in
/// every tick, whatever the spindle, the coolant and the mask are: no step is lost, added or
/// reversed.
pub fn read_back()
    ensures { ReadBack }
{}
