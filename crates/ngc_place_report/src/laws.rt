//! Laws about the definitions alone.
ghost use Rattle.ngc_place_report.specs.Certified.{EndsAreCertified, ShiftsAreCertified};

/// States that with the origin shifted to either end of an interval that is reported, the program
/// isn't refused, and a certificate exists.
pub fn ends_are_certified()
    ensures { EndsAreCertified }
{}

/// States the same of each shift from one end of the interval to the other at which the program,
/// executed there, moves as its marks state.
pub fn shifts_are_certified()
    ensures { ShiftsAreCertified }
{}
