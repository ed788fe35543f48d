//! Laws about the definitions alone.
ghost use Rattle.ngc_place.specs.Holds.{HoldsIsMade, HoldsIsCertified, HoldsWithin};
ghost use Rattle.ngc_place.specs.Longest.{BothAreCertified, GrownIsFound};

/// States that if a program holds over a box of shifts, its motions and a certificate exist at each
/// shift of the box.
pub fn holds_is_made()
    ensures made { HoldsIsMade }
    ensures certified { HoldsIsCertified }
{}

/// States that a program that holds over a box of shifts holds over each box within it.
pub fn holds_within()
    ensures { HoldsWithin }
{}

/// States that if the programs of both settings of block delete hold over a box of shifts, a
/// certificate exists at each shift of the box.
pub fn both_are_certified()
    ensures { BothAreCertified }
{}

/// States that an interval around a shift that has grown as far as the programs hold, first on one
/// side and then on the other, holds, and that no interval that is longer on either side does.
pub fn grown_is_found()
    ensures { GrownIsFound }
{}
