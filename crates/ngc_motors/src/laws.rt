//! Laws about the definitions only.
ghost use Rattle.ngc_motors.specs.Laws.{CountIsNearest, CountMovesByOne, CountOfWhole, CountRises};
ghost use Rattle.ngc_motors.specs.Laws.{MovedEndsFit, PlaceIsBetween};

/// States that a motor stands at most half of its step from the place on its axis that the path is
/// at, that its count never falls while that place rises, that a step of the grid moves it by at
/// most one of its steps, and that a place of whole motor steps is commanded exactly. Where it stands
/// is between two whole nanometres that are at most 1 nm apart.
pub fn counts_follow()
    ensures nearest { CountIsNearest }
    ensures rises { CountRises }
    ensures by_one { CountMovesByOne }
    ensures whole { CountOfWhole }
    ensures between { PlaceIsBetween }
{}

/// States that a motor can stand at both ends of a travel, to the nanometre, whose ends are moved
/// inwards to its whole steps.
pub fn moved_ends_fit()
    ensures { MovedEndsFit }
{}
