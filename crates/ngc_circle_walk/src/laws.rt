//! Laws about the definitions only.
ghost use Rattle.ngc_circle_walk.specs.Rolling.{RollsFromAnywhere, StaysNear, PassesQuadrants, NeverTurnsBack};
ghost use Rattle.ngc_circle_walk.specs.Wheel.{OneIsDue};

/// States that the rule allows exactly one move at each point, so both wheels make the same moves.
pub fn one_is_due()
    ensures { OneIsDue }
{}

/// States that a wheel can make any number of moves from each point.
pub fn rolls_from_anywhere()
    ensures { RollsFromAnywhere }
{}

/// States that a wheel stays within a step of a circle whose radius is at least eight steps.
pub fn stays_near()
    ensures { StaysNear }
{}

/// States that a wheel passes a number of quadrants in a bounded number of moves.
pub fn passes_quadrants()
    ensures { PassesQuadrants }
{}

/// States that no move of a wheel turns back.
pub fn never_turns_back()
    ensures { NeverTurnsBack }
{}
