//! Laws about the definitions only.
ghost use Rattle.ngc_circle_laws.specs.ArcWalk.{WalksFollow};
ghost use Rattle.ngc_circle_laws.specs.Round.{QuadrantPointsAre};

/// States that a walk from an arc's start to its end follows the arc: it stays within a step of the
/// arc's circles and in its sector, no move turns back, and it passes each of its quadrant points
/// in order.
pub fn walks_follow()
    ensures { WalksFollow }
{}

/// States that the quadrant points of an arc are on the half axes from the first at or past its
/// start to the last at or before its end.
pub fn quadrant_points()
    ensures { QuadrantPointsAre }
{}
