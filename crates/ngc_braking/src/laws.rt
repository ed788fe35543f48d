//! Laws about the definitions only.
ghost use Rattle.ngc_braking.specs.Laws.{TickUsesItsWork, WorkRises, CostsDeduction, NeedsTooMuch};
ghost use Rattle.ngc_braking.specs.Laws.{LoadTakesNothing, CanBrakeOnTheHead, CanBrakeAfterJoint};
ghost use Rattle.ngc_braking.specs.Laws.{StopsAtTheEnd, HeadIsEnough, LeastMatters, EndsOnThePath};
ghost use Rattle.ngc_braking.specs.OneChange.{IsSameWithOneChange, CanBrakeWhereFree, IsWorkOfDistance};

/// States that a tick uses its change times what it travels, that the work to brake from a rate rises
/// with the change, and that it rises by at most the deduction of a joint that lets the rate pass.
pub fn work_adds_up()
    ensures uses { TickUsesItsWork }
    ensures rises { WorkRises }
    ensures costs { CostsDeduction }
{}

/// States that a rate above a joint's limit can't brake where its tick reaches the joint.
pub fn needs_too_much()
    ensures { NeedsTooMuch }
{}

/// States that a rate that can brake can still brake after one more motion is loaded.
pub fn load_takes_nothing()
    ensures { LoadTakesNothing }
{}

/// States that a rate that can brake can do so again after each tick that brakes: on the same motion,
/// and on the next one after a tick that reaches its joint, at a rate that the joint lets pass.
pub fn keeps_braking()
    ensures head { CanBrakeOnTheHead }
    ensures joint { CanBrakeAfterJoint }
    ensures end { StopsAtTheEnd }
{}

/// States that a rate can brake if its braking distance ends on the motion that it is on.
pub fn head_is_enough()
    ensures { HeadIsEnough }
{}

/// States that beyond a motion only the least over the joints ahead matters.
pub fn least_matters()
    ensures { LeastMatters }
{}

/// States that the work to brake from a rate that can brake ends on the known path.
pub fn ends_on_the_path()
    ensures { EndsOnThePath }
{}

/// States that where all motions have one change, the rule is the one in distances, a rate can brake
/// if its braking distance ends on the motions that it may enter, and the work ahead is the change
/// times the distance ahead.
pub fn same_with_one_change()
    ensures same { IsSameWithOneChange }
    ensures free { CanBrakeWhereFree }
    ensures work { IsWorkOfDistance }
{}
