//! The laws of silence.
ghost use Rattle.ngc_stock.specs.Below.{AllAbove};
ghost use Rattle.ngc_stock.specs.Changes.{FreeChange, FreeChanges};
ghost use Rattle.ngc_stock.specs.Cuts.{CutDepth};
ghost use Rattle.ngc_stock.specs.Discs.{BallInside, ConeInside};
ghost use Rattle.ngc_stock.specs.Feeds.{ClearFeed};
ghost use Rattle.ngc_stock.specs.Silence.{Silence};

/// States that no straight traverse meets material that the feeds before it have left, for each disc of
/// the cutter and each part above it, smaller by a margin and raised by a tolerance, if no traverse of the
/// commands is reported.
pub fn silence()
    ensures { Silence }
{}

/// States that along a straight feed no part above the cutter, smaller by a margin and raised by a
/// tolerance, meets material that the feeds up to this one have left, if the feed isn't reported and no
/// traverse before it is.
pub fn clear_feed()
    ensures { ClearFeed }
{}

/// States that no point of a stock is in the cutters of the tools before and after a tool change, if
/// the change isn't reported.
pub fn free_change()
    ensures { FreeChange }
{}

/// States the same of each tool change of a program, if none is reported.
pub fn free_changes()
    ensures { FreeChanges }
{}

/// States that no straight feed of a program cuts a point under a stock, if no feed below the stock's
/// bottom is reported.
pub fn all_above()
    ensures { AllAbove }
{}

/// States that what the discs of a straight feed's cutter, smaller by a margin, meet of the material that
/// the feeds before it have left is less than the feed's depth above the lower of its two tips, if no
/// traverse before it is reported.
pub fn cut_depth()
    ensures { CutDepth }
{}

/// States that the discs of a ball cutter are inside it.
pub fn ball_inside()
    ensures { BallInside }
{}

/// States that the discs of a vee or a drill are inside its cone, and above it.
pub fn cone_inside()
    ensures { ConeInside }
{}
