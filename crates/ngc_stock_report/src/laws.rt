//! The law of a report that says nothing of material.
ghost use Rattle.ngc_stock_report.specs.Silent.{DeepestReport, RemainsReport, SilentFeeds, SilentReport, SureReport};
ghost use Rattle.ngc_stock_report.specs.Uncut.{UncutBlock};

/// States that if a walk over a program's commands finds no traverse, no straight traverse meets material
/// that the feeds before it have left, for each disc of the cutter and each part above it, smaller by a margin and
/// raised by a tolerance. So it is for every number of cells, here and below; the margin is that of the cells.
pub fn silent_report()
    ensures { SilentReport }
{}

/// States that if it finds no feed, no part above the cutter meets along a straight feed or chords of an arc what
/// the feeds up to this one, and the reported traverses before it, have left.
pub fn silent_feeds()
    ensures { SilentFeeds }
{}

/// States that what the discs of a straight feed's cutter, smaller by a margin, meet of the material that the
/// feeds and the reported traverses before it have left is less than the depth of its tool, which the
/// report names, above the lower of the feed's two tips.
pub fn deepest_report()
    ensures { DeepestReport }
{}

/// States that if a report warns that no feed cuts the block of material, no straight feed of the program cuts a
/// point below the block's top in one of its cells.
pub fn uncut_block()
    ensures { UncutBlock }
{}

/// States that of the material which the feeds and the reported traverses leave, no point is as high as the height
/// that the walk keeps for its cell.
pub fn remains_report()
    ensures { RemainsReport }
{}

/// States that a traverse of which a report says that it goes through material does so, by the depth that the
/// report names at least: at the place that it names, the material is of the block, and no motion before the
/// traverse has swept it.
pub fn sure_report()
    ensures { SureReport }
{}
