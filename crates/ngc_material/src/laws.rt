//! Laws about what a walk reports.
ghost use Rattle.ngc_material.specs.Cuts.{DeepestCuts};
ghost use Rattle.ngc_material.specs.Remains.{Remains};
ghost use Rattle.ngc_material.specs.Silences.{ClearFeeds, Clearness, Nothing, Unreported};

/// States that a disc or a part of a tool may touch no material in a traverse exactly if no cell is in its
/// way.
pub fn clearness()
    ensures { Clearness }
{}

/// States that a program of which a walk reports no traverse is silent, as the law of silence needs it.
pub fn nothing()
    ensures { Nothing }
{}

/// States that each straight traverse that a walk doesn't report meets no material that the feeds and
/// the reported traverses before it have left, for each disc of the cutter and each part above it, smaller
/// by a margin and raised by a tolerance.
pub fn unreported()
    ensures { Unreported }
{}

/// States that if a walk reports no feed, no part above the cutter, smaller by a margin and raised by a
/// tolerance, meets along a straight feed, or along chords of an arc, material that the feeds up to this one, and the reported
/// traverses before it, have left.
pub fn clear_feeds()
    ensures { ClearFeeds }
{}

/// States that what the discs of a straight feed's cutter, smaller by a margin, meet of the material that the
/// feeds and the reported traverses before it have left is less than the depth of its tool's cut above
/// the lower of the feed's two tips.
pub fn deepest_cuts()
    ensures { DeepestCuts }
{}

/// States that of the material which the feeds of a program leave, none of whose traverses may touch any, no point
/// is as high as the height that is kept for its cell. A reported traverse counts as a feed.
pub fn remains()
    ensures { Remains }
{}
