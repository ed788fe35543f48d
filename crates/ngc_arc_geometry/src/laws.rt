//! Laws about the definitions only.
ghost use Rattle.ngc_arc_geometry.specs.ArcPath.{FollowingIsWeak};
ghost use Rattle.ngc_arc_geometry.specs.CutArc.{CoveredByCuts};

/// States that a path that follows an arc stays in the arc's swept box.
pub fn weak_path()
    ensures { FollowingIsWeak }
{}

/// States that each point of a path that follows a cut arc lies in the box of one of its pieces.
pub fn covered_by_cuts()
    ensures { CoveredByCuts }
{}
