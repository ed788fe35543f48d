//! What holds of arcs that aren't refused.
ghost use Rattle.ngc_dialect_arcs.specs.Laws.{EvenedAreAlike, ArcsAreTaken, CentresStayNear};

/// States that the radii at start and end of an evened arc differ by at most 2 nm.
pub fn evened_are_alike()
    ensures { EvenedAreAlike }
{}

/// States that our own language takes each arc, with the centre that was computed for it.
pub fn arcs_are_taken()
    ensures { ArcsAreTaken }
{}

/// States that a centre given by offsets moves by at most 0.025 mm along each axis.
pub fn centres_stay_near()
    ensures { CentresStayNear }
{}
