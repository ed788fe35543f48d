//! What holds of the tool's places.
ghost use Rattle.ngc_compensation.specs.Laws.{OffsetsAreNear, CornersAreBeside};

/// States that a place beside a point is at the tool's radius from it, to 1 nm, and within 1 nm of
/// the line at a right angle to the move.
pub fn offsets_are_near()
    ensures { OffsetsAreNear }
{}

/// States that the moved end of a corner between two straight moves is at the tool's radius from
/// both of their lines, to 1 nm.
pub fn corners_are_beside()
    ensures { CornersAreBeside }
{}
