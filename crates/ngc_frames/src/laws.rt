//! Laws about the definitions alone.
ghost use Rattle.ngc_frames.specs.Laws.{NamesItsPoints};

/// States that the machine point of a program's absolute coordinates has these program coordinates.
pub fn names_its_points()
    ensures { NamesItsPoints }
{}
