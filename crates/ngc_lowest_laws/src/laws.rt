//! Laws about the definitions alone.
ghost use Rattle.ngc_lowest_laws.specs.Lowest.{LowestOfEach};

/// States that each lowest height is the height of some motion, that no motion in the same coordinate
/// system with the same tool has a lower one, and that each coordinate system and tool is listed once.
pub fn lowest_of_each()
    ensures { LowestOfEach }
{}
