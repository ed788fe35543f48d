//! Laws about the definitions only.
ghost use Rattle.ngc_run_through.specs.Counting.{EqualMotorsKeep};

/// States that outcomes are written as they are if all motors have the grid's step, and each
/// position that is reported differs from the one before it: their counts are the path's positions.
pub fn equal_motors_keep_a_run()
    ensures { EqualMotorsKeep }
{}
