//! Laws about the definitions only.
ghost use Rattle.ngc_motor_laws.specs.Calls.{BuiltInFits, FilesFit};
ghost use Rattle.ngc_motor_laws.specs.Commanded.{CommandedIsSafe, CommandedRunsSafely};

/// States that motors with steps of their own command only safe positions, if fixtures are kept off
/// by half of the longest step and the travel ends at whole steps of each motor: wherever the path
/// is safe, the position that the motors' counts command is within the travel limits, and the tool
/// there is clear of every fixture. So it is in each state of a safe run.
pub fn commanded_positions_are_safe()
    ensures positions { CommandedIsSafe }
    ensures runs { CommandedRunsSafely }
{}

/// States that the machine of each call is such a machine, whatever its file and its options say: one
/// of a file, or the one without a file.
pub fn machines_of_calls_fit()
    ensures files { FilesFit }
    ensures built_in { BuiltInFits }
{}
