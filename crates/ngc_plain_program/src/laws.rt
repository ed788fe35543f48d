//! Laws about the definitions alone.
ghost use Rattle.ngc_plain_program.specs.Programs.{PrintedProgramsAreSame};

/// States that the text of a program's plain lines, if it can be printed, has the program's actions in
/// our own language, at both settings of block delete.
pub fn printed_programs_are_same()
    ensures { PrintedProgramsAreSame }
{}
