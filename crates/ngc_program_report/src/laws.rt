//! A law about the definitions only.
ghost use Rattle.ngc_program_report.specs.JobReports.{ValidStaysInside};

/// States that no margin in the report of a program with a valid certificate is negative: the box
/// of each piece lies within the travel limits.
pub fn valid_stays_inside()
    ensures { ValidStaysInside }
{}
