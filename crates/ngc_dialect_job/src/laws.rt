//! Laws about the definitions only.
ghost use Rattle.ngc_dialect_job.specs.Headline.{DialectHeadline};

/// States that if the checker refuses nothing of a certificate for the job of a program for another
/// control, every run of the machine is safe, at either setting of block delete and for every list
/// of events, as for a program in our own language.
pub fn dialect_headline()
    ensures { DialectHeadline }
{}
