//! Laws about the definitions only.
ghost use Rattle.ngc_checker.specs.CheckView.{VerdictIsAnswer};
ghost use Rattle.ngc_checker.specs.Validity.{NoneRefusedIsValid};

/// States that nothing is refused if and only if the certificate is valid for the program at both
/// settings of block delete.
pub fn none_refused_is_valid()
    ensures { NoneRefusedIsValid }
{}

/// States that the result of a reader of pieces is the result of `check` for the certificate in all
/// of them joined, or the fault of their text.
pub fn verdict_is_answer()
    ensures { VerdictIsAnswer }
{}
