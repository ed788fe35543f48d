//! Refusals of lines beside a path.
ghost use Rattle.std.specs.Prelude.{◌≡◌};
ghost use Rattle.ngc_dialect_rules.specs.Faults.{about_code as about_code_here};
ghost use Rattle.ngc_dialect_rules.specs.declared.fault.Cause.TheVariants as causes;
ghost use Rattle.ngc_dialect_path.specs.Refusing as spec;

use crate::path::Path;
use crate::tables::{NOT_AT_START, NOT_BEFORE_LEAVING, NOT_WHILE_ON};
use ngc_compensation::Refusal;
use ngc_dialect_rules::{Cause, Code, Fault, about_code, code_in};

/// Returns a refusal of compensation as one about a code.
pub(crate) fn refused(code: Code, refusal: Refusal) -> Fault
    ensures { result ≡ about_code_here (causes.Compensation refusal) code }
{
    about_code(Cause::Compensation(refusal), code)
}

// Returns the codes that aren't allowed.
fn barred_codes(path: &Option<Path>) -> &'static [Code]
    ensures { result.now ≡ spec.barred_codes path.now }
{
    match path {
        None => &NOT_AT_START,
        Some(Path::On(_)) => &NOT_WHILE_ON,
        Some(Path::Left(_)) => &NOT_BEFORE_LEAVING,
    }
}

fn why_barred(path: &Option<Path>) -> Cause
    ensures { result ≡ spec.why_barred path.now }
{
    match path {
        Some(Path::Left(_)) => Cause::WhileLeaving,
        _ => Cause::WhileCompensating,
    }
}

/// Returns the refusal of the first code of a line that compensation doesn't allow there.
pub(crate) fn barred(path: &Option<Path>, line: &[Code]) -> Option<Fault>
    ensures { result ≡ spec.barred path.now line.now }
{
    match code_in(barred_codes(path), line) {
        None => None,
        Some(code) => Some(about_code(why_barred(path), code)),
    }
}
