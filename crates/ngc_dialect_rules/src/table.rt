//! The codes of a line: their modal groups, and those that a dialect lacks.
ghost use Rattle.std.specs.Prelude.{◌≡◌, count_by};
ghost use Rattle.ngc_dialect_rules.specs.Tables as spec;
ghost use Rattle.ngc_line_reader.specs.Scan.{Gives};

use crate::code::Code;
use crate::codes;
use crate::fault::{Cause, Fault, LeftOut, about_code};
use arrayvec::ArrayVec;
use ngc_dialect_names::Dialect;

/// Returns whether a code is in a table.
#[tactic(auto, unfolding(crate::specs::Tables::is_among))]
pub fn is_among(table: &[Code], code: Code) -> bool
    ensures { result ≡ spec.is_among table.now code }
{
    table.iter().any(|c| c.is(code))
}

/// Returns the first code of a line that is in a table.
#[tactic(auto, unfolding(crate::specs::Tables::code_in))]
pub fn code_in(table: &[Code], line: &[Code]) -> Option<Code>
    ensures { result ≡ spec.code_in table.now line.now }
{
    line.iter().copied().find(|c| is_among(table, *c))
}

/// Returns whether a line has a code of a table.
pub fn has(table: &[Code], line: &[Code]) -> bool
    ensures { result ≡ spec.has table.now line.now }
{
    code_in(table, line).is_some()
}

// Returns the codes of a code's modal group, which are none for a code that may be beside any
// other.
#[tactic(auto, unfolding(crate::specs::Tables::group_of))]
fn group_of(code: Code) -> &'static [Code]
    ensures { result.now ≡ spec.group_of code }
{
    if is_among(&codes::MOTIONS, code) {
        &codes::MOTIONS
    } else if is_among(&codes::MOTION_END, code) {
        &codes::MOTION_END
    } else if is_among(&codes::PLANES, code) {
        &codes::PLANES
    } else if is_among(&codes::DISTANCES, code) {
        &codes::DISTANCES
    } else if is_among(&codes::CENTRES, code) {
        &codes::CENTRES
    } else if is_among(&codes::FEED_MODES, code) {
        &codes::FEED_MODES
    } else if is_among(&codes::UNITS, code) {
        &codes::UNITS
    } else if is_among(&codes::COMPENSATIONS, code) {
        &codes::COMPENSATIONS
    } else if is_among(&codes::LENGTHS, code) {
        &codes::LENGTHS
    } else if is_among(&codes::RETRACTS, code) {
        &codes::RETRACTS
    } else if is_among(&codes::SYSTEMS, code) {
        &codes::SYSTEMS
    } else if is_among(&codes::PATHS, code) {
        &codes::PATHS
    } else if is_among(&codes::NON_MODAL, code) {
        &codes::NON_MODAL
    } else if is_among(&codes::STOPS, code) {
        &codes::STOPS
    } else if is_among(&codes::TOOL_CHANGE, code) {
        &codes::TOOL_CHANGE
    } else if is_among(&codes::SPINDLE, code) {
        &codes::SPINDLE
    } else if is_among(&codes::COOLANT, code) {
        &codes::COOLANT
    } else if is_among(&codes::OVERRIDES, code) {
        &codes::OVERRIDES
    } else {
        &[]
    }
}

fn is_m(code: Code) -> bool
    ensures { result ≡ spec.is_m code }
{
    matches!(code, Code::M(_))
}

#[tactic(auto, unfolding(crate::specs::Tables::lacks))]
fn lacks(dialect: Dialect, code: Code) -> bool
    ensures { result ≡ spec.lacks dialect code }
{
    match dialect {
        Dialect::LinuxCnc => is_among(&codes::NOT_LINUXCNC, code),
        Dialect::Grbl => is_among(&codes::NOT_GRBL, code),
        Dialect::Mach3 => is_among(&codes::NOT_MACH3, code),
        Dialect::Fanuc => is_among(&codes::NOT_FANUC, code),
    }
}

/// Returns whether a dialect is Fanuc's.
pub fn is_fanuc(dialect: Dialect) -> bool
    ensures { result ≡ spec.is_fanuc dialect }
{
    matches!(dialect, Dialect::Fanuc)
}

/// Returns whether a dialect is LinuxCNC's.
pub fn is_linuxcnc(dialect: Dialect) -> bool
    ensures { result ≡ spec.is_linuxcnc dialect }
{
    matches!(dialect, Dialect::LinuxCnc)
}

// Returns the motion that our own language doesn't have.
#[tactic(auto, unfolding(crate::specs::Tables::left_out_motion))]
fn left_out_motion(dialect: Dialect, code: Code) -> Option<LeftOut>
    ensures { result ≡ spec.left_out_motion dialect code }
{
    if is_among(&codes::TAPPING, code) {
        Some(LeftOut::Tapping)
    } else if is_among(&codes::BACK_BORING, code) {
        Some(LeftOut::BackBoring)
    } else if is_among(&codes::THREADS, code) {
        Some(LeftOut::Threads)
    } else if is_among(&codes::PROBING, code) {
        Some(LeftOut::Probing)
    } else if !is_fanuc(dialect) && is_among(&codes::SPLINES, code) {
        Some(LeftOut::Splines)
    } else {
        None
    }
}

// Returns the mode that our own language doesn't have.
#[tactic(auto, unfolding(crate::specs::Tables::left_out_mode))]
fn left_out_mode(dialect: Dialect, code: Code) -> Option<LeftOut>
    ensures { result ≡ spec.left_out_mode dialect code }
{
    if is_among(&codes::ROTATION, code) {
        Some(LeftOut::Rotation)
    } else if is_among(&codes::POLAR, code) {
        Some(LeftOut::Polar)
    } else if is_among(&codes::MORE_SYSTEMS, code) {
        Some(LeftOut::MoreSystems)
    } else if is_among(&codes::FEED_PER_TURN, code) {
        Some(LeftOut::FeedPerTurn)
    } else if is_among(&codes::DIAMETERS, code) {
        Some(LeftOut::Diameters)
    } else if is_among(&codes::SECOND_OFFSET, code) {
        Some(LeftOut::SecondOffset)
    } else if !is_linuxcnc(dialect) && is_among(&codes::COMPENSATION, code) {
        Some(LeftOut::Compensation)
    } else {
        None
    }
}

// Returns what an M code does that our own language doesn't have.
#[tactic(auto, unfolding(crate::specs::Tables::left_out_switch))]
fn left_out_switch(code: Code) -> Option<LeftOut>
    ensures { result ≡ spec.left_out_switch code }
{
    if is_among(&codes::SPINDLE_ANGLE, code) {
        Some(LeftOut::SpindleAngle)
    } else if is_among(&codes::OUTPUTS, code) {
        Some(LeftOut::Outputs)
    } else if is_among(&codes::TOOL_IN_SPINDLE, code) {
        Some(LeftOut::ToolInSpindle)
    } else if is_among(&codes::MODE_SAVING, code) {
        Some(LeftOut::ModeSaving)
    } else if is_among(&codes::CALLS, code) {
        Some(LeftOut::Calls)
    } else {
        None
    }
}

fn left_out(dialect: Dialect, code: Code) -> Option<LeftOut>
    ensures { result ≡ spec.left_out dialect code }
{
    match left_out_motion(dialect, code) {
        Some(what) => Some(what),
        None => match left_out_mode(dialect, code) {
            Some(what) => Some(what),
            None => left_out_switch(code),
        },
    }
}

fn has_meaning(code: Code) -> bool
    ensures { result ≡ spec.has_meaning code }
{
    !group_of(code).is_empty() || is_among(&codes::IDLE, code) || is_among(&codes::TOLD, code)
}

/// Returns a code that the dialect has, or why it is refused.
#[tactic(auto, using(crate::proofs::Frequent::known_straight), unfolding(crate::specs::Tables::known_code))]
pub(crate) fn known_code(dialect: Dialect, code: Code) -> Result<Code, Fault>
    ensures { result ≡ spec.known_code dialect code }
{
    // Each dialect has the most frequent codes.
    if matches!(code, Code::G(0) | Code::G(10)) {
        return Ok(code);
    }
    if lacks(dialect, code) {
        return Err(about_code(Cause::UnknownCode, code));
    }
    match left_out(dialect, code) {
        Some(what) => Err(about_code(Cause::LeftOut(what), code)),
        None => {
            if has_meaning(code) {
                Ok(code)
            } else {
                Err(about_code(Cause::UnknownCode, code))
            }
        }
    }
}

fn m_codes(line: &[Code]) -> usize
    ensures { result ≡ count_by spec.is_m line.now }
{
    line.iter().filter(|c| is_m(**c)).count()
}

/// Adds a code to those of a line, or refuses it: the second of a modal group, a fifth M code, or a
/// 25th code.
#[tactic(auto, using(crate::proofs::Frequent::joined_empty), unfolding(crate::specs::Tables::joined))]
pub(crate) fn join(code: Code, line: &mut ArrayVec<Code, 24>) -> Result<(), Fault>
    ensures { Gives (λ _. line.new.items) result (spec.joined code line.old.items) }
{
    if line.is_empty() {
        line.push(code);
        return Ok(());
    }
    if has(group_of(code), line.as_slice()) {
        return Err(about_code(Cause::GroupTwice, code));
    }
    if is_m(code) && m_codes(line.as_slice()) >= 4 {
        return Err(about_code(Cause::TooManyMCodes, code));
    }
    if line.is_full() {
        return Err(about_code(Cause::TooManyCodes, code));
    }
    line.push(code);
    Ok(())
}
