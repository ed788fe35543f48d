//! The motion that a line makes, and the words that nothing uses.
ghost use Rattle.std.specs.Prelude.{◌≡◌};
ghost use Rattle.ngc_dialect_rules.specs.Moves as spec;
ghost use Rattle.ngc_dialect_rules.specs.Tables as tables;
ghost use Rattle.ngc_dialect_rules.specs.Tables.{or_else};
ghost use Rattle.ngc_dialect_rules.specs.declared.codes.TheConstants as codes;

use crate::code::Code;
use crate::codes;
use crate::fault::{Cause, Fault, about_code, about_letter};
use crate::front::Known;
use crate::plan::InForce;
use crate::table::{code_in, has, is_among, is_fanuc, is_linuxcnc};
use crate::word::has_letter;
use ngc_dialect_names::Dialect;
use ngc_dialect_parameters::Word;
use ngc_fixed_length::Distance;

fn dwells_by_axis(dialect: Dialect, line: &[Code], words: &[Word]) -> bool
    ensures { result ≡ spec.dwells_by_axis dialect line.now words.now }
{
    is_fanuc(dialect)
        && has(&codes::DWELL, line)
        && (has_letter(b'X', words) || has_letter(b'U', words))
}

/// Returns whether a line has axis words for a motion.
#[tactic(auto, unfolding(crate::specs::Moves::has_axes))]
pub(crate) fn has_axes(dialect: Dialect, line: &[Code], words: &[Word]) -> bool
    ensures { result ≡ spec.has_axes dialect line.now words.now }
{
    !dwells_by_axis(dialect, line, words)
        && (has_letter(b'X', words) || has_letter(b'Y', words) || has_letter(b'Z', words))
}

fn first_axis(words: &[Word]) -> u8
    ensures { result ≡ spec.first_axis words.now }
{
    if has_letter(b'X', words) {
        b'X'
    } else if has_letter(b'Y', words) {
        b'Y'
    } else {
        b'Z'
    }
}

fn has_offsets(words: &[Word]) -> bool
    ensures { result ≡ spec.has_offsets words.now }
{
    has_letter(b'I', words) || has_letter(b'J', words) || has_letter(b'K', words)
}

// Returns whether a code is an arc's, and a line has words for one.
fn has_arc_words(code: Code, words: &[Word]) -> bool
    ensures { result ≡ spec.has_arc_words code words.now }
{
    is_among(&codes::ARCS, code) && (has_offsets(words) || has_letter(b'R', words))
}

// Returns whether a line's offsets alone make an arc.
#[tactic(auto, unfolding(crate::specs::Moves::goes_on))]
fn goes_on(known: &Known, line: &[Code], words: &[Word]) -> bool
    ensures { result ≡ spec.goes_on known.now line.now words.now }
{
    is_one_of(&codes::ARCS, known.front.motion)
        && has_offsets(words)
        && !has(&codes::MOTION_END, line)
        && !has(&codes::TAKE_AXES, line)
}

fn moved_by_code(
    dialect: Dialect,
    line: &[Code],
    axes: bool,
    code: Code,
) -> Result<Option<Code>, Fault>
    ensures { result ≡ spec.moved_by_code dialect line.now axes code }
{
    if axes && has(&codes::WORD_LENGTH, line) {
        return Err(about_code(Cause::MotionBesideLength, code));
    }
    if axes && has(&codes::TAKE_AXES, line) {
        if is_linuxcnc(dialect) {
            return Err(about_code(Cause::AxesTwice, code));
        }
        return Ok(None);
    }
    if axes { Ok(Some(code)) } else { Ok(None) }
}

fn moved_without_code(
    known: &Known,
    line: &[Code],
    words: &[Word],
    axes: bool,
) -> Result<Option<Code>, Fault>
    ensures { result ≡ spec.moved_without_code known.now line.now words.now axes }
{
    if !axes {
        return Ok(None);
    }
    if has(&codes::TAKE_AXES, line) {
        if has(&codes::WORD_LENGTH, line) {
            return Err(about_code(Cause::AxesTwice, Code::G(431)));
        }
        return Ok(None);
    }
    if has(&codes::MOTION_END, line) {
        return Err(about_letter(Cause::AxesBesideEnd, first_axis(words)));
    }
    if has(&codes::WORD_LENGTH, line) {
        return Ok(None);
    }
    match known.front.motion {
        Some(code) => Ok(Some(code)),
        None => Err(about_letter(Cause::NoMotionCode, first_axis(words))),
    }
}

/// Returns the code of the motion that a line makes, if it makes one.
#[tactic(auto, unfolding(crate::specs::Moves::motion_of))]
pub(crate) fn motion_of(known: &Known, line: &[Code], words: &[Word]) -> Result<Option<Code>, Fault>
    ensures { result ≡ spec.motion_of known.now line.now words.now }
{
    let axes = has_axes(known.dialect, line, words);
    match code_in(&codes::MOTIONS, line) {
        Some(code) => {
            let moves = axes || has_arc_words(code, words);
            moved_by_code(known.dialect, line, moves, code)
        }
        None => moved_without_code(known, line, words, axes || goes_on(known, line, words)),
    }
}

/// Returns whether lengths are relative to the current point.
pub(crate) fn is_incremental(distance: Distance) -> bool
    ensures { result ≡ spec.is_incremental distance }
{
    matches!(distance, Distance::Incremental)
}

fn mode_after(known: &Known, line: &[Code]) -> Option<Code>
    ensures { result ≡ or_else (tables.code_in codes.MOTIONS line.now) known.now.front.motion }
{
    match code_in(&codes::MOTIONS, line) {
        Some(code) => Some(code),
        None => known.front.motion,
    }
}

/// Returns why G53 is refused, if it is.
#[tactic(auto, unfolding(crate::specs::Moves::machine_place_fault))]
pub(crate) fn machine_place_fault(known: &Known, line: &[Code], force: &InForce) -> Option<Fault>
    ensures { result ≡ spec.machine_place_fault known.now line.now force.now }
{
    if !has(&codes::MACHINE_PLACE, line) {
        return None;
    }
    if is_linuxcnc(known.dialect) && !is_one_of(&codes::STRAIGHT, mode_after(known, line)) {
        return Some(about_code(Cause::NotStraight, Code::G(530)));
    }
    if (is_linuxcnc(known.dialect) || is_fanuc(known.dialect)) && is_incremental(force.distance) {
        return Some(about_code(Cause::MachinePlaceInG91, Code::G(530)));
    }
    None
}

fn is_one_of(table: &[Code], code: Option<Code>) -> bool
    ensures { result ≡ spec.is_one_of table.now code }
{
    match code {
        None => false,
        Some(code) => is_among(table, code),
    }
}

#[tactic(auto, unfolding(crate::specs::Moves::is_idle))]
fn is_idle(users: &[Code], letter: u8, line: &[Code], moves: Option<Code>, words: &[Word]) -> bool
    ensures { result ≡ spec.is_idle users.now letter line.now moves words.now }
{
    has_letter(letter, words) && !(has(users, line) || is_one_of(users, moves))
}

pub(crate) fn counts_turns(dialect: Dialect) -> bool
    ensures { result ≡ spec.counts_turns dialect }
{
    matches!(dialect, Dialect::LinuxCnc | Dialect::Grbl)
}

fn is_idle_p(dialect: Dialect, line: &[Code], moves: Option<Code>, words: &[Word]) -> bool
    ensures { result ≡ spec.is_idle (spec.users_of_p dialect) 80 line.now moves words.now }
{
    if counts_turns(dialect) {
        is_idle(&codes::P_USERS, b'P', line, moves, words)
    } else {
        is_idle(&codes::P_USERS_WITHOUT_TURNS, b'P', line, moves, words)
    }
}

// Returns a letter that is on the line and that nothing uses.
#[tactic(auto, unfolding(crate::specs::Moves::idle_letter))]
fn idle_letter(dialect: Dialect, line: &[Code], moves: Option<Code>, words: &[Word]) -> Option<u8>
    ensures { result ≡ spec.idle_letter dialect line.now moves words.now }
{
    if is_idle_p(dialect, line, moves, words) {
        Some(b'P')
    } else if is_idle(&codes::Q_USERS, b'Q', line, moves, words) {
        Some(b'Q')
    } else if is_idle(&codes::R_USERS, b'R', line, moves, words) {
        Some(b'R')
    } else if is_idle(&codes::L_USERS, b'L', line, moves, words) {
        Some(b'L')
    } else if is_idle(&codes::H_USERS, b'H', line, moves, words) {
        Some(b'H')
    } else if is_idle(&codes::D_USERS, b'D', line, moves, words) {
        Some(b'D')
    } else if has_letter(b'E', words) {
        Some(b'E')
    } else if is_idle(&codes::I_USERS, b'I', line, moves, words) {
        Some(b'I')
    } else if is_idle(&codes::I_USERS, b'J', line, moves, words) {
        Some(b'J')
    } else if is_idle(&codes::K_USERS, b'K', line, moves, words) {
        Some(b'K')
    } else {
        None
    }
}

fn refuses_idle(dialect: Dialect) -> bool
    ensures { result ≡ spec.refuses_idle dialect }
{
    matches!(dialect, Dialect::LinuxCnc | Dialect::Grbl)
}

/// Returns the refusal of a word that nothing uses, in a dialect that refuses it.
#[tactic(auto, unfolding(crate::specs::Moves::idle_fault))]
pub(crate) fn idle_fault(
    dialect: Dialect,
    line: &[Code],
    moves: Option<Code>,
    words: &[Word],
) -> Option<Fault>
    ensures { result ≡ spec.idle_fault dialect line.now moves words.now }
{
    if !refuses_idle(dialect) {
        return None;
    }
    match idle_letter(dialect, line, moves, words) {
        None => None,
        Some(letter) => Some(about_letter(Cause::NoUse, letter)),
    }
}
