//! What a series of cycles keeps: the words of its lines, as numbers in units of the program.
ghost use Rattle.std.specs.Prelude.{◌≡◌};
ghost use Rattle.ngc_dialect_drilling.specs.Kept as spec;

use crate::heights::level_here;
use crate::places::depth_letter;
use ngc_dialect_names::Dialect;
use ngc_dialect_numbers::Number;
use ngc_dialect_parameters::Word;
use ngc_dialect_rules::{
    Cause, Code, Fault, KeptSeries, Known, about_code, seconds, value_of, word_of,
};
use ngc_fixed_length::Value;

// Returns whether another code of a series needs R, the depth, P and Q again.
fn needs_words_again(dialect: Dialect) -> bool
    ensures { result ≡ spec.needs_words_again dialect }
{
    matches!(dialect, Dialect::LinuxCnc | Dialect::Grbl)
}

// Returns the series whose words a line may leave out.
fn kept_for(dialect: Dialect, code: Code, series: &Option<KeptSeries>) -> Option<KeptSeries>
    ensures { result ≡ spec.kept_for dialect code series.now }
{
    match series {
        None => None,
        Some(kept) => {
            if kept.code.is(code) || !needs_words_again(dialect) {
                Some(*kept)
            } else {
                None
            }
        }
    }
}

// Returns a number of the line, or the kept one.
fn or_kept(given: Option<Number>, kept: Option<Number>) -> Option<Number>
    ensures { result ≡ spec.or_kept given kept }
{
    match given {
        Some(value) => Some(value),
        None => kept,
    }
}

// Returns a word that each cycle needs.
fn needed(code: Code, word: Option<Number>) -> Result<Number, Fault>
    ensures { result ≡ spec.needed code word }
{
    match word {
        Some(value) => Ok(value),
        None => Err(about_code(Cause::WordMissing, code)),
    }
}

fn retract_in(kept: &Option<KeptSeries>) -> Option<Number>
    ensures { result ≡ spec.retract_in kept.now }
{
    match kept {
        Some(kept) => Some(kept.retract),
        None => None,
    }
}

fn depth_in(kept: &Option<KeptSeries>) -> Option<Number>
    ensures { result ≡ spec.depth_in kept.now }
{
    match kept {
        Some(kept) => Some(kept.depth),
        None => None,
    }
}

fn dwell_in(kept: &Option<KeptSeries>) -> Option<Value>
    ensures { result ≡ spec.dwell_in kept.now }
{
    match kept {
        Some(kept) => kept.dwell,
        None => None,
    }
}

fn peck_in(kept: &Option<KeptSeries>) -> Option<Number>
    ensures { result ≡ spec.peck_in kept.now }
{
    match kept {
        Some(kept) => kept.peck,
        None => None,
    }
}

// Returns P in seconds, or the kept one.
fn dwell_after(dialect: Dialect, words: &[Word], kept: Option<Value>) -> Option<Value>
    ensures { result ≡ spec.or_kept (spec.dwell_on dialect words.now) kept }
{
    match word_of(b'P', words) {
        Some(word) => Some(seconds(dialect, &word)),
        None => kept,
    }
}

// Returns the initial level: that of the series, or the height here.
fn level_of(known: &Known) -> Result<Number, Fault>
    ensures { result ≡ spec.level_of known.now }
{
    match &known.front.series {
        Some(series) => Ok(series.level),
        None => level_here(known),
    }
}

/// Returns what the series keeps after a line of this code, or the first word that is missing.
#[tactic(auto, unfolding(crate::specs::Kept::kept_after))]
pub fn kept_after(known: &Known, code: Code, words: &[Word]) -> Result<KeptSeries, Fault>
    ensures { result ≡ spec.kept_after known.now code words.now }
{
    let kept = kept_for(known.dialect, code, &known.front.series);
    let letter = depth_letter(known.modes.plane);
    let retract = needed(code, or_kept(value_of(b'R', words), retract_in(&kept)))?;
    let depth = needed(code, or_kept(value_of(letter, words), depth_in(&kept)))?;
    let level = level_of(known)?;
    Ok(KeptSeries {
        code,
        level,
        retract,
        depth,
        dwell: dwell_after(known.dialect, words, dwell_in(&kept)),
        peck: or_kept(value_of(b'Q', words), peck_in(&kept)),
    })
}
