//! Lines of one straight motion, which most lines are. Nothing is looked for on them that they can't
//! have.
ghost use Rattle.std.specs.Prelude.{◌≡◌, true, [], Ok, Err, None, IfErr, IfOk, IfSome};
ghost use Rattle.ngc_dialect_rules.specs.Moves.{has_axes as axes_found};
ghost use Rattle.ngc_dialect_rules.specs.Bytes as bytes;
ghost use Rattle.ngc_dialect_rules.specs.Plain.{a_word, ended, with_action, with_word};
ghost use Rattle.ngc_dialect_rules.specs.Rules.{lines_of, minute_feed, plain_lines};
ghost use Rattle.ngc_dialect_rules.specs.Straight as spec;
ghost use Rattle.ngc_dialect_rules.specs.Words.{amount, repeated};
ghost use Rattle.ngc_fixed_length.specs.declared.points.Point3.{Point3};
ghost use Rattle.ngc_line_reader.specs.Scan.{Gives};
ghost use Rattle.ngc_line_reader.specs.declared.letter.Letter.TheVariants as letters;
ghost use Rattle.ngc_offsets.specs.declared.frames.Frames.{Frames};

use crate::action::straight;
use crate::code::Code;
use crate::fault::Fault;
use crate::front::Known;
use crate::moves::has_axes;
use crate::plain::{PlainLines, a_word, add, add_action, end_line};
use crate::plan::{Action, InForce};
use crate::rules::minute_feed;
use crate::word::{add_codes, amount, repeated};
use arrayvec::ArrayVec;
use ngc_dialect_parameters::Word;
use ngc_fixed_length::Value;
use ngc_line_reader::Letter;

/// What a line of one straight motion does besides its plain line. Neither a cycle nor cutter
/// compensation begins on it.
#[derive(Clone, Copy)]
pub struct StraightLine {
    /// The code, which is in force after the line.
    pub code: Code,
    /// The feed after the line, as it was written.
    pub feed: Option<Value>,
    /// Whether the series of canned cycles goes on.
    pub keeps_series: bool,
}

// Returns whether a line has no other letters than F, G, X, Y and Z.
fn are_motion_words(words: &[Word]) -> bool
    ensures { result ≡ spec.are_motion_words words.now }
{
    words.iter().all(|word| matches!(word.letter, b'F' | b'G' | b'X' | b'Y' | b'Z'))
}

// Returns the code of a straight motion that is the line's only code, or that is in force if the
// line has none.
fn only_code(known: &Known, line: &[Code]) -> Option<Code>
    ensures { IfSome result (λ c. spec.IsOnlyCode known.now line.now c) }
{
    match line {
        [Code::G(0)] => Some(Code::G(0)),
        [Code::G(10)] => Some(Code::G(10)),
        [] => match known.front.motion {
            Some(Code::G(0)) => Some(Code::G(0)),
            Some(Code::G(10)) => Some(Code::G(10)),
            _ => None,
        },
        _ => None,
    }
}

// Returns what is in force for the motion of a line with this F.
fn force_with(known: &Known, f: &Option<Value>) -> InForce
    ensures { result ≡ spec.force_with f.now known.now }
{
    let feed = match f {
        Some(f) => Some(*f),
        None => known.front.feed,
    };
    InForce {
        units: known.modes.units,
        distance: known.modes.distance,
        feed_mode: known.modes.feed_mode,
        feed,
        length: known.front.length,
    }
}

// Writes the plain line of a straight motion.
fn write_line(lines: &mut PlainLines, known: &Known, f: &Option<Value>, action: &Action)
    ensures { lines.new.items ≡ ended (with_action known.now.modes.units action.now
        (with_word (a_word letters.F (minute_feed known.now.modes.feed_mode f.now)) [])) }
{
    lines.clear();
    add(
        lines,
        a_word(Letter::F, minute_feed(known.modes.feed_mode, *f)),
    );
    add_action(lines, known.modes.units, action);
    end_line(lines);
}

// Puts the plain line of a straight motion into `lines`. The value of F is `f`.
fn write_motion(
    known: &Known,
    line: &[Code],
    words: &[Word],
    code: Code,
    f: &Option<Value>,
    lines: &mut PlainLines,
) -> Result<StraightLine, Fault>
    requires code { spec.IsOnlyCode known.now line.now code }
    requires words { spec.are_motion_words words.now ≡ true }
    requires axes { axes_found known.now.dialect line.now words.now ≡ true }
    requires once { repeated words.now ≡ None }
    requires feed { amount bytes.F words.now ≡ Ok f.now }
    ensures { (frames : Frames) → (place : Point3)
        → Gives (λ made. (spec.straight_result made known.now.front, lines.new.items)) result
        (lines_of (spec.elsewhere frames place known.now) line.now words.now) }
{
    let force = force_with(known, f);
    match straight(known, line, words, &force, *f, code) {
        Ok(action) => {
            write_line(lines, known, f, &action);
            Ok(StraightLine {
                code,
                feed: force.feed,
                keeps_series: line.is_empty(),
            })
        }
        Err(fault) => Err(fault),
    }
}

// Puts the plain line of a straight motion into `lines`.
fn write_straight(
    known: &Known,
    line: &[Code],
    words: &[Word],
    code: Code,
    lines: &mut PlainLines,
) -> Result<StraightLine, Fault>
    requires code { spec.IsOnlyCode known.now line.now code }
    requires words { spec.are_motion_words words.now ≡ true }
    requires axes { axes_found known.now.dialect line.now words.now ≡ true }
    requires once { repeated words.now ≡ None }
    ensures { (frames : Frames) → (place : Point3)
        → Gives (λ made. (spec.straight_result made known.now.front, lines.new.items)) result
        (lines_of (spec.elsewhere frames place known.now) line.now words.now) }
{
    match amount(b'F', words) {
        Ok(f) => write_motion(known, line, words, code, &f, lines),
        Err(fault) => Err(fault),
    }
}

/// Puts the plain line of a line of words into `lines`, if the line is one straight motion, which most
/// lines are. The line is that of `plain_lines` wherever the origins and the axes are. Returns `None` for
/// another line, and for some lines of one straight motion; the contents of `lines` are then unspecified.
/// A refusal is that of `plain_lines`.
pub fn straight_motion(
    known: &Known,
    words: &[Word],
    lines: &mut PlainLines,
) -> Result<Option<StraightLine>, Fault>
    ensures line { IfOk result (λ found. IfSome found (λ made. (frames : Frames) → (place : Point3)
        → plain_lines (spec.elsewhere frames place known.now) words.now
        ≡ Ok (spec.straight_result made known.now.front, lines.new.items))) }
    ensures refused { IfErr result (λ fault. (frames : Frames) → (place : Point3)
        → plain_lines (spec.elsewhere frames place known.now) words.now ≡ Err fault) }
{
    if !are_motion_words(words) {
        return Ok(None);
    }
    let mut codes: ArrayVec<Code, 24> = ArrayVec::new();
    match add_codes(known.dialect, words, &mut codes) {
        Ok(()) => {}
        Err(fault) => return Err(fault),
    }
    let line = codes.as_slice();
    let Some(code) = only_code(known, line) else {
        return Ok(None);
    };
    if has_axes(known.dialect, line, words) && repeated(words).is_none() {
        match write_straight(known, line, words, code, lines) {
            Ok(made) => Ok(Some(made)),
            Err(fault) => Err(fault),
        }
    } else {
        Ok(None)
    }
}
