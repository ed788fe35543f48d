//! A line's codes and words, where compensation is on, begins or ends.
ghost use Rattle.std.specs.Prelude.{◌≡◌, ◌≤◌, IfOk};
ghost use Rattle.arrayvec.specs.ArrayVec.{array_vec_len};
ghost use Rattle.ngc_line_reader.specs.Scan.{Gives};
ghost use Rattle.ngc_dialect_path.specs.Lines as spec;

use crate::path::Path;
use crate::refusing::barred;
use crate::tables::BY_DIAMETER;
use arrayvec::ArrayVec;
use ngc_dialect_parameters::Word;
use ngc_dialect_rules::{
    Action, Cause, Code, Fault, Front, InForce, Known, PlainLines, Plan, about_code, add_codes,
    add_feed, code_in, codes, count, end_line, front_after, has, is_among, line_plan, word_length,
    write_modes,
};
use ngc_fixed_length::{Nm, Units, Value};
use ngc_modal_state::MotionMode;

/// What compensation takes the tool's radius from.
#[derive(Clone, Copy)]
pub enum Width {
    /// A tool of the tool table, by its number in millionths.
    Tool(Value),
    /// D of G41.1 and G42.1.
    Diameter(Nm),
}

/// Compensation that begins: by G41, G41.1, G42 or G42.1.
#[derive(Clone, Copy)]
pub struct Start {
    pub code: Code,
    pub width: Width,
}

/// What a line does, besides the words that neither feed nor move.
#[derive(Clone, Copy)]
pub struct PathLine {
    pub front: Front,
    pub force: InForce,
    /// The programmed motion, with its code.
    pub motion: Option<Action>,
    pub start: Option<Start>,
    /// Whether the line has G40.
    pub ends: bool,
    /// M0, M1, M2, M30 or M60.
    pub stop: Option<Code>,
}

// Returns what is known, without a motion mode, so that each motion has its code.
fn without_motion(known: &Known) -> Known
    ensures { result ≡ spec.without_motion known.now }
{
    let mut known = *known;
    known.modes.motion = MotionMode::Cancel;
    known
}

fn width_of(front: &Front, units: Units, words: &[Word], code: Code) -> Result<Width, Fault>
    ensures { result ≡ spec.width_of front.now units words.now code }
{
    if is_among(&BY_DIAMETER, code) {
        return match word_length(units, b'D', words)? {
            None => Err(about_code(Cause::WordMissing, code)),
            Some(diameter) => Ok(Width::Diameter(diameter)),
        };
    }
    match count(b'D', words)? {
        Some(number) if number.millionths() != 0 => Ok(Width::Tool(number)),
        _ => Ok(Width::Tool(front.mounted)),
    }
}

fn start_of(
    front: &Front,
    units: Units,
    words: &[Word],
    code: Option<Code>,
) -> Result<Option<Start>, Fault>
    ensures { result ≡ spec.start_of front.now units words.now code }
{
    match code {
        None => Ok(None),
        Some(code) => {
            let width = width_of(front, units, words, code)?;
            Ok(Some(Start { code, width }))
        }
    }
}

// Writes the words that neither feed nor move.
#[tactic(auto, unfolding(crate::specs::Lines::modes_of))]
fn write_line(lines: &mut PlainLines, known: &Known, line: &[Code], words: &[Word], plan: &Plan)
    ensures items { lines.new.items ≡ spec.modes_of known.now line.now words.now plan.now }
    ensures room { array_vec_len lines.new ≤ 21 }
{
    lines.clear();
    add_feed(lines, known, line, plan);
    write_modes(lines, line, words, &plan.amounts);
    end_line(lines);
}

fn put_together(line: &[Code], plan: &Plan, front: Front, start: Option<Start>) -> PathLine
    ensures { result ≡ spec.put_together line.now plan.now front start }
{
    PathLine {
        front,
        force: plan.force,
        motion: plan.first,
        start,
        ends: has(&codes::COMPENSATION_END, line),
        stop: code_in(&codes::STOPS, line),
    }
}

// Goes on with a line that the rules take.
#[tactic(auto, unfolding(crate::specs::Lines::planned))]
fn plan_out(
    known: &Known,
    line: &[Code],
    words: &[Word],
    plan: &Plan,
    lines: &mut PlainLines,
) -> Result<PathLine, Fault>
    ensures says { Gives (λ r. (r, lines.new.items)) result
        (spec.planned known.now line.now words.now plan.now) }
    ensures room { IfOk result (λ _. array_vec_len lines.new ≤ 21) }
{
    let front = front_after(known, line, plan);
    let begins = code_in(&codes::COMPENSATION, line);
    match start_of(&front, plan.force.units, words, begins) {
        Ok(start) => {
            write_line(lines, known, line, words, plan);
            Ok(put_together(line, plan, front, start))
        }
        Err(fault) => Err(fault),
    }
}

#[tactic(auto, unfolding(crate::specs::Lines::line_of))]
fn line_of(
    known: &Known,
    path: &Option<Path>,
    line: &[Code],
    words: &[Word],
    lines: &mut PlainLines,
) -> Result<PathLine, Fault>
    ensures says { Gives (λ r. (r, lines.new.items)) result
        (spec.line_of known.now path.now line.now words.now) }
    ensures room { IfOk result (λ _. array_vec_len lines.new ≤ 21) }
{
    if let Some(fault) = barred(path, line) {
        return Err(fault);
    }
    match line_plan(known, line, words) {
        Ok(plan) => plan_out(known, line, words, &plan, lines),
        Err(fault) => Err(fault),
    }
}

/// Puts the plain lines of a line's words that neither feed nor move into `lines`, and returns what the
/// line does besides. `known` is what the line is read by. Returns the first refusal; the contents of
/// `lines` are then unspecified.
#[tactic(auto, unfolding(crate::specs::Lines::path_line))]
pub fn path_line(
    known: &Known,
    path: &Option<Path>,
    words: &[Word],
    lines: &mut PlainLines,
) -> Result<PathLine, Fault>
    ensures says { Gives (λ r. (r, lines.new.items)) result
        (spec.path_line known.now path.now words.now) }
    ensures room { IfOk result (λ _. array_vec_len lines.new ≤ 21) }
{
    let mut codes: ArrayVec<Code, 24> = ArrayVec::new();
    add_codes(known.dialect, words, &mut codes)?;
    line_of(&without_motion(known), path, codes.as_slice(), words, lines)
}
