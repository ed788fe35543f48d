//! A line of another control as plain lines of our own language, in LinuxCNC's order of execution.
ghost use Rattle.std.specs.Prelude.{◌≡◌, ◌+◌, ◌≤◌};
ghost use Rattle.arrayvec.specs.ArrayVec.{array_vec_len};
ghost use Rattle.ngc_dialect_rules.specs.Rules as spec;
ghost use Rattle.ngc_dialect_rules.specs.Plain.{with_words};
ghost use Rattle.ngc_line_reader.specs.Scan.{Gives};

use crate::action::{has_no_feed, is_mode, straight};
use crate::amount::{amounts_of, mounted_after, selected_after};
use crate::arc::arc;
use crate::code::Code;
use crate::codes;
use crate::fault::{Cause, Fault, about_code, about_letter};
use crate::force::{centres_by, force_of, retract_by};
use crate::front::{Front, KeptSeries, Known};
use crate::moves::{idle_fault, machine_place_fault, motion_of};
use crate::offsets::{go_home, local_offset, set_offset, set_origin, way_home};
use crate::plain::{PlainLines, a_code, a_word, add, add_action, end_line};
use crate::plan::{Action, Amounts, InForce, LineCycle, LineResult, Plan};
use crate::table::{code_in, has, is_among, is_linuxcnc};
use crate::word::{add_codes, has_letter, refused_word, repeated};
use arrayvec::ArrayVec;
use ngc_dialect_names::Dialect;
use ngc_dialect_parameters::Word;
use ngc_fixed_length::{FeedMode, Point3, Turn, Units, Value};
use ngc_line_reader::Letter;
use ngc_modal_state::MotionMode;

/// Returns F of a feed per minute.
pub(crate) fn minute_feed(mode: FeedMode, f: Option<Value>) -> Option<Value>
    ensures { result ≡ spec.minute_feed mode f }
{
    match mode {
        FeedMode::PerMinute => f,
        FeedMode::InverseTime => None,
    }
}

fn same_units(a: Units, b: Units) -> bool
    ensures { result ≡ spec.same_units a b }
{
    matches!(
        (a, b),
        (Units::Millimetres, Units::Millimetres) | (Units::Inches, Units::Inches)
    )
}

fn is_feed_apart(known: &Known, plan: &Plan) -> bool
    ensures { result ≡ spec.is_feed_apart known.now plan.now }
{
    is_linuxcnc(known.dialect)
        && minute_feed(plan.force.feed_mode, plan.amounts.feed).is_some()
        && !same_units(known.modes.units, plan.force.units)
}

/// Adds the words of the feed, in a line of their own if they count in other units than the line.
#[tactic(auto, unfolding(crate::specs::Rules::with_feed))]
pub fn add_feed(lines: &mut PlainLines, known: &Known, line: &[Code], plan: &Plan)
    requires { array_vec_len lines.old ≤ 32 }
    ensures items { lines.new.items ≡ spec.with_feed known.now line.now plan.now lines.old.items }
    ensures room { array_vec_len lines.new ≤ array_vec_len lines.old + 3 }
{
    add(lines, a_code(code_in(&codes::FEED_MODES, line)));
    let f = minute_feed(plan.force.feed_mode, plan.amounts.feed);
    add(lines, a_word(Letter::F, f));
    if is_feed_apart(known, plan) {
        end_line(lines);
    }
}

fn add_machine_words(lines: &mut PlainLines, line: &[Code], amounts: &Amounts)
    requires { array_vec_len lines.old ≤ 32 }
    ensures items { lines.new.items
        ≡ with_words (spec.machine_words line.now amounts.now) lines.old.items }
    ensures room { array_vec_len lines.new ≤ array_vec_len lines.old + 8 }
{
    add(lines, a_word(Letter::S, amounts.speed));
    add(lines, a_word(Letter::T, amounts.tool));
    add(lines, a_code(code_in(&codes::TOOL_CHANGE, line)));
    add(lines, a_code(code_in(&codes::SPINDLE, line)));
    add(lines, a_code(code_in(&codes::COOLANT, line)));
    add(lines, a_code(code_in(&codes::OVERRIDES, line)));
    add(lines, a_code(code_in(&codes::DWELL, line)));
    add(lines, a_word(Letter::P, amounts.dwell));
}

fn units_code(code: Option<Code>) -> Option<Code>
    ensures { result ≡ spec.units_code code }
{
    match code {
        None => None,
        Some(code) => {
            if is_among(&codes::INCHES, code) {
                Some(Code::G(200))
            } else {
                Some(Code::G(210))
            }
        }
    }
}

fn length_code(words: &[Word], code: Option<Code>) -> Option<Code>
    ensures { result ≡ spec.length_code words.now code }
{
    match code {
        None => None,
        Some(code) => {
            if is_among(&codes::TABLE_LENGTHS, code) {
                Some(Code::G(430))
            } else if is_among(&codes::WORD_LENGTH, code) && !has_letter(b'Z', words) {
                None
            } else {
                Some(Code::G(490))
            }
        }
    }
}

fn add_mode_words(lines: &mut PlainLines, line: &[Code], words: &[Word], amounts: &Amounts)
    requires { array_vec_len lines.old ≤ 48 }
    ensures items { lines.new.items
        ≡ with_words (spec.mode_words line.now words.now amounts.now) lines.old.items }
    ensures room { array_vec_len lines.new ≤ array_vec_len lines.old + 9 }
{
    add(lines, a_code(code_in(&codes::PLANES, line)));
    add(lines, a_code(units_code(code_in(&codes::UNITS, line))));
    add(lines, a_code(code_in(&codes::COMPENSATION_END, line)));
    add(
        lines,
        a_code(length_code(words, code_in(&codes::LENGTHS, line))),
    );
    add(lines, a_word(Letter::H, amounts.offset));
    add(lines, a_code(code_in(&codes::SYSTEMS, line)));
    add(lines, a_code(code_in(&codes::PATHS, line)));
    add(lines, a_code(code_in(&codes::DISTANCES, line)));
    add(lines, a_code(code_in(&codes::OFFSET_CHANGES, line)));
}

// Returns that a canned cycle makes no motion of its plain line, or that it isn't one in machine
// coordinates.
fn no_action(line: &[Code]) -> Result<Option<Action>, Fault>
    ensures { result ≡ spec.no_action line.now }
{
    if has(&codes::MACHINE_PLACE, line) {
        Err(about_code(Cause::NotStraight, Code::G(530)))
    } else {
        Ok(None)
    }
}

fn motion_by(
    known: &Known,
    line: &[Code],
    words: &[Word],
    force: &InForce,
    f: Option<Value>,
    moves: Option<Code>,
) -> Result<Option<Action>, Fault>
    ensures { result ≡ spec.motion_by known.now line.now words.now force.now f moves }
{
    match moves {
        None => Ok(None),
        Some(code) => {
            if is_among(&codes::ARCS, code) {
                some_action(arc(known, line, words, force, f, code))
            } else if is_among(&codes::CYCLES, code) {
                no_action(line)
            } else {
                some_action(straight(known, line, words, force, f, code))
            }
        }
    }
}

fn some_action(action: Result<Action, Fault>) -> Result<Option<Action>, Fault>
    ensures { result ≡ spec.some_action action }
{
    match action {
        Ok(action) => Ok(Some(action)),
        Err(fault) => Err(fault),
    }
}

#[tactic(auto, unfolding(crate::specs::Rules::first_action))]
fn first_action(
    known: &Known,
    line: &[Code],
    words: &[Word],
    force: &InForce,
    f: Option<Value>,
    moves: Option<Code>,
) -> Result<Option<Action>, Fault>
    ensures { result ≡ spec.first_action known.now line.now words.now force.now f moves }
{
    if has(&codes::SETTING, line) {
        some_action(set_origin(known, line, words, force))
    } else if has(&codes::OFFSET, line) {
        some_action(set_offset(known, line, words, force))
    } else if has(&codes::LOCAL_OFFSET, line) {
        some_action(local_offset(known, line, words, force))
    } else if has(&codes::HOMES, line) {
        way_home(known, line, words, force)
    } else {
        motion_by(known, line, words, force, f, moves)
    }
}

fn second_action(known: &Known, words: &[Word], home: Option<Code>) -> Option<Action>
    ensures { result ≡ spec.second_action known.now words.now home }
{
    match home {
        None => None,
        Some(home) => Some(go_home(known, words, home)),
    }
}

fn mode_then(known: &Known, line: &[Code]) -> MotionMode
    ensures { result ≡ spec.mode_then known.now line.now }
{
    if has(&codes::HOMES, line) {
        MotionMode::Traverse
    } else {
        known.modes.motion
    }
}

fn is_per_minute(mode: FeedMode) -> bool
    ensures { result ≡ spec.is_per_minute mode }
{
    matches!(mode, FeedMode::PerMinute)
}

// Returns that the code of a canned cycle isn't written.
fn lone_cycle(dialect: Dialect, code: Code) -> Result<Option<Code>, Fault>
    ensures { result ≡ spec.lone_cycle dialect code }
{
    if is_linuxcnc(dialect) {
        Err(about_code(Cause::WordMissing, code))
    } else {
        Ok(None)
    }
}

fn lone_code(
    known: &Known,
    line: &[Code],
    force: &InForce,
    code: Code,
) -> Result<Option<Code>, Fault>
    ensures { result ≡ spec.lone_code known.now line.now force.now code }
{
    if is_among(&codes::CYCLES, code) {
        return lone_cycle(known.dialect, code);
    }
    if is_linuxcnc(known.dialect) && is_among(&codes::ARCS, code) {
        return Err(about_code(Cause::WordMissing, code));
    }
    if is_mode(mode_then(known, line), code) {
        return Ok(None);
    }
    if is_linuxcnc(known.dialect)
        && is_among(&codes::FEED_MOTION, code)
        && is_per_minute(force.feed_mode)
        && has_no_feed(force.feed)
    {
        return Err(about_code(Cause::FeedZero, code));
    }
    Ok(Some(code))
}

fn last_code(
    known: &Known,
    line: &[Code],
    force: &InForce,
    code: Option<Code>,
) -> Result<Option<Code>, Fault>
    ensures { result ≡ spec.last_code known.now line.now force.now code }
{
    match code {
        Some(code) => lone_code(known, line, force, code),
        None => {
            if has(&codes::MOTION_END, line) {
                Ok(Some(Code::G(800)))
            } else {
                Ok(None)
            }
        }
    }
}

fn code_after(
    known: &Known,
    line: &[Code],
    force: &InForce,
    moves: Option<Code>,
) -> Result<Option<Code>, Fault>
    ensures { result ≡ spec.code_after known.now line.now force.now moves }
{
    match moves {
        Some(_) => Ok(None),
        None => last_code(known, line, force, code_in(&codes::MOTIONS, line)),
    }
}

// Returns the canned cycle of a line.
fn cycle_by(line: &[Code], moves: Option<Code>) -> Option<LineCycle>
    ensures { result ≡ spec.cycle_by line.now moves }
{
    match moves {
        None => None,
        Some(code) => {
            if is_among(&codes::CYCLES, code) {
                Some(LineCycle {
                    code,
                    stop: code_in(&codes::STOPS, line),
                })
            } else {
                None
            }
        }
    }
}

// Returns what a line becomes.
#[tactic(auto, unfolding(crate::specs::Rules::plan_of))]
fn plan_of(known: &Known, line: &[Code], words: &[Word]) -> Result<Plan, Fault>
    ensures { result ≡ spec.plan_of known.now line.now words.now }
{
    let amounts = amounts_of(known, line, words)?;
    let force = force_of(known, line, words, amounts.feed)?;
    let moves = motion_of(known, line, words)?;
    if let Some(fault) = machine_place_fault(known, line, &force) {
        return Err(fault);
    }
    if let Some(fault) = idle_fault(known.dialect, line, moves, words) {
        return Err(fault);
    }
    let first = first_action(known, line, words, &force, amounts.feed, moves)?;
    let code = code_after(known, line, &force, moves)?;
    let second = second_action(known, words, code_in(&codes::HOMES, line));
    let cycle = cycle_by(line, moves);
    Ok(Plan {
        amounts,
        force,
        first,
        second,
        code,
        cycle,
    })
}

fn add_some_action(lines: &mut PlainLines, units: Units, action: &Option<Action>)
    requires { array_vec_len lines.old ≤ 48 }
    ensures items { lines.new.items ≡ spec.with_some_action units action.now lines.old.items }
    ensures room { array_vec_len lines.new ≤ array_vec_len lines.old + 16 }
{
    match action {
        None => {}
        Some(action) => add_action(lines, units, action),
    }
}

// Returns the stop of a line, unless it follows the moves of a cycle.
fn last_stop(line: &[Code], cycle: Option<LineCycle>) -> Option<Code>
    ensures { result ≡ spec.last_stop line.now cycle }
{
    match cycle {
        None => code_in(&codes::STOPS, line),
        Some(_) => None,
    }
}

/// Adds the words of a line that neither feed nor move: tool, spindle, coolant, dwell and modes.
#[tactic(auto, unfolding(crate::specs::Rules::modes_written))]
pub fn write_modes(lines: &mut PlainLines, line: &[Code], words: &[Word], amounts: &Amounts)
    requires { array_vec_len lines.old ≤ 3 }
    ensures items { lines.new.items
        ≡ spec.modes_written line.now words.now amounts.now lines.old.items }
    ensures room { array_vec_len lines.new ≤ array_vec_len lines.old + 17 }
{
    add_machine_words(lines, line, amounts);
    add_mode_words(lines, line, words, amounts);
}

#[tactic(auto, unfolding(crate::specs::Rules::motions_written))]
fn write_motions(lines: &mut PlainLines, line: &[Code], plan: &Plan)
    requires { array_vec_len lines.old ≤ 20 }
    ensures { lines.new.items ≡ spec.motions_written line.now plan.now lines.old.items }
{
    add_some_action(lines, plan.force.units, &plan.first);
    add_some_action(lines, plan.force.units, &plan.second);
    add(lines, a_code(plan.code));
    add(lines, a_code(last_stop(line, plan.cycle)));
    end_line(lines);
}

// Writes the plain lines.
#[tactic(auto, unfolding(crate::specs::Rules::written))]
fn write(lines: &mut PlainLines, known: &Known, line: &[Code], words: &[Word], plan: &Plan)
    ensures { lines.new.items ≡ spec.written known.now line.now words.now plan.now }
{
    lines.clear();
    add_feed(lines, known, line, plan);
    write_modes(lines, line, words, &plan.amounts);
    write_motions(lines, line, plan);
}

fn motion_after(before: Option<Code>, line: &[Code], code: Option<Code>) -> Option<Code>
    ensures { result ≡ spec.motion_after before line.now code }
{
    match code {
        Some(code) => Some(code),
        None => {
            if has(&codes::MOTION_END, line) {
                None
            } else {
                before
            }
        }
    }
}

// Returns the series of cycles that goes on: another motion code ends it, and so does G80.
fn series_after(
    before: &Option<KeptSeries>,
    line: &[Code],
    code: Option<Code>,
) -> Option<KeptSeries>
    ensures { result ≡ spec.series_after before.now line.now code }
{
    let goes_on = match code {
        Some(code) => is_among(&codes::CYCLES, code),
        None => !has(&codes::MOTION_END, line),
    };
    if goes_on { *before } else { None }
}

fn turn_of(code: Code) -> Option<Turn>
    ensures { result ≡ spec.turn_of code }
{
    if code.is(Code::M(3)) {
        Some(Turn::Clockwise)
    } else if code.is(Code::M(4)) {
        Some(Turn::Counterclockwise)
    } else {
        None
    }
}

// Returns the direction of the spindle. M6 leaves it off.
fn spindle_after(before: Option<Turn>, line: &[Code], code: Option<Code>) -> Option<Turn>
    ensures { result ≡ spec.spindle_after before line.now code }
{
    match code {
        Some(code) => turn_of(code),
        None => {
            if has(&codes::TOOL_CHANGE, line) {
                None
            } else {
                before
            }
        }
    }
}

fn stored(home: Code, before: Point3, place: Point3, code: Option<Code>) -> Point3
    ensures { result ≡ spec.stored home before place code }
{
    match code {
        None => before,
        Some(code) => { if code.is(home) { place } else { before } }
    }
}

/// Returns what the dialect knows after a line.
#[tactic(auto, unfolding(crate::specs::Rules::front_after))]
pub fn front_after(known: &Known, line: &[Code], plan: &Plan) -> Front
    ensures { result ≡ spec.front_after known.now line.now plan.now }
{
    let front = &known.front;
    let store = code_in(&codes::HOME_STORES, line);
    Front {
        motion: motion_after(front.motion, line, code_in(&codes::MOTIONS, line)),
        retract: retract_by(front.retract, code_in(&codes::RETRACTS, line)),
        absolute_centres: centres_by(front.absolute_centres, code_in(&codes::CENTRES, line)),
        feed: plan.force.feed,
        length: plan.force.length,
        home28: stored(Code::G(281), front.home28, known.place, store),
        home30: stored(Code::G(301), front.home30, known.place, store),
        selected: selected_after(front, plan.amounts.tool),
        mounted: mounted_after(front, line, plan.amounts.tool),
        spindle: spindle_after(front.spindle, line, code_in(&codes::SPINDLE, line)),
        series: series_after(&front.series, line, code_in(&codes::MOTIONS, line)),
    }
}

// Writes the plain lines, and returns what the line does besides.
fn carry_out(
    lines: &mut PlainLines,
    known: &Known,
    line: &[Code],
    words: &[Word],
    plan: &Plan,
) -> LineResult
    ensures result { result ≡ spec.result_of known.now line.now plan.now }
    ensures lines { lines.new.items ≡ spec.written known.now line.now words.now plan.now }
{
    write(lines, known, line, words, plan);
    LineResult {
        front: front_after(known, line, plan),
        cycle: plan.cycle,
        compensation: code_in(&codes::COMPENSATION, line),
    }
}

/// Returns what a line of these codes and words becomes, before it is written, or the first refusal.
#[tactic(auto, unfolding(crate::specs::Rules::line_plan))]
pub fn line_plan(known: &Known, line: &[Code], words: &[Word]) -> Result<Plan, Fault>
    ensures { result ≡ spec.line_plan known.now line.now words.now }
{
    if let Some(letter) = repeated(words) {
        return Err(about_letter(Cause::LetterTwice, letter));
    }
    if let Some(fault) = refused_word(known.dialect, line, words) {
        return Err(fault);
    }
    plan_of(known, line, words)
}

// Writes what a line of these codes and words becomes.
#[tactic(auto, unfolding(crate::specs::Rules::lines_of))]
fn lines_of(
    known: &Known,
    line: &[Code],
    words: &[Word],
    lines: &mut PlainLines,
) -> Result<LineResult, Fault>
    ensures { Gives (λ r. (r, lines.new.items)) result
        (spec.lines_of known.now line.now words.now) }
{
    match line_plan(known, line, words) {
        Ok(plan) => Ok(carry_out(lines, known, line, words, &plan)),
        Err(fault) => Err(fault),
    }
}

/// Puts the plain lines of a line of words into `lines`, and returns what the dialect knows after
/// them, with the canned cycle whose moves follow. Returns the first refusal; the contents of `lines`
/// are then unspecified.
#[tactic(auto, unfolding(crate::specs::Rules::plain_lines))]
pub fn plain_lines(
    known: &Known,
    words: &[Word],
    lines: &mut PlainLines,
) -> Result<LineResult, Fault>
    ensures { Gives (λ r. (r, lines.new.items)) result (spec.plain_lines known.now words.now) }
{
    let mut codes: ArrayVec<Code, 24> = ArrayVec::new();
    add_codes(known.dialect, words, &mut codes)?;
    lines_of(known, codes.as_slice(), words, lines)
}
