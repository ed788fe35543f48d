//! The holes of a line that has a cycle.
ghost use Rattle.std.specs.Prelude.{◌≡◌, ◌≤◌, unsigned_abs};
ghost use Rattle.ngc_line_reader.specs.Scan.{Gives};
ghost use Rattle.ngc_dialect_drilling.specs.Holes as spec;

use crate::heights::{added, cycle_height, machine_height};
use crate::kept::kept_after;
use crate::places::{depth_letter, letter_of, u_axis, v_axis, whole_shift};
use ngc_dialect_cycles::{CycleLine, CycleMoves, CycleRefusal, HoleKind, Pecks, Series};
use ngc_dialect_names::Dialect;
use ngc_dialect_numbers::Number;
use ngc_dialect_parameters::Word;
use ngc_dialect_rules::{
    Cause, Code, Fault, KeptSeries, Known, LeftOut, about_code, about_letter, count, has_letter,
    has_no_feed, is_fanuc, is_linuxcnc, length_in, value_of,
};
use ngc_fixed_length::{Distance, FeedMode, Nm, Point2, Value};
use ngc_offsets::Axis;

// The distance above the depth reached to which the tool goes back: 0.254 mm.
fn back() -> Nm
    ensures { result ≡ spec.BACK }
{
    match Nm::from_nanometres(254_000) {
        Ok(back) => back,
        Err(_) => Nm::zero(),
    }
}

// Returns P of a code that needs it. The other controls take 0 for a missing one.
fn needed_dwell(dialect: Dialect, code: Code, dwell: Option<Value>) -> Result<Value, Fault>
    ensures { result ≡ spec.needed_dwell dialect code dwell }
{
    match dwell {
        Some(dwell) => Ok(dwell),
        None => {
            if is_linuxcnc(dialect) {
                Err(about_code(Cause::WordMissing, code))
            } else {
                Ok(Value::zero())
            }
        }
    }
}

// Returns the pecks of G73 and G83.
fn needed_pecks(known: &Known, code: Code, peck: Option<Number>) -> Result<Pecks, Fault>
    ensures { result ≡ spec.needed_pecks known.now code peck }
{
    match peck {
        None => Err(about_code(Cause::WordMissing, code)),
        Some(peck) => {
            let depth = length_in(known.modes.units, b'Q', peck)?;
            Ok(Pecks {
                depth,
                back: back(),
            })
        }
    }
}

// Returns whether the distance back of G73 is a setting of the control.
fn is_set_by_control(dialect: Dialect) -> bool
    ensures { result ≡ spec.is_set_by_control dialect }
{
    matches!(dialect, Dialect::Mach3 | Dialect::Fanuc)
}

fn with_pecks(dialect: Dialect, code: Code, pecks: Pecks) -> Result<HoleKind, Fault>
    ensures { result ≡ spec.with_pecks dialect code pecks }
{
    if code.is(Code::G(830)) {
        Ok(HoleKind::Peck(pecks))
    } else if is_set_by_control(dialect) {
        Err(about_code(Cause::LeftOut(LeftOut::ChipBreaking), code))
    } else {
        Ok(HoleKind::BreakChips(pecks))
    }
}

fn pecking(known: &Known, kept: &KeptSeries) -> Result<HoleKind, Fault>
    ensures { result ≡ spec.pecking known.now kept.now }
{
    let pecks = needed_pecks(known, kept.code, kept.peck)?;
    with_pecks(known.dialect, kept.code, pecks)
}

fn with_dwell(code: Code, dwell: Value) -> HoleKind
    ensures { result ≡ spec.with_dwell code dwell }
{
    if code.is(Code::G(820)) {
        HoleKind::DrillWithDwell(dwell)
    } else if code.is(Code::G(860)) {
        HoleKind::BoreWithStop(dwell)
    } else {
        HoleKind::BoreWithDwell(dwell)
    }
}

fn dwelling(dialect: Dialect, kept: &KeptSeries) -> Result<HoleKind, Fault>
    ensures { result ≡ spec.dwelling dialect kept.now }
{
    let dwell = needed_dwell(dialect, kept.code, kept.dwell)?;
    Ok(with_dwell(kept.code, dwell))
}

// Returns how a hole is made.
#[tactic(auto, unfolding(crate::specs::Holes::kind_of))]
fn kind_of(known: &Known, kept: &KeptSeries) -> Result<HoleKind, Fault>
    ensures { result ≡ spec.kind_of known.now kept.now }
{
    if kept.code.is(Code::G(810)) {
        Ok(HoleKind::Drill)
    } else if kept.code.is(Code::G(850)) {
        Ok(HoleKind::Bore)
    } else if kept.code.is(Code::G(730)) || kept.code.is(Code::G(830)) {
        pecking(known, kept)
    } else {
        dwelling(known.dialect, kept)
    }
}

// Returns what a series keeps, as lengths in force.
#[tactic(auto, unfolding(crate::specs::Holes::series_of))]
fn series_of(known: &Known, kept: &KeptSeries) -> Result<Series, Fault>
    ensures { result ≡ spec.series_of known.now kept.now }
{
    let kind = kind_of(known, kept)?;
    let letter = depth_letter(known.modes.plane);
    let level = machine_height(known, letter, kept.level)?;
    let retract = cycle_height(known, b'R', kept.retract)?;
    let depth = cycle_height(known, letter, kept.depth)?;
    Ok(Series {
        kind,
        level,
        retract,
        depth,
    })
}

// ---- the line

fn repeat_letter(dialect: Dialect, words: &[Word]) -> u8
    ensures { result ≡ spec.repeat_letter dialect words.now }
{
    if is_fanuc(dialect) && has_letter(b'K', words) {
        b'K'
    } else {
        b'L'
    }
}

fn number_of_holes(dialect: Dialect, letter: u8, given: Option<Value>) -> Result<u32, Fault>
    ensures { result ≡ spec.number_of_holes dialect letter given }
{
    match given {
        None => Ok(1),
        Some(value) => {
            let number = value.millionths().unsigned_abs() / 1_000_000;
            if number <= 9_999 && (number > 0 || is_fanuc(dialect)) {
                Ok(number as u32)
            } else {
                Err(about_letter(Cause::HoleCount, letter))
            }
        }
    }
}

fn repeats_of(dialect: Dialect, words: &[Word]) -> Result<u32, Fault>
    ensures { result ≡ spec.repeats_of dialect words.now }
{
    let letter = repeat_letter(dialect, words);
    let given = count(letter, words)?;
    number_of_holes(dialect, letter, given)
}

/// A coordinate of the first hole, and the distance to that of the next one.
#[derive(Clone, Copy)]
pub(crate) struct OnAxis {
    pub(crate) first: Nm,
    pub(crate) step: Nm,
}

// Returns a coordinate of the holes, by a length of the line.
fn along_by(
    distance: Distance,
    letter: u8,
    place: Nm,
    base: i128,
    length: Nm,
) -> Result<OnAxis, Fault>
    requires { unsigned_abs base ≤ 1000000000000 }
    ensures { result ≡ spec.along_by distance letter place base length }
{
    match distance {
        Distance::Absolute => {
            let first = added(letter, base, length)?;
            let step = Nm::zero();
            Ok(OnAxis { first, step })
        }
        Distance::Incremental => {
            let first = added(letter, i128::from(place.nanometres()), length)?;
            let step = length;
            Ok(OnAxis { first, step })
        }
    }
}

// Returns a coordinate of the holes.
fn coordinates(known: &Known, axis: Axis, place: Nm, words: &[Word]) -> Result<OnAxis, Fault>
    ensures { result ≡ spec.coordinates known.now axis place words.now }
{
    let letter = letter_of(axis);
    match value_of(letter, words) {
        None => Ok(OnAxis {
            first: place,
            step: Nm::zero(),
        }),
        Some(number) => {
            let length = length_in(known.modes.units, letter, number)?;
            let base = whole_shift(known, axis);
            along_by(known.modes.distance, letter, place, base, length)
        }
    }
}

// Returns the line of a cycle.
#[tactic(auto, unfolding(crate::specs::Holes::line_of))]
fn line_of(known: &Known, words: &[Word]) -> Result<CycleLine, Fault>
    ensures { result ≡ spec.line_of known.now words.now }
{
    let plane = known.modes.plane;
    let repeats = repeats_of(known.dialect, words)?;
    let here = known.place.in_plane(plane);
    let u = coordinates(known, u_axis(plane), here.u, words)?;
    let v = coordinates(known, v_axis(plane), here.v, words)?;
    Ok(CycleLine {
        plane,
        distance: known.modes.distance,
        clear: known.front.retract,
        place: known.place,
        first: Point2 {
            u: u.first,
            v: v.first,
        },
        step: Point2 {
            u: u.step,
            v: v.step,
        },
        repeats,
        turning: known.front.spindle.is_some(),
    })
}

// ---- refusals

// Returns why a cycle has no feed.
fn feed_fault(known: &Known, code: Code) -> Option<Fault>
    ensures { result ≡ spec.feed_fault known.now code }
{
    match known.modes.feed_mode {
        FeedMode::InverseTime => Some(about_code(Cause::CycleInInverseTime, code)),
        FeedMode::PerMinute => {
            if has_no_feed(known.front.feed) {
                Some(about_code(Cause::FeedZero, code))
            } else {
                None
            }
        }
    }
}

fn fault_of(code: Code, refusal: CycleRefusal) -> Fault
    ensures { result ≡ spec.fault_of code refusal }
{
    match refusal {
        CycleRefusal::RetractBelowBottom => about_letter(Cause::RetractBelowDepth, b'R'),
        CycleRefusal::BadPeck => about_letter(Cause::PeckNotAboveZero, b'Q'),
        CycleRefusal::NegativeDwell => about_letter(Cause::NegativeDwell, b'P'),
        CycleRefusal::SpindleNotTurning => about_code(Cause::SpindleOff, code),
        CycleRefusal::TooFar => about_code(Cause::CycleTooFar, code),
    }
}

// Returns the moves of a line's cycle.
fn moves_of(known: &Known, kept: &KeptSeries, words: &[Word]) -> Result<CycleMoves, Fault>
    ensures { result ≡ spec.moves_of known.now kept.now words.now }
{
    let series = series_of(known, kept)?;
    let line = line_of(known, words)?;
    match CycleMoves::start(&series, &line) {
        Ok(moves) => Ok(moves),
        Err(refusal) => Err(fault_of(kept.code, refusal)),
    }
}

/// A cycle that begins: what its series keeps, and its moves.
#[derive(Drop)]
pub struct CycleStart {
    pub kept: KeptSeries,
    pub moves: CycleMoves,
}

/// Returns the cycle of a line, by its code, its words and what is known after its plain lines, or
/// the first refusal.
#[tactic(auto, unfolding(crate::specs::Holes::cycle_of))]
pub fn cycle_of(known: &Known, code: Code, words: &[Word]) -> Result<CycleStart, Fault>
    ensures { Gives (λ s. (s.kept, s.moves)) result (spec.cycle_of known.now code words.now) }
{
    if let Some(fault) = feed_fault(known, code) {
        return Err(fault);
    }
    let kept = kept_after(known, code, words)?;
    let moves = moves_of(known, &kept, words)?;
    Ok(CycleStart { kept, moves })
}
