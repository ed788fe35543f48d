//! Lines with polar words, as lines with X and Y.
ghost use Rattle.std.specs.Prelude.{◌≡◌, ◌≤◌, ◌*ℤ◌, ◌+ℤ◌, pos};
ghost use Rattle.std.specs.List.{list_any};
ghost use Rattle.ngc_dialect_rules.specs.Force as force;
ghost use Rattle.ngc_dialect_repeats.specs.Polar as spec;

use crate::barred::bars_polar;
use crate::kept::{Kept, WordLine, is_polar};
use crate::place::program_place;
use crate::point::{
    PolarEnd, PolarPoint, difference, in_millimetres, length_word, number, point_at, seen_from,
    turned,
};
use crate::refusal::{PolarFault, PolarRefusal};
use arrayvec::ArrayVec;
use ngc_dialect_numbers::Number;
use ngc_dialect_parameters::Word;
use ngc_dialect_rules::{Code, Known, add_codes, code_in, codes, has_letter, is_among, value_of};
use ngc_fixed_length::{Distance, Nm, Plane, Point2, Units};

/// What polar words lead to: X and Y of one line, or of several if holes are repeated.
#[derive(Clone, Copy)]
pub struct PolarLine {
    pub units: Units,
    /// Whether the words count from the current point, and so X and Y too.
    pub is_incremental: bool,
    /// The current point, in the coordinates of the program.
    pub here: Point2,
    /// From what the distance and the angle count.
    pub start: PolarPoint,
    /// The words.
    pub step: PolarPoint,
    /// The number of lines, from 1 up.
    pub count: u32,
}

/// Returns whether a line has polar words.
pub fn has_polar(words: &[Word]) -> bool
    ensures { result ≡ spec.has_polar words.now }
{
    words.iter().any(|word| is_polar(word.letter))
}

fn letters(letter: u8, words: &[Word]) -> usize
    ensures { result ≡ spec.letters letter words.now }
{
    words.iter().filter(|word| word.letter == letter).count()
}

fn is_xy(before: Plane, code: Option<Code>) -> bool
    ensures { result ≡ spec.is_xy before code }
{
    match code {
        None => matches!(before, Plane::XY),
        Some(code) => !is_among(&codes::PLANE_ZX, code) && !is_among(&codes::PLANE_YZ, code),
    }
}

// Returns why the line's words can't be used together, if they can't.
#[tactic(auto, unfolding(crate::specs::Polar::line_fault))]
fn line_fault(known: &Known, line: &[Code], words: &[Word]) -> Option<PolarRefusal>
    ensures { result ≡ spec.line_fault known.now line.now words.now }
{
    if letters(b'@', words) > 1 || letters(b'^', words) > 1 {
        Some(PolarRefusal::Twice)
    } else if has_letter(b'X', words) || has_letter(b'Y', words) {
        Some(PolarRefusal::AxisBeside)
    } else if bars_polar(line) {
        Some(PolarRefusal::CodeBeside)
    } else if !is_xy(known.modes.plane, code_in(&codes::PLANES, line)) {
        Some(PolarRefusal::OtherPlane)
    } else {
        None
    }
}

pub(crate) fn units_by(before: Units, code: Option<Code>) -> Units
    ensures { result ≡ force.units_by before code }
{
    match code {
        None => before,
        Some(code) => {
            if is_among(&codes::INCHES, code) {
                Units::Inches
            } else {
                Units::Millimetres
            }
        }
    }
}

/// Returns whether lengths are relative to the current point after a line's modes.
pub(crate) fn is_incremental(before: Distance, code: Option<Code>) -> bool
    ensures { result ≡ spec.is_incremental before code }
{
    match code {
        None => matches!(before, Distance::Incremental),
        Some(code) => is_among(&codes::INCREMENTAL, code),
    }
}

// Returns the value of a letter, or 0.
fn value_or_zero(letter: u8, words: &[Word]) -> Number
    ensures { result ≡ spec.value_or_zero letter words.now }
{
    match value_of(letter, words) {
        None => Number::truth(false),
        Some(value) => value,
    }
}

// Returns 0 in G90 if a letter is on the line, else what is known of the current point.
fn unless_given(is_incremental: bool, letter: u8, here: Number, words: &[Word]) -> Number
    ensures { result ≡ spec.unless_given is_incremental letter here words.now }
{
    if !is_incremental && has_letter(letter, words) {
        Number::truth(false)
    } else {
        here
    }
}

// Returns from what the words count: in G91 the current point, in G90 the origin, but for what isn't
// given.
fn start_of(is_incremental: bool, here: &PolarPoint, words: &[Word]) -> PolarPoint
    ensures { result ≡ spec.start_of is_incremental here.now words.now }
{
    PolarPoint {
        distance: unless_given(is_incremental, b'@', here.distance, words),
        angle: unless_given(is_incremental, b'^', here.angle, words),
    }
}

fn is_cycle(code: Option<Code>) -> bool
    ensures { result ≡ spec.is_cycle code }
{
    match code {
        None => false,
        Some(code) => is_among(&codes::CYCLES, code),
    }
}

fn motion_after(known: &Known, line: &[Code]) -> Option<Code>
    ensures { result ≡ spec.motion_after known.now line.now }
{
    match code_in(&codes::MOTIONS, line) {
        Some(code) => Some(code),
        None => known.front.motion,
    }
}

/// Returns whether a size is a whole number from 2 up to a limit, all in units of 10^-12.
pub(crate) fn is_count(limit: u128, size: u128) -> bool
    ensures { result ≡ spec.is_count limit size }
{
    2_000_000_000_000 <= size && size <= limit && size % 1_000_000_000_000 == 0
}

// Returns the number of holes, if it is from 2 to 9,999; else 1.
fn hole_count(value: Option<Number>) -> u32
    ensures { result ≡ spec.hole_count value }
{
    let Some(value) = value else {
        return 1;
    };
    let size = value.trillionths().unsigned_abs();
    if value.trillionths() < 0 || !is_count(9_999_000_000_000_000, size) {
        return 1;
    }
    (size / 1_000_000_000_000) as u32
}

// Returns the number of lines: in G91 a canned cycle's holes are repeated.
fn count_of(known: &Known, line: &[Code], words: &[Word], is_incremental: bool) -> u32
    ensures { result ≡ spec.count_of known.now line.now words.now is_incremental }
{
    if is_incremental && is_cycle(motion_after(known, line)) {
        hole_count(value_of(b'L', words))
    } else {
        1
    }
}

fn is_at_origin(here: &PolarPoint) -> bool
    ensures { result ≡ spec.is_at_origin here.now }
{
    here.distance.trillionths() == 0
}

// Returns whether the words need the angle of the current point.
fn needs_angle(is_incremental: bool, words: &[Word]) -> bool
    ensures { result ≡ spec.needs_angle is_incremental words.now }
{
    is_incremental || (has_letter(b'@', words) && !has_letter(b'^', words))
}

#[tactic(auto, unfolding(crate::specs::Polar::polar_by))]
fn polar_by(
    known: &Known,
    last: &Option<PolarEnd>,
    line: &[Code],
    words: &[Word],
) -> Result<PolarLine, PolarRefusal>
    ensures { result ≡ spec.polar_by known.now last.now line.now words.now }
{
    if let Some(refusal) = line_fault(known, line, words) {
        return Err(refusal);
    }
    let place = program_place(known)?;
    let here = Point2 {
        u: place.x,
        v: place.y,
    };
    let seen = seen_from(last, &here);
    let incremental = is_incremental(known.modes.distance, code_in(&codes::DISTANCES, line));
    if is_at_origin(&seen) && needs_angle(incremental, words) {
        return Err(PolarRefusal::AtOrigin);
    }
    let units = units_by(known.modes.units, code_in(&codes::UNITS, line));
    let distance = in_millimetres(units, value_or_zero(b'@', words))?;
    Ok(PolarLine {
        units,
        is_incremental: incremental,
        here,
        start: start_of(incremental, &seen, words),
        step: PolarPoint {
            distance,
            angle: value_or_zero(b'^', words),
        },
        count: count_of(known, line, words, incremental),
    })
}

/// Returns where the polar words of a line lead, by what is known before the line and where the last ones
/// led, or why they are refused.
#[tactic(auto, unfolding(crate::specs::Polar::polar_line))]
pub fn polar_line(
    known: &Known,
    last: &Option<PolarEnd>,
    words: &[Word],
) -> Result<PolarLine, PolarFault>
    ensures { result ≡ spec.polar_line known.now last.now words.now }
{
    let mut line: ArrayVec<Code, 24> = ArrayVec::new();
    match add_codes(known.dialect, words, &mut line) {
        Ok(()) => {}
        Err(fault) => return Err(PolarFault::Rule(fault)),
    }
    match polar_by(known, last, line.as_slice(), words) {
        Ok(polar) => Ok(polar),
        Err(refusal) => Err(PolarFault::Polar(refusal)),
    }
}

// Returns a number with another one added several times.
fn sum(start: Number, times: u64, step: Number) -> i128
    requires { times ≤ 4294967296 }
    ensures { result ≡ (start +ℤ pos times *ℤ step) }
{
    start.trillionths() + i128::from(times) * step.trillionths()
}

/// Returns how many lines are made with the present one, where `left` lines are left with it.
pub(crate) fn made_with(count: u32, left: u32) -> u64
    ensures value { result ≡ spec.made_with count left }
    ensures bound { result ≤ 4294967296 }
{
    u64::from(count.saturating_sub(left)) + 1
}

impl PolarLine {
    // Returns the point that a number of lines lead to.
    fn reached(&self, made: u64) -> Result<Point2, PolarRefusal>
        requires { made ≤ 4294967296 }
        ensures { result ≡ spec.reached self.now made }
    {
        let distance = sum(self.start.distance, made, self.step.distance);
        let angle = sum(self.start.angle, made, self.step.angle);
        point_at(distance, angle)
    }

    // Returns the distance and the angle of the point that a number of lines lead to.
    #[tactic(auto, unfolding(crate::specs::Polar::point_of))]
    fn point(&self, made: u64) -> Result<PolarPoint, PolarRefusal>
        requires { made ≤ 4294967296 }
        ensures { result ≡ spec.point_of self.now made }
    {
        let distance = number(sum(self.start.distance, made, self.step.distance))?;
        let angle = turned(sum(self.start.angle, made, self.step.angle));
        Ok(PolarPoint { distance, angle })
    }

    fn find_end(&self) -> Result<PolarEnd, PolarRefusal>
        ensures { result ≡ spec.found_end self.now }
    {
        let count = u64::from(self.count);
        let place = self.reached(count)?;
        let point = self.point(count)?;
        Ok(PolarEnd { place, point })
    }

    /// Returns where the last line leads.
    pub fn end(&self) -> Option<PolarEnd>
        ensures { result ≡ spec.end_of self.now }
    {
        match self.find_end() {
            Ok(end) => Some(end),
            Err(_) => None,
        }
    }

    // Returns the point from which X and Y of a line count.
    fn base(&self, made: u64) -> Result<Point2, PolarRefusal>
        requires { made ≤ 4294967296 }
        ensures { result ≡ spec.base self.now made }
    {
        if !self.is_incremental {
            return Ok(Point2 {
                u: Nm::zero(),
                v: Nm::zero(),
            });
        }
        if made <= 1 {
            Ok(self.here)
        } else {
            self.reached(made - 1)
        }
    }

    fn kept(&self, made: u64) -> Kept
        ensures { result ≡ spec.kept_at self.now made }
    {
        if made > 1 {
            Kept::Nothing
        } else if self.count > 1 {
            Kept::NotPolarOrHoles
        } else {
            Kept::NotPolar
        }
    }

    /// Returns the line of which `left` are left with it: X and Y, and in the first one the other
    /// words.
    #[tactic(auto, unfolding(crate::specs::Polar::polar_step))]
    pub fn step(&self, left: u32) -> Result<WordLine, PolarRefusal>
        ensures { result ≡ spec.polar_step self.now left }
    {
        let made = made_with(self.count, left);
        let to = self.reached(made)?;
        let base = self.base(made)?;
        Ok(WordLine {
            first: Some(length_word(self.units, b'X', difference(to.u, base.u))),
            second: Some(length_word(self.units, b'Y', difference(to.v, base.v))),
            third: None,
            kept: self.kept(made),
        })
    }
}
