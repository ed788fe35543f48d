//! Arcs of several turns, as several arcs.
ghost use Rattle.std.specs.Prelude.{◌≡◌, ◌≢◌, ◌≤◌, ◌*◌, ◌^◌, ◌+ℤ◌, ◌*ℤ◌, pos, unsigned_abs, not, IfOk};
ghost use Rattle.ngc_dialect_arcs.specs.Centre as arc_centres;
ghost use Rattle.ngc_dialect_arcs.specs.Lines as arcs;
ghost use Rattle.ngc_dialect_rules.specs.Arcs as rules;
ghost use Rattle.ngc_dialect_rules.specs.Bytes as bytes;
ghost use Rattle.ngc_dialect_rules.specs.Lengths.{word_length};
ghost use Rattle.ngc_dialect_repeats.specs.Turns as spec;

use crate::barred::bars_turns;
use crate::kept::{Kept, WordLine};
use crate::place::program_place;
use crate::point::{difference, direction, length, length_word};
use crate::polar::{is_count, is_incremental, made_with, units_by};
use crate::refusal::PolarRefusal;
use arrayvec::ArrayVec;
use ngc_dialect_arcs::{ArcRefusal, by_radius};
use ngc_dialect_names::Dialect;
use ngc_dialect_numbers::Number;
use ngc_dialect_parameters::Word;
use ngc_dialect_rules::{
    Code, Known, add_codes, code_in, codes, has_letter, is_among, value_of, word_length,
};
use ngc_fixed_length::{FeedMode, Nm, Plane, Point2, Point3, Turn, Units, rounded_quotient};

/// The height of a helix: along which axis, where it begins, and by how much it changes.
#[derive(Clone, Copy)]
pub struct Height {
    /// X, Y or Z.
    pub letter: u8,
    pub start: Nm,
    pub rise: Nm,
}

/// The words of a centre: I, J or K along the first and the second axis of the plane.
#[derive(Clone, Copy)]
pub struct OffsetWords {
    pub u: Word,
    pub v: Word,
}

/// An arc of several turns: full circles, and then the arc itself.
#[derive(Clone, Copy)]
pub struct Turning {
    pub units: Units,
    pub is_incremental: bool,
    /// The number of turns with the last one, from 2 to 1,000.
    pub count: u16,
    /// The angle of the last turn in units of 10^-7 degrees, up to 360 degrees.
    pub last: u32,
    /// `None` if the height stays.
    pub height: Option<Height>,
    /// The centre of the full circles, or `None` if the line's own words have it.
    pub circle: Option<OffsetWords>,
}

fn counts_turns(dialect: Dialect) -> bool
    ensures { result ≡ arcs.counts_turns dialect }
{
    matches!(dialect, Dialect::LinuxCnc | Dialect::Grbl)
}

// Returns the number of turns, if it is from 2 to 1,000.
fn turn_count(value: Option<Number>) -> Option<u16>
    ensures { result ≡ spec.turn_count value }
{
    let Some(value) = value else {
        return None;
    };
    let size = value.trillionths().unsigned_abs();
    if value.trillionths() < 0 || !is_count(1_000_000_000_000_000, size) {
        return None;
    }
    Some((size / 1_000_000_000_000) as u16)
}

fn has_offsets(words: &[Word]) -> bool
    ensures { result ≡ spec.has_offsets words.now }
{
    has_letter(b'I', words) || has_letter(b'J', words) || has_letter(b'K', words)
}

fn arc_of(code: Option<Code>) -> Option<Code>
    ensures { result ≡ spec.arc_of code }
{
    match code {
        None => None,
        Some(code) => {
            if is_among(&codes::ARCS, code) {
                Some(code)
            } else {
                None
            }
        }
    }
}

// Returns whether a line has offsets or R, and not both.
fn has_one_centre(words: &[Word]) -> bool
    ensures { result ≡ spec.has_one_centre words.now }
{
    if has_letter(b'R', words) {
        !has_offsets(words)
    } else {
        has_offsets(words)
    }
}

// Returns the code of the arc that a line makes by offsets or by R.
fn arc_code(known: &Known, line: &[Code], words: &[Word]) -> Option<Code>
    ensures { result ≡ spec.arc_code known.now line.now words.now }
{
    if !has_one_centre(words) {
        return None;
    }
    match code_in(&codes::MOTIONS, line) {
        Some(code) => arc_of(Some(code)),
        None => arc_of(known.front.motion),
    }
}

fn is_per_minute(before: FeedMode, code: Option<Code>) -> bool
    ensures { result ≡ spec.is_per_minute before code }
{
    match code {
        None => matches!(before, FeedMode::PerMinute),
        Some(code) => !is_among(&codes::INVERSE_TIME, code),
    }
}

fn plane_by(before: Plane, code: Option<Code>) -> Plane
    ensures { result ≡ rules.plane_by before code }
{
    match code {
        None => before,
        Some(code) => {
            if is_among(&codes::PLANE_ZX, code) {
                Plane::ZX
            } else if is_among(&codes::PLANE_YZ, code) {
                Plane::YZ
            } else {
                Plane::XY
            }
        }
    }
}

fn centres_by(before: bool, code: Option<Code>) -> bool
    ensures { result ≡ spec.centres_by before code }
{
    match code {
        None => before,
        Some(code) => is_among(&codes::ABSOLUTE_CENTRES, code),
    }
}

fn u_letter(plane: Plane) -> u8
    ensures { result ≡ spec.u_letter plane }
{
    match plane {
        Plane::XY => b'X',
        Plane::ZX => b'Z',
        Plane::YZ => b'Y',
    }
}

fn v_letter(plane: Plane) -> u8
    ensures { result ≡ spec.v_letter plane }
{
    match plane {
        Plane::XY => b'Y',
        Plane::ZX => b'X',
        Plane::YZ => b'Z',
    }
}

fn height_letter(plane: Plane) -> u8
    ensures { result ≡ spec.height_letter plane }
{
    match plane {
        Plane::XY => b'Z',
        Plane::ZX => b'Y',
        Plane::YZ => b'X',
    }
}

// Returns I, J or K of the axis X, Y or Z.
fn offset_letter(axis: u8) -> u8
    ensures { result ≡ spec.offset_letter axis }
{
    if axis == b'X' {
        b'I'
    } else if axis == b'Y' {
        b'J'
    } else {
        b'K'
    }
}

// Returns how far a word leads from a place: itself, or from the place to its coordinate.
fn led(is_relative: bool, start: Nm, word: Option<Nm>) -> Result<Nm, PolarRefusal>
    ensures { result ≡ spec.led is_relative start word }
{
    match word {
        None => Ok(Nm::zero()),
        Some(word) => {
            if is_relative {
                Ok(word)
            } else {
                length(i128::from(difference(word, start)))
            }
        }
    }
}

// Returns how far a letter's word leads from a place.
fn led_by(
    units: Units,
    is_relative: bool,
    start: Nm,
    letter: u8,
    words: &[Word],
) -> Result<Nm, PolarRefusal>
    ensures { result ≡ spec.led_by units is_relative start letter words.now }
{
    match word_length(units, letter, words) {
        Ok(word) => led(is_relative, start, word),
        Err(_) => Err(PolarRefusal::TooFar),
    }
}

// Returns the angle from one direction to another one, in units of 10^-12 degrees.
fn angle_from(is_counterclockwise: bool, start: Number, end: Number) -> i128
    ensures { result ≡ spec.angle_from is_counterclockwise start end }
{
    if is_counterclockwise {
        end.trillionths() - start.trillionths()
    } else {
        start.trillionths() - end.trillionths()
    }
}

// Returns the part of a turn that an angle is, in units of 10^-7 degrees: a whole one if it is 0.
fn turn_part(angle: i128) -> u32
    ensures { result ≡ spec.turn_part angle }
{
    let part = rounded_quotient(angle.rem_euclid(360_000_000_000_000), 100_000);
    if part <= 0 || part >= 3_600_000_000 {
        3_600_000_000
    } else {
        part as u32
    }
}

// Returns the angle from start to end about a centre.
#[tactic(auto, unfolding(crate::specs::Turns::last_turn))]
fn last_turn(is_counterclockwise: bool, end: &Point2, centre: &Point2) -> u32
    ensures { result ≡ spec.last_turn is_counterclockwise end.now centre.now }
{
    let start = direction(
        difference(Nm::zero(), centre.u),
        difference(Nm::zero(), centre.v),
    );
    let to_end = direction(difference(end.u, centre.u), difference(end.v, centre.v));
    turn_part(angle_from(is_counterclockwise, start, to_end))
}

// Returns the vector to which the words of two axes lead.
fn vector(
    units: Units,
    is_relative: bool,
    start: &Point2,
    u: u8,
    v: u8,
    words: &[Word],
) -> Result<Point2, PolarRefusal>
    ensures { result ≡ spec.vector units is_relative start.now u v words.now }
{
    let u = led_by(units, is_relative, start.u, u, words)?;
    let v = led_by(units, is_relative, start.v, v, words)?;
    Ok(Point2 { u, v })
}

// Returns the height of a helix, if a word changes it.
fn height_of(
    units: Units,
    is_relative: bool,
    start: Nm,
    letter: u8,
    words: &[Word],
) -> Result<Option<Height>, PolarRefusal>
    ensures { result ≡ spec.height_of units is_relative start letter words.now }
{
    if !has_letter(letter, words) {
        return Ok(None);
    }
    let rise = led_by(units, is_relative, start, letter, words)?;
    Ok(Some(Height {
        letter,
        start,
        rise,
    }))
}

// The modes of an arc's line.
#[derive(Clone, Copy)]
pub(crate) struct ArcModes {
    pub(crate) dialect: Dialect,
    pub(crate) units: Units,
    pub(crate) plane: Plane,
    pub(crate) is_incremental: bool,
    pub(crate) is_absolute_centre: bool,
}

fn modes_of(known: &Known, line: &[Code]) -> ArcModes
    ensures { result ≡ spec.modes_of known.now line.now }
{
    ArcModes {
        dialect: known.dialect,
        units: units_by(known.modes.units, code_in(&codes::UNITS, line)),
        plane: plane_by(known.modes.plane, code_in(&codes::PLANES, line)),
        is_incremental: is_incremental(known.modes.distance, code_in(&codes::DISTANCES, line)),
        is_absolute_centre: centres_by(
            known.front.absolute_centres,
            code_in(&codes::CENTRES, line),
        ),
    }
}

fn turn_of(code: Code) -> Turn
    ensures { result ≡ rules.turn_of code }
{
    if is_among(&codes::COUNTERCLOCKWISE, code) {
        Turn::Counterclockwise
    } else {
        Turn::Clockwise
    }
}

// Returns the vector from the start to the centre of the arc of one turn with R.
fn radius_centre(
    modes: &ArcModes,
    code: Code,
    end: &Point2,
    radius: Nm,
) -> Result<Point2, PolarRefusal>
    ensures { result ≡ spec.or_refused
        (arc_centres.by_radius modes.now.dialect modes.now.units (rules.turn_of code) end.now radius) }
{
    match by_radius(modes.dialect, modes.units, turn_of(code), end, radius) {
        Ok(centre) => Ok(centre),
        Err(refusal) => Err(PolarRefusal::Arc(refusal)),
    }
}

// Returns the vector from the start to the centre that the offsets name.
fn offsets_centre(modes: &ArcModes, start: &Point2, words: &[Word]) -> Result<Point2, PolarRefusal>
    ensures { result ≡ spec.vector modes.now.units (not modes.now.is_absolute_centre) start.now
        (spec.offset_letter (spec.u_letter modes.now.plane))
        (spec.offset_letter (spec.v_letter modes.now.plane)) words.now }
{
    vector(
        modes.units,
        !modes.is_absolute_centre,
        start,
        offset_letter(u_letter(modes.plane)),
        offset_letter(v_letter(modes.plane)),
        words,
    )
}

// Returns the vector from the start to the centre, by R or by the offsets.
fn centre_of(
    modes: &ArcModes,
    code: Code,
    start: &Point2,
    end: &Point2,
    words: &[Word],
) -> Result<Point2, PolarRefusal>
    ensures { result ≡ spec.centre_of modes.now code start.now end.now words.now
        (word_length modes.now.units bytes.R words.now) }
{
    match word_length(modes.units, b'R', words) {
        Ok(None) => offsets_centre(modes, start, words),
        Ok(Some(radius)) => radius_centre(modes, code, end, radius),
        Err(_) => Err(PolarRefusal::Arc(ArcRefusal::TooFar)),
    }
}

fn sum(start: Nm, offset: Nm) -> i64
    ensures value { result ≡ start +ℤ offset }
    ensures bound { unsigned_abs result ≤ 200000000000 }
{
    start.nanometres() + offset.nanometres()
}

// Returns the word of a centre along an axis: its offset, or after G90.1 its coordinate.
fn offset_word(modes: &ArcModes, axis: u8, start: Nm, offset: Nm) -> Word
    ensures { result ≡ spec.offset_word modes.now axis start offset }
{
    let letter = offset_letter(axis);
    if modes.is_absolute_centre {
        length_word(modes.units, letter, sum(start, offset))
    } else {
        length_word(modes.units, letter, offset.nanometres())
    }
}

fn offset_words(modes: &ArcModes, start: &Point2, centre: &Point2) -> OffsetWords
    ensures { result ≡ spec.offset_words modes.now start.now centre.now }
{
    OffsetWords {
        u: offset_word(modes, u_letter(modes.plane), start.u, centre.u),
        v: offset_word(modes, v_letter(modes.plane), start.v, centre.v),
    }
}

// Returns the words of the centre of the full circles, if the line has R.
fn circle_words(
    modes: &ArcModes,
    start: &Point2,
    centre: &Point2,
    words: &[Word],
) -> Option<OffsetWords>
    ensures { result ≡ spec.circle_words modes.now start.now centre.now words.now }
{
    if has_letter(b'R', words) {
        Some(offset_words(modes, start, centre))
    } else {
        None
    }
}

#[tactic(auto, unfolding(crate::specs::Turns::turning_with))]
fn turning_with(
    modes: &ArcModes,
    place: &Point3,
    words: &[Word],
    code: Code,
    count: u16,
) -> Result<Turning, PolarRefusal>
    ensures { result ≡ spec.turning_with modes.now place.now words.now code count }
{
    let plane = modes.plane;
    let start = place.in_plane(plane);
    let (u, v) = (u_letter(plane), v_letter(plane));
    let end = vector(modes.units, modes.is_incremental, &start, u, v, words)?;
    let centre = centre_of(modes, code, &start, &end, words)?;
    let height = height_of(
        modes.units,
        modes.is_incremental,
        place.height(plane),
        height_letter(plane),
        words,
    )?;
    let is_counterclockwise = is_among(&codes::COUNTERCLOCKWISE, code);
    Ok(Turning {
        units: modes.units,
        is_incremental: modes.is_incremental,
        count,
        last: last_turn(is_counterclockwise, &end, &centre),
        height,
        circle: circle_words(modes, &start, &centre, words),
    })
}

fn turning_here(
    known: &Known,
    line: &[Code],
    words: &[Word],
    code: Code,
    count: u16,
) -> Result<Turning, PolarRefusal>
    ensures { result ≡ spec.turning_here known.now line.now words.now code count }
{
    let place = program_place(known)?;
    turning_with(&modes_of(known, line), &place, words, code, count)
}

fn turning_by(known: &Known, line: &[Code], words: &[Word], count: u16) -> Option<Turning>
    ensures { result ≡ spec.turning_by known.now line.now words.now count }
{
    if bars_turns(line)
        || !is_per_minute(known.modes.feed_mode, code_in(&codes::FEED_MODES, line))
    {
        return None;
    }
    match arc_code(known, line, words) {
        None => None,
        Some(code) => match turning_here(known, line, words, code, count) {
            Ok(turning) => Some(turning),
            Err(_) => None,
        },
    }
}

/// Returns the turns of a line with an arc of `count` turns by offsets or by R, in G94 and without codes beside
/// it that change the origin, the tool length, the path control or the motion mode. Other lines are left
/// to the rules.
pub fn turning_on(known: &Known, words: &[Word], count: u16) -> Option<Turning>
    ensures { result ≡ spec.turning_on known.now words.now count }
{
    let mut line: ArrayVec<Code, 24> = ArrayVec::new();
    match add_codes(known.dialect, words, &mut line) {
        Ok(()) => turning_by(known, line.as_slice(), words, count),
        Err(_) => None,
    }
}

/// Returns the number of turns that P of a line names, if it is from 2 to 1,000.
pub fn count_in(dialect: Dialect, words: &[Word]) -> Option<u16>
    ensures { result ≡ spec.count_in dialect words.now }
{
    if counts_turns(dialect) {
        turn_count(value_of(b'P', words))
    } else {
        None
    }
}

// Returns the angle of all turns, in units of 10^-7 degrees.
fn whole(count: u16, last: u32) -> i128
    ensures value { result ≡ pos (spec.whole count last) }
    ensures bound { unsigned_abs result ≤ 10 ^ 18 }
{
    i128::from(count.saturating_sub(1)) * 3_600_000_000 + i128::from(last)
}

// Returns a height times the angle of a number of turns.
fn product(rise: Nm, made: u64) -> i128
    requires { made ≤ 4294967296 }
    ensures value { result ≡ (rise *ℤ pos (made * spec.WHOLE)) }
    ensures bound { unsigned_abs result ≤ 10 ^ 36 }
{
    i128::from(rise.nanometres()) * (i128::from(made) * 3_600_000_000)
}

// Returns the part of a height that belongs to a number of turns, by the angle of all turns.
fn part_of(rise: Nm, made: u64, whole: i128) -> Result<Nm, PolarRefusal>
    requires made { made ≤ 4294967296 }
    requires some { whole ≢ pos 0 }
    requires bound { unsigned_abs whole ≤ 10 ^ 18 }
    ensures { result ≡ spec.part_of rise made whole }
{
    length(rounded_quotient(product(rise, made), whole))
}

impl Turning {
    // Returns by how much the height has changed after a number of turns.
    fn risen(&self, rise: Nm, made: u64) -> Result<Nm, PolarRefusal>
        requires { made ≤ 4294967296 }
        ensures { result ≡ spec.risen self.now rise made }
    {
        if made == 0 {
            return Ok(Nm::zero());
        }
        if made >= u64::from(self.count) {
            return Ok(rise);
        }
        part_of(rise, made, whole(self.count, self.last))
    }

    // Returns the coordinate or the distance of the height of a turn's end.
    fn height_at(&self, height: &Height, made: u64) -> Result<i64, PolarRefusal>
        requires { made ≤ 4294967296 }
        ensures value { result ≡ spec.height_at self.now height.now made }
        ensures bound { IfOk result (λ z. unsigned_abs z ≤ 400000000000) }
    {
        let risen = self.risen(height.rise, made)?;
        if self.is_incremental {
            let before = self.risen(height.rise, made.saturating_sub(1))?;
            Ok(difference(risen, before))
        } else {
            Ok(height.start.nanometres() + risen.nanometres())
        }
    }

    // Returns the word of a turn's height. In G90 that of the last turn is the line's own.
    fn height_word(&self, made: u64) -> Result<Option<Word>, PolarRefusal>
        requires { made ≤ 4294967296 }
        ensures { result ≡ spec.height_word self.now made }
    {
        match &self.height {
            None => Ok(None),
            Some(height) => {
                if !self.is_incremental && made >= u64::from(self.count) {
                    return Ok(None);
                }
                let there = self.height_at(height, made)?;
                Ok(Some(length_word(self.units, height.letter, there)))
            }
        }
    }

    fn kept(&self, made: u64) -> Kept
        ensures { result ≡ spec.kept_at self.now made }
    {
        if made < u64::from(self.count) {
            return if made <= 1 {
                Kept::NotPlaces
            } else {
                Kept::Offsets
            };
        }
        match &self.height {
            Some(height) if self.is_incremental => Kept::PlacesBut(height.letter),
            _ => Kept::Places,
        }
    }

    // Returns the words of the centre of a full circle, which the last turn doesn't have.
    fn circle_at(&self, made: u64) -> Option<OffsetWords>
        ensures { result ≡ spec.circle_at self.now made }
    {
        if made < u64::from(self.count) {
            self.circle
        } else {
            None
        }
    }

    /// Returns the line of a turn, of which `left` are left with it: a full circle, or the last arc.
    #[tactic(auto, unfolding(crate::specs::Turns::turn_step))]
    pub fn step(&self, left: u32) -> Result<WordLine, PolarRefusal>
        ensures { result ≡ spec.turn_step self.now left }
    {
        let made = made_with(u32::from(self.count), left);
        let height = self.height_word(made)?;
        let kept = self.kept(made);
        match self.circle_at(made) {
            None => Ok(WordLine {
                first: height,
                second: None,
                third: None,
                kept,
            }),
            Some(centre) => Ok(WordLine {
                first: height,
                second: Some(centre.u),
                third: Some(centre.v),
                kept,
            }),
        }
    }
}
