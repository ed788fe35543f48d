ghost use Rattle.std.specs.Prelude.{◌≡◌, ◌&&◌, ◌<◌, ◌==◌, length, unsigned_abs, Some, None};
ghost use Rattle.std.specs.Str.{bytes_eq};
ghost use Rattle.ngc_fixed_length.specs.Signed.{is_within};
ghost use Rattle.ngc_fixed_length.specs.Boxes.{is_below};
ghost use Rattle.ngc_certificate_text.specs.Certificate.{WHOLE, CUT_LIMIT};
ghost use Rattle.ngc_certificate_text.specs.Clamped.{all_fields};
ghost use Rattle.ngc_certificate_text.specs.Lines.{numbers_in as numbers_said};
ghost use Rattle.ngc_certificate_text.specs.Lines.{one_count as one_said};
ghost use Rattle.ngc_certificate_text.specs.Lines.{two_counts as two_said};
ghost use Rattle.ngc_certificate_text.specs.Lines.{line_piece as parsed_line, arc_piece as arc_said};
ghost use Rattle.ngc_certificate_text.specs.Lines.{parsed_setting};
ghost use Rattle.ngc_certificate_text.specs.Lines.{parsed_motion, parsed_piece, parsed_end};
ghost use Rattle.ngc_certificate_text.specs.Lines.{is_count, is_step, are_steps, ranged};
ghost use Rattle.ngc_certificate_text.specs.Ahead.{index_at};
ghost use Rattle.ngc_certificate_text.specs.EntryLines.{parsed_version, parsed_counts};
ghost use Rattle.ngc_certificate_text.specs.EntryLines.{motion_counts as counts_in};
ghost use Rattle.ngc_certificate_text.specs.EntryLines.{parsed_entry, three_counts as three_said};
ghost use Rattle.ngc_certificate_text.specs.EntryLines.{of_setting};
ghost use Rattle.ngc_certificate_text.specs.Parts.{parsed_box, box_between, place_between};
ghost use Rattle.ngc_certificate_text.specs.Parts.{piece_with, motion_of, counts_of, both_of};

use crate::expected::{Indices, RemainingEntries};
use crate::line_content::Version;
use crate::number::{numbers_in, split_field};
use crate::piece::{Cut, Piece, Setting};
use ngc_fixed_length::{GridBox, Nm, Point2, StepPos};

/// The reasons why a line is refused.
#[derive(Clone, Copy)]
pub enum LineFlaw {
    /// It is written wrong.
    Spelling,
    /// A number is out of its range, or a box's low corner is above its high corner.
    Range,
}

/// The content of an entry's line: its motions' indexes in the lists of commands, and the number of
/// their pieces.
#[derive(Clone, Copy)]
pub struct EntryLine {
    pub indices: Indices,
    pub pieces: u32,
}

/// The numbers of motions of both settings.
#[derive(Clone, Copy)]
pub struct CountsLine {
    pub off: u32,
    pub on: u32,
}

/// The content of a motion's line: its index in the list of commands, and the number of its pieces.
#[derive(Clone, Copy)]
pub struct MotionLine {
    pub index: u32,
    pub pieces: u32,
}

fn count_between(least: u32, greatest: u32, number: i64) -> Result<u32, LineFlaw>
    ensures { result ≡ ranged (is_count least greatest number) (unsigned_abs number) }
{
    if i64::from(least) <= number && number <= i64::from(greatest) {
        Ok(number as u32)
    } else {
        Err(LineFlaw::Range)
    }
}

fn is_step(number: i64) -> bool
    ensures { result ≡ is_step number }
{
    -2_147_483_648 <= number && number <= 2_147_483_647
}

fn cut_length(number: i64) -> Result<Nm, LineFlaw>
    ensures { result ≡ ranged (is_within CUT_LIMIT number) number }
{
    if number.unsigned_abs() > 4_000_000_000 {
        return Err(LineFlaw::Range);
    }
    match Nm::from_nanometres(i128::from(number)) {
        Ok(length) => Ok(length),
        Err(_) => Err(LineFlaw::Range),
    }
}

fn corner(x: i64, y: i64, z: i64) -> Result<StepPos, LineFlaw>
    ensures { result ≡ ranged (are_steps (record { x = x; y = y; z = z }))
        (record { x = x; y = y; z = z }) }
{
    if is_step(x) && is_step(y) && is_step(z) {
        let (x, y, z) = (x as i32, y as i32, z as i32);
        Ok(StepPos { x, y, z })
    } else {
        Err(LineFlaw::Range)
    }
}

fn box_of(low: StepPos, high: StepPos) -> Result<GridBox, LineFlaw>
    ensures { result ≡ ranged (is_below low high) (record { low = low; high = high }) }
{
    if low.is_below(&high) {
        Ok(GridBox { low, high })
    } else {
        Err(LineFlaw::Range)
    }
}

fn box_between(
    low: Result<StepPos, LineFlaw>,
    high: Result<StepPos, LineFlaw>,
) -> Result<GridBox, LineFlaw>
    ensures { result ≡ box_between low high }
{
    match (low, high) {
        (Ok(low), Ok(high)) => box_of(low, high),
        _ => Err(LineFlaw::Range),
    }
}

// Returns the box with these six numbers.
fn box_in(numbers: &[i64]) -> Result<GridBox, LineFlaw>
    ensures { result ≡ parsed_box numbers.now }
{
    match numbers {
        [x0, y0, z0, x1, y1, z1] => box_between(corner(*x0, *y0, *z0), corner(*x1, *y1, *z1)),
        _ => Err(LineFlaw::Spelling),
    }
}

// Returns the end of a piece of a line motion.
fn part(number: i64) -> Result<Cut, LineFlaw>
    ensures { result ≡ ranged (is_count 1 WHOLE number) (Cut.Part (unsigned_abs number)) }
{
    match count_between(1, 65_536, number) {
        Ok(part) => Ok(Cut::Part(part)),
        Err(flaw) => Err(flaw),
    }
}

// Returns the end of a piece of an arc.
fn place(u: Result<Nm, LineFlaw>, v: Result<Nm, LineFlaw>) -> Result<Cut, LineFlaw>
    ensures { result ≡ place_between u v }
{
    match (u, v) {
        (Ok(u), Ok(v)) => Ok(Cut::Place(Point2 { u, v })),
        _ => Err(LineFlaw::Range),
    }
}

fn piece_with(
    end: Result<Cut, LineFlaw>,
    bounds: Result<GridBox, LineFlaw>,
) -> Result<Piece, LineFlaw>
    ensures { result ≡ piece_with end bounds }
{
    match (bounds, end) {
        (Ok(bounds), Ok(end)) => Ok(Piece { end, bounds }),
        (Ok(_), Err(flaw)) | (Err(flaw), _) => Err(flaw),
    }
}

fn line_piece(numbers: &[i64]) -> Result<Piece, LineFlaw>
    ensures { result ≡ parsed_line (Some numbers.now) }
{
    match numbers {
        [end, steps @ ..] => piece_with(part(*end), box_in(steps)),
        [] => Err(LineFlaw::Spelling),
    }
}

fn arc_piece(numbers: &[i64]) -> Result<Piece, LineFlaw>
    ensures { result ≡ arc_said (Some numbers.now) }
{
    match numbers {
        [u, v, steps @ ..] => piece_with(place(cut_length(*u), cut_length(*v)), box_in(steps)),
        _ => Err(LineFlaw::Spelling),
    }
}

fn one_count(numbers: &[i64]) -> Result<u32, LineFlaw>
    ensures { result ≡ one_said (Some numbers.now) }
{
    match numbers {
        [count] => count_between(0, 1_000_000, *count),
        _ => Err(LineFlaw::Spelling),
    }
}

fn motion_of(
    index: Result<u32, LineFlaw>,
    pieces: Result<u32, LineFlaw>,
) -> Result<MotionLine, LineFlaw>
    ensures { result ≡ motion_of index pieces }
{
    match (index, pieces) {
        (Ok(index), Ok(pieces)) => Ok(MotionLine { index, pieces }),
        _ => Err(LineFlaw::Range),
    }
}

fn two_counts(numbers: &[i64]) -> Result<MotionLine, LineFlaw>
    ensures { result ≡ two_said (Some numbers.now) }
{
    match numbers {
        [index, pieces] => motion_of(
            count_between(0, 999_999, *index),
            count_between(1, 65_535, *pieces),
        ),
        _ => Err(LineFlaw::Spelling),
    }
}

fn counts_of(off: Result<u32, LineFlaw>, on: Result<u32, LineFlaw>) -> Result<CountsLine, LineFlaw>
    ensures { result ≡ counts_of off on }
{
    match (off, on) {
        (Ok(off), Ok(on)) => Ok(CountsLine { off, on }),
        _ => Err(LineFlaw::Range),
    }
}

fn motion_counts(numbers: &[i64]) -> Result<CountsLine, LineFlaw>
    ensures { result ≡ counts_in (Some numbers.now) }
{
    match numbers {
        [off, on] => counts_of(
            count_between(0, 1_000_000, *off),
            count_between(0, 1_000_000, *on),
        ),
        _ => Err(LineFlaw::Spelling),
    }
}

// Returns an entry of both settings.
fn both_of(
    off: Result<u32, LineFlaw>,
    motion: Result<MotionLine, LineFlaw>,
) -> Result<EntryLine, LineFlaw>
    ensures { result ≡ both_of off motion }
{
    match (off, motion) {
        (Ok(off), Ok(motion)) => Ok(EntryLine {
            indices: Indices::Both(off, motion.index),
            pieces: motion.pieces,
        }),
        _ => Err(LineFlaw::Range),
    }
}

fn three_counts(numbers: &[i64]) -> Result<EntryLine, LineFlaw>
    ensures { result ≡ three_said (Some numbers.now) }
{
    match numbers {
        [off, on, pieces] => both_of(
            count_between(0, 999_999, *off),
            motion_of(
                count_between(0, 999_999, *on),
                count_between(1, 65_535, *pieces),
            ),
        ),
        _ => Err(LineFlaw::Spelling),
    }
}

fn motion_counts_in(fields: Option<&[u8]>) -> Result<CountsLine, LineFlaw>
    ensures { result ≡ counts_in (numbers_said (all_fields fields.entry)) }
{
    match numbers_in(fields) {
        Some(numbers) => motion_counts(numbers.as_slice()),
        None => Err(LineFlaw::Spelling),
    }
}

fn three_counts_in(fields: Option<&[u8]>) -> Result<EntryLine, LineFlaw>
    ensures { result ≡ three_said (numbers_said (all_fields fields.entry)) }
{
    match numbers_in(fields) {
        Some(numbers) => three_counts(numbers.as_slice()),
        None => Err(LineFlaw::Spelling),
    }
}

fn one_count_in(fields: Option<&[u8]>) -> Result<u32, LineFlaw>
    ensures { result ≡ one_said (numbers_said (all_fields fields.entry)) }
{
    match numbers_in(fields) {
        Some(numbers) => one_count(numbers.as_slice()),
        None => Err(LineFlaw::Spelling),
    }
}

fn two_counts_in(fields: Option<&[u8]>) -> Result<MotionLine, LineFlaw>
    ensures { result ≡ two_said (numbers_said (all_fields fields.entry)) }
{
    match numbers_in(fields) {
        Some(numbers) => two_counts(numbers.as_slice()),
        None => Err(LineFlaw::Spelling),
    }
}

fn line_piece_in(fields: Option<&[u8]>) -> Result<Piece, LineFlaw>
    ensures { result ≡ parsed_line (numbers_said (all_fields fields.entry)) }
{
    match numbers_in(fields) {
        Some(numbers) => line_piece(numbers.as_slice()),
        None => Err(LineFlaw::Spelling),
    }
}

fn arc_piece_in(fields: Option<&[u8]>) -> Result<Piece, LineFlaw>
    ensures { result ≡ arc_said (numbers_said (all_fields fields.entry)) }
{
    match numbers_in(fields) {
        Some(numbers) => arc_piece(numbers.as_slice()),
        None => Err(LineFlaw::Spelling),
    }
}

pub(crate) fn is_text(bytes: &[u8], text: &[u8]) -> bool
    ensures { result ≡ bytes_eq bytes.now text.now }
{
    bytes == text
}

/// Returns the number of motions of the setting with this name, from its line.
pub(crate) fn setting_line(name: &[u8], line: &[u8]) -> Result<u32, LineFlaw>
    ensures { result ≡ parsed_setting name.now line.now }
{
    let (word, afterwards) = split_field(line);
    let rest = match afterwards {
        Some(rest) => rest,
        None => return Err(LineFlaw::Spelling),
    };
    let (found, numbers) = split_field(rest);
    if !is_text(word, b"setting") {
        return Err(LineFlaw::Spelling);
    }
    if !is_text(found, name) {
        return Err(LineFlaw::Spelling);
    }
    one_count_in(numbers)
}

/// Returns a motion's index and number of pieces, from its line.
pub(crate) fn motion_line(line: &[u8]) -> Result<MotionLine, LineFlaw>
    ensures { result ≡ parsed_motion line.now }
{
    let (word, numbers) = split_field(line);
    if is_text(word, b"motion") {
        two_counts_in(numbers)
    } else {
        Err(LineFlaw::Spelling)
    }
}

/// Returns the version, from the first line.
pub(crate) fn version_line(line: &[u8]) -> Result<Version, LineFlaw>
    ensures { result ≡ parsed_version line.now }
{
    if is_text(line, b"ngc-certificate 1") {
        Ok(Version::One)
    } else if is_text(line, b"ngc-certificate 2") {
        Ok(Version::Two)
    } else {
        Err(LineFlaw::Spelling)
    }
}

/// Returns the numbers of motions of both settings, from their line.
pub(crate) fn counts_line(line: &[u8]) -> Result<CountsLine, LineFlaw>
    ensures { result ≡ parsed_counts line.now }
{
    let (word, numbers) = split_field(line);
    if is_text(word, b"motions") {
        motion_counts_in(numbers)
    } else {
        Err(LineFlaw::Spelling)
    }
}

fn off_entry(motion: Result<MotionLine, LineFlaw>) -> Result<EntryLine, LineFlaw>
    ensures { result ≡ of_setting Indices.Off motion }
{
    match motion {
        Ok(motion) => Ok(EntryLine {
            indices: Indices::Off(motion.index),
            pieces: motion.pieces,
        }),
        Err(flaw) => Err(flaw),
    }
}

fn on_entry(motion: Result<MotionLine, LineFlaw>) -> Result<EntryLine, LineFlaw>
    ensures { result ≡ of_setting Indices.On motion }
{
    match motion {
        Ok(motion) => Ok(EntryLine {
            indices: Indices::On(motion.index),
            pieces: motion.pieces,
        }),
        Err(flaw) => Err(flaw),
    }
}

/// Returns the motion of a setting in version 1, from its line.
pub(crate) fn setting_motion(setting: Setting, line: &[u8]) -> Result<EntryLine, LineFlaw>
    ensures { result ≡ of_setting (index_at setting) (parsed_motion line.now) }
{
    match setting {
        Setting::Off => off_entry(motion_line(line)),
        Setting::On => on_entry(motion_line(line)),
    }
}

// Returns whether a word is the name of an entry that may be next.
fn is_entry(word: &[u8], name: &[u8], may_still_follow: bool) -> bool
    ensures { result ≡ (bytes_eq word.now name.now && may_still_follow) }
{
    is_text(word, name) && may_still_follow
}

/// Returns an entry that may be next, from its line.
pub(crate) fn entry_line(left: &RemainingEntries, line: &[u8]) -> Result<EntryLine, LineFlaw>
    ensures { result ≡ parsed_entry left.now line.now }
{
    let (word, numbers) = split_field(line);
    if is_entry(word, b"both", left.may_be_both()) {
        three_counts_in(numbers)
    } else if is_entry(word, b"off", left.may_be_off()) {
        off_entry(two_counts_in(numbers))
    } else if is_entry(word, b"on", left.may_be_on()) {
        on_entry(two_counts_in(numbers))
    } else {
        Err(LineFlaw::Spelling)
    }
}

/// Returns a piece, from its line.
pub(crate) fn piece_line(line: &[u8]) -> Result<Piece, LineFlaw>
    ensures { result ≡ parsed_piece line.now }
{
    let (word, numbers) = split_field(line);
    if is_text(word, b"line") {
        line_piece_in(numbers)
    } else if is_text(word, b"arc") {
        arc_piece_in(numbers)
    } else {
        Err(LineFlaw::Spelling)
    }
}

/// Checks that the line is the last one.
pub(crate) fn end_line(line: &[u8]) -> Result<(), LineFlaw>
    ensures { result ≡ parsed_end line.now }
{
    if is_text(line, b"end") {
        Ok(())
    } else {
        Err(LineFlaw::Spelling)
    }
}
