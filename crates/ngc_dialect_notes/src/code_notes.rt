//! What is noted of a line's codes.
ghost use Rattle.std.specs.Prelude.{◌≡◌};
ghost use Rattle.ngc_dialect_notes.specs.CodeNotes as spec;
ghost use Rattle.ngc_dialect_notes.specs.Notes.{all_noted};

use crate::dialect::is_grbl;
use crate::in_force::{changes_units, ends_inverse_time, is_incremental, is_per_minute};
use crate::kind::Kind;
use crate::motion::{dwells_by_axis, has_axes};
use crate::noted;
use crate::notes::Notes;
use ngc_dialect_names::Dialect;
use ngc_dialect_numbers::Number;
use ngc_dialect_parameters::Word;
use ngc_dialect_rules::{
    Code, Known, codes, has, has_letter, is_fanuc, is_linuxcnc, value_of, word_of,
};

fn has_tolerance(line: &[Code], words: &[Word]) -> bool
    ensures { result ≡ spec.has_tolerance line.now words.now }
{
    has(&noted::BLENDING, line) && (has_letter(b'P', words) || has_letter(b'Q', words))
}

// Returns whether a line has a code of a table and no axis words.
fn is_lone(table: &[Code], dialect: Dialect, line: &[Code], words: &[Word]) -> bool
    ensures { result ≡ spec.is_lone table.now dialect line.now words.now }
{
    has(table, line) && !has_axes(dialect, line, words)
}

fn has_no_h(line: &[Code], words: &[Word]) -> bool
    ensures { result ≡ spec.has_no_h line.now words.now }
{
    has(&codes::TABLE_LENGTHS, line) && !has_letter(b'H', words)
}

fn changes_tool_in_grbl(dialect: Dialect, line: &[Code]) -> bool
    ensures { result ≡ spec.changes_tool_in_grbl dialect line.now }
{
    is_grbl(dialect) && has(&codes::TOOL_CHANGE, line)
}

// Returns whether G28 or G30 moves an axis home, which Fanuc names by U, V or W too.
fn names_axis(dialect: Dialect, axis: u8, other: u8, words: &[Word]) -> bool
    ensures { result ≡ spec.names_axis dialect axis other words.now }
{
    has_letter(axis, words) || (is_fanuc(dialect) && has_letter(other, words))
}

fn is_mixed(x: bool, y: bool, z: bool) -> bool
    ensures { result ≡ spec.is_mixed x y z }
{
    (x || y || z) && !(x && y && z)
}

fn names_some_axes(dialect: Dialect, words: &[Word]) -> bool
    ensures { result ≡ spec.names_some_axes dialect words.now }
{
    let x = names_axis(dialect, b'X', b'U', words);
    let y = names_axis(dialect, b'Y', b'V', words);
    let z = names_axis(dialect, b'Z', b'W', words);
    is_mixed(x, y, z)
}

fn homes_some_axes(dialect: Dialect, line: &[Code], words: &[Word]) -> bool
    ensures { result ≡ spec.homes_some_axes dialect line.now words.now }
{
    has(&codes::HOMES, line) && names_some_axes(dialect, words)
}

fn is_place_in_g91(known: &Known, line: &[Code], words: &[Word]) -> bool
    ensures { result ≡ spec.is_place_in_g91 known.now line.now words.now }
{
    has(&codes::MACHINE_PLACE, line)
        && is_incremental(known.modes.distance, line)
        && has_axes(known.dialect, line, words)
}

fn is_motion_apart(dialect: Dialect, line: &[Code], words: &[Word]) -> bool
    ensures { result ≡ spec.is_motion_apart dialect line.now words.now }
{
    has(&codes::TAKE_AXES, line) && has(&codes::MOTIONS, line) && has_axes(dialect, line, words)
}

fn adds_to_origin(known: &Known, line: &[Code]) -> bool
    ensures { result ≡ spec.adds_to_origin known.now line.now }
{
    is_fanuc(known.dialect)
        && has(&codes::SETTING, line)
        && is_incremental(known.modes.distance, line)
}

fn is_zero_or_none(value: Option<Number>) -> bool
    ensures { result ≡ spec.is_zero_or_none value }
{
    match value {
        None => true,
        Some(value) => value.trillionths() == 0,
    }
}

fn sets_system_in_force(line: &[Code], words: &[Word]) -> bool
    ensures { result ≡ spec.sets_system_in_force line.now words.now }
{
    has(&codes::SETTING, line) && is_zero_or_none(value_of(b'P', words))
}

fn feeds_in_new_units(known: &Known, line: &[Code], words: &[Word]) -> bool
    ensures { result ≡ spec.feeds_in_new_units known.now line.now words.now }
{
    has_letter(b'F', words)
        && changes_units(known.modes.units, line)
        && is_per_minute(known.modes.feed_mode, line)
}

fn keeps_feed(known: &Known, line: &[Code], words: &[Word]) -> bool
    ensures { result ≡ spec.keeps_feed known.now line.now words.now }
{
    ends_inverse_time(known.modes.feed_mode, line) && !has_letter(b'F', words)
}

/// Returns whether a word of a time counts milliseconds.
pub(crate) fn is_in_milliseconds(word: Option<Word>) -> bool
    ensures { result ≡ spec.is_in_milliseconds word }
{
    match word {
        None => false,
        Some(word) => !word.point && word.value.trillionths() != 0,
    }
}

fn dwells_in_milliseconds(dialect: Dialect, line: &[Code], words: &[Word]) -> bool
    ensures { result ≡ spec.dwells_in_milliseconds dialect line.now words.now }
{
    is_fanuc(dialect) && has(&codes::DWELL, line) && is_in_milliseconds(word_of(b'P', words))
}

fn is_beside_dwell(words: &[Word]) -> bool
    ensures { result ≡ spec.is_beside_dwell words.now }
{
    has_letter(b'P', words)
        || has_letter(b'Y', words)
        || has_letter(b'Z', words)
        || (has_letter(b'X', words) && has_letter(b'U', words))
}

fn has_words_beside_dwell(dialect: Dialect, line: &[Code], words: &[Word]) -> bool
    ensures { result ≡ spec.has_words_beside_dwell dialect line.now words.now }
{
    dwells_by_axis(dialect, line, words) && is_beside_dwell(words)
}

impl Notes {
    #[tactic(auto, unfolding(crate::specs::Notes::all_noted, crate::specs::CodeNotes::by_left_out))]
    fn add_left_out(&mut self, line: u32, known: &Known, codes: &[Code], words: &[Word])
        ensures { self.new
            ≡ all_noted line (spec.by_left_out known.now codes.now words.now) self.old }
    {
        let dialect = known.dialect;
        self.note_if(has(&noted::SWITCHES, codes), line, Kind::Switch);
        self.note_if(has(&noted::LOOK_AHEAD, codes), line, Kind::LookAhead);
        self.note_if(has(&codes::IDLE, codes), line, Kind::IdleCode);
        self.note_if(has_tolerance(codes, words), line, Kind::PathTolerance);
        let lone_place = is_lone(&codes::MACHINE_PLACE, dialect, codes, words);
        self.note_if(lone_place, line, Kind::LoneMachinePlace);
        let lone_cycle = is_lone(&codes::CYCLES, dialect, codes, words);
        self.note_if(lone_cycle, line, Kind::LoneCycle);
        self.note_if(has(&noted::OLD_UNITS, codes), line, Kind::OldUnits);
        self.note_if(has(&noted::TOOL_CENTRE, codes), line, Kind::ToolCentre);
        let compensated = has(&codes::COMPENSATION, codes);
        self.note_if(compensated, line, Kind::CutterRadius);
    }

    #[tactic(auto, unfolding(crate::specs::Notes::all_noted, crate::specs::CodeNotes::by_tool))]
    fn add_tool(&mut self, line: u32, known: &Known, codes: &[Code], words: &[Word])
        ensures { self.new ≡ all_noted line (spec.by_tool known.now codes.now words.now) self.old }
    {
        self.note_if(has_no_h(codes, words), line, Kind::LengthWithoutH);
        let changes = changes_tool_in_grbl(known.dialect, codes);
        self.note_if(changes, line, Kind::ToolChange);
    }

    #[tactic(auto, unfolding(crate::specs::Notes::all_noted, crate::specs::CodeNotes::by_place))]
    fn add_place(&mut self, line: u32, known: &Known, codes: &[Code], words: &[Word])
        ensures { self.new ≡ all_noted line (spec.by_place known.now codes.now words.now) self.old }
    {
        let dialect = known.dialect;
        let place = is_place_in_g91(known, codes, words);
        self.note_if(place, line, Kind::MachinePlaceInG91);
        let homes = homes_some_axes(dialect, codes, words);
        self.note_if(homes, line, Kind::HomeAxes);
        let apart = is_motion_apart(dialect, codes, words);
        self.note_if(apart, line, Kind::MotionApart);
        self.note_if(adds_to_origin(known, codes), line, Kind::OriginAdded);
        let in_force = sets_system_in_force(codes, words);
        self.note_if(in_force, line, Kind::SystemInForce);
        self.note_if(has(&codes::LOCAL_OFFSET, codes), line, Kind::LocalOffset);
    }

    #[tactic(auto, unfolding(crate::specs::Notes::all_noted, crate::specs::CodeNotes::by_feed))]
    fn add_feed(&mut self, line: u32, known: &Known, codes: &[Code], words: &[Word])
        ensures { self.new ≡ all_noted line (spec.by_feed known.now codes.now words.now) self.old }
    {
        let dialect = known.dialect;
        let in_new_units = feeds_in_new_units(known, codes, words);
        self.note_if(in_new_units, line, Kind::FeedUnits);
        self.note_if(keeps_feed(known, codes, words), line, Kind::KeptFeed);
        let milliseconds = dwells_in_milliseconds(dialect, codes, words);
        self.note_if(milliseconds, line, Kind::Milliseconds);
        let beside = has_words_beside_dwell(dialect, codes, words);
        self.note_if(beside, line, Kind::BesideDwell);
    }

    fn add_others(&mut self, line: u32, known: &Known, codes: &[Code], words: &[Word])
        ensures { self.new ≡ spec.by_others known.now line codes.now words.now self.old }
    {
        if !is_linuxcnc(known.dialect) {
            self.add_tool(line, known, codes, words);
            self.add_place(line, known, codes, words);
            self.add_feed(line, known, codes, words);
        }
    }

    #[tactic(auto, unfolding(crate::specs::CodeNotes::codes_noted))]
    pub(crate) fn add_codes(&mut self, line: u32, known: &Known, codes: &[Code], words: &[Word])
        ensures { self.new ≡ spec.codes_noted line known.now codes.now words.now self.old }
    {
        if !codes.is_empty() {
            self.add_left_out(line, known, codes, words);
            self.add_others(line, known, codes, words);
        }
    }
}
