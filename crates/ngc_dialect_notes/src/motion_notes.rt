//! What is noted of the motion that a line makes.
ghost use Rattle.std.specs.Prelude.{◌≡◌};
ghost use Rattle.ngc_dialect_notes.specs.MotionNotes as spec;
ghost use Rattle.ngc_dialect_notes.specs.Notes.{all_noted};

use crate::code_notes::is_in_milliseconds;
use crate::dialect::{is_grbl, is_mach3, keeps_words};
use crate::in_force::{depth_letter, plane_on, u_letter, v_letter};
use crate::kind::Kind;
use crate::motion::has_offsets;
use crate::moved_centre::has_moved_centre;
use crate::noted;
use crate::notes::{Notes, Said};
use ngc_dialect_names::Dialect;
use ngc_dialect_parameters::Word;
use ngc_dialect_rules::{
    Code, KeptSeries, Known, codes, has_letter, is_among, is_fanuc, is_linuxcnc, word_of,
};

// Returns whether an arc has no axis word of its plane.
fn has_no_end(known: &Known, line: &[Code], words: &[Word]) -> bool
    ensures { result ≡ spec.has_no_end known.now line.now words.now }
{
    let plane = plane_on(known.modes.plane, line);
    !(has_letter(u_letter(plane), words) || has_letter(v_letter(plane), words))
}

fn has_unsaid_centre(dialect: Dialect, said: Said, words: &[Word]) -> bool
    ensures { result ≡ spec.has_unsaid_centre dialect said words.now }
{
    is_mach3(dialect) && !said.centres && has_offsets(words)
}

fn has_kept_dwell(dialect: Dialect, code: Code, series: &Option<KeptSeries>) -> bool
    ensures { result ≡ spec.has_kept_dwell dialect code series.now }
{
    match series {
        None => false,
        Some(kept) => kept.dwell.is_some() && (kept.code.is(code) || keeps_words(dialect)),
    }
}

fn has_no_dwell(known: &Known, code: Code, words: &[Word]) -> bool
    ensures { result ≡ spec.has_no_dwell known.now code words.now }
{
    is_among(&noted::DWELLING, code)
        && !has_letter(b'P', words)
        && !has_kept_dwell(known.dialect, code, &known.front.series)
}

fn lacks_word(known: &Known, line: &[Code], code: Code, words: &[Word]) -> bool
    ensures { result ≡ spec.lacks_word known.now line.now code words.now }
{
    !has_letter(b'R', words)
        || !has_letter(depth_letter(plane_on(known.modes.plane, line)), words)
        || (is_among(&noted::DWELLING, code) && !has_letter(b'P', words))
        || (is_among(&noted::PECKS, code) && !has_letter(b'Q', words))
}

fn follows_other(code: Code, series: &Option<KeptSeries>) -> bool
    ensures { result ≡ spec.follows_other code series.now }
{
    match series {
        None => false,
        Some(kept) => !kept.code.is(code),
    }
}

fn takes_kept_words(known: &Known, line: &[Code], code: Code, words: &[Word]) -> bool
    ensures { result ≡ spec.takes_kept_words known.now line.now code words.now }
{
    keeps_words(known.dialect)
        && follows_other(code, &known.front.series)
        && lacks_word(known, line, code, words)
}

fn counts_holes(dialect: Dialect, words: &[Word]) -> bool
    ensures { result ≡ spec.counts_holes dialect words.now }
{
    is_fanuc(dialect) && (has_letter(b'K', words) || has_letter(b'L', words))
}

fn dwells_in_milliseconds(dialect: Dialect, code: Code, words: &[Word]) -> bool
    ensures { result ≡ spec.dwells_in_milliseconds dialect code words.now }
{
    is_fanuc(dialect)
        && is_among(&noted::DWELLING, code)
        && is_in_milliseconds(word_of(b'P', words))
}

fn is_unsaid_motion(dialect: Dialect, said: Said) -> bool
    ensures { result ≡ spec.is_unsaid_motion dialect said }
{
    is_grbl(dialect) && !said.motion
}

impl Notes {
    #[tactic(auto, unfolding(crate::specs::Notes::all_noted, crate::specs::MotionNotes::by_arc))]
    fn add_arc(&mut self, line: u32, known: &Known, codes: &[Code], words: &[Word])
        ensures { self.new
            ≡ all_noted line (spec.by_arc known.now self.old.said codes.now words.now) self.old }
    {
        let said = self.said;
        self.note_if(has_no_end(known, codes, words), line, Kind::FullCircle);
        let unsaid = has_unsaid_centre(known.dialect, said, words);
        self.note_if(unsaid, line, Kind::CentreMode);
    }

    #[tactic(auto, unfolding(crate::specs::Notes::all_noted, crate::specs::MotionNotes::by_cycle))]
    fn add_cycle(&mut self, line: u32, known: &Known, codes: &[Code], code: Code, words: &[Word])
        ensures { self.new ≡ all_noted line
            (spec.by_cycle known.now self.old.said codes.now code words.now) self.old }
    {
        let dialect = known.dialect;
        let unsaid = !self.said.retract;
        self.note_if(is_grbl(dialect), line, Kind::CycleInGrbl);
        self.note_if(unsaid, line, Kind::StartRetract);
        self.note_if(has_no_dwell(known, code, words), line, Kind::NoDwell);
        let milliseconds = dwells_in_milliseconds(dialect, code, words);
        self.note_if(milliseconds, line, Kind::Milliseconds);
        self.note_if(is_among(&noted::CLEARING, code), line, Kind::PeckClearance);
        self.note_if(
            is_among(&noted::CHIP_BREAKING, code),
            line,
            Kind::ChipBreaking,
        );
        let kept = takes_kept_words(known, codes, code, words);
        self.note_if(kept, line, Kind::KeptWords);
        self.note_if(counts_holes(dialect, words), line, Kind::HoleCount);
    }

    fn add_special(&mut self, line: u32, known: &Known, codes: &[Code], words: &[Word], code: Code)
        ensures { self.new
            ≡ spec.special_noted line known.now codes.now words.now code self.old }
    {
        if is_among(&codes::ARCS, code) {
            self.add_arc(line, known, codes, words);
        } else if is_among(&codes::CYCLES, code) {
            self.add_cycle(line, known, codes, code, words);
        }
    }

    fn add_other_by(&mut self, line: u32, known: &Known, codes: &[Code], words: &[Word], code: Code)
        ensures { self.new ≡ spec.other_by line known.now codes.now words.now code self.old }
    {
        if is_linuxcnc(known.dialect) {
            return;
        }
        let unsaid = is_unsaid_motion(known.dialect, self.said);
        self.note_if(unsaid, line, Kind::FirstTraverse);
        self.add_special(line, known, codes, words, code);
    }

    fn add_motion_by(
        &mut self,
        line: u32,
        known: &Known,
        codes: &[Code],
        words: &[Word],
        code: Code,
    )
        ensures { self.new ≡ spec.motion_by line known.now codes.now words.now code self.old }
    {
        let moved = has_moved_centre(known, codes, words, code);
        self.note_if(moved, line, Kind::MovedCentre);
        self.add_other_by(line, known, codes, words, code);
    }

    pub(crate) fn add_motion(
        &mut self,
        line: u32,
        known: &Known,
        codes: &[Code],
        words: &[Word],
        motion: Option<Code>,
    )
        ensures { self.new ≡ spec.motion_noted line known.now codes.now words.now motion self.old }
    {
        if let Some(code) = motion {
            self.add_motion_by(line, known, codes, words, code);
        }
    }
}
