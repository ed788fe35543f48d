//! How notes are said, in words or as facts of a JSON document.
ghost use Rattle.ngc_sentences.specs.Saying.{Says};
ghost use Rattle.ngc_dialect_note_texts.specs.Texts.{note_fact, note_words, note_text};

use crate::words::{class_text, kind_text, remark_text};
use ngc_dialect_notes::Note;
use ngc_report::Form;
use ngc_sentences::{Page, Part, say};
use ngc_text::Sink;

#[tactic(auto, unfolding(crate::specs::Texts::note_words))]
fn say_words<W: Sink>(note: &Note, page: &mut Page, output: &mut W)
    ensures { Says (W.written output.old) (W.written output.new)
        (W.failures output.old) (W.failures output.new) page.old page.new (note_words note.now) }
{
    let class = class_text(note.kind.class());
    let kind = kind_text(note.kind);
    let remark = remark_text(note.kind);
    say!(page, output; b"note (", Part::Text(class), b"): ", Part::Text(kind), b": ", Part::Number(u128::from(note.count)), b", the first in line ", Part::Number(u128::from(note.line)), b": ", Part::Text(remark), b".\n");
}

#[tactic(auto, unfolding(crate::specs::Texts::note_fact))]
fn say_fact<W: Sink>(note: &Note, page: &mut Page, output: &mut W)
    ensures { Says (W.written output.old) (W.written output.new)
        (W.failures output.old) (W.failures output.new) page.old page.new (note_fact note.now) }
{
    let class = class_text(note.kind.class());
    let kind = kind_text(note.kind);
    say!(page, output; b",\n{\"fact\":\"note\",\"class\":\"", Part::Text(class), b"\",\"text\":\"", Part::Text(kind), b"\",\"count\":", Part::Number(u128::from(note.count)), b",\"line\":", Part::Number(u128::from(note.line)), b"}");
}

/// Says a note, or nothing if there is none.
pub(crate) fn say_note<W: Sink>(form: Form, note: &Option<Note>, page: &mut Page, output: &mut W)
    ensures { Says (W.written output.old) (W.written output.new)
        (W.failures output.old) (W.failures output.new) page.old page.new (note_text form note.now) }
{
    match (form, note) {
        (_, None) => {}
        (Form::Words, Some(note)) => say_words(note, page, output),
        (Form::Json, Some(note)) => say_fact(note, page, output),
    }
}
