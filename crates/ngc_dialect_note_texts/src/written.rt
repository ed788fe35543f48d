//! How all notes are written.
ghost use Rattle.std.specs.Prelude.{OnOk, OnErr, flat_map};
ghost use Rattle.std.specs.Io.KnownBytes.{Appends};
ghost use Rattle.ngc_text.specs.Failures.{CountsFailure};
ghost use Rattle.ngc_text.specs.Written.{AppendsPrefix};
ghost use Rattle.ngc_sentences.specs.Saying.{Says};
ghost use Rattle.ngc_dialect_note_texts.specs.Texts.{notes_text, note_text};

use crate::saying::say_note;
use ngc_dialect_notes::{Note, Notes};
use ngc_report::Form;
use ngc_sentences::Page;
use ngc_text::{Sink, WriteFault};

fn say_all<W: Sink>(form: Form, places: &[Option<Note>], page: &mut Page, output: &mut W)
    ensures { Says (W.written output.old) (W.written output.new)
        (W.failures output.old) (W.failures output.new) page.old page.new
        (flat_map (note_text form) places.now) }
{
    for note in places {
        say_note(form, note, page, output);
    }
}

/// Writes the notes on a program: a line or a fact for each kind that occurred, in the order in
/// which they occurred first.
///
/// The function allocates no memory. After a fault (902, only if the sink failed) a prefix of the
/// text is written.
pub fn write_notes<W: Sink>(form: Form, notes: &Notes, output: &mut W) -> Result<(), WriteFault>
    ensures ok { OnOk result
        (Appends (W.written output.old) (W.written output.new) (notes_text form notes.now)) }
    ensures fault { OnErr result
        (AppendsPrefix (W.written output.old) (W.written output.new)
        (notes_text form notes.now)) }
    ensures counts { CountsFailure (W.failures output.old) (W.failures output.new) result }
{
    let mut page = Page::new();
    say_all(form, &notes.places, &mut page, output);
    page.finish(output)
}
