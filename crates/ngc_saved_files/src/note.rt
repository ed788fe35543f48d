//! The line about UTF-16.
ghost use Rattle.ngc_saved_files.specs.Notes.{IsNoted};

use ngc_text::{Sink, write_all};

/// Writes how to save a text of UTF-16, if a command that read one isn't done.
pub fn note_wide<E: Sink>(is_wide: bool, status: u8, errors: &mut E)
    ensures { IsNoted is_wide status (E.written errors.old) (E.written errors.new) (E.failures errors.old)
        (E.failures errors.new) }
{
    if is_wide && status != 0 {
        let _ = write_all(errors, b"ngc: the file is UTF-16: save it as UTF-8\n");
    }
}
