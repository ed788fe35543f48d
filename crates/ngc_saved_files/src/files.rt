//! The files of a call.
ghost use Rattle.std.specs.Prelude.{◌≡◌};
ghost use Rattle.ngc_saved_files.specs.Files.{saved_bytes};
ghost use Rattle.ngc_saved_files.specs.Lines.{lines_of};

use crate::lines::{FilesInLines, files_in_lines};
use crate::source::SavedSource;
use ngc_command_line::Options;
use ngc_inputs::Files;
use ngc_line_reader::ReadFault;
use ngc_saved_text::{Unmarked, Unreturned};
use std::cell::Cell;

/// Files without what an editor adds to a text: the byte order mark at the beginning of each of them, and the
/// carriage returns before line feeds in those that are in lines of a fixed form.
#[derive(Drop)]
pub struct SavedFiles<'a, 'b, F> {
    pub inner: F,
    pub lines: FilesInLines<'a>,
    /// Set where a text begins with a mark of UTF-16.
    pub is_wide: &'b Cell<bool>,
}

impl<'a, 'b, F> SavedFiles<'a, 'b, F> {
    /// Returns the files of a command.
    pub fn new(inner: F, options: &Options<'a>, is_wide: &'b Cell<bool>) -> SavedFiles<'a, 'b, F>
        ensures inner { result.inner ≡ inner }
        ensures lines { result.lines ≡ lines_of options.now }
    {
        SavedFiles {
            inner,
            lines: files_in_lines(options),
            is_wide,
        }
    }
}

impl<'b, F: Files> Files for SavedFiles<'_, 'b, F> {
    type R = SavedSource<'b, F::R>;

    ghost failures = { λ f. F.failures f.inner };

    ghost bytes = { λ f. saved_bytes f.lines (F.bytes f.inner) };

    fn source(&mut self, name: Option<&str>) -> Result<SavedSource<'b, F::R>, ReadFault> {
        let source = Unmarked::new(self.inner.source(name)?, self.is_wide);
        if self.lines.has(name) {
            Ok(SavedSource::InLines(Unreturned::new(source)))
        } else {
            Ok(SavedSource::Whole(source))
        }
    }
}
