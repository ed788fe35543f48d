//! The source of a text.
ghost use Rattle.ngc_saved_files.specs.Files.{source_failures, source_remaining};

use ngc_saved_text::{Unmarked, Unreturned};
use ngc_text::{DeviceFault, Source};

/// The source of a text without the byte order mark, or of one that has no carriage returns before its line
/// feeds either.
#[derive(Drop)]
pub enum SavedSource<'a, S> {
    Whole(Unmarked<'a, S>),
    InLines(Unreturned<Unmarked<'a, S>>),
}

impl<S: Source> Source for SavedSource<'_, S> {
    ghost remaining = { source_remaining S.remaining };

    ghost failures = { source_failures S.failures };

    fn pull(&mut self, buf: &mut [u8]) -> Result<usize, DeviceFault> {
        match self {
            SavedSource::Whole(text) => text.pull(buf),
            SavedSource::InLines(text) => text.pull(buf),
        }
    }
}
