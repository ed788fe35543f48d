//! The files of a call as they are read: without what an editor adds to a text.
#![tactic(auto)]

mod files;
mod lines;
mod note;
mod source;

pub use files::SavedFiles;
pub use lines::{FilesInLines, files_in_lines};
pub use note::note_wide;
pub use source::SavedSource;
