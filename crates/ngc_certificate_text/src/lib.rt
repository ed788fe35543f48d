//! Certificates and their text: boxes of grid points for the motions of a program.
#![tactic(auto)]

mod certificate;
mod certificate_lines;
mod expected;
mod fault;
mod found;
pub mod laws;
mod line_content;
mod lines;
mod motion_list;
mod motions;
mod next_line;
mod number;
mod piece;
mod read;
mod reader;
mod text;
mod write;

pub use certificate::{Certificate, EntryKind, first_joined};
pub use certificate_lines::CertificateLines;
pub use expected::{BegunMotion, Expected, Indices, RemainingEntries, RemainingMotions};
pub use fault::CertificateFault;
pub use line_content::{LineContent, Version};
pub use motion_list::MotionList;
pub use motions::Motions;
pub use piece::{Cut, Piece, Setting};
pub use reader::CertificateReader;
pub use write::{write_joined, write_parted};
