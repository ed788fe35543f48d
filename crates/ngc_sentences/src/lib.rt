//! Sentences as data: a sentence is a list of parts, and one function writes any of them.
#![tactic(auto)]

mod clock;
mod page;
mod part;
mod say;

pub use page::Page;
pub use part::Part;
