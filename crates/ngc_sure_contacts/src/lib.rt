//! Where straight traverses surely go through material: a map of the heights under which no motion before
//! has swept the stock, and each traverse that a walk has found tested in it.
#![tactic(auto)]

mod body;
mod contact;
mod cutter;
mod discs;
mod ground;
mod line;
mod seen;
mod sink;
mod sweep;
mod walk;

pub use contact::{Contact, FoundTraverse};
pub use walk::find_contacts;
