//! Tests that need code, of the crates below the program's commands: refused memory, readers that are
//! fed in pieces, faults that stay, and texts and a picture that no command prints.
#![tactic(auto)]

#[cfg(test)]
mod arc_paths;
#[cfg(test)]
mod certificate_memory;
#[cfg(test)]
mod certificate_readers;
#[cfg(test)]
mod checks;
#[cfg(test)]
mod fault_texts;
#[cfg(test)]
mod guides;
#[cfg(test)]
mod map_picture;
#[cfg(test)]
mod program_pieces;
#[cfg(test)]
mod text_memory;
