//! Certificates for the motions of a program: the pieces that contain them, the maker, and the
//! commands that aren't cleared.
#![tactic(auto)]

mod bounds;
mod chain;
mod cuts;
mod cutting;
mod derived;
mod divide;
mod fault;
mod finding;
mod furthest;
mod joiner;
pub mod laws;
mod limits;
mod maker;
mod not_cleared;
mod pieces;
mod plan;
mod planned_motions;
mod plans;
mod quadrant;
mod shared;
mod store;
mod stretch;
mod traverses;

pub use divide::undivided;
pub use fault::{MakeFault, MemoryFault, PieceFault, PieceRefusal};
pub use joiner::{common_motions, join};
pub use maker::{make, make_alike};
pub use ngc_certificate_text::{Certificate, Cut, Motions, Piece, Setting};
pub use not_cleared::{uncleared, uncleared_from};
pub use pieces::{PieceJudge, piece_fault, pieces_fault, place_fault};
pub use plan::Plan;
pub use planned_motions::PlannedMotions;
pub use plans::{Plans, make_plans, make_plans_alike};
pub use stretch::Stretch;
pub use traverses::{most_pieces, takes_any_way};
