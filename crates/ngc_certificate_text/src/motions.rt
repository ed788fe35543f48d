ghost use Rattle.std.specs.Prelude.{◌≡◌, ◌<◌, ◌≤◌, ◌++◌, ◌∷◌, ◌↔◌, [], length, IsTrue, IfOk, OnOk};
ghost use Rattle.std.specs.Prelude.{OnErr};
ghost use Rattle.std.specs.List.{list_all};
ghost use Rattle.ngc_certificate_text.specs.Certificate.{IsEntry, entry_at, good_piece};
ghost use Rattle.ngc_certificate_text.specs.Certificate.{MOTION_LIMIT, PIECE_LIMIT};

use crate::motion_list::MotionList;
use crate::piece::Piece;
use std::alloc::{AllocError, Allocator};
use std::marker::Model;

// A motion, and the range of its pieces.
#[derive(Clone, Copy)]
struct Held {
    index: u32,
    count: u16,
    start: usize,
}

/// The motions of a setting, in order. Each has its index in the list of commands, at most 999,999,
/// and its pieces, 1 to 65,535. There are at most 1,000,000 motions.
#[derive(Drop)]
pub struct Motions<A: Allocator> {
    held: Vec<Held, A>,
    pieces: Vec<Piece, A>,
}

impl<A: Allocator> Model for Motions<A> {
    ghost use Rattle.std.specs.Prelude.{List};
    ghost use Rattle.ngc_certificate_text.specs.Certificate.{Entry};
    ghost use Rattle.ngc_certificate_text.specs.Held.{held_entries, AreHeld};

    ghost Value = { List Entry };

    ghost view = { λ m. held_entries m.pieces.items m.held.items };

    ghost invariant = { λ m. AreHeld m.pieces.items m.held.items };
}

impl<A: Allocator + Copy> Motions<A> {
    /// Returns an empty list of motions, with memory from `alloc`.
    pub fn new(alloc: A) -> Motions<A>
        ensures { result ≡ [] }
    {
        Motions {
            held: Vec::new(alloc),
            pieces: Vec::new(alloc),
        }
    }

    /// Returns a copy of the motions, with memory from `alloc`.
    pub fn copy(&self, alloc: A) -> Result<Motions<A>, AllocError>
        ensures { IfOk result (λ m. m ≡ self.now) }
    {
        let held = Vec::from_slice(alloc, self.held.as_slice())?;
        let pieces = Vec::from_slice(alloc, self.pieces.as_slice())?;
        Ok(Motions { held, pieces })
    }
}

impl<A: Allocator> Motions<A> {
    /// Returns the number of motions.
    pub fn len(&self) -> usize
        ensures value { result ≡ length self.now }
        ensures limit { result ≤ MOTION_LIMIT }
    {
        self.held.len()
    }

    /// Returns whether there are no motions.
    pub fn is_empty(&self) -> bool
        ensures { IsTrue result ↔ (self.now ≡ []) }
    {
        self.len() == 0
    }

    /// Returns the index of motion `i` in the list of commands. `i` is below `len`.
    pub fn index(&self, i: usize) -> u32
        requires { i < length self.now }
        ensures { result ≡ (entry_at self.now i).index }
    {
        self.held[i].index
    }

    /// Returns the pieces of motion `i`, in order. `i` is below `len`.
    pub fn pieces(&self, i: usize) -> &[Piece]
        requires { i < length self.now }
        ensures value { result.now ≡ (entry_at self.now i).pieces }
        ensures some { 1 ≤ length result.now }
        ensures count { length result.now ≤ PIECE_LIMIT }
        ensures good { IsTrue (list_all good_piece result.now) }
    {
        let held = self.held[i];
        &self.pieces[held.start..held.start + usize::from(held.count)]
    }

    /// Adds a motion. If memory is refused, nothing is added.
    pub fn push(&mut self, index: u32, pieces: &[Piece]) -> Result<(), AllocError>
        requires entry { IsEntry (record { index = index; pieces = pieces.now }) }
        requires room { length self.old < MOTION_LIMIT }
        ensures ok { OnOk result
            (self.new ≡ self.old ++ (record { index = index; pieces = pieces.now } ∷ [])) }
        ensures err { OnErr result (self.new ≡ self.old) }
    {
        let start = self.pieces.len();
        self.pieces.extend_from_slice(pieces)?;
        let held = Held {
            index,
            count: pieces.len() as u16,
            start,
        };
        match self.held.push(held) {
            Ok(()) => Ok(()),
            Err(_) => {
                self.pieces.truncate(start);
                Err(AllocError)
            }
        }
    }
}

impl<A: Allocator> MotionList for Motions<A> {
    ghost entries = { λ m. m };

    fn count(&self) -> usize {
        self.held.as_slice().len()
    }

    fn command_index(&self, i: usize) -> u32 {
        self.index(i)
    }

    fn piece_count(&self, i: usize) -> usize {
        self.pieces(i).len()
    }

    fn piece(&self, i: usize, k: usize) -> Piece {
        self.pieces(i)[k]
    }
}
