//! Plans: how the motions of a setting are cut, without the pieces that can be computed.
ghost use Rattle.std.specs.Prelude.{◌≡◌, ◌<◌, ◌≤◌, ◌++◌, ◌∷◌, [], ℤ, List, length, true, OnOk};
ghost use Rattle.ngc_commands.specs.declared.command.Command.{Command};
ghost use Rattle.ngc_fixed_length.specs.Length.{IsStep};
ghost use Rattle.ngc_certificate_text.specs.Certificate.{IsEntry, MOTION_LIMIT};
ghost use Rattle.ngc_certificate.specs.Made.{line_pieces_from, pieces_of};
ghost use Rattle.ngc_certificate.specs.PieceIn.{piece_in};

use crate::divide::{line_piece_at, undivided};
use crate::joiner::same_pieces;
use crate::store::MotionStore;
use ngc_certificate_text::{Motions, Piece};
use ngc_commands::{Command, Way};
use ngc_fixed_length::{Nm, Point3};
use std::alloc::{AllocError, Allocator};
use std::mem::size_of;

/// How a motion is cut.
#[derive(Clone, Copy)]
pub(crate) enum Cutting {
    /// A line in this number of pieces of about the same length, or an arc in one piece.
    Divided(u16),
    /// An arc that is cut; its pieces are stored at this position.
    Cut(u32),
}

/// A motion, by the index of its command, and how it is cut.
#[derive(Clone, Copy)]
pub(crate) struct Planned {
    pub(crate) index: u32,
    pub(crate) cutting: Cutting,
}

// A million motions take 12 MB.
const _: () = prove!(size_of::<Planned>() == 12);

/// How the motions of a setting are cut. Of the pieces, it stores only those of arcs that are cut:
/// the others are computed from the commands when they are needed.
#[derive(Drop)]
pub struct Plan<A: Allocator> {
    pub(crate) motions: Vec<Planned, A>,
    /// The arcs that are cut, with their pieces.
    pub(crate) arcs: Motions<A>,
    ghost few: { length arcs ≤ length motions.items },
}

impl<A: Allocator + Copy> Plan<A> {
    ghost use Rattle.ngc_certificate.specs.Planned.{planned};

    /// Returns an empty plan, with memory from `alloc`.
    pub(crate) fn new(alloc: A) -> Plan<A>
        ensures { (step : ℤ) (commands : List Command) → planned step commands result ≡ [] }
    {
        Plan {
            motions: Vec::new(alloc),
            arcs: Motions::new(alloc),
        }
    }
}

// Returns piece `k` of a line in `count` pieces.
fn piece_of_line(step: Nm, start: &Point3, end: &Point3, count: u16, k: usize) -> Piece
    requires step { IsStep step }
    requires inside { k < length (line_pieces_from step start.now end.now count 0 count) }
    ensures { result ≡ piece_in (line_pieces_from step start.now end.now count 0 count) k }
{
    line_piece_at(step, start, end, u32::from(count), k as u32)
}

impl Cutting {
    ghost use Rattle.ngc_certificate.specs.Planned.{cut_way};

    /// Returns the number of pieces of a motion that is cut so.
    #[tactic(auto, using(crate::proofs::Division::count_of))]
    pub(crate) fn count<A: Allocator>(
        &self,
        step: Nm,
        way: &Option<Way>,
        arcs: &Motions<A>,
    ) -> usize
        requires { 1 ≤ length (cut_way step way.now arcs.now self.now) }
        ensures { result ≡ length (cut_way step way.now arcs.now self.now) }
    {
        match (self, way) {
            (Cutting::Cut(k), Some(_)) => arcs.pieces(*k as usize).len(),
            (Cutting::Divided(count), Some(Way::Line { .. })) => usize::from(*count),
            (Cutting::Divided(_), Some(Way::Arc(_))) => 1,
            (_, None) => unreachable!(),
        }
    }

    /// Returns piece `k` of a motion that is cut so.
    pub(crate) fn piece<A: Allocator>(
        &self,
        step: Nm,
        way: &Option<Way>,
        arcs: &Motions<A>,
        k: usize,
    ) -> Piece
        requires step { IsStep step }
        requires inside { k < length (cut_way step way.now arcs.now self.now) }
        requires few { length (cut_way step way.now arcs.now self.now) ≤ 65535 }
        ensures { result ≡ piece_in (cut_way step way.now arcs.now self.now) k }
    {
        match (self, way) {
            (Cutting::Cut(place), Some(_)) => arcs.pieces(*place as usize)[k],
            (Cutting::Divided(count), Some(Way::Line { start, end })) => {
                piece_of_line(step, start, end, *count, k)
            }
            (Cutting::Divided(_), Some(way @ Way::Arc(_))) => undivided(step, way),
            (_, None) => unreachable!(),
        }
    }
}

impl<A: Allocator> Plan<A> {
    // Adds a motion that is divided.
    fn add_divided(&mut self, index: u32, count: u16) -> Result<(), AllocError>
        ensures motions { OnOk result (self.new.motions.items ≡ self.old.motions.items
            ++ (record { index = index; cutting = Cutting.Divided count } ∷ [])) }
        ensures arcs { self.new.arcs ≡ self.old.arcs }
    {
        let cutting = Cutting::Divided(count);
        match self.motions.push(Planned { index, cutting }) {
            Ok(()) => Ok(()),
            Err(_) => Err(AllocError),
        }
    }

    // Adds an arc that is cut, with its pieces.
    fn add_cut(&mut self, index: u32, pieces: &[Piece]) -> Result<(), AllocError>
        requires entry { IsEntry (record { index = index; pieces = pieces.now }) }
        requires room { length self.old.motions.items < MOTION_LIMIT }
        ensures motions { OnOk result (self.new.motions.items ≡ self.old.motions.items
            ++ (record { index = index; cutting = Cutting.Cut (length self.old.arcs) } ∷ [])) }
        ensures arcs { OnOk result (self.new.arcs
            ≡ self.old.arcs ++ (record { index = index; pieces = pieces.now } ∷ [])) }
    {
        let cutting = Cutting::Cut(self.arcs.len() as u32);
        match self.motions.push(Planned { index, cutting }) {
            Ok(()) => self.arcs.push(index, pieces),
            Err(_) => Err(AllocError),
        }
    }
}

impl<A: Allocator> MotionStore for Plan<A> {
    ghost use Rattle.ngc_certificate.specs.Planned.{planned};

    ghost entries = { λ p step commands. planned step commands p };

    fn add(
        &mut self,
        step: Nm,
        _commands: &[Command],
        index: u32,
        way: &Way,
        pieces: &[Piece],
    ) -> Result<(), AllocError> {
        match way {
            Way::Line { .. } => self.add_divided(index, pieces.len() as u16),
            Way::Arc(_) if is_undivided(step, way, pieces) => self.add_divided(index, 1),
            Way::Arc(_) => self.add_cut(index, pieces),
        }
    }
}

// Returns whether the pieces of a motion are a single one, in the smallest box that contains it.
fn is_undivided(step: Nm, way: &Way, pieces: &[Piece]) -> bool
    requires { IsStep step }
    ensures { result ≡ true → pieces.now ≡ pieces_of step way.now 1 }
{
    same_pieces(pieces, &[undivided(step, way)])
}
