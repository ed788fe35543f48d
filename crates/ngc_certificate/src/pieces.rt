ghost use Rattle.std.specs.Prelude.{◌≡◌, ◌≤◌, length};
ghost use Rattle.ngc_machine_files.specs.Machine.{file_of};
ghost use Rattle.ngc_certificate_text.specs.Certificate.{PIECE_LIMIT};
ghost use Rattle.ngc_certificate.specs.PieceFault.{piece_fault as fault_of};
ghost use Rattle.ngc_certificate.specs.PieceFault.{pieces_fault as fault_of_all};
ghost use Rattle.ngc_certificate.specs.PieceFault.{place_fault as met_at};
ghost use Rattle.ngc_certificate.specs.Inside.{fault_of_some};
ghost use Rattle.ngc_certificate.specs.Shared.{shared_of};

use crate::chain::{first_cut, follows};
use crate::derived::covers;
use crate::fault::{PieceFault, PieceRefusal};
use crate::shared::Shared;
use crate::stretch::Stretch;
use ngc_certificate_text::{Cut, Piece};
use ngc_collision::{first_met, is_in_travel};
use ngc_commands::Way;
use ngc_fixed_length::{GridBox, StepPos};
use ngc_machine_files::{Machine, Tool};
use std::alloc::Allocator;

/// Returns the first refusal of a piece of a motion with this tool mounted, in the order 313 to
/// 316.
fn fault_within<A: Allocator>(
    machine: &Machine<A>,
    tool: &Option<Tool>,
    way: &Way,
    shared: &Shared,
    stretch: &Stretch,
    piece: &Piece,
) -> Option<PieceFault>
    requires { shared.now ≡ shared_of machine.now.step way.now stretch.now.several }
    ensures { result ≡ fault_of (file_of machine.now) tool.now way.now stretch.now piece.now }
{
    if !follows(way, shared, stretch, &piece.end) {
        return Some(PieceFault::Chain);
    }
    if !covers(machine.step, way, shared, stretch, piece) {
        return Some(PieceFault::NotCovered);
    }
    if !is_in_travel(machine, &piece.bounds) {
        return Some(PieceFault::OutsideTravel);
    }
    first_met(machine, *tool, &piece.bounds).map(PieceFault::MeetsFixture)
}

/// Returns the first refusal of a piece of a motion with this tool mounted, in the order 313 to
/// 316.
pub fn piece_fault<A: Allocator>(
    machine: &Machine<A>,
    tool: Option<Tool>,
    way: &Way,
    stretch: &Stretch,
    piece: &Piece,
) -> Option<PieceFault>
    ensures { result ≡ fault_of (file_of machine.now) tool way.now stretch.now piece.now }
{
    let shared = Shared::of(machine.step, way, stretch.several);
    fault_within(machine, &tool, way, &shared, stretch, piece)
}

/// Judges the pieces of a motion one by one.
#[derive(Drop)]
pub struct PieceJudge {
    tool: Option<Tool>,
    way: Way,
    several: bool,
    shared: Shared,
    begin: Cut,
    judged: u32,
}

impl PieceJudge {
    ghost use Rattle.std.specs.Prelude.{List, ◌∷◌, ◌+◌, ◌<◌};
    ghost use Rattle.ngc_certificate_text.specs.declared.piece.Piece.{Piece};
    ghost use Rattle.ngc_certificate.specs.Chain.{are_several};
    ghost use Rattle.ngc_certificate.specs.PieceFault.{◌or◌};
    ghost use Rattle.ngc_certificate.specs.PieceJudging.{IsJudging, fault_ahead, is_empty};
    ghost use Rattle.ngc_certificate.specs.PieceJudging.{judged_by};

    /// Returns a judge for a motion that has several pieces or one, before its first piece.
    pub fn new<A: Allocator>(
        machine: &Machine<A>,
        tool: Option<Tool>,
        way: &Way,
        several: bool,
    ) -> PieceJudge
        ensures judging { IsJudging (file_of machine.now) result }
        ensures begins { (p : Piece) (ps : List Piece) → are_several (p ∷ ps) ≡ several →
            fault_ahead (file_of machine.now) result (p ∷ ps)
            ≡ fault_of_all (file_of machine.now) tool way.now (p ∷ ps) }
        ensures none { judged_by result ≡ 0 }
    {
        PieceJudge {
            tool,
            way: *way,
            several,
            shared: Shared::of(machine.step, way, several),
            begin: first_cut(way),
            judged: 0,
        }
    }

    /// Returns the first refusal of the next piece, on the machine for which the judge was made.
    /// `last` tells whether it is the motion's last piece.
    pub fn next<A: Allocator>(
        &mut self,
        machine: &Machine<A>,
        piece: &Piece,
        last: bool,
    ) -> Option<PieceRefusal>
        requires judging { IsJudging (file_of machine.now) self.old }
        requires few { judged_by self.old < PIECE_LIMIT }
        ensures judging { IsJudging (file_of machine.now) self.new }
        ensures one { judged_by self.new ≡ judged_by self.old + 1 }
        // This holds for all following pieces.
        ensures first { (rest : List Piece) → last ≡ is_empty rest →
            fault_ahead (file_of machine.now) self.old (piece.now ∷ rest)
            ≡ (result or fault_ahead (file_of machine.now) self.new rest) }
    {
        let stretch = Stretch {
            begin: self.begin,
            several: self.several,
            last,
        };
        let number = self.judged;
        self.begin = piece.end;
        self.judged += 1;
        match fault_within(
            machine,
            &self.tool,
            &self.way,
            &self.shared,
            &stretch,
            piece,
        ) {
            Some(fault) => Some(PieceRefusal {
                piece: number,
                fault,
            }),
            None => None,
        }
    }
}

/// Returns the first refusal of the pieces of a motion, or `None` if there are no pieces.
fn first_refusal<A: Allocator>(
    machine: &Machine<A>,
    tool: Option<Tool>,
    way: &Way,
    pieces: &[Piece],
) -> Option<PieceRefusal>
    requires { length pieces.now ≤ PIECE_LIMIT }
    ensures { result ≡ fault_of_some (file_of machine.now) tool way.now pieces.now }
{
    let mut judge = PieceJudge::new(machine, tool, way, pieces.len() > 1);
    for (i, piece) in pieces.iter().enumerate() {
        if let Some(refusal) = judge.next(machine, piece, i + 1 == pieces.len()) {
            return Some(refusal);
        }
    }
    None
}

/// Returns the first refusal of the pieces of a motion with this tool mounted. There are at most
/// 65,535 pieces; if there are none, it is a refusal of the chain.
pub fn pieces_fault<A: Allocator>(
    machine: &Machine<A>,
    tool: Option<Tool>,
    way: &Way,
    pieces: &[Piece],
) -> Option<PieceRefusal>
    requires { length pieces.now ≤ PIECE_LIMIT }
    ensures { result ≡ fault_of_all (file_of machine.now) tool way.now pieces.now }
{
    if pieces.is_empty() {
        let piece = 0;
        let fault = PieceFault::Chain;
        return Some(PieceRefusal { piece, fault });
    }
    first_refusal(machine, tool, way, pieces)
}

/// Returns the lowest fixture, counted from 0, that the tool's body meets with its spindle nose
/// at a grid point.
pub fn place_fault<A: Allocator>(
    machine: &Machine<A>,
    tool: Option<Tool>,
    place: &StepPos,
) -> Option<u32>
    ensures { result ≡ met_at (file_of machine.now) tool place.now }
{
    first_met(machine, tool, &GridBox::only(*place))
}
