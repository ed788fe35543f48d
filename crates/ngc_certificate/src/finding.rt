//! Finds pieces that clear a motion.
ghost use Rattle.std.specs.Prelude.{◌≡◌, ◌≤◌, true, IsTrue, IfOk};
ghost use Rattle.std.specs.List.{list_all};
ghost use Rattle.ngc_machine_files.specs.Machine.{file_of};
ghost use Rattle.ngc_commands.specs.declared.movement.Way.TheVariants as ways;
ghost use Rattle.ngc_certificate_text.specs.Certificate.{good_piece};
ghost use Rattle.ngc_certificate.specs.Made.{pieces_of, cleared, IsCutClear, MayFindPieces, MayHavePieces};
ghost use Rattle.ngc_certificate.specs.Making.{is_clear_in, pieces_where};
ghost use Rattle.ngc_certificate.specs.Traverses.{most_pieces};

use crate::cutting::{Stops, cut_arc};
use crate::divide::divide;
use crate::pieces::pieces_fault;
use crate::traverses::most_pieces;
use ngc_arc_geometry::Arc;
use ngc_certificate_text::Piece;
use ngc_commands::{Motion, Way};
use ngc_machine_files::{Machine, Tool};
use std::alloc::{AllocError, Allocator};

/// The numbers of pieces in which a line is tried, up to the greatest number allowed.
const POWERS_OF_TWO: [u16; 16] = [
    1, 2, 4, 8, 16, 32, 64, 128, 256, 512, 1024, 2048, 4096, 8192, 16384, 32768,
];

// Replaces `pieces` with those of a motion in `count`, and returns whether none of them is refused.
fn clears_in<A: Allocator>(
    machine: &Machine<A>,
    tool: &Option<Tool>,
    way: &Way,
    count: u16,
    pieces: &mut Vec<Piece, A>,
) -> Result<bool, AllocError>
    requires { 1 ≤ count }
    ensures pieces { IfOk result
        (λ clear. pieces.new.items ≡ pieces_of machine.now.step way.now count) }
    ensures clear { IfOk result
        (λ free. free ≡ is_clear_in (file_of machine.now) tool.now way.now count) }
{
    divide(machine.step, way, count, pieces)?;
    Ok(pieces_fault(machine, *tool, way, pieces.as_slice()).is_none())
}

// Replaces `pieces` with those of a motion in the first number of pieces of which none is refused.
// Returns whether there is such a number.
fn find_count<A: Allocator>(
    machine: &Machine<A>,
    tool: &Option<Tool>,
    way: &Way,
    most: u16,
    pieces: &mut Vec<Piece, A>,
) -> Result<bool, AllocError>
    requires { 1 ≤ most }
    ensures { IfOk result
        (λ clear. cleared (file_of machine.now) most tool.now way.now
        ≡ pieces_where clear pieces.new.items) }
{
    for count in POWERS_OF_TWO {
        if count >= most {
            continue;
        }
        if clears_in(machine, tool, way, count, pieces)? {
            return Ok(true);
        }
    }
    clears_in(machine, tool, way, most, pieces)
}

// Replaces `pieces` with those of an arc that is cut at these stops, and returns whether none of
// them is refused.
fn clears_cut<A: Allocator>(
    machine: &Machine<A>,
    tool: &Option<Tool>,
    arc: &Arc,
    most: u16,
    stops: Stops,
    pieces: &mut Vec<Piece, A>,
) -> Result<bool, AllocError>
    ensures clear { IfOk result (λ clear. clear ≡ true →
        IsCutClear (file_of machine.now) most tool.now arc.now pieces.new.items) }
    ensures good { IfOk result (λ clear. clear ≡ true →
        IsTrue (list_all good_piece pieces.new.items)) }
{
    if !cut_arc(machine, tool, arc, most, stops, pieces)? {
        return Ok(false);
    }
    Ok(pieces_fault(machine, *tool, &Way::Arc(*arc), pieces.as_slice()).is_none())
}

// Replaces `pieces` with those of an arc: one piece if it clears the arc, else several if the
// search finds cuts.
fn find_arc<A: Allocator>(
    machine: &Machine<A>,
    tool: &Option<Tool>,
    arc: &Arc,
    most: u16,
    pieces: &mut Vec<Piece, A>,
) -> Result<bool, AllocError>
    requires { 1 ≤ most }
    ensures found { IfOk result
        (λ clear. MayHavePieces (file_of machine.now) most tool.now arc.now
        (pieces_where clear pieces.new.items)) }
    ensures good { IfOk result (λ clear. clear ≡ true →
        IsTrue (list_all good_piece pieces.new.items)) }
{
    if clears_in(machine, tool, &Way::Arc(*arc), 1, pieces)? {
        return Ok(true);
    }
    if clears_cut(machine, tool, arc, most, Stops::Inner, pieces)? {
        return Ok(true);
    }
    clears_cut(machine, tool, arc, most, Stops::Outer, pieces)
}

// Replaces `pieces` with at most `most` pieces that clear a path with this tool mounted. Returns
// whether there are any.
fn find_way<A: Allocator>(
    machine: &Machine<A>,
    tool: &Option<Tool>,
    way: &Way,
    most: u16,
    pieces: &mut Vec<Piece, A>,
) -> Result<bool, AllocError>
    requires { 1 ≤ most }
    ensures found { IfOk result
        (λ clear. MayFindPieces (file_of machine.now) most tool.now way.now
        (pieces_where clear pieces.new.items)) }
    ensures good { IfOk result (λ clear. clear ≡ true →
        IsTrue (list_all good_piece pieces.new.items)) }
{
    match way {
        Way::Line { .. } => find_count(machine, tool, way, most, pieces),
        Way::Arc(arc) => find_arc(machine, tool, arc, most, pieces),
    }
}

/// Replaces `pieces` with at most `most` pieces that clear a motion with this tool mounted, and with
/// one if the control may take any way to its end. Returns whether there are any.
pub(crate) fn find_clear<A: Allocator>(
    machine: &Machine<A>,
    tool: &Option<Tool>,
    motion: &Motion,
    most: u16,
    pieces: &mut Vec<Piece, A>,
) -> Result<bool, AllocError>
    requires { 1 ≤ most }
    ensures found { IfOk result (λ clear. MayFindPieces (file_of machine.now)
        (most_pieces (file_of machine.now) most motion.now.pace) tool.now motion.now.way
        (pieces_where clear pieces.new.items)) }
    ensures good { IfOk result (λ clear. clear ≡ true →
        IsTrue (list_all good_piece pieces.new.items)) }
{
    let most = most_pieces(machine, most, &motion.pace);
    find_way(machine, tool, &motion.way, most, pieces)
}
