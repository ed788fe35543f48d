//! Divides motions into pieces.
ghost use Rattle.std.specs.Prelude.{◌≡◌, ◌+◌, ◌*◌, ◌/◌, ◌<◌, ◌≤◌, [], ◌∷◌, OnOk};
ghost use Rattle.ngc_fixed_length.specs.Grid.{grid};
ghost use Rattle.ngc_fixed_length.specs.Length.{IsStep};
ghost use Rattle.ngc_fixed_length.specs.Boxes.{box_of};
ghost use Rattle.ngc_certificate_text.specs.Certificate.{WHOLE as WHOLE_LINE};
ghost use Rattle.ngc_certificate.specs.Inside.{IsOnLine};
ghost use Rattle.ngc_certificate.specs.Made.{line_piece, line_pieces_from, pieces_of};
ghost use Rattle.ngc_certificate.specs.Making.{whole_arc};

use crate::chain::WHOLE;
use crate::cuts::Cuts;
use crate::derived::line_box;
use ngc_arc_geometry::Arc;
use ngc_certificate_text::{Cut, Piece};
use ngc_commands::Way;
use ngc_fixed_length::{GridBox, Nm, Point3};
use std::alloc::{AllocError, Allocator};

/// Returns the number of parts of a line before piece `k` of `count`.
fn part_before(k: u32, count: u32) -> u32
    requires some { 1 ≤ count }
    requires limit { count ≤ 65535 }
    requires k { k ≤ count }
    ensures value { result ≡ WHOLE_LINE * k / count }
    ensures within { result ≤ WHOLE_LINE }
{
    WHOLE * k / count
}

/// Returns the cuts of piece `k` of `count` of a line.
fn cuts_of(k: u32, count: u32) -> Cuts
    requires limit { count ≤ 65535 }
    requires k { k + 1 ≤ count }
    ensures from { result.from ≡ WHOLE_LINE * k / count }
    ensures to { result.to ≡ WHOLE_LINE * (k + 1) / count }
    ensures on_line { IsOnLine result }
{
    Cuts {
        from: part_before(k, count),
        to: part_before(k + 1, count),
    }
}

/// Returns a line's piece between two cuts, in the smallest box that contains it; `whole` is the
/// box of the line's grid ends.
fn line_piece(step: Nm, start: &Point3, end: &Point3, cuts: &Cuts, whole: &GridBox) -> Piece
    requires step { IsStep step }
    requires on_line { IsOnLine cuts.now }
    requires whole { whole.now ≡ box_of (grid step start.now) (grid step end.now) }
    ensures { result ≡ line_piece step start.now end.now cuts.now.from cuts.now.to }
{
    Piece {
        end: Cut::Part(cuts.to),
        bounds: line_box(step, start, end, cuts, whole),
    }
}

/// Returns piece `k`, from 0, of a line in `count` pieces of about the same length.
pub(crate) fn line_piece_at(step: Nm, start: &Point3, end: &Point3, count: u32, k: u32) -> Piece
    requires step { IsStep step }
    requires count { count ≤ 65535 }
    requires k { k < count }
    ensures { result ≡ line_piece step start.now end.now (WHOLE_LINE * k / count)
        (WHOLE_LINE * (k + 1) / count) }
{
    let whole = GridBox::between(&start.to_grid(step), &end.to_grid(step));
    line_piece(step, start, end, &cuts_of(k, count), &whole)
}

/// Returns an arc in one piece, in the smallest box that contains it.
fn whole_arc(step: Nm, arc: &Arc) -> Piece
    requires { IsStep step }
    ensures { result ≡ whole_arc step arc.now }
{
    Piece {
        end: Cut::Place(arc.end().in_plane(arc.plane())),
        bounds: arc.swept_box(step),
    }
}

/// Fills the empty `pieces` with a line in `count` pieces of about the same length.
fn divide_line<A: Allocator>(
    step: Nm,
    start: &Point3,
    end: &Point3,
    count: u32,
    pieces: &mut Vec<Piece, A>,
) -> Result<(), AllocError>
    requires step { IsStep step }
    requires count { count ≤ 65535 }
    requires empty { pieces.old.items ≡ [] }
    ensures { OnOk result
        (pieces.new.items ≡ line_pieces_from step start.now end.now count 0 count) }
{
    let whole = GridBox::between(&start.to_grid(step), &end.to_grid(step));
    for k in 0..count {
        pieces.push(line_piece(step, start, end, &cuts_of(k, count), &whole))?;
    }
    Ok(())
}

/// Returns a motion in one piece, in the smallest box that contains it.
///
/// The step is from 500 to 50,000 nm.
pub fn undivided(step: Nm, way: &Way) -> Piece
    requires { IsStep step }
    ensures { pieces_of step way.now 1 ≡ result ∷ [] }
{
    match way {
        Way::Line { start, end } => {
            let whole = GridBox::between(&start.to_grid(step), &end.to_grid(step));
            line_piece(step, start, end, &cuts_of(0, 1), &whole)
        }
        Way::Arc(arc) => whole_arc(step, arc),
    }
}

/// Replaces `pieces` with those of a motion: a line in `count` pieces of about the same length, an
/// arc in one.
///
/// The step is from 500 to 50,000 nm.
pub(crate) fn divide<A: Allocator>(
    step: Nm,
    way: &Way,
    count: u16,
    pieces: &mut Vec<Piece, A>,
) -> Result<(), AllocError>
    requires { IsStep step }
    ensures { OnOk result (pieces.new.items ≡ pieces_of step way.now count) }
{
    pieces.clear();
    match way {
        Way::Line { start, end } => divide_line(step, start, end, u32::from(count), pieces),
        Way::Arc(arc) => {
            pieces.push(whole_arc(step, arc))?;
            Ok(())
        }
    }
}
