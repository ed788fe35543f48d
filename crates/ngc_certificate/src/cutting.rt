//! Cuts arcs into pieces that clear.
ghost use Rattle.std.specs.Prelude.{◌≡◌, ◌≤◌, IfOk, IfSome, IsTrue, length, true};
ghost use Rattle.std.specs.List.{list_all};
ghost use Rattle.ngc_fixed_length.specs.Signed.{is_within};
ghost use Rattle.ngc_arc_geometry.specs.CutArc.{cut_box};
ghost use Rattle.ngc_commands.specs.declared.movement.Way.TheVariants as ways;
ghost use Rattle.ngc_certificate_text.specs.Certificate.{good_cut, good_piece};
ghost use Rattle.ngc_certificate.specs.Chain.{place_of};
ghost use Rattle.ngc_certificate.specs.DerivedBox.{HaveDerivedBoxes};

use crate::chain::place_of;
use crate::furthest::{Band, Begin};
use crate::limits::Block;
use crate::quadrant::{Quadrant, Spot};
use ngc_arc_geometry::{Arc, GridArc};
use ngc_certificate_text::{Cut, Piece};
use ngc_fixed_length::{Nm, Point2};
use ngc_machine_files::{Machine, Tool};
use std::alloc::{AllocError, Allocator};

/// The greatest coordinate of a cut, in nanometres.
const CUT_LIMIT: u64 = 4_000_000_000;

/// The distance from the centre at which the pieces of an arc meet on an axis: a step inside the
/// arc or a step outside.
#[derive(Clone, Copy)]
pub(crate) enum Stops {
    Inner,
    Outer,
}

/// An arc that is cut for a machine and a tool.
#[derive(Drop)]
struct Cutter<'a, A: Allocator> {
    machine: &'a Machine<A>,
    tool: &'a Option<Tool>,
    arc: &'a Arc,
    on_grid: GridArc,
    band: Band,
    stop_at: u64,
    ghost stop_in_range: { stop_at ≤ 200000000000 },
}

fn is_within_limit(coordinate: Nm) -> bool
    ensures { result ≡ is_within CUT_LIMIT coordinate }
{
    coordinate.nanometres().unsigned_abs() <= CUT_LIMIT
}

/// Returns whether a certificate may contain this cut.
fn is_good_cut(place: &Point2) -> bool
    ensures { result ≡ good_cut (Cut.Place place.now) }
{
    is_within_limit(place.u) && is_within_limit(place.v)
}

impl<A: Allocator> Cutter<'_, A> {
    /// Returns the furthest end of a piece that begins at a spot: the arc's end if it is ahead in
    /// the same quadrant, else the next axis.
    fn stop_ahead(&self, quadrant: &Quadrant, spot: &Spot) -> Spot {
        let end = self.arc.end().in_plane(self.arc.plane());
        if let Some(end) = quadrant.spot_of(&end) {
            if spot.is_before(&end) {
                return end;
            }
        }
        Spot {
            x: 0,
            y: self.stop_at,
        }
    }

    /// Returns the furthest point to which a piece from `point` may go.
    fn furthest(&self, point: &Point2) -> Option<Point2> {
        let quadrant = Quadrant::ahead_of(self.arc, point);
        let spot = quadrant.spot_of(point)?;
        let least = Block::of_grid(self.machine.step, &self.on_grid.cut_box(point, point));
        let begin = Begin {
            machine: self.machine,
            tool: self.tool,
            arc: &self.on_grid,
            plane: self.arc.plane(),
            band: self.band,
            quadrant,
            point: *point,
            spot,
            least: quadrant.sight_of(self.arc.plane(), &least),
        };
        begin.furthest(&self.stop_ahead(&quadrant, &spot))
    }

    /// Returns the longest allowed piece from a point on, if a certificate may contain its cut.
    fn next_piece(&self, point: &Point2) -> Option<Piece>
        ensures good { IfSome result (λ p. IsTrue (good_piece p)) }
        ensures bounds { IfSome result (λ p. p.bounds ≡ cut_box self.now.on_grid.step
            self.now.on_grid.arc point.now (place_of self.now.on_grid.arc p.end)) }
    {
        let place = self.furthest(point)?;
        if !is_good_cut(&place) {
            return None;
        }
        Some(Piece {
            end: Cut::Place(place),
            bounds: self.on_grid.cut_box(point, &place),
        })
    }
}

impl<'a, A: Allocator> Cutter<'a, A> {
    fn new(
        machine: &'a Machine<A>,
        tool: &'a Option<Tool>,
        arc: &'a Arc,
        stops: Stops,
    ) -> Cutter<'a, A>
        ensures { result.on_grid ≡ record { arc = arc.now; step = machine.now.step } }
    {
        let band = Band::of(arc, machine.step.nanometres().unsigned_abs());
        let stop_at = match stops {
            Stops::Inner => band.inner,
            Stops::Outer => band.outer,
        };
        Cutter {
            machine,
            tool,
            arc,
            on_grid: GridArc::new(*arc, machine.step),
            band,
            stop_at,
        }
    }
}

/// Cuts an arc into at most `most` pieces that pass through the following quadrant directions, and
/// puts them in `pieces`. Each piece is as long as it can be and still clear, and has its derived
/// box. Returns whether several pieces reach the arc's end. If they do not, the contents of
/// `pieces` have no meaning.
pub(crate) fn cut_arc<A: Allocator>(
    machine: &Machine<A>,
    tool: &Option<Tool>,
    arc: &Arc,
    most: u16,
    stops: Stops,
    pieces: &mut Vec<Piece, A>,
) -> Result<bool, AllocError>
    ensures few { IfOk result (λ reached. length pieces.new.items ≤ most) }
    ensures good { IfOk result (λ reached. IsTrue (list_all good_piece pieces.new.items)) }
    ensures boxes { IfOk result (λ reached. reached ≡ true →
        HaveDerivedBoxes machine.now.step (ways.Arc arc.now) pieces.new.items) }
{
    pieces.clear();
    let cutter = Cutter::new(machine, tool, arc, stops);
    // The pieces of a small arc all need the box of the whole arc.
    if !cutter.on_grid.is_large() {
        return Ok(false);
    }
    let mut point = arc.start().in_plane(arc.plane());
    for _ in 0..most {
        let piece = match cutter.next_piece(&point) {
            Some(piece) => piece,
            None => return Ok(false),
        };
        pieces.push(piece)?;
        point = place_of(arc, &piece.end);
        if arc.ends_at(&point) {
            return Ok(pieces.len() > 1);
        }
    }
    Ok(false)
}
