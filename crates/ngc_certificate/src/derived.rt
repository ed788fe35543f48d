ghost use Rattle.std.specs.Prelude.{◌≡◌, FitsSigned};
ghost use Rattle.ngc_commands.specs.declared.movement.Way.TheVariants as ways;
ghost use Rattle.std.specs.Int.{w32, int_max, int_min};
ghost use Rattle.ngc_fixed_length.specs.Grid.{grid};
ghost use Rattle.ngc_fixed_length.specs.Length.{IsStep};
ghost use Rattle.ngc_fixed_length.specs.Boxes.{box_of, common_box, holds_box, lesser_corner};
ghost use Rattle.ngc_fixed_length.specs.Boxes.{greater_corner};
ghost use Rattle.ngc_certificate.specs.Chain.{place_of as place_of_cut};
ghost use Rattle.ngc_certificate.specs.DerivedBox.{low_between, high_between};
ghost use Rattle.ngc_certificate.specs.DerivedBox.{line_box as box_of_line, arc_box as box_of_arc};
ghost use Rattle.ngc_certificate.specs.DerivedBox.{derived_box as box_derived};
ghost use Rattle.ngc_certificate.specs.Inside.{IsOnLine, IsNarrow, box_grown, corner_of, bounds_of};
ghost use Rattle.ngc_certificate.specs.Inside.{whole_box as box_of_whole};
ghost use Rattle.ngc_certificate.specs.Shared.{shared_of};

use crate::bounds::{Bounds, Corner};
use crate::chain::place_of;
use crate::cuts::{Cuts, first_between, last_between};
use crate::shared::Shared;
use crate::stretch::Stretch;
use ngc_arc_geometry::Arc;
use ngc_certificate_text::{Cut, Piece};
use ngc_commands::Way;
use ngc_fixed_length::{GridBox, Nm, Point3, StepPos};

/// Returns the first coordinate that a piece of a line needs, in steps; the line's own is `least`.
fn first_needed(step: Nm, start: Nm, end: Nm, cuts: &Cuts, least: i32) -> i64
    requires { IsStep step }
    ensures value { result ≡ int_max (low_between step start end cuts.now.from cuts.now.to) least }
    ensures narrow { IsOnLine cuts.now → FitsSigned w32 result }
{
    first_between(step, start, end, cuts).max(i64::from(least))
}

/// Returns the last coordinate that a piece of a line needs, in steps; the line's own is
/// `greatest`.
fn last_needed(step: Nm, start: Nm, end: Nm, cuts: &Cuts, greatest: i32) -> i64
    requires { IsStep step }
    ensures value { result ≡ int_min
        (high_between step start end cuts.now.from cuts.now.to) greatest }
    ensures narrow { IsOnLine cuts.now → FitsSigned w32 result }
{
    last_between(step, start, end, cuts).min(i64::from(greatest))
}

/// Returns the lowest corner that a piece of a line needs; the line's own is `least`.
fn lowest_needed(step: Nm, start: &Point3, end: &Point3, cuts: &Cuts, least: &StepPos) -> Corner
    requires { IsStep step }
    ensures value { corner_of result ≡ greater_corner
        (box_grown step start.now end.now cuts.now).low least.now }
    ensures narrow { IsOnLine cuts.now → IsNarrow result }
{
    Corner {
        x: first_needed(step, start.x, end.x, cuts, least.x),
        y: first_needed(step, start.y, end.y, cuts, least.y),
        z: first_needed(step, start.z, end.z, cuts, least.z),
    }
}

/// Returns the highest corner that a piece of a line needs; the line's own is `greatest`.
fn highest_needed(step: Nm, start: &Point3, end: &Point3, cuts: &Cuts, greatest: &StepPos) -> Corner
    requires { IsStep step }
    ensures value { corner_of result ≡ lesser_corner
        (box_grown step start.now end.now cuts.now).high greatest.now }
    ensures narrow { IsOnLine cuts.now → IsNarrow result }
{
    Corner {
        x: last_needed(step, start.x, end.x, cuts, greatest.x),
        y: last_needed(step, start.y, end.y, cuts, greatest.y),
        z: last_needed(step, start.z, end.z, cuts, greatest.z),
    }
}

/// Returns the smallest box that a piece of a line needs; `whole` is the box of the line's grid
/// ends.
fn line_bounds(step: Nm, start: &Point3, end: &Point3, cuts: &Cuts, whole: &GridBox) -> Bounds
    requires { IsStep step }
    ensures value { bounds_of result ≡ common_box
        (box_grown step start.now end.now cuts.now) whole.now }
    ensures low { IsOnLine cuts.now → IsNarrow result.low }
    ensures high { IsOnLine cuts.now → IsNarrow result.high }
{
    Bounds {
        low: lowest_needed(step, start, end, cuts, &whole.low),
        high: highest_needed(step, start, end, cuts, &whole.high),
    }
}

/// Returns the box of a motion in one piece.
pub(crate) fn whole_box(step: Nm, way: &Way) -> GridBox
    requires { IsStep step }
    ensures { result ≡ box_of_whole step way.now }
{
    match way {
        Way::Line { start, end } => GridBox::between(&start.to_grid(step), &end.to_grid(step)),
        Way::Arc(arc) => arc.swept_box(step),
    }
}

/// Returns the smallest box that a piece of a line needs; `whole` is the box of the line's grid
/// ends, and cuts are at most 65,536.
pub(crate) fn line_box(
    step: Nm,
    start: &Point3,
    end: &Point3,
    cuts: &Cuts,
    whole: &GridBox,
) -> GridBox
    requires step { IsStep step }
    requires on_line { IsOnLine cuts.now }
    requires whole { whole.now ≡ box_of (grid step start.now) (grid step end.now) }
    ensures { result ≡ box_of_line step start.now end.now cuts.now.from cuts.now.to }
{
    if cuts.are_all() {
        *whole
    } else {
        line_bounds(step, start, end, cuts, whole).narrowed()
    }
}

/// Returns whether the box of a line's piece contains the box that the piece needs.
fn covers_line(
    step: Nm,
    start: &Point3,
    end: &Point3,
    cuts: &Cuts,
    whole: &GridBox,
    outer: &GridBox,
) -> bool
    requires step { IsStep step }
    requires whole { whole.now ≡ box_of (grid step start.now) (grid step end.now) }
    ensures { result ≡ holds_box outer.now
        (box_of_line step start.now end.now cuts.now.from cuts.now.to) }
{
    if cuts.are_all() {
        outer.holds(whole)
    } else {
        line_bounds(step, start, end, cuts, whole).are_in(outer)
    }
}

/// Returns whether the box of an arc's piece contains the box that the piece needs.
fn covers_arc(
    step: Nm,
    arc: &Arc,
    shared: &Shared,
    stretch: &Stretch,
    end: &Cut,
    outer: &GridBox,
) -> bool
    requires step { IsStep step }
    requires shared { shared.now ≡ shared_of step (ways.Arc arc.now) stretch.now.several }
    ensures { result ≡ holds_box outer.now
        (box_of_arc step arc.now stretch.now (place_of_cut arc.now end.now)) }
{
    match shared {
        Shared::Cut(cut_arc) if cut_arc.is_large() => {
            let begin = place_of(arc, &stretch.begin);
            outer.holds(&cut_arc.cut_box(&begin, &place_of(arc, end)))
        }
        Shared::Cut(_) => outer.holds(&arc.swept_box(step)),
        Shared::Whole(whole) => outer.holds(whole),
    }
}

/// Returns whether a piece's box contains the box that it needs.
pub(crate) fn covers(step: Nm, way: &Way, shared: &Shared, stretch: &Stretch, piece: &Piece) -> bool
    requires step { IsStep step }
    requires shared { shared.now ≡ shared_of step way.now stretch.now.several }
    ensures { result ≡ holds_box piece.now.bounds
        (box_derived step way.now stretch.now piece.now.end) }
{
    match (way, shared) {
        (Way::Line { start, end }, Shared::Whole(whole)) => {
            let cuts = Cuts::of(&stretch.begin, &piece.end);
            covers_line(step, start, end, &cuts, whole, &piece.bounds)
        }
        (Way::Line { .. }, Shared::Cut(_)) => unreachable!(),
        (Way::Arc(arc), _) => covers_arc(step, arc, shared, stretch, &piece.end, &piece.bounds),
    }
}
