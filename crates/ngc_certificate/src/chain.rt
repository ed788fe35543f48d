ghost use Rattle.std.specs.Prelude.{◌≡◌, ℤ};
ghost use Rattle.ngc_commands.specs.declared.movement.Way.TheVariants as ways;
ghost use Rattle.ngc_certificate.specs.Chain.{first_cut as first_cut_of, part_of, place_of};
ghost use Rattle.ngc_certificate.specs.Chain.{line_follows as line_goes_on};
ghost use Rattle.ngc_certificate.specs.Chain.{arc_follows as arc_goes_on, follows as goes_on};
ghost use Rattle.ngc_certificate.specs.Shared.{shared_of};

use crate::shared::Shared;
use crate::stretch::Stretch;
use ngc_arc_geometry::Arc;
use ngc_certificate_text::Cut;
use ngc_commands::Way;
use ngc_fixed_length::Point2;

/// The number of parts of a line.
pub(crate) const WHOLE: u32 = 65_536;

/// Returns the cut at which the first piece of a motion begins.
pub(crate) fn first_cut(way: &Way) -> Cut
    ensures { result ≡ first_cut_of way.now }
{
    match way {
        Way::Line { .. } => Cut::Part(0),
        Way::Arc(arc) => Cut::Place(arc.start().in_plane(arc.plane())),
    }
}

/// Returns a cut as a number of parts of a line.
pub(crate) fn part_of(cut: &Cut) -> u32
    ensures { result ≡ part_of cut.now }
{
    match cut {
        Cut::Part(part) => *part,
        Cut::Place(_) => 0,
    }
}

/// Returns a cut as a point of an arc's plane.
pub(crate) fn place_of(arc: &Arc, cut: &Cut) -> Point2
    ensures { result ≡ place_of arc.now cut.now }
{
    match cut {
        Cut::Part(_) => arc.start().in_plane(arc.plane()),
        Cut::Place(place) => *place,
    }
}

/// Returns whether a line's cuts rise, up to the whole line.
fn line_follows(last: bool, from: u32, to: u32) -> bool
    ensures { result ≡ line_goes_on last from to }
{
    from < to && (!last || to == WHOLE)
}

/// Returns whether an arc's piece may end at a place: an arc in one piece at its end, one in
/// several pieces at a cut that follows the last.
fn arc_follows(arc: &Arc, shared: &Shared, stretch: &Stretch, place: &Point2) -> bool
    ensures { (step : ℤ) → shared.now ≡ shared_of step (ways.Arc arc.now) stretch.now.several →
        result ≡ arc_goes_on step arc.now stretch.now place.now }
{
    match shared {
        Shared::Cut(cut_arc) => {
            cut_arc.cut_follows(stretch.last, &place_of(arc, &stretch.begin), place)
        }
        Shared::Whole(_) => arc.ends_at(place),
    }
}

/// Returns whether the piece that ends at a cut is of the motion's kind and follows the one before
/// it.
pub(crate) fn follows(way: &Way, shared: &Shared, stretch: &Stretch, cut: &Cut) -> bool
    ensures { (step : ℤ) → shared.now ≡ shared_of step way.now stretch.now.several →
        result ≡ goes_on step way.now stretch.now cut.now }
{
    match (way, cut) {
        (Way::Line { .. }, Cut::Part(part)) => line_follows(
            stretch.last,
            part_of(&stretch.begin),
            *part,
        ),
        (Way::Arc(arc), Cut::Place(place)) => arc_follows(arc, shared, stretch, place),
        (Way::Line { .. }, Cut::Place(_)) | (Way::Arc(_), Cut::Part(_)) => false,
    }
}
