//! The sheet that a picture needs.
ghost use Rattle.std.specs.Prelude.{◌≡◌, ◌<◌, ◌+◌, ◌*◌, ◌⊎◌, ◌^◌, ◌+ℤ◌, ◌-ℤ◌, ◌*ℤ◌, pos, neg_ℤ, map};
ghost use Rattle.std.specs.Prelude.{int_div, unsigned_abs};
ghost use Rattle.std.specs.Int.{int_max};
ghost use Rattle.ngc_machine_files.specs.Machine.{file_of};
ghost use Rattle.ngc_picture_shapes.specs.Sheets.{holding_all, with_way, with_both, with_action};
ghost use Rattle.ngc_picture_shapes.specs.Sheets.{with_commands};
ghost use Rattle.ngc_picture_shapes.specs.Sheets.{with_fixtures, bench, whole, at, work, is_far_longer, is_far_larger, is_between};
ghost use Rattle.ngc_picture_shapes.specs.Sheets.{width_of, height_of, frame, is_in, is_within, unit_of};
ghost use Rattle.ngc_picture_shapes.specs.Sheets.{sheet_width, sheet_height, enlarged, sheet, pane};
ghost use Rattle.ngc_picture_shapes.specs.Units.{IsUnit};
ghost use Rattle.ngc_picture_shapes.specs.Arcs.{spots_seen};
ghost use Rattle.ngc_picture_shapes.specs.Helices.{curve, helix_points};
ghost use Rattle.ngc_picture_shapes.specs.Views.{tip_spot};

use crate::eye::Eye;
use crate::helix::{halfway_along, halvings, middle};
use crate::look::Look;
use crate::shape::{Pane, Sheet};
use crate::spot::{Rectangle, Spot};
use crate::strokes::corner_spots;
use crate::tools::mounted;
use crate::view::View;
use ngc_arc_geometry::Arc;
use ngc_commands::{Action, Command, Way};
use ngc_fixed_length::Point3;
use ngc_machine_files::{Fixture, Machine};
use std::alloc::Allocator;

/// The unit of signs and texts.
#[derive(Drop)]
pub struct Unit {
    pub micrometres: i64,
    ghost small: { IsUnit micrometres },
}

fn holding_all(area: Rectangle, spots: &[Spot]) -> Rectangle
    ensures { result ≡ holding_all area spots.now }
{
    let mut all = area;
    for spot in spots {
        all = all.holding(spot);
    }
    all
}

/// Returns a rectangle that holds another one and the points of an arc after `from`, up to `to`,
/// which are at most half a turn apart; the arc between them is halved `halvings` times.
fn with_curve(
    eye: &Eye,
    area: Rectangle,
    arc: &Arc,
    halvings: u32,
    from: &Point3,
    to: &Point3,
) -> Rectangle
    ensures { result ≡ holding_all area
        (map (tip_spot eye.now) (curve halvings arc.now from.now to.now)) }
{
    if halvings == 0 {
        return area.holding(&eye.spot(to));
    }
    let between = halfway_along(arc, from, to);
    let half = with_curve(eye, area, arc, halvings - 1, from, &between);
    with_curve(eye, half, arc, halvings - 1, &between, to)
}

fn with_helix(eye: &Eye, area: Rectangle, arc: &Arc) -> Rectangle
    ensures { result ≡ holding_all area (map (tip_spot eye.now) (helix_points arc.now)) }
{
    let halvings = halvings(arc.outer_radius());
    let middle = middle(arc);
    let half = with_curve(eye, area, arc, halvings, &arc.start(), &middle);
    with_curve(eye, half, arc, halvings, &middle, &arc.end())
}

fn with_arc(eye: &Eye, area: Rectangle, arc: &Arc) -> Rectangle
    ensures { result ≡ holding_all area (spots_seen eye.now.view eye.now arc.now) }
{
    match eye.view {
        View::Iso => with_helix(eye, area, arc),
        _ => holding_all(area, corner_spots(eye, arc).as_slice()),
    }
}

fn with_way(eye: &Eye, area: Rectangle, way: &Way) -> Rectangle
    ensures { result ≡ with_way eye.now area way.now }
{
    match way {
        Way::Line { start, end } => area.holding(&eye.spot(start)).holding(&eye.spot(end)),
        Way::Arc(arc) => with_arc(eye, area.holding(&eye.spot(&arc.start())), arc),
    }
}

fn with_action(eye: &Eye, area: Rectangle, action: &Action) -> Rectangle
    ensures { result ≡ with_action eye.now area action.now }
{
    match action {
        Action::Move(motion) => with_way(eye, area, &motion.way),
        _ => area,
    }
}

// Returns a rectangle that holds another one and the path of commands, which start without a tool.
fn with_commands(view: View, area: Rectangle, commands: &[Command]) -> Rectangle
    ensures { result ≡ with_commands view None area commands.now }
{
    let mut all = area;
    let mut tool = None;
    for command in commands {
        all = with_action(&Eye::of(view, &tool), all, &command.action);
        tool = mounted(&tool, &command.action);
    }
    all
}

/// Returns the smallest rectangle that holds two others.
fn with_both(area: &Rectangle, other: &Rectangle) -> Rectangle
    ensures { result ≡ with_both area.now other.now }
{
    area.holding(&other.low).holding(&other.high)
}

fn with_fixtures(view: View, area: Rectangle, fixtures: &[Fixture]) -> Rectangle
    ensures { result ≡ with_fixtures view area fixtures.now }
{
    let mut all = area;
    for fixture in fixtures {
        all = with_both(&all, &view.rectangle(&fixture.low, &fixture.high));
    }
    all
}

/// Returns the travel and the home positions.
fn bench<A: Allocator>(view: View, machine: &Machine<A>) -> Rectangle
    ensures { result ≡ bench view (file_of machine.now) }
{
    view.rectangle(&machine.low, &machine.high)
        .holding(&view.spot(&machine.home28))
        .holding(&view.spot(&machine.home30))
}

/// Returns the smallest rectangle that holds travel, home positions, fixtures and path.
fn whole<A: Allocator>(view: View, machine: &Machine<A>, commands: &[Command]) -> Rectangle
    ensures { result ≡ whole view (file_of machine.now) commands.now }
{
    let fixed = with_fixtures(view, bench(view, machine), machine.fixtures.as_slice());
    with_commands(view, fixed, commands)
}

/// Returns the rectangle of one spot.
fn at(spot: Spot) -> Rectangle
    ensures { result ≡ at spot }
{
    Rectangle {
        low: spot,
        high: spot,
    }
}

/// Returns the smallest rectangle that holds the start, the fixtures and the path.
fn work<A: Allocator>(view: View, machine: &Machine<A>, commands: &[Command]) -> Rectangle
    ensures { result ≡ work view (file_of machine.now) commands.now }
{
    let start = at(view.spot(&machine.start));
    let fixed = with_fixtures(view, start, machine.fixtures.as_slice());
    with_commands(view, fixed, commands)
}

/// Returns the width of a rectangle.
fn across(area: &Rectangle) -> i128
    ensures value { result ≡ width_of area.now }
    ensures bound { unsigned_abs result < 2 ^ 64 }
{
    i128::from(area.high.across) - i128::from(area.low.across)
}

/// Returns its height.
fn up(area: &Rectangle) -> i128
    ensures value { result ≡ height_of area.now }
    ensures bound { unsigned_abs result < 2 ^ 64 }
{
    i128::from(area.high.up) - i128::from(area.low.up)
}

/// Returns whether one length is more than three times another.
fn is_far_longer(one: i128, other: i128) -> bool
    requires { unsigned_abs other < 2 ^ 64 }
    ensures { result ≡ is_far_longer one other }
{
    3 * other < one
}

/// Returns whether `area` is more than three times as wide or as high as `part`.
fn is_far_larger(area: &Rectangle, part: &Rectangle) -> bool
    ensures { result ≡ is_far_larger area.now part.now }
{
    is_far_longer(across(area), across(part)) || is_far_longer(up(area), up(part))
}

/// Returns the smallest rectangle that holds what a picture shows.
pub fn frame<A: Allocator>(look: &Look, machine: &Machine<A>, commands: &[Command]) -> Rectangle
    ensures { result ≡ frame look.now (file_of machine.now) commands.now }
{
    if look.whole {
        return whole(look.view, machine, commands);
    }
    let travel = look.view.rectangle(&machine.low, &machine.high);
    let work = work(look.view, machine, commands);
    if is_far_larger(&travel, &work) {
        work
    } else {
        whole(look.view, machine, commands)
    }
}

/// Returns whether a coordinate is between two others, or at one of them.
fn is_between(low: i64, coordinate: i64, high: i64) -> bool
    ensures { result ≡ is_between low coordinate high }
{
    low <= coordinate && coordinate <= high
}

impl Rectangle {
    /// Returns whether a spot is in this rectangle, its edges included.
    pub fn has(&self, spot: &Spot) -> bool
        ensures { result ≡ is_in self.now spot.now }
    {
        is_between(self.low.across, spot.across, self.high.across)
            && is_between(self.low.up, spot.up, self.high.up)
    }

    /// Returns whether another rectangle is in this one.
    pub fn has_all_of(&self, other: &Rectangle) -> bool
        ensures { result ≡ is_within self.now other.now }
    {
        self.has(&other.low) && self.has(&other.high)
    }
}

fn greater(a: i128, b: i128) -> i128
    requires left { unsigned_abs a < 2 ^ 92 }
    requires right { unsigned_abs b < 2 ^ 92 }
    ensures value { result ≡ int_max a b }
    ensures bound { unsigned_abs result < 2 ^ 92 }
    ensures either { (result ≡ a) ⊎ (result ≡ b) }
{
    a.max(b)
}

fn hundredth(length: i128) -> i64
    requires { unsigned_abs length < 2 ^ 64 }
    ensures value { result ≡ int_max (pos 100) (int_div length (pos 100)) }
    ensures small { unsigned_abs result < 2 ^ 58 }
{
    (length / 100).max(100) as i64
}

/// Returns a hundredth of the drawn area's size, and at least a tenth of a millimetre.
pub fn unit_of(area: &Rectangle) -> Unit
    ensures { result.micrometres ≡ unit_of area.now }
{
    Unit {
        micrometres: hundredth(greater(across(area), up(area))),
    }
}

/// Returns the length of `count` units.
fn units(unit: &Unit, count: u32) -> i128
    ensures value { result ≡ pos count *ℤ unit.now.micrometres }
    ensures bound { unsigned_abs result < 2 ^ 92 }
{
    i128::from(count) * i128::from(unit.micrometres)
}

fn left(area: &Rectangle, unit: &Unit) -> i128
    ensures { result ≡ area.now.low.across -ℤ (pos 8 *ℤ unit.now.micrometres) }
{
    i128::from(area.low.across) - units(unit, 8)
}

fn top(area: &Rectangle, unit: &Unit) -> i128
    ensures { result ≡ neg_ℤ area.now.high.up -ℤ (pos 5 *ℤ unit.now.micrometres) }
{
    -i128::from(area.high.up) - units(unit, 5)
}

fn width(area: &Rectangle, unit: &Unit) -> i128
    ensures value { result ≡ int_max (width_of area.now)
        (pos 60 *ℤ unit.now.micrometres) +ℤ (pos 16 *ℤ unit.now.micrometres) }
    ensures bound { unsigned_abs result < 2 ^ 94 }
{
    greater(across(area), units(unit, 60)) + units(unit, 16)
}

fn height(area: &Rectangle, unit: &Unit, rows: u32) -> i128
    requires { rows < 2000 }
    ensures value { result ≡ height_of area.now
        +ℤ (pos (23 + 3 * rows) *ℤ unit.now.micrometres) }
    ensures bound { unsigned_abs result < 2 ^ 94 }
{
    up(area) + units(unit, 23 + 3 * rows)
}

/// Returns the size of a length on the page: small pictures are enlarged.
fn enlarged(unit: i64, length: i128) -> i128
    requires { unsigned_abs length < 2 ^ 94 }
    ensures { result ≡ enlarged unit length }
{
    if unit < 200 {
        20 * length
    } else if unit < 400 {
        10 * length
    } else if unit < 1_000 {
        5 * length
    } else if unit < 2_000 {
        2 * length
    } else {
        length
    }
}

/// Returns the width of the sheet on the page.
fn page_width(area: &Rectangle, unit: &Unit) -> i128
    ensures { result ≡ enlarged unit.now.micrometres (int_max (width_of area.now)
        (pos 60 *ℤ unit.now.micrometres) +ℤ (pos 16 *ℤ unit.now.micrometres)) }
{
    enlarged(unit.micrometres, width(area, unit))
}

/// Returns its height.
fn page_height(area: &Rectangle, unit: &Unit, rows: u32) -> i128
    requires { rows < 2000 }
    ensures { result ≡ enlarged unit.now.micrometres (height_of area.now
        +ℤ (pos (23 + 3 * rows) *ℤ unit.now.micrometres)) }
{
    enlarged(unit.micrometres, height(area, unit, rows))
}

/// Returns the sheet for a picture with `rows` rows of tools and faults in the legend.
pub fn sheet_of(area: &Rectangle, rows: u32) -> Sheet
    requires { rows < 2000 }
    ensures { result ≡ sheet area.now rows }
{
    let unit = unit_of(area);
    Sheet {
        left: left(area, &unit),
        top: top(area, &unit),
        width: width(area, &unit),
        height: height(area, &unit, rows),
        page_width: page_width(area, &unit),
        page_height: page_height(area, &unit, rows),
    }
}

/// Returns a rectangle as a part of the sheet.
pub fn pane(area: &Rectangle) -> Pane
    ensures { result ≡ pane area.now }
{
    Pane {
        left: i128::from(area.low.across),
        top: -i128::from(area.high.up),
        width: across(area),
        height: up(area),
    }
}
