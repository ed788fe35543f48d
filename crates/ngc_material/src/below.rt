//! Feeds below the bottom of a stock.
ghost use Rattle.std.specs.Prelude.{◌≡◌, ◌+◌, pos, ◌-ℤ◌, ◌+ℤ◌, int_le};
ghost use Rattle.std.specs.Int.{int_min, int_max};
ghost use Rattle.ngc_stock.specs.Stocks.{natural_of};
ghost use Rattle.ngc_stock.specs.Below as spec;

use crate::cutter::{lowest_part, radius};
use ngc_arc_geometry::Arc;
use ngc_commands::{Action, Command, Motion, Pace, Reached, Way};
use ngc_fixed_length::{Nm, Point2, Point3};
use ngc_machine_files::Tool;
use ngc_stock::{AllBelow, Below, PathBox, Stock};

fn lesser(one: Nm, other: Nm) -> Nm
    ensures { result ≡ int_min one other }
{
    if other.nanometres() < one.nanometres() {
        other
    } else {
        one
    }
}

fn greater(one: Nm, other: Nm) -> Nm
    ensures { result ≡ int_max one other }
{
    if one.nanometres() < other.nanometres() {
        other
    } else {
        one
    }
}

/// Returns the lowest corner of two points.
fn lowest(p: &Point3, q: &Point3) -> Point3
    ensures { result ≡ spec.lowest p.now q.now }
{
    Point3 {
        x: lesser(p.x, q.x),
        y: lesser(p.y, q.y),
        z: lesser(p.z, q.z),
    }
}

/// Returns the highest corner of two points.
fn highest(p: &Point3, q: &Point3) -> Point3
    ensures { result ≡ spec.highest p.now q.now }
{
    Point3 {
        x: greater(p.x, q.x),
        y: greater(p.y, q.y),
        z: greater(p.z, q.z),
    }
}

/// Returns a box grown to hold a point.
fn grown(room: &PathBox, point: &Point3) -> PathBox
    ensures { result ≡ spec.grown room.now point.now }
{
    PathBox {
        low: lowest(&room.low, point),
        high: highest(&room.high, point),
    }
}

fn box_of_two(p: &Point3, q: &Point3) -> PathBox
    ensures { result ≡ spec.box_of_two p.now q.now }
{
    grown(&PathBox { low: *p, high: *p }, q)
}

fn with_point(arc: &Arc, room: &PathBox, point: &Point2) -> PathBox
    ensures { result ≡ spec.with_point arc.now room.now point.now }
{
    grown(room, &point.at_height(arc.plane(), arc.end().z))
}

fn with_points(arc: &Arc, room: PathBox, points: &[Point2]) -> PathBox
    ensures { result ≡ spec.with_points arc.now room points.now }
{
    let mut room = room;
    for point in points {
        room = with_point(arc, &room, point);
    }
    room
}

/// Returns the box of an arc: of its ends and of the quadrant points that it passes.
fn box_of_arc(arc: &Arc) -> PathBox
    ensures { result ≡ spec.box_of (Way.Arc arc.now) }
{
    let room = box_of_two(&arc.start(), &arc.end());
    let extremes = arc.extremes();
    with_points(arc, room, extremes.as_slice())
}

/// Returns the box of a path.
fn box_of(way: &Way) -> PathBox
    ensures { result ≡ spec.box_of way.now }
{
    match way {
        Way::Line { start, end } => box_of_two(start, end),
        Way::Arc(arc) => box_of_arc(arc),
    }
}

/// Returns whether a place is at most `room` below a corner, or above it.
fn is_from(corner: i64, room: u32, place: i64) -> bool
    ensures { result ≡ int_le (corner -ℤ pos room) place }
{
    place >= corner || corner.abs_diff(place) <= u64::from(room)
}

/// Returns whether a place is at most `room` above a corner, or below it.
fn is_up_to(corner: i64, room: u128, place: i64) -> bool
    ensures { result ≡ int_le place (corner +ℤ pos room) }
{
    place <= corner || u128::from(place.abs_diff(corner)) <= room
}

/// Returns whether, along an axis, some place from `low` to `high` is at most `radius` from a row of
/// cells.
fn is_beside_any(corner: i64, half: u32, count: u32, radius: u32, low: Nm, high: Nm) -> bool
    ensures { result ≡ spec.is_beside_any corner half count radius low high }
{
    let width = 2 * u128::from(count) * u128::from(half);
    is_from(corner, radius, high.nanometres())
        && is_up_to(corner, width + u128::from(radius), low.nanometres())
}

/// Returns whether a tool somewhere in a box is over the cells of a stock, or at most its radius beside
/// them.
fn is_over_any(stock: &Stock, tool: &Tool, room: &PathBox) -> bool
    ensures { result ≡ spec.is_over_any stock.now tool.now room.now }
{
    let (grid, radius) = (stock.grid, radius(&lowest_part(tool)));
    is_beside_any(
        grid.corner.x,
        grid.half,
        grid.columns,
        radius,
        room.low.x,
        room.high.x,
    ) && is_beside_any(
        grid.corner.y,
        grid.half,
        grid.rows,
        radius,
        room.low.y,
        room.high.y,
    )
}

/// Returns how far a tool's tip is below the bottom of a stock, or 0.
fn tip_depth(stock: &Stock, tool: &Tool, nose: Nm) -> u64
    ensures { result ≡ natural_of (stock.now.bottom -ℤ (nose +ℤ tool.now.bottom)) }
{
    let tip = nose.nanometres() + tool.bottom.nanometres();
    if tip < stock.bottom {
        tip.abs_diff(stock.bottom)
    } else {
        0
    }
}

fn depth_in(stock: &Stock, tool: &Tool, room: &PathBox) -> u64
    ensures { result ≡ spec.depth_in stock.now tool.now room.now }
{
    if is_over_any(stock, tool, room) {
        tip_depth(stock, tool, room.low.z)
    } else {
        0
    }
}

fn below_with(command: usize, line: u32, tool: u32, depth: u64) -> Option<Below>
    ensures { result ≡ spec.below_with command line tool depth }
{
    if depth == 0 {
        return None;
    }
    Some(Below {
        command,
        line,
        tool,
        depth,
    })
}

fn below_on(stock: &Stock, tool: &Tool, index: usize, line: u32, motion: &Motion) -> Option<Below>
    ensures { result ≡ spec.below_on stock.now tool.now index line motion.now.way motion.now.pace }
{
    match motion.pace {
        Pace::Rapid => None,
        Pace::Feed(_) => {
            let depth = depth_in(stock, tool, &box_of(&motion.way));
            below_with(index, line, tool.number, depth)
        }
    }
}

/// Returns a command with its index, if it is a feed with its tip below the bottom of a stock.
fn below_at(stock: &Stock, reached: &Reached, index: usize, command: &Command) -> Option<Below>
    ensures { result ≡ spec.below_at stock.now reached.now index command.now }
{
    match (&reached.tool, &command.action) {
        (Some(tool), Action::Move(motion)) => below_on(stock, tool, index, command.line, motion),
        _ => None,
    }
}

fn deeper(one: &Below, other: &Below) -> Below
    ensures { result ≡ spec.deeper one.now other.now }
{
    if one.depth < other.depth {
        *other
    } else {
        *one
    }
}

fn with_this(before: &Option<AllBelow>, below: &Below) -> AllBelow
    ensures { result ≡ spec.with_this before.now below.now }
{
    match before {
        None => AllBelow {
            deepest: *below,
            first: below.line,
            last: below.line,
        },
        Some(all) => AllBelow {
            deepest: deeper(&all.deepest, below),
            first: all.first,
            last: below.line,
        },
    }
}

fn with_below(before: Option<AllBelow>, below: &Option<Below>) -> Option<AllBelow>
    ensures { result ≡ spec.with_below before below.now }
{
    match below {
        None => before,
        Some(below) => Some(with_this(&before, below)),
    }
}

/// Returns the feeds of a program with their tips below the bottom of a stock, while the tool may be
/// over it, or at most its radius beside it: `commands` are the program's commands at a setting of
/// block delete, from a state. Motions without a tool are left out.
pub fn find_below(stock: &Stock, start: &Reached, commands: &[Command]) -> Option<AllBelow>
    ensures { result ≡ spec.all_below stock.now start.now 0 commands.now None }
{
    let mut found = None;
    let mut reached = *start;
    let mut left = commands;
    while let Some((command, later)) = left.split_first() {
        let index = commands.len() - left.len();
        found = with_below(found, &below_at(stock, &reached, index, command));
        reached = reached.after(&command.action);
        left = later;
    }
    found
}
