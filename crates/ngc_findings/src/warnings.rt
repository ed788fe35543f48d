//! Mistakes in a program that passes.
ghost use Rattle.std.specs.Prelude.{◌≡◌, ◌+◌, ◌*◌, ◌≤◌, ◌<◌, ◌^◌, ◌∷◌, [], map, fold, max, unsigned_abs};
ghost use Rattle.ngc_fixed_length.specs.Limits.{MILLION};
ghost use Rattle.std.specs.List.{list_any};
ghost use Rattle.std.specs.Ordering.{int_eq};
ghost use Rattle.ngc_collision.specs.Inside.{solid_of};
ghost use Rattle.ngc_fixed_length.specs.Length.{IsStep};
ghost use Rattle.ngc_machine_files.specs.Machine.{file_of};
ghost use Rattle.ngc_findings.specs.Warnings.{leaves, is_unarmed, step_speed, greatest_speed};
ghost use Rattle.ngc_findings.specs.Warnings.{rate_on_axis, greatest_rate, greatest_of};
ghost use Rattle.ngc_findings.specs.Warnings.{is_above_rate, is_above, greatest_written};
ghost use Rattle.ngc_findings.specs.Warnings.{extent_of, longest, whole, whole_in_plane, shares_of};
ghost use Rattle.ngc_findings.specs.Warnings.{speed_by_share, speed_by_shares};
ghost use Rattle.ngc_findings.specs.Warnings.{is_idle, square_apart, ends_meet, is_nearly_full};
ghost use Rattle.ngc_findings.specs.Warnings.{is_fast, is_at, goes_home, is_low, comes_low};
ghost use Rattle.ngc_findings.specs.Warnings.{is_low_home, concerns, is_concerned, line_of};
ghost use Rattle.ngc_findings.specs.Warnings.{is_across, is_over, is_lower, is_low_across, is_sideways};
ghost use Rattle.ngc_findings.specs.Warnings.{is_into_x, is_into_y};
ghost use Rattle.ngc_findings.specs.Warnings.{warning_about, counted, number_of};
ghost use Rattle.ngc_findings.specs.Warnings.{is_bare_feed, is_untested};

use crate::bounds::reach;
use crate::tool_state::{Entry, ToolState};
use crate::ways::square_between;
use ngc_arc_geometry::Arc;
use ngc_collision::Solid;
use ngc_commands::{Action, Command, Feed, Motion, Pace, Way};
use ngc_file_figures::AxisFigures;
use ngc_fixed_length::{GridBox, Nm, Plane, Point2, Point3, StepPos};
use ngc_machine_files::{Machine, Tool};
use std::alloc::Allocator;

/// The subject of a warning.
#[derive(Clone, Copy)]
pub enum Concern {
    /// Motions without a tool that leave the height of the start.
    NoTool,
    /// Feeds with a tool while the spindle is off, or at speed 0.
    IdleSpindle,
    /// Feeds per minute above the greatest speed that the machine has on this motion along the axis that
    /// moves most: by these speeds of its file in nanometres per minute, of which each axis needs its
    /// share, or else by the rates of the axes that move. Inverse time feeds and traverses don't count.
    FastFeed(Option<AxisFigures>),
    /// Arcs of more than 359 degrees, but no full circles, whose ends lie less than 0.01 mm apart
    /// in the plane: usually an arc of less than a degree whose ends were rounded.
    NearlyFull,
    /// Traverses along a line to a home position, not only up or down, on which a part of the
    /// tool's body, or without a tool the spindle nose, comes below the top of a fixture.
    LowHome,
    /// Traverses along a line, not only up or down, with an end lower than the height at which the
    /// last feeds began, that reach inside the area of the program's feeds, as seen from above:
    /// usually a retract that is missing, or that isn't high enough.
    LowAcross,
    /// Motions without a tool that feed or leave the height of the start. The verdict reports them,
    /// since only the spindle nose is tested there.
    Untested,
}

/// A warning about the commands of a program.
#[derive(Clone, Copy)]
pub struct Warning {
    pub concern: Concern,
    /// The number of commands, at least 1.
    pub count: usize,
    /// The program line of the first command, from 1.
    pub line: u32,
    /// The program line of the last command.
    pub last: u32,
}

/// Returns whether a box leaves the height of a grid point.
fn leaves(point: &StepPos, bounds: &GridBox) -> bool
    ensures { result ≡ leaves point.now bounds.now }
{
    bounds.low.z != point.z || bounds.high.z != point.z
}

fn is_unarmed<A: Allocator>(machine: &Machine<A>, tool: &Option<Tool>, way: &Way) -> bool
    ensures { result ≡ is_unarmed (file_of machine.now) tool.now way.now }
{
    match tool {
        None => leaves(
            &machine.start.to_grid(machine.step),
            &reach(machine.step, way),
        ),
        Some(_) => false,
    }
}

fn is_idle(is_turning: bool, tool: &Option<Tool>, pace: &Pace) -> bool
    ensures { result ≡ is_idle is_turning tool.now pace.now }
{
    match (tool, pace) {
        (Some(_), Pace::Feed(_)) => !is_turning,
        (None, _) | (Some(_), Pace::Rapid) => false,
    }
}

fn is_bare_feed(tool: &Option<Tool>, pace: &Pace) -> bool
    ensures { result ≡ is_bare_feed tool.now pace.now }
{
    match (tool, pace) {
        (None, Pace::Feed(_)) => true,
        (None, Pace::Rapid) | (Some(_), _) => false,
    }
}

fn is_untested<A: Allocator>(
    machine: &Machine<A>,
    tool: &Option<Tool>,
    way: &Way,
    pace: &Pace,
) -> bool
    ensures { result ≡ is_untested (file_of machine.now) tool.now way.now pace.now }
{
    is_bare_feed(tool, pace) || is_unarmed(machine, tool, way)
}

fn size_of(step: Nm) -> u64
    requires { IsStep step }
    ensures value { result ≡ unsigned_abs step }
    ensures greatest { result ≤ 50000 }
{
    step.nanometres().unsigned_abs()
}

/// Returns the speed of one step per tick, in nanometres per second.
fn step_speed<A: Allocator>(machine: &Machine<A>) -> u64
    ensures value { result ≡ step_speed (file_of machine.now) }
    ensures bound { result ≤ 50000000000 }
{
    size_of(machine.step) * u64::from(machine.ticks_per_second)
}

/// Returns a rate, limited to that of an axis along which a motion goes from `low` to `high`.
fn rate_on_axis(low: i32, high: i32, of_axis: u32, rate: u32) -> u32
    ensures value { result ≡ rate_on_axis low high of_axis rate }
    ensures bound { result ≤ rate }
{
    if low == high { rate } else { rate.min(of_axis) }
}

/// Returns the greatest rate of a motion with this box, in millionths of a step per tick.
fn greatest_rate<A: Allocator>(machine: &Machine<A>, bounds: &GridBox) -> u32
    ensures value { result ≡ greatest_rate (file_of machine.now) bounds.now }
    ensures bound { result ≤ MILLION }
{
    let (low, high, rates) = (&bounds.low, &bounds.high, &machine.axis_rates);
    let z = rate_on_axis(low.z, high.z, rates.z, machine.max_rate);
    let y = rate_on_axis(low.y, high.y, rates.y, z);
    rate_on_axis(low.x, high.x, rates.x, y)
}

/// Returns the greatest speed of a motion along an axis, in millionths of a nanometre per second.
fn greatest_speed<A: Allocator>(machine: &Machine<A>, way: &Way) -> u64
    ensures value { result ≡ greatest_speed (file_of machine.now) way.now }
    ensures bound { result ≤ 50000000000000000 }
{
    u64::from(greatest_rate(machine, &reach(machine.step, way))) * step_speed(machine)
}

// Returns whether a feed is above the speed of the machine's rates.
fn is_above_rate<A: Allocator>(machine: &Machine<A>, way: &Way, feed: u64) -> bool
    ensures { result ≡ is_above_rate (file_of machine.now) way.now feed }
{
    let above = greatest_speed(machine, way) + step_speed(machine);
    60 * u128::from(above) <= 1_000_000 * u128::from(feed)
}

fn greater(a: u64, b: u64) -> u64
    ensures { result ≡ max a b }
{
    if a <= b { b } else { a }
}

fn greatest_of(speeds: &AxisFigures) -> u64
    ensures { result ≡ greatest_of speeds.now }
{
    greater(greater(speeds.x, speeds.y), speeds.z)
}

/// How far a motion goes along each axis, in steps.
#[derive(Clone, Copy)]
struct AxisExtent {
    x: u32,
    y: u32,
    z: u32,
}

fn extent_of(bounds: &GridBox) -> AxisExtent
    ensures { result ≡ extent_of bounds.now }
{
    let (low, high) = (&bounds.low, &bounds.high);
    AxisExtent {
        x: low.x.abs_diff(high.x),
        y: low.y.abs_diff(high.y),
        z: low.z.abs_diff(high.z),
    }
}

fn longest(extent: AxisExtent) -> u32
    ensures { result ≡ longest extent }
{
    extent.x.max(extent.y).max(extent.z)
}

fn whole(most: u32, steps: u32) -> u32
    ensures { result ≡ whole most steps }
{
    if steps == 0 { 0 } else { most }
}

// Returns the extent of an arc, with the whole of it on each axis of the plane that moves: there such
// an axis has the whole speed somewhere.
fn whole_in_plane(plane: Plane, most: u32, extent: AxisExtent) -> AxisExtent
    ensures { result ≡ whole_in_plane plane most extent }
{
    let AxisExtent { x, y, z } = extent;
    match plane {
        Plane::XY => AxisExtent {
            x: whole(most, x),
            y: whole(most, y),
            z,
        },
        Plane::ZX => AxisExtent {
            x: whole(most, x),
            y,
            z: whole(most, z),
        },
        Plane::YZ => AxisExtent {
            x,
            y: whole(most, y),
            z: whole(most, z),
        },
    }
}

fn shares_of(way: &Way, extent: AxisExtent) -> AxisExtent
    ensures { result ≡ shares_of way.now extent }
{
    match way {
        Way::Line { .. } => extent,
        Way::Arc(arc) => whole_in_plane(arc.plane(), longest(extent), extent),
    }
}

// Returns a speed of the axis that moves `most` steps, limited so that one that moves `steps` steps
// keeps its own speed.
fn speed_by_share(most: u32, steps: u32, of_axis: u64, speed: u64) -> u64
    ensures { result ≡ speed_by_share most steps of_axis speed }
{
    if steps == 0 {
        return speed;
    }
    let allowed = u128::from(of_axis) * u128::from(most) / u128::from(steps);
    allowed.min(u128::from(speed)) as u64
}

fn speed_by_shares(speeds: &AxisFigures, most: u32, shares: AxisExtent) -> u64
    ensures { result ≡ speed_by_shares speeds.now most shares }
{
    let z = speed_by_share(most, shares.z, speeds.z, greatest_of(speeds));
    let y = speed_by_share(most, shares.y, speeds.y, z);
    speed_by_share(most, shares.x, speeds.x, y)
}

// Returns the greatest speed of a motion along the axis that moves most, by the speeds of the axes as
// they are written.
fn greatest_written(speeds: &AxisFigures, way: &Way, extent: AxisExtent) -> u64
    ensures { result ≡ greatest_written speeds.now way.now extent }
{
    speed_by_shares(speeds, longest(extent), shares_of(way, extent))
}

fn is_above<A: Allocator>(
    machine: &Machine<A>,
    speeds: &Option<AxisFigures>,
    way: &Way,
    feed: u64,
) -> bool
    ensures { result ≡ is_above (file_of machine.now) speeds.now way.now feed }
{
    match speeds {
        None => is_above_rate(machine, way, feed),
        Some(speeds) => {
            let extent = extent_of(&reach(machine.step, way));
            greatest_written(speeds, way, extent) < feed
        }
    }
}

fn is_fast<A: Allocator>(
    machine: &Machine<A>,
    speeds: &Option<AxisFigures>,
    way: &Way,
    pace: &Pace,
) -> bool
    ensures { result ≡ is_fast (file_of machine.now) speeds.now way.now pace.now }
{
    match pace {
        Pace::Feed(Feed::PerMinute(feed)) => is_above(machine, speeds, way, *feed),
        Pace::Feed(Feed::Inverse(_)) | Pace::Rapid => false,
    }
}

// Returns the squared distance of two points of the plane, in square nanometres.
fn square_apart(from: &Point2, to: &Point2) -> u128
    ensures value { result ≡ square_apart from.now to.now }
    ensures bound { result ≤ 8 * 10 ^ 22 }
{
    square_between(from.u, to.u) + square_between(from.v, to.v)
}

// Returns whether the ends of an arc nearly meet. The radius and its square are computed only if
// the ends are near.
fn ends_meet(arc: &Arc) -> bool
    ensures { result ≡ ends_meet arc.now }
{
    let plane = arc.plane();
    let apart = square_apart(&arc.start().in_plane(plane), &arc.end().in_plane(plane));
    apart < 100_000_000
        && {
            let radius = u128::from(arc.inner_radius());
            3283 * apart <= radius * radius
        }
}

fn is_nearly_full(way: &Way) -> bool
    ensures { result ≡ is_nearly_full way.now }
{
    match way {
        Way::Arc(arc) => ends_meet(arc) && !arc.is_full_circle() && 1 < arc.extremes().len(),
        Way::Line { .. } => false,
    }
}

fn is_same(one: Nm, other: Nm) -> bool
    ensures { result ≡ int_eq one other }
{
    one.nanometres() == other.nanometres()
}

fn is_at(point: &Point3, place: &Point3) -> bool
    ensures { result ≡ is_at point.now place.now }
{
    is_same(point.x, place.x) && is_same(point.y, place.y) && is_same(point.z, place.z)
}

fn is_sideways(start: &Point3, end: &Point3) -> bool
    ensures { result ≡ is_sideways start.now end.now }
{
    !is_same(start.x, end.x) || !is_same(start.y, end.y)
}

fn goes_home<A: Allocator>(machine: &Machine<A>, start: &Point3, end: &Point3) -> bool
    ensures { result ≡ goes_home (file_of machine.now) start.now end.now }
{
    (is_at(end, &machine.home28) || is_at(end, &machine.home30)) && is_sideways(start, end)
}

fn is_low<A: Allocator>(machine: &Machine<A>, solid: &Solid) -> bool
    ensures { result ≡ is_low (file_of machine.now) (solid_of solid.now) }
{
    machine
        .fixtures
        .iter()
        .any(|fixture| solid.low.z < fixture.high.z.nanometres())
}

fn is_any_low<A: Allocator>(machine: &Machine<A>, solids: &[Solid]) -> bool
    ensures { result ≡ list_any (is_low (file_of machine.now)) (map solid_of solids.now) }
{
    for solid in solids {
        if is_low(machine, solid) {
            return true;
        }
    }
    false
}

fn comes_low<A: Allocator>(machine: &Machine<A>, tool: &Option<Tool>, bounds: &GridBox) -> bool
    ensures { result ≡ comes_low (file_of machine.now) tool.now bounds.now }
{
    let parts = Solid::swept(machine.step, *tool, bounds);
    is_any_low(machine, parts.as_slice())
}

fn is_low_home<A: Allocator>(
    machine: &Machine<A>,
    tool: &Option<Tool>,
    way: &Way,
    pace: &Pace,
) -> bool
    ensures { result ≡ is_low_home (file_of machine.now) tool.now way.now pace.now }
{
    match (way, pace) {
        (Way::Line { start, end }, Pace::Rapid) => {
            goes_home(machine, start, end) && comes_low(machine, tool, &reach(machine.step, way))
        }
        (Way::Line { .. }, Pace::Feed(_)) | (Way::Arc(_), _) => false,
    }
}

// Returns whether a box reaches inside an area along X.
fn is_into_x(area: &GridBox, bounds: &GridBox) -> bool
    ensures { result ≡ is_into_x area.now bounds.now }
{
    bounds.low.x < area.high.x && area.low.x < bounds.high.x
}

// Returns whether a box reaches inside an area along Y.
fn is_into_y(area: &GridBox, bounds: &GridBox) -> bool
    ensures { result ≡ is_into_y area.now bounds.now }
{
    bounds.low.y < area.high.y && area.low.y < bounds.high.y
}

// Returns whether a box reaches inside an area, as seen from above.
fn is_across(area: &GridBox, bounds: &GridBox) -> bool
    ensures { result ≡ is_across area.now bounds.now }
{
    is_into_x(area, bounds) && is_into_y(area, bounds)
}

fn is_over(area: &Option<GridBox>, bounds: &GridBox) -> bool
    ensures { result ≡ is_over area.now bounds.now }
{
    match area {
        Some(area) => is_across(area, bounds),
        None => false,
    }
}

fn is_lower(height: Option<Nm>, start: &Point3, end: &Point3) -> bool
    ensures { result ≡ is_lower height start.now end.now }
{
    match height {
        Some(height) => {
            let height = height.nanometres();
            start.z.nanometres() < height || end.z.nanometres() < height
        }
        None => false,
    }
}

fn is_low_across(step: Nm, area: &Option<GridBox>, entry: &Entry, way: &Way, pace: &Pace) -> bool
    requires { IsStep step }
    ensures { result ≡ is_low_across step area.now entry.now way.now pace.now }
{
    match (way, pace) {
        (Way::Line { start, end }, Pace::Rapid) => {
            is_sideways(start, end)
                && is_lower(entry.height, start, end)
                && is_over(area, &reach(step, way))
        }
        (Way::Line { .. }, Pace::Feed(_)) | (Way::Arc(_), _) => false,
    }
}

fn concerns<A: Allocator>(
    machine: &Machine<A>,
    concern: Concern,
    before: &ToolState,
    motion: &Motion,
) -> bool
    ensures { result ≡ concerns (file_of machine.now) concern before.now motion.now }
{
    let tool = &before.reached.tool;
    match concern {
        Concern::NoTool => is_unarmed(machine, tool, &motion.way),
        Concern::IdleSpindle => is_idle(before.is_turning, tool, &motion.pace),
        Concern::FastFeed(speeds) => is_fast(machine, &speeds, &motion.way, &motion.pace),
        Concern::NearlyFull => is_nearly_full(&motion.way),
        Concern::LowHome => is_low_home(machine, tool, &motion.way, &motion.pace),
        Concern::LowAcross => is_low_across(
            machine.step,
            &before.area,
            &before.entry,
            &motion.way,
            &motion.pace,
        ),
        Concern::Untested => is_untested(machine, tool, &motion.way, &motion.pace),
    }
}

fn is_concerned<A: Allocator>(
    machine: &Machine<A>,
    concern: Concern,
    before: &ToolState,
    action: &Action,
) -> bool
    ensures { result ≡ is_concerned (file_of machine.now) concern before.now action.now }
{
    match action {
        Action::Move(motion) => concerns(machine, concern, before, motion),
        _ => false,
    }
}

fn counted(concern: Concern, found: Option<Warning>, line: u32) -> Option<Warning>
    requires { number_of found < usize.MAX }
    ensures value { result ≡ counted concern found line }
    ensures few { number_of result ≤ number_of found + 1 }
{
    match found {
        None => Some(Warning {
            concern,
            count: 1,
            line,
            last: line,
        }),
        Some(warning) => Some(Warning {
            count: warning.count + 1,
            last: line,
            ..warning
        }),
    }
}

fn with_command<A: Allocator>(
    machine: &Machine<A>,
    concern: Concern,
    found: Option<Warning>,
    before: &ToolState,
    command: &Command,
) -> Option<Warning>
    requires { number_of found < usize.MAX }
    ensures value { result ≡ fold (counted concern) found
        (line_of (file_of machine.now) concern before.now command.now) }
    ensures few { number_of result ≤ number_of found + 1 }
{
    if is_concerned(machine, concern, before, &command.action) {
        counted(concern, found, command.line)
    } else {
        found
    }
}

/// Returns the warning of a program, or `None` if no command is concerned.
pub fn warning_about<A: Allocator>(
    machine: &Machine<A>,
    concern: Concern,
    commands: &[Command],
) -> Option<Warning>
    ensures { result ≡ warning_about (file_of machine.now) concern commands.now }
{
    let mut found = None;
    let mut before = ToolState::at_start(machine, concern, commands);
    for command in commands {
        found = with_command(machine, concern, found, &before, command);
        before = before.after(&command.action);
    }
    found
}
