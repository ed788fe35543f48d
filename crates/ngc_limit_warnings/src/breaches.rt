//! The breaches of limits in a program.
ghost use Rattle.std.specs.Prelude.{◌≡◌, ◌+◌, ◌≤◌, ◌<◌};
ghost use Rattle.ngc_limit_warnings.specs.Breaches.{breach, breach_by, breach_in, breach_with, breaches_of};
ghost use Rattle.ngc_limit_warnings.specs.Breaches.{count_of, counted, course_of, feed_limits, is_upright};
ghost use Rattle.ngc_limit_warnings.specs.Breaches.{limits_for, number_for, plunge_limits, speed_limits};
ghost use Rattle.ngc_limit_warnings.specs.Breaches.{feed_number, turning_number};

use crate::breach::{Breach, Breaches, Course, Found, Kind};
use crate::in_use::InUse;
use ngc_commands::{Action, Command, Feed, Pace, SpindleState, Way};
use ngc_file_figures::{Limits, ToolLimits};
use ngc_fixed_length::Point3;

// Returns whether two points are above each other.
fn is_upright(start: &Point3, end: &Point3) -> bool
    ensures { result ≡ is_upright start.now end.now }
{
    start.x.nanometres() == end.x.nanometres() && start.y.nanometres() == end.y.nanometres()
}

fn course_of(way: &Way) -> Course
    ensures { result ≡ course_of way.now }
{
    match way {
        Way::Line { start, end } if is_upright(start, end) => {
            if end.z.nanometres() < start.z.nanometres() {
                Course::Down
            } else {
                Course::Up
            }
        }
        _ => Course::Aside,
    }
}

// Returns the limits of a feed. Feeds straight down have their own, if the tool has such.
fn feed_limits(course: Course, limits: &ToolLimits) -> Option<Limits>
    ensures { result ≡ feed_limits course limits.now }
{
    match (course, limits.plunge) {
        (Course::Aside, _) | (Course::Down, None) => limits.feed,
        _ => None,
    }
}

fn plunge_limits(course: Course, limits: &ToolLimits) -> Option<Limits>
    ensures { result ≡ plunge_limits course limits.now }
{
    match course {
        Course::Down => limits.plunge,
        _ => None,
    }
}

// Returns the limits of the spindle's speed. A feed straight up doesn't cut.
fn speed_limits(course: Course, limits: &ToolLimits) -> Option<Limits>
    ensures { result ≡ speed_limits course limits.now }
{
    match course {
        Course::Up => None,
        _ => limits.speed,
    }
}

fn limits_for(kind: Kind, course: Course, limits: &ToolLimits) -> Option<Limits>
    ensures { result ≡ limits_for kind course limits.now }
{
    match kind {
        Kind::Feed => feed_limits(course, limits),
        Kind::Plunge => plunge_limits(course, limits),
        Kind::Speed => speed_limits(course, limits),
    }
}

fn feed_number(feed: &Feed) -> Option<u64>
    ensures { result ≡ feed_number feed.now }
{
    match feed {
        Feed::PerMinute(feed) => Some(*feed),
        Feed::Inverse(_) => None,
    }
}

// Returns the speed of a spindle that turns. Speed 0 has a warning of its own.
fn turning_number(spindle: &SpindleState) -> Option<u64>
    ensures { result ≡ turning_number spindle.now }
{
    match spindle {
        SpindleState::Turning(_, speed) if 0 < *speed => Some(*speed),
        _ => None,
    }
}

fn number_for(kind: Kind, feed: &Feed, spindle: &SpindleState) -> Option<u64>
    ensures { result ≡ number_for kind feed.now spindle.now }
{
    match kind {
        Kind::Feed | Kind::Plunge => feed_number(feed),
        Kind::Speed => turning_number(spindle),
    }
}

fn breach(tool: u32, limits: Option<Limits>, number: Option<u64>) -> Option<Breach>
    ensures { result ≡ breach tool limits number }
{
    match (limits, number) {
        (Some(limits), Some(number)) if !limits.hold(number) => Some(Breach {
            tool,
            number,
            limits,
        }),
        _ => None,
    }
}

fn breach_by(
    kind: Kind,
    limits: &ToolLimits,
    spindle: &SpindleState,
    way: &Way,
    feed: &Feed,
) -> Option<Breach>
    ensures { result ≡ breach_by kind limits.now spindle.now way.now feed.now }
{
    breach(
        limits.number,
        limits_for(kind, course_of(way), limits),
        number_for(kind, feed, spindle),
    )
}

fn breach_with(kind: Kind, in_use: &InUse, way: &Way, pace: &Pace) -> Option<Breach>
    ensures { result ≡ breach_with kind in_use.now way.now pace.now }
{
    match (&in_use.limits, pace) {
        (Some(limits), Pace::Feed(feed)) => { breach_by(kind, limits, &in_use.spindle, way, feed) }
        _ => None,
    }
}

fn breach_in(kind: Kind, in_use: &InUse, action: &Action) -> Option<Breach>
    ensures { result ≡ breach_in kind in_use.now action.now }
{
    match action {
        Action::Move(motion) => breach_with(kind, in_use, &motion.way, &motion.pace),
        _ => None,
    }
}

fn counted(found: Option<Breaches>, line: u32, breach: Option<Breach>) -> Option<Breaches>
    requires { count_of found < usize.MAX }
    ensures value { result ≡ counted found line breach }
    ensures few { count_of result ≤ count_of found + 1 }
{
    match (found, breach) {
        (found, None) => found,
        (None, Some(breach)) => Some(Breaches {
            first: Found { line, breach },
            count: 1,
        }),
        (Some(breaches), Some(_)) => Some(Breaches {
            count: breaches.count + 1,
            ..breaches
        }),
    }
}

/// Returns the breaches of limits of a kind in a program's commands, or `None` if it has none. `table`
/// has the limits of the tools.
pub fn breaches_of(kind: Kind, table: &[ToolLimits], commands: &[Command]) -> Option<Breaches>
    ensures { result ≡ breaches_of kind table.now commands.now }
{
    let mut found = None;
    let mut in_use = InUse::at_start();
    let mut left = commands;
    while let Some((command, later)) = left.split_first() {
        let breach = breach_in(kind, &in_use, &command.action);
        found = counted(found, command.line, breach);
        in_use = in_use.after(table, &command.action);
        left = later;
    }
    found
}
