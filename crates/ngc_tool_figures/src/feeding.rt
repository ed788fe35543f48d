//! The feeds with a tool: their rates, the spindle's speeds, and how far they go straight down.
ghost use Rattle.std.specs.Prelude.{◌≡◌};
ghost use Rattle.std.specs.Int.{int_max};
ghost use Rattle.ngc_tool_figures.specs.Dives.{fall};
ghost use Rattle.ngc_tool_figures.specs.Feedings.{deeper, fed, feeding_of, with_feed};
ghost use Rattle.ngc_tool_figures.specs.Feedings.{with_motion, with_rate, with_spindle};

use crate::dive::fall;
use crate::figures::{Feeding, with_number};
use crate::moment::Moment;
use ngc_commands::{Action, Command, Feed, Motion, Pace, SpindleState, Way};
use ngc_fixed_length::Turn;

fn with_rate(feeding: Feeding, feed: &Feed) -> Feeding
    ensures { result ≡ with_rate feeding feed.now }
{
    match feed {
        Feed::PerMinute(rate) => Feeding {
            feeds: with_number(feeding.feeds, *rate),
            ..feeding
        },
        Feed::Inverse(rate) => Feeding {
            inverse_feeds: with_number(feeding.inverse_feeds, *rate),
            ..feeding
        },
    }
}

fn with_spindle(feeding: Feeding, spindle: &SpindleState) -> Feeding
    ensures { result ≡ with_spindle feeding spindle.now }
{
    match spindle {
        SpindleState::Off => feeding,
        SpindleState::Turning(Turn::Clockwise, speed) => Feeding {
            clockwise: with_number(feeding.clockwise, *speed),
            ..feeding
        },
        SpindleState::Turning(Turn::Counterclockwise, speed) => Feeding {
            counterclockwise: with_number(feeding.counterclockwise, *speed),
            ..feeding
        },
    }
}

fn greater(a: i64, b: i64) -> i64
    ensures { result ≡ int_max a b }
{
    if a <= b { b } else { a }
}

// Returns the greater of a distance and how far a path goes straight down.
fn deeper(had: i64, way: &Way) -> i64
    ensures { result ≡ deeper had (fall way.now) }
{
    match fall(way) {
        None => had,
        Some(fall) => greater(had, fall),
    }
}

fn with_feed(feeding: Feeding, spindle: &SpindleState, way: &Way, feed: &Feed) -> Feeding
    ensures { result ≡ with_feed feeding spindle.now way.now feed.now }
{
    let plunged = Feeding {
        plunge: deeper(feeding.plunge, way),
        ..feeding
    };
    with_spindle(with_rate(plunged, feed), spindle)
}

fn with_motion(feeding: Feeding, spindle: &SpindleState, motion: &Motion) -> Feeding
    ensures { result ≡ with_motion feeding spindle.now motion.now.way motion.now.pace }
{
    match &motion.pace {
        Pace::Rapid => feeding,
        Pace::Feed(feed) => with_feed(feeding, spindle, &motion.way, feed),
    }
}

fn fed(feeding: Feeding, moment: &Moment, action: &Action) -> Feeding
    ensures { result ≡ fed feeding moment.now action.now }
{
    match action {
        Action::Move(motion) if moment.is_mounted => {
            with_motion(feeding, &moment.spindle, motion)
        }
        _ => feeding,
    }
}

/// Returns the feeds with the tool that has this number, or with none.
pub fn feeding_of(number: Option<u32>, commands: &[Command]) -> Feeding
    ensures { result ≡ feeding_of number commands.now }
{
    let mut feeding = Feeding {
        feeds: None,
        inverse_feeds: None,
        clockwise: None,
        counterclockwise: None,
        plunge: 0,
    };
    let mut moment = Moment::at_start(number);
    for command in commands {
        feeding = fed(feeding, &moment, &command.action);
        moment = moment.after(number, &command.action);
    }
    feeding
}
