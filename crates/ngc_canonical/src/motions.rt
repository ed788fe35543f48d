//! Straight motions and their feeds.
ghost use Rattle.std.specs.Prelude.{◌≡◌};
ghost use Rattle.ngc_canonical.specs.Interpreter.{state_of, Becomes};
ghost use Rattle.ngc_canonical.specs.Motions.{traverse as traversed, nonzero as nonzero_feed};
ghost use Rattle.ngc_canonical.specs.Motions.{inverse_feed as inverse, feed_in as feed_by};
ghost use Rattle.ngc_canonical.specs.Motions.{straight as moved_straight};
ghost use Rattle.ngc_commands.specs.declared.movement.Feed.TheVariants as feeds;

use crate::fault::Fault;
use crate::state::{Interpreter, LineRefusal};
use ngc_commands::{Feed, Pace, Way};
use ngc_fixed_length::{FeedMode, Value};
use ngc_modal_state::AxisWords;
use std::alloc::Allocator;

/// Returns the feed of a motion: the feed in force, or in inverse time mode the line's F.
pub(crate) fn feed_in(mode: FeedMode, feed: u64, f: Option<Value>) -> Result<Feed, Fault>
    ensures { result ≡ feed_by mode feed f }
{
    match (mode, f) {
        (FeedMode::PerMinute, _) if feed != 0 => Ok(Feed::PerMinute(feed)),
        (FeedMode::InverseTime, Some(value)) if value.millionths() != 0 => {
            Ok(Feed::Inverse(value.millionths().unsigned_abs()))
        }
        _ => Err(Fault::FeedZero),
    }
}

impl<A: Allocator> Interpreter<A> {
    /// Executes G0.
    pub(crate) fn traverse(
        &mut self,
        is_machine_place: bool,
        words: &AxisWords,
    ) -> Result<(), LineRefusal>
        ensures { Becomes result (state_of self.new)
            (traversed is_machine_place words.now (state_of self.old)) }
    {
        match self.end_of(is_machine_place, words) {
            Ok(end) => self.traverse_to(&end),
            Err(fault) => Err(LineRefusal::Breaks(fault)),
        }
    }

    /// Executes G1.
    pub(crate) fn straight(
        &mut self,
        is_machine_place: bool,
        words: &AxisWords,
        f: Option<Value>,
    ) -> Result<(), LineRefusal>
        ensures { Becomes result (state_of self.new)
            (moved_straight is_machine_place words.now f (state_of self.old)) }
    {
        let feed = match feed_in(self.modes.feed_mode, self.feed, f) {
            Ok(feed) => feed,
            Err(fault) => return Err(LineRefusal::Breaks(fault)),
        };
        let end = match self.end_of(is_machine_place, words) {
            Ok(end) => end,
            Err(fault) => return Err(LineRefusal::Breaks(fault)),
        };
        let start = self.place;
        self.go(Way::Line { start, end }, Pace::Feed(feed))
    }
}
