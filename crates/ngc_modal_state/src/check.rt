ghost use Rattle.std.specs.Prelude.{◌≡◌, None, true, false, is_some, ◌||◌, ◌&&◌};
ghost use Rattle.ngc_modal_state.specs.Use.{idle, lacks, depth_letter as letter_of_depth};
ghost use Rattle.ngc_modal_state.specs.Tables.{first_where as first_in};

use crate::block::{AxisWords, Block};
use crate::code::MotionMode;
use crate::fault::{MissingWord, ModalFault};
use crate::modes::Modes;
use crate::range::{is_negative, is_not_whole_from};
use crate::used::{uses_i, uses_j, uses_k, uses_r};
use ngc_fixed_length::{FeedMode, Plane, Value};
use ngc_line_reader::Letter;

// Returns the second entry of the first row whose test holds.
fn first_where<T: Copy>(rows: &[(bool, T)]) -> Option<T>
    ensures { result ≡ first_in rows.now }
{
    for (holds, answer) in rows {
        if *holds {
            return Some(*answer);
        }
    }
    None
}

// Returns whether the word is present and isn't used.
fn is_idle(word: Option<Value>, used: bool) -> bool
    ensures { result ≡ idle word used }
{
    word.is_some() && !used
}

// Returns whether the word is needed and isn't present.
fn is_lacking(needed: bool, word: Option<Value>) -> bool
    ensures { result ≡ lacks needed word }
{
    needed && word.is_none()
}

// Returns the letter of the axis perpendicular to the plane.
fn depth_letter(plane: Plane) -> Letter
    ensures { result ≡ letter_of_depth plane }
{
    match plane {
        Plane::XY => Letter::Z,
        Plane::ZX => Letter::Y,
        Plane::YZ => Letter::X,
    }
}

impl AxisWords {
    ghost use Rattle.ngc_modal_state.specs.Use.{depth_word};

    // Returns the word of the axis perpendicular to the plane.
    fn depth(&self, plane: Plane) -> Option<Value>
        ensures { result ≡ depth_word plane self.now }
    {
        match plane {
            Plane::XY => self.z,
            Plane::ZX => self.y,
            Plane::YZ => self.x,
        }
    }
}

impl Block {
    ghost use Rattle.ngc_modal_state.specs.Use.{claimed_twice, unused_letter, lacks_axes, needs_feed};
    ghost use Rattle.ngc_modal_state.specs.Use.{missing_word, out_of_range, lacks_straight};
    ghost use Rattle.ngc_modal_state.specs.Use.{check as check_of, has_offsets};

    // Returns whether two codes use the axis words, or P, or R is present together with I, J or K.
    #[tactic(auto, unfolding(crate::specs::Use::claimed_twice))]
    fn is_claimed_twice(&self, modes: &Modes) -> bool
        ensures { result ≡ claimed_twice modes.now self.now }
    {
        let user = self.user(modes);
        let moves = !self.motion.unwrap_or(MotionMode::Cancel).is_cancel();
        (self.takes_axes() && self.has_axes() && moves)
            || (self.p.is_some() && self.is_dwell() && user.dwells())
            || (user.is_arc() && self.r.is_some() && self.has_offsets())
    }

    // Returns the letter of a word that nothing uses, the first in this order.
    #[tactic(auto, unfolding(crate::specs::Use::unused_letter))]
    fn unused_letter(&self, modes: &Modes) -> Option<Letter>
        ensures { result ≡ unused_letter modes.now self.now }
    {
        let user = self.user(modes);
        let plane = self.plane_in_force(modes);
        let axes = self.uses_axes(modes);
        first_where(&[
            (is_idle(self.axes.x, axes), Letter::X),
            (is_idle(self.axes.y, axes), Letter::Y),
            (is_idle(self.axes.z, axes), Letter::Z),
            (is_idle(self.i, uses_i(user, plane)), Letter::I),
            (is_idle(self.j, uses_j(user, plane)), Letter::J),
            (is_idle(self.k, uses_k(user, plane)), Letter::K),
            (is_idle(self.r, uses_r(user)), Letter::R),
            (is_idle(self.p, self.uses_p(user)), Letter::P),
            (is_idle(self.l, self.uses_l(user)), Letter::L),
            (is_idle(self.q, user.pecks()), Letter::Q),
            (is_idle(self.h, self.applies_length()), Letter::H),
        ])
    }

    // Returns whether G92, G53 or a cycle code is on the line without an axis word.
    fn lacks_axes(&self) -> bool
        ensures { result ≡ lacks_axes self.now }
    {
        let needed = self.sets_offset()
            || self.is_machine_place()
            || self.motion.unwrap_or(MotionMode::Cancel).is_cycle();
        needed && !self.has_axes()
    }

    // Returns whether there is a motion at a feed in inverse time.
    fn needs_feed(&self, modes: &Modes) -> bool
        ensures { result ≡ needs_feed modes.now self.now }
    {
        let inverse = matches!(self.feed_mode_in_force(modes), FeedMode::InverseTime);
        inverse && self.has_axes() && self.user(modes).feeds()
    }

    // Returns the word that a code needs and that is missing, the first in this order.
    #[tactic(auto, unfolding(crate::specs::Use::missing_word))]
    fn missing_word(&self, modes: &Modes) -> Option<MissingWord>
        ensures { result ≡ missing_word modes.now self.now }
    {
        let user = self.user(modes);
        let plane = self.plane_in_force(modes);
        let begins = user.begins_cycle(modes.motion);
        let depth = self.axes.depth(plane);
        first_where(&[
            (
                is_lacking(self.is_dwell(), self.p),
                MissingWord::Letter(Letter::P),
            ),
            (
                is_lacking(self.sets_origin(), self.l),
                MissingWord::Letter(Letter::L),
            ),
            (
                is_lacking(self.sets_origin(), self.p),
                MissingWord::Letter(Letter::P),
            ),
            (
                is_lacking(self.applies_length(), self.h),
                MissingWord::Letter(Letter::H),
            ),
            (self.lacks_axes(), MissingWord::Axis),
            (
                is_lacking(self.needs_feed(modes), self.f),
                MissingWord::Letter(Letter::F),
            ),
            (is_lacking(begins, self.r), MissingWord::Letter(Letter::R)),
            (
                is_lacking(begins, depth),
                MissingWord::Letter(depth_letter(plane)),
            ),
            (
                is_lacking(begins && user.dwells(), self.p),
                MissingWord::Letter(Letter::P),
            ),
            (
                is_lacking(begins && user.pecks(), self.q),
                MissingWord::Letter(Letter::Q),
            ),
        ])
    }

    // Returns whether a word's value is out of its range. A value has at most 10^9 units.
    #[tactic(auto, unfolding(crate::specs::Use::out_of_range))]
    fn has_word_out_of_range(&self) -> bool
        ensures { result ≡ out_of_range self.now }
    {
        let origin = is_not_whole_from(2, 2, self.l) || is_not_whole_from(1, 9, self.p);
        is_negative(self.f)
            || is_negative(self.s)
            || is_not_whole_from(0, 1_000_000_000, self.t)
            || is_not_whole_from(0, 1_000_000_000, self.h)
            || (self.is_dwell() && is_negative(self.p))
            || (self.sets_origin() && origin)
    }

    // Returns whether G53 is present without G0 or G1 in force.
    #[tactic(auto, unfolding(crate::specs::Use::lacks_straight))]
    fn lacks_straight(&self, modes: &Modes) -> bool
        ensures { result ≡ lacks_straight modes.now self.now }
    {
        self.is_machine_place() && !self.motion_in_force(modes).is_straight()
    }

    // Returns whether there is a nonmodal code, G43 or G49, or a letter that neither a straight
    // move nor an arc in the plane XY uses.
    fn has_rare_words(&self) -> bool
        ensures { result ≡ (is_some self.now.once || is_some self.now.tool_length
            || is_some self.now.k || is_some self.now.p || is_some self.now.l || is_some self.now.q
            || is_some self.now.h) }
    {
        self.once.is_some()
            || self.tool_length.is_some()
            || self.k.is_some()
            || self.p.is_some()
            || self.l.is_some()
            || self.q.is_some()
            || self.h.is_some()
    }

    // Returns whether R is present together with I, J or K.
    fn has_two_centres(&self) -> bool
        ensures { result ≡ (is_some self.now.r && has_offsets self.now) }
    {
        self.r.is_some() && self.has_offsets()
    }

    // Returns whether a few tests show that the line breaks no rule on the use of words. This is
    // true of most lines: at most a straight move, or an arc in the plane XY.
    fn is_plain(&self, modes: &Modes) -> bool
        ensures straight { result ≡ true → lacks_straight modes.now self.now ≡ false }
        ensures one_use { result ≡ true → claimed_twice modes.now self.now ≡ false }
        ensures used { result ≡ true → unused_letter modes.now self.now ≡ None }
        ensures there { result ≡ true → missing_word modes.now self.now ≡ None }
    {
        if self.has_rare_words() {
            return false;
        }
        let motion = self.motion_in_force(modes);
        match self.feed_mode_in_force(modes) {
            FeedMode::InverseTime => false,
            FeedMode::PerMinute if motion.is_straight() => !self.has_arc_words(),
            FeedMode::PerMinute if self.has_two_centres() => false,
            FeedMode::PerMinute => {
                motion.is_arc() && matches!(self.plane_in_force(modes), Plane::XY)
            }
        }
    }

    // Returns fault 210, or else the first of 206 to 209.
    pub(crate) fn check(&self, modes: &Modes) -> Result<(), ModalFault>
        ensures { result ≡ check_of modes.now self.now }
    {
        if !self.is_plain(modes) {
            if self.lacks_straight(modes) {
                return Err(ModalFault::WithoutStraightMotion);
            }
            if self.is_claimed_twice(modes) {
                return Err(ModalFault::ClaimedTwice);
            }
            if let Some(letter) = self.unused_letter(modes) {
                return Err(ModalFault::WithoutUse(letter));
            }
            if let Some(word) = self.missing_word(modes) {
                return Err(ModalFault::WordMissing(word));
            }
        }
        if self.has_word_out_of_range() {
            return Err(ModalFault::OutOfRange);
        }
        Ok(())
    }
}
