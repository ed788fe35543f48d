ghost use Rattle.std.specs.Prelude.{◌≡◌};
ghost use Rattle.ngc_modal_state.specs.Use.{uses_i as i_used, uses_j as j_used, uses_k as k_used};
ghost use Rattle.ngc_modal_state.specs.Use.{uses_r as r_used};

use crate::block::Block;
use crate::code::MotionMode;
use crate::modes::Modes;
use ngc_fixed_length::{FeedMode, Plane};

// Returns whether an arc uses I. An arc uses those of I, J and K that belong to its plane.
pub(crate) fn uses_i(motion: MotionMode, plane: Plane) -> bool
    ensures { result ≡ i_used motion plane }
{
    motion.is_arc() && !matches!(plane, Plane::YZ)
}

pub(crate) fn uses_j(motion: MotionMode, plane: Plane) -> bool
    ensures { result ≡ j_used motion plane }
{
    motion.is_arc() && !matches!(plane, Plane::ZX)
}

pub(crate) fn uses_k(motion: MotionMode, plane: Plane) -> bool
    ensures { result ≡ k_used motion plane }
{
    motion.is_arc() && !matches!(plane, Plane::XY)
}

pub(crate) fn uses_r(motion: MotionMode) -> bool
    ensures { result ≡ r_used motion }
{
    motion.is_arc() || motion.is_cycle()
}

impl Block {
    ghost use Rattle.ngc_modal_state.specs.Use.{has_axes, has_offsets, has_arc_words, plane_of};
    ghost use Rattle.ngc_modal_state.specs.Use.{feed_mode_of, in_force, user, uses_axes, uses_p};
    ghost use Rattle.ngc_modal_state.specs.Use.{uses_l};

    // Returns whether X, Y or Z is present.
    pub(crate) fn has_axes(&self) -> bool
        ensures { result ≡ has_axes self.now }
    {
        self.axes.x.is_some() || self.axes.y.is_some() || self.axes.z.is_some()
    }

    // Returns whether I, J or K is present.
    pub(crate) fn has_offsets(&self) -> bool
        ensures { result ≡ has_offsets self.now }
    {
        self.i.is_some() || self.j.is_some() || self.k.is_some()
    }

    // Returns whether I, J, K or R is present.
    pub(crate) fn has_arc_words(&self) -> bool
        ensures { result ≡ has_arc_words self.now }
    {
        self.has_offsets() || self.r.is_some()
    }

    // Returns the plane that the line leaves in force.
    pub(crate) fn plane_in_force(&self, modes: &Modes) -> Plane
        ensures { result ≡ plane_of modes.now self.now }
    {
        self.plane.unwrap_or(modes.plane)
    }

    // Returns the feed mode that the line leaves in force.
    pub(crate) fn feed_mode_in_force(&self, modes: &Modes) -> FeedMode
        ensures { result ≡ feed_mode_of modes.now self.now }
    {
        self.feed_mode.unwrap_or(modes.feed_mode)
    }

    // Returns the motion code in force on the line. G10, G28, G30 and G92 suspend one that is kept
    // from an earlier line.
    pub(crate) fn motion_in_force(&self, modes: &Modes) -> MotionMode
        ensures { result ≡ in_force modes.now self.now }
    {
        match self.motion {
            Some(motion) => motion,
            None if self.takes_axes() => MotionMode::Cancel,
            None => modes.motion,
        }
    }

    // Returns the motion code that uses the line's letters. One that is kept from an earlier line
    // does so only with axis words, or as an arc.
    pub(crate) fn user(&self, modes: &Modes) -> MotionMode
        ensures { result ≡ user modes.now self.now }
    {
        let kept = self.motion_in_force(modes);
        if self.motion.is_some() || self.has_axes() || kept.is_arc() {
            kept
        } else {
            MotionMode::Cancel
        }
    }

    // Returns whether a code takes the axis words, or moves by them.
    pub(crate) fn uses_axes(&self, modes: &Modes) -> bool
        ensures { result ≡ uses_axes modes.now self.now }
    {
        self.takes_axes() || !self.motion_in_force(modes).is_cancel()
    }

    pub(crate) fn uses_p(&self, motion: MotionMode) -> bool
        ensures { result ≡ uses_p self.now.once motion }
    {
        self.is_dwell() || self.sets_origin() || motion.dwells()
    }

    pub(crate) fn uses_l(&self, motion: MotionMode) -> bool
        ensures { result ≡ uses_l self.now.once motion }
    {
        self.sets_origin() || motion.is_cycle()
    }
}
