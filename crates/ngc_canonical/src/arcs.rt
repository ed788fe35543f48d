//! Arcs: their words, and the motion.
ghost use Rattle.std.specs.Prelude.{◌≡◌, IfOk};
ghost use Rattle.ngc_offsets.specs.Ranges.{IsMachinePlace};
ghost use Rattle.ngc_arc_geometry.specs.Centre.{IsEnds, centre_format, radius_format};
ghost use Rattle.ngc_canonical.specs.Steps.{faulted};
ghost use Rattle.ngc_canonical.specs.Interpreter.{state_of, Becomes};
ghost use Rattle.ngc_canonical.specs.Arcs.{has_plane_word as has_word, along_u as on_u};
ghost use Rattle.ngc_canonical.specs.Arcs.{along_v as on_v, arc_by as arc_given};
ghost use Rattle.ngc_canonical.specs.Arcs.{arc_of as arc_said, arc as arc_done};

use crate::fault::Fault;
use crate::motions::feed_in;
use crate::places::word_length;
use crate::state::{Interpreter, LineRefusal};
use ngc_arc_geometry::{Arc, ArcFault, Ends, Offsets};
use ngc_commands::{Pace, Way};
use ngc_fixed_length::{Nm, Plane, Turn, Value};
use ngc_modal_state::{ArcWords, AxisWords};
use std::alloc::Allocator;

// Returns whether there is an axis word of the plane.
fn has_plane_word(plane: Plane, axes: &AxisWords) -> bool
    ensures { result ≡ has_word plane axes.now }
{
    match plane {
        Plane::XY => axes.x.is_some() || axes.y.is_some(),
        Plane::ZX => axes.z.is_some() || axes.x.is_some(),
        Plane::YZ => axes.y.is_some() || axes.z.is_some(),
    }
}

// Returns the word among I, J and K for the plane's first axis.
fn along_u(plane: Plane, words: &ArcWords) -> Option<Value>
    ensures { result ≡ on_u plane words.now }
{
    match plane {
        Plane::XY => words.i,
        Plane::ZX => words.k,
        Plane::YZ => words.j,
    }
}

fn along_v(plane: Plane, words: &ArcWords) -> Option<Value>
    ensures { result ≡ on_v plane words.now }
{
    match plane {
        Plane::XY => words.j,
        Plane::ZX => words.i,
        Plane::YZ => words.k,
    }
}

impl<A: Allocator + Copy> Interpreter<A> {
    fn arc_by_radius(&self, radius: Nm, ends: &Ends) -> Result<Arc, Fault>
        requires { IsEnds ends.now }
        ensures value { result ≡ faulted Fault.Arc
            (radius_format (state_of self.now).modes.units ends.now radius) }
        ensures end { IfOk result (λ a. a.end ≡ ends.now.end) }
    {
        match Arc::radius_format(self.modes.units, ends, radius) {
            Ok(arc) => Ok(arc),
            Err(fault) => Err(Fault::Arc(fault)),
        }
    }

    fn arc_by_centre(&self, offsets: &Offsets, ends: &Ends) -> Result<Arc, Fault>
        requires { IsEnds ends.now }
        ensures value { result ≡ faulted Fault.Arc
            (centre_format (state_of self.now).modes.units ends.now offsets.now) }
        ensures end { IfOk result (λ a. a.end ≡ ends.now.end) }
    {
        match Arc::centre_format(self.modes.units, ends, offsets) {
            Ok(arc) => Ok(arc),
            Err(fault) => Err(Fault::Arc(fault)),
        }
    }

    // Uses radius format if there is an R, otherwise centre format.
    fn arc_by(&self, radius: Option<Nm>, words: &ArcWords, ends: &Ends) -> Result<Arc, Fault>
        requires { IsEnds ends.now }
        ensures value { result ≡ arc_given radius (state_of self.now) words.now ends.now }
        ensures end { IfOk result (λ a. a.end ≡ ends.now.end) }
    {
        let plane = self.modes.plane;
        let units = self.modes.units;
        match radius {
            Some(radius) => self.arc_by_radius(radius, ends),
            None => {
                let u = word_length(units, along_u(plane, words))?;
                let v = word_length(units, along_v(plane, words))?;
                self.arc_by_centre(&Offsets { u, v }, ends)
            }
        }
    }

    // Returns the arc of the words.
    fn arc_of(&self, turn: Turn, axes: &AxisWords, words: &ArcWords) -> Result<Arc, Fault>
        ensures value { result ≡ arc_said turn axes.now words.now (state_of self.now) }
        ensures range { IfOk result (λ a. IsMachinePlace a.end) }
    {
        let plane = self.modes.plane;
        let end = self.end_of(false, axes)?;
        let radius = word_length(self.modes.units, words.r)?;
        let ends = Ends {
            plane,
            turn,
            start: self.place,
            end,
            has_axis_word: has_plane_word(plane, axes),
        };
        self.arc_by(radius, words, &ends)
    }

    /// Executes G2 or G3. Without an axis word of the plane nothing moves, so feed and lengths are
    /// not checked.
    pub(crate) fn arc(
        &mut self,
        turn: Turn,
        axes: &AxisWords,
        words: &ArcWords,
        f: Option<Value>,
    ) -> Result<(), LineRefusal>
        ensures { Becomes result (state_of self.new)
            (arc_done turn axes.now words.now f (state_of self.old)) }
    {
        if !has_plane_word(self.modes.plane, axes) {
            return Err(LineRefusal::Breaks(Fault::Arc(ArcFault::NoAxisWord)));
        }
        let feed = match feed_in(self.modes.feed_mode, self.feed, f) {
            Ok(feed) => feed,
            Err(fault) => return Err(LineRefusal::Breaks(fault)),
        };
        let arc = match self.arc_of(turn, axes, words) {
            Ok(arc) => arc,
            Err(fault) => return Err(LineRefusal::Breaks(fault)),
        };
        self.go(Way::Arc(arc), Pace::Feed(feed))
    }
}
