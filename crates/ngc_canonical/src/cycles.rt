//! Canned cycles: the line's words with the kept ones, and the moves as commands.
ghost use Rattle.std.specs.Prelude.{◌≡◌, ◌≤◌, ◌+◌, ℕ, true, All, OnOk, IfOk};
ghost use Rattle.ngc_offsets.specs.Frames.{IsReachable, to_machine as in_machine};
ghost use Rattle.ngc_fixed_length.specs.Places.{in_plane, at_height};
ghost use Rattle.ngc_canned_cycles.specs.Reach.{IsMoveReachable, BeginsInReach};
ghost use Rattle.ngc_offsets.specs.Ranges.{IsMachinePlace, AreInRange};
ghost use Rattle.std.specs.Prelude.{Ok};
ghost use Rattle.ngc_canned_cycles.specs.Refusals.{is_in_range, check, AreRepeats};
ghost use Rattle.ngc_canned_cycles.specs.Heights.{repeats_of, AreLengths};
ghost use Rattle.ngc_canonical.specs.Interpreter.{state_of, Becomes};
ghost use Rattle.ngc_canonical.specs.Cycles.{word_u as word_on_u, word_v as word_on_v};
ghost use Rattle.ngc_canonical.specs.Cycles.{kept_after as kept_then, hole_of as hole_with};
ghost use Rattle.ngc_canonical.specs.Cycles.{cycle_of as cycle_said, start_of as start_said};
ghost use Rattle.ngc_canonical.specs.Cycles.{series_of as series_said};
ghost use Rattle.ngc_canonical.specs.Cycles.{series_place as series_place_said, feed_to as fed_to};
ghost use Rattle.ngc_canonical.specs.Cycles.{make_move as move_made, make_moves as moves_made};
ghost use Rattle.ngc_canonical.specs.Cycles.{all_moves, refusal as refused, cycle as cycle_done};
ghost use Rattle.ngc_modal_state.specs.Use.{depth_word as word_on_depth};

use crate::fault::Fault;
use crate::places::word_length;
use crate::spindle::spindle_state;
use crate::state::{Interpreter, Kept, LineRefusal};
use ngc_canned_cycles::{Cycle, CycleFault, CycleMove, Hole, Start, fill};
use ngc_commands::{Action, Feed, Pace, SpindleState, Way};
use ngc_fixed_length::{Nm, Plane, Point3, Value};
use ngc_modal_state::{AxisWords, CycleCode, CycleWords};
use smallvec::SmallVec;
use std::alloc::Allocator;

fn word_u(plane: Plane, axes: &AxisWords) -> Option<Value>
    ensures { result ≡ word_on_u plane axes.now }
{
    match plane {
        Plane::XY => axes.x,
        Plane::ZX => axes.z,
        Plane::YZ => axes.y,
    }
}

fn word_v(plane: Plane, axes: &AxisWords) -> Option<Value>
    ensures { result ≡ word_on_v plane axes.now }
{
    match plane {
        Plane::XY => axes.y,
        Plane::ZX => axes.x,
        Plane::YZ => axes.z,
    }
}

fn depth_word(plane: Plane, axes: &AxisWords) -> Option<Value>
    ensures { result ≡ word_on_depth plane axes.now }
{
    match plane {
        Plane::XY => axes.z,
        Plane::ZX => axes.y,
        Plane::YZ => axes.x,
    }
}

fn hole_of(hole: CycleCode, kept: &Kept) -> Hole
    ensures { result ≡ hole_with hole kept.now }
{
    match hole {
        CycleCode::Drill => Hole::Drill,
        CycleCode::DrillWithDwell => Hole::DrillWithDwell(kept.dwell),
        CycleCode::Peck => Hole::Peck(kept.peck),
        CycleCode::Bore => Hole::Bore,
        CycleCode::BoreWithStop => Hole::BoreWithStop(kept.dwell),
        CycleCode::BoreWithDwell => Hole::BoreWithDwell(kept.dwell),
    }
}

// Returns the first refusal of a cycle.
fn refusal(cycle: &Cycle, start: &Start, feed: u64) -> Result<(), Fault>
    ensures value { result ≡ refused cycle.now start.now feed }
    ensures checked { OnOk result (check cycle.now start.now ≡ Ok tt) }
    ensures repeats { OnOk result (AreRepeats (repeats_of cycle.now.repeats)) }
    ensures range { OnOk result (is_in_range cycle.now start.now ≡ true) }
    ensures lengths { OnOk result ((j : ℕ) → 1 ≤ j → j ≤ repeats_of cycle.now.repeats →
        AreLengths cycle.now start.now j) }
{
    match cycle.check(start) {
        Ok(()) => {}
        Err(fault) => return Err(Fault::Cycle(fault)),
    }
    if feed == 0 {
        return Err(Fault::FeedZero);
    }
    if cycle.is_in_range(start) {
        Ok(())
    } else {
        Err(Fault::CycleBeyondRange(start.reach))
    }
}

impl<A: Allocator + Copy> Interpreter<A> {
    // Returns the words of the line, and the kept ones for those that it leaves out.
    fn kept_after(&self, axes: &AxisWords, words: &CycleWords) -> Result<Kept, Fault>
        ensures { result ≡ kept_then (state_of self.now) axes.now words.now }
    {
        let units = self.modes.units;
        let retract = word_length(units, words.r)?;
        let bottom = word_length(units, depth_word(self.modes.plane, axes))?;
        let peck = word_length(units, words.q)?;
        Ok(Kept {
            retract: retract.unwrap_or(self.kept.retract),
            bottom: bottom.unwrap_or(self.kept.bottom),
            dwell: words.p.unwrap_or(self.kept.dwell),
            peck: peck.unwrap_or(self.kept.peck),
        })
    }

    fn cycle_of(
        &self,
        hole: CycleCode,
        axes: &AxisWords,
        words: &CycleWords,
        kept: &Kept,
    ) -> Result<Cycle, Fault>
        ensures value { result ≡ cycle_said hole (state_of self.now) axes.now words.now kept.now }
        ensures plane { IfOk result (λ c. c.plane ≡ (state_of self.now).modes.plane) }
    {
        let plane = self.modes.plane;
        let u = word_length(self.modes.units, word_u(plane, axes))?;
        let v = word_length(self.modes.units, word_v(plane, axes))?;
        Ok(Cycle {
            hole: hole_of(hole, kept),
            plane,
            distance: self.modes.distance,
            clear: self.modes.return_mode,
            feed_mode: self.modes.feed_mode,
            u,
            v,
            retract: kept.retract,
            bottom: kept.bottom,
            repeats: words.l,
        })
    }

    // Returns the machine's height before the series. A series begins here if none is in progress.
    fn series(&self) -> Nm
        ensures value { result ≡ series_said (state_of self.now) }
        ensures range { IsMachinePlace (series_place_said (state_of self.now)) }
    {
        self.series.unwrap_or(self.place.height(self.modes.plane))
    }

    fn start_of(&self) -> Start
        ensures value { result ≡ start_said (state_of self.now) }
        ensures offsets { AreInRange (state_of self.now).frames }
        ensures place { IsReachable (state_of self.now).frames result.place }
        ensures series { IsReachable (state_of self.now).frames
            (at_height (state_of self.now).modes.plane
            (in_plane (state_of self.now).modes.plane result.place) result.series) }
    {
        let plane = self.modes.plane;
        let series_place = self.place.in_plane(plane).at_height(plane, self.series());
        let frames = self.frames;
        Start {
            place: frames.to_program(self.place),
            series: frames.to_program(series_place).height(plane),
            turning: self.spindle.is_some(),
            reach: frames.reach,
        }
    }

    fn machine_place(&self, place: &Point3) -> Point3
        requires { IsReachable (state_of self.now).frames place.now }
        ensures value { result ≡ in_machine (state_of self.now).frames place.now }
        ensures range { IsMachinePlace result }
    {
        self.frames.to_machine(*place)
    }

    fn feed_to(&mut self, end: &Point3) -> Result<(), LineRefusal>
        requires { IsMachinePlace end.now }
        ensures value { Becomes result (state_of self.new) (fed_to end.now (state_of self.old)) }
        ensures frames { OnOk result ((state_of self.new).frames ≡ (state_of self.old).frames) }
    {
        let start = self.place;
        let feed = Feed::PerMinute(self.feed);
        self.go(Way::Line { start, end: *end }, Pace::Feed(feed))
    }

    fn make_move(&mut self, step: &CycleMove) -> Result<(), LineRefusal>
        requires { IsMoveReachable (state_of self.old).frames step.now }
        ensures value { Becomes result (state_of self.new)
            (move_made step.now (state_of self.old)) }
        ensures frames { OnOk result ((state_of self.new).frames ≡ (state_of self.old).frames) }
    {
        match step {
            CycleMove::Traverse(place) => {
                let end = self.machine_place(place);
                self.traverse_to(&end)
            }
            CycleMove::Feed(place) => {
                let end = self.machine_place(place);
                self.feed_to(&end)
            }
            CycleMove::Dwell(value) => {
                let millionths = value.millionths().unsigned_abs();
                self.emit(Action::Dwell(millionths))
            }
            CycleMove::StopSpindle => self.emit(Action::Spindle(SpindleState::Off)),
            CycleMove::StartSpindle => self.emit(Action::Spindle(spindle_state(
                self.spindle,
                self.speed,
            ))),
        }
    }

    #[tactic(auto, unfolding(crate::specs::Cycles::make_moves))]
    fn make_moves(&mut self, moves: &[CycleMove]) -> Result<(), LineRefusal>
        requires { All (IsMoveReachable (state_of self.old).frames) moves.now }
        ensures value { Becomes result (state_of self.new)
            (moves_made moves.now (state_of self.old)) }
        ensures frames { OnOk result ((state_of self.new).frames ≡ (state_of self.old).frames) }
    {
        for step in moves {
            match self.make_move(step) {
                Ok(()) => {}
                Err(refusal) => return Err(refusal),
            }
        }
        Ok(())
    }

    // Makes all repeats in order.
    #[tactic(auto, using(crate::proofs::CycleLaws::went_on, crate::proofs::CycleLaws::no_more))]
    fn make_repeats(&mut self, cycle: &Cycle, start: &Start) -> Result<(), LineRefusal>
        requires checked { check cycle.now start.now ≡ Ok tt }
        requires repeats { AreRepeats (repeats_of cycle.now.repeats) }
        requires lengths { (j : ℕ) → 1 ≤ j → j ≤ repeats_of cycle.now.repeats →
            AreLengths cycle.now start.now j }
        requires reach { BeginsInReach (state_of self.old).frames cycle.now start.now }
        ensures { Becomes result (state_of self.new)
            (moves_made (all_moves cycle.now start.now) (state_of self.old)) }
    {
        // By reference, since the size of an allocator is unknown.
        let alloc = self.alloc;
        let mut moves = SmallVec::new(&alloc);
        for index in 0..cycle.repeats() {
            match fill(&mut moves, cycle, start, index + 1) {
                Ok(()) => {}
                Err(CycleFault::Memory) => return Err(LineRefusal::Memory),
                Err(fault) => return Err(LineRefusal::Breaks(Fault::Cycle(fault))),
            }
            match self.make_moves(moves.as_slice()) {
                Ok(()) => {}
                Err(refusal) => return Err(refusal),
            }
        }
        Ok(())
    }

    /// Executes G81, G82, G83, G85, G86 or G89.
    pub(crate) fn cycle(
        &mut self,
        hole: CycleCode,
        axes: &AxisWords,
        words: &CycleWords,
    ) -> Result<(), LineRefusal>
        ensures { Becomes result (state_of self.new)
            (cycle_done hole axes.now words.now (state_of self.old)) }
    {
        let kept = match self.kept_after(axes, words) {
            Ok(kept) => kept,
            Err(fault) => return Err(LineRefusal::Breaks(fault)),
        };
        let cycle = match self.cycle_of(hole, axes, words, &kept) {
            Ok(cycle) => cycle,
            Err(fault) => return Err(LineRefusal::Breaks(fault)),
        };
        let start = self.start_of();
        match refusal(&cycle, &start, self.feed) {
            Ok(()) => {}
            Err(fault) => return Err(LineRefusal::Breaks(fault)),
        }
        self.series = Some(self.series());
        self.kept = kept;
        self.make_repeats(&cycle, &start)
    }
}
