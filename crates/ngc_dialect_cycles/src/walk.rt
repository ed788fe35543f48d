ghost use Rattle.std.specs.Prelude.{◌≡◌, ◌<◌, ◌≤◌, ◌+◌, None, slice_get, IfSome};
ghost use Rattle.ngc_dialect_cycles.specs.Moves.{all_moves, IsNext};
ghost use Rattle.ngc_dialect_cycles.specs.Walk.{IsPlan, part_moves, next_part, left, parts_left};

use crate::plan::Plan;
use ngc_canned_cycles::CycleMove;

/// A part of a hole's moves.
#[derive(Clone, Copy)]
pub(crate) enum Part {
    /// The way to the hole and to R.
    Arrival,
    /// A peck that ends above the bottom, and the way back; pecks count from 1.
    OnePeck(u64),
    /// The feed to the bottom, and the way up.
    Ending,
}

/// Walks over all moves of a line, those that go nowhere too.
#[derive(Clone, Copy)]
pub(crate) struct Walk {
    pub(crate) plan: Plan,
    /// The hole, counted from 0, the part of its moves, and the number of moves of it that were
    /// taken.
    pub(crate) hole: u32,
    pub(crate) part: Part,
    pub(crate) index: usize,
}

impl Walk {
    /// Returns a walk that begins.
    pub(crate) fn new(plan: Plan) -> Walk
        ensures left { left result ≡ all_moves plan.series plan.line }
        ensures plan { result.plan ≡ plan }
    {
        Walk {
            plan,
            hole: 0,
            part: Part::Arrival,
            index: 0,
        }
    }

    // Returns the next move of the part, or `None` after its last.
    fn here(&self) -> Option<CycleMove>
        requires plan { IsPlan self.now.plan }
        requires hole { self.now.hole < self.now.plan.line.repeats }
        ensures value { result ≡ slice_get (part_moves self.now.plan.series self.now.plan.line
            self.now.hole self.now.part) self.now.index }
        ensures few { IfSome result (λ _. self.now.index < 5) }
    {
        match self.part {
            Part::Arrival => self.plan.arrival(self.hole, self.index),
            Part::OnePeck(peck) => self.plan.peck(self.hole, peck, self.index),
            Part::Ending => self.plan.ending(self.hole, self.index),
        }
    }

    // Returns the part after a number of pecks.
    fn next_part(&self, pecks: u64) -> Part
        ensures { result ≡ next_part self.now.plan.pecks pecks }
    {
        if pecks < self.plan.pecks {
            Part::OnePeck(pecks + 1)
        } else {
            Part::Ending
        }
    }

    // Goes on to the next part.
    fn leave_part(&mut self)
        requires plan { IsPlan self.old.plan }
        requires hole { self.old.hole < self.old.plan.line.repeats }
        requires done { slice_get (part_moves self.old.plan.series self.old.plan.line
            self.old.hole self.old.part) self.old.index ≡ None }
        ensures left { left self.new ≡ left self.old }
        ensures parts { parts_left self.new < parts_left self.old }
        ensures plan { self.new.plan ≡ self.old.plan }
    {
        self.index = 0;
        match self.part {
            Part::Arrival => self.part = self.next_part(0),
            Part::OnePeck(peck) => self.part = self.next_part(peck),
            Part::Ending => {
                self.hole += 1;
                self.part = Part::Arrival;
            }
        }
    }

    /// Returns the next move, or `None` after the last.
    pub(crate) fn step(&mut self) -> Option<CycleMove>
        requires { IsPlan self.old.plan }
        ensures next { IsNext result (left self.old) (left self.new) }
        ensures plan { self.new.plan ≡ self.old.plan }
    {
        while self.hole < self.plan.line.repeats {
            if let Some(found) = self.here() {
                self.index += 1;
                return Some(found);
            }
            self.leave_part();
        }
        None
    }
}
