//! The motions that were passed before a joint, in blocks, so that a joint need not look at each.
ghost use Rattle.std.specs.Prelude.{◌≡◌, ◌+◌, ◌*◌, ◌≤◌, ◌<◌, List, [], ◌∷◌, take, map, min};
ghost use Rattle.std.specs.Prelude.{IfOk};
ghost use Rattle.ngc_fixed_length.specs.Limits.{MILLION};
ghost use Rattle.ngc_machine_files.specs.Machine.{file_of};
ghost use Rattle.ngc_planner.specs.declared.trail.Mark.{Mark as TheMark};
ghost use Rattle.ngc_planner.specs.Headings.{IsHeading, differences, greater_differences};
ghost use Rattle.ngc_planner.specs.Joints.{rate_from, rate_from_all};
ghost use Rattle.ngc_planner.specs.Trail.{Passage, TrailData, passage_with, measured, passage_of};
ghost use Rattle.ngc_planner.specs.Trail.{IsBlock, Describes, IsMark, IsSameRate, LONGEST, BLOCK};
ghost use Rattle.ngc_planner.specs.Window.{passing_heading, way_on};

use crate::displacement::{AxisDifferences, Displacement};
use crate::window::{axes_lowered, axes_may_head, passing_heading, way_on};
use circular_buffer::HeapCircularBuffer;
use ngc_commands::Action;
use ngc_machine_files::Machine;
use std::alloc::{AllocError, Allocator};
use std::marker::Model;

/// The greatest number of motions in a block.
const BLOCK: usize = 32;

/// Motions that were passed one after another: their number, the distance along them in millionths
/// of a path step, and the extremes of their headings' coordinates.
#[derive(Clone, Copy)]
pub struct Block {
    pub count: usize,
    pub length: u64,
    pub least: Displacement,
    pub greatest: Displacement,
}

/// A motion that was passed: its heading at its end, the distance that it counts, and a block of it
/// and motions before it.
#[derive(Clone, Copy)]
pub struct Mark {
    pub heading: Displacement,
    pub length: u64,
    pub block: Block,
}

impl Block {
    // Returns the block of one motion.
    fn of(heading: &Displacement, length: u64) -> Block
        requires heading { IsHeading heading.now }
        requires length { length ≤ LONGEST }
        ensures block { IsBlock result }
        ensures describes { (ps : List Passage) →
            Describes result (record { heading = heading.now; length = length } ∷ ps) }
    {
        Block {
            count: 1,
            length,
            least: *heading,
            greatest: *heading,
        }
    }

    // Returns the block with one more motion, which was passed last. There must be room for it.
    fn with(&self, heading: &Displacement, length: u64) -> Block
        requires room { self.now.count < BLOCK }
        requires heading { IsHeading heading.now }
        requires length { length ≤ LONGEST }
        requires block { IsBlock self.now }
        ensures block { IsBlock result }
        ensures describes { (ps : List Passage) → Describes self.now ps →
            Describes result (record { heading = heading.now; length = length } ∷ ps) }
    {
        Block {
            count: self.count + 1,
            length: self.length + length,
            least: self.least.least_with(heading),
            greatest: self.greatest.greatest_with(heading),
        }
    }

    // Returns for each axis the greatest difference of a heading and one of the block, or more.
    fn differences(&self, next: &Displacement) -> AxisDifferences
        ensures { result ≡ greater_differences
            (differences self.now.least next.now) (differences self.now.greatest next.now) }
    {
        let least = self.least.differences(next);
        least.greater_with(self.greatest.differences(next))
    }
}

/// How far a look back along a trail has come: the rate as lowered so far, the distance in
/// millionths of a path step, and the number of motions.
#[derive(Clone, Copy)]
pub struct Look {
    pub rate: u64,
    pub way: u64,
    pub passed: usize,
}

impl Look {
    // Lowers the rate to one that may change into a heading from that of a motion, and goes past it.
    fn past_one<A: Allocator>(self, mark: &Mark, next: &Displacement, machine: &Machine<A>) -> Look
        requires next { IsHeading next.now }
        requires heading { IsHeading mark.now.heading }
        requires length { mark.now.length ≤ LONGEST }
        requires rate { self.rate ≤ MILLION }
        requires passed { self.passed ≤ 1022 }
        requires way { self.way ≤ (1 + self.passed) * LONGEST }
        ensures rate { result.rate ≡ min self.rate (rate_from (file_of machine.now) next.now
            (record { heading = mark.now.heading; way = self.way })) }
        ensures most { result.rate ≤ MILLION }
        ensures way { result.way ≡ self.way + mark.now.length }
        ensures passed { result.passed ≡ self.passed + 1 }
    {
        let differences = mark.heading.differences(next);
        Look {
            rate: axes_lowered(self.rate, machine, differences, self.way),
            way: self.way + mark.length,
            passed: self.passed + 1,
        }
    }

    // Goes past a block, if none of its headings lowers the rate. Otherwise lowers the rate to one
    // that may change into a heading from that of the nearest motion, and goes past this motion.
    fn past<A: Allocator>(self, mark: &Mark, next: &Displacement, machine: &Machine<A>) -> Look
        requires next { IsHeading next.now }
        requires heading { IsHeading mark.now.heading }
        requires length { mark.now.length ≤ LONGEST }
        requires block { IsBlock mark.now.block }
        requires rate { self.rate ≤ MILLION }
        requires passed { self.passed ≤ 1022 }
        requires way { self.way ≤ (1 + self.passed) * LONGEST }
        ensures same { (ms : List TheMark) → IsMark mark.now ms →
            IsSameRate (file_of machine.now) next.now self result (map passage_of (mark.now ∷ ms)) }
        ensures rate { result.rate ≤ MILLION }
        ensures more { self.passed < result.passed }
        ensures most { result.passed ≤ self.passed + BLOCK }
        ensures way { result.way ≤ (1 + result.passed) * LONGEST }
    {
        let block = &mark.block;
        let differences = block.differences(next);
        if axes_may_head(machine, differences, self.way, self.rate) {
            Look {
                rate: self.rate,
                way: self.way + block.length,
                passed: self.passed + block.count,
            }
        } else {
            self.past_one(mark, next, machine)
        }
    }
}

/// The motions that were passed before a joint, the nearest first. The farthest one is forgotten
/// when a window has no room for it.
#[derive(Drop)]
pub struct Trail<A: Allocator> {
    marks: HeapCircularBuffer<Mark, A>,
}

impl<A: Allocator> Model for Trail<A> {
    ghost use Rattle.std.specs.Prelude.{◌≤◌, length, map};
    ghost use Rattle.ngc_planner.specs.Trail.{TrailData, passage_of, IsTrail};

    ghost Value = { TrailData };

    ghost view = { λ t. record { passed = map passage_of t.marks.items; most = t.marks.capacity } };

    ghost invariant = { λ t. IsTrail t.marks.items ×
        (length t.marks.items ≤ t.marks.capacity) × (t.marks.capacity ≤ 1023) };
}

impl<A: Allocator> Trail<A> {
    /// Returns an empty trail with memory for `most` motions, at most 1,023.
    pub fn new(alloc: A, most: usize) -> Result<Trail<A>, AllocError>
        requires { most ≤ 1023 }
        ensures { IfOk result (λ (t : TrailData). t ≡ record { passed = []; most = most }) }
    {
        let marks = HeapCircularBuffer::with_capacity(alloc, most)?;
        Ok(Trail { marks })
    }

    // Returns the block of one more motion and of those before it.
    fn block_with(&self, heading: &Displacement, length: u64) -> Block
        requires heading { IsHeading heading.now }
        requires length { length ≤ LONGEST }
        ensures block { IsBlock result }
        ensures describes { Describes result
            (record { heading = heading.now; length = length } ∷ self.now.passed) }
    {
        match self.marks.front() {
            Some(mark) if mark.block.count < BLOCK => mark.block.with(heading, length),
            _ => Block::of(heading, length),
        }
    }

    /// Adds the motion that passes an action's end. If there is none, all motions are forgotten.
    pub fn pass<B: Allocator>(&mut self, action: &Action, machine: &Machine<B>)
        ensures { self.new ≡ record self.old {
          passed = take self.old.most
              (passage_with (passing_heading (file_of machine.now) action.now)
              (way_on (file_of machine.now) action.now) self.old.passed);
        } }
    {
        let Some(heading) = passing_heading(action, machine) else {
            self.marks.clear();
            return;
        };
        let length = way_on(action, machine);
        let block = self.block_with(&heading, length);
        self.marks.push_front(Mark {
            heading,
            length,
            block,
        });
    }

    /// Returns a rate, lowered to one that may change into a heading from that of each motion of
    /// the trail. The last one ended `way` millionths of a path step ago.
    pub fn lowered<B: Allocator>(
        &self,
        rate: u64,
        next: &Displacement,
        way: u64,
        machine: &Machine<B>,
    ) -> u64
        requires rate { rate ≤ MILLION }
        requires next { IsHeading next.now }
        requires way { way ≤ LONGEST }
        ensures value { result ≡ min rate
            (rate_from_all (file_of machine.now) next.now (measured way self.now.passed)) }
        ensures greatest { result ≤ MILLION }
    {
        let mut look = Look {
            rate,
            way,
            passed: 0,
        };
        while let Some(mark) = self.marks.nth_front(look.passed) {
            look = look.past(mark, next, machine);
        }
        look.rate
    }
}
