//! The commands that are loaded and not done.
ghost use Rattle.std.specs.Prelude.{◌≡◌, ◌≤◌, ◌<◌, ◌++◌, ◌∷◌, [], length, drop, true, IsTrue};
ghost use Rattle.std.specs.Prelude.{◌↔◌, suc, IfOk, option_copied};
ghost use Rattle.ngc_planner.specs.Ramp.{MOST_LEGS};
ghost use Rattle.ngc_controller.specs.Loaded.{next_place};
ghost use Rattle.ngc_controller.specs.Ring.{RingData, IsMoving, IsPointOn, HasNext, head_of};

use crate::route::Loaded;
use circular_buffer::HeapCircularBuffer;
use ngc_fixed_length::StepPos;
use ngc_step_kernel::ArcKernel;
use std::alloc::{AllocError, Allocator};
use std::marker::Model;

/// A ring of commands; its memory limits their number. The head is stored separately, so that a
/// tick finds it at once.
#[derive(Drop)]
pub struct Ring<K: ArcKernel + Drop, A: Allocator> {
    head: Option<Loaded<K>>,
    afterwards: HeapCircularBuffer<Loaded<K>, A>,
}

impl<K: ArcKernel + Drop, A: Allocator> Model for Ring<K, A> {
    ghost use Rattle.ngc_controller.specs.Ring.{RingData, queue_of, place_at, IsRing};
    ghost use Rattle.std.specs.Prelude.{suc};

    ghost Value = { RingData };

    ghost view = { λ r. record {
      loaded = queue_of r.head r.afterwards.items;
      place = place_at r.head;
      room = suc r.afterwards.capacity;
    } };

    ghost invariant = { λ r. IsRing r.head r.afterwards.items r.afterwards.capacity };
}

// Adds a command after others, if there is capacity.
fn put<K: ArcKernel + Drop, A: Allocator>(
    afterwards: &mut HeapCircularBuffer<Loaded<K>, A>,
    loaded: Loaded<K>,
)
    requires { length afterwards.old.items < afterwards.old.capacity }
    ensures items { afterwards.new.items ≡ afterwards.old.items ++ loaded ∷ [] }
    ensures capacity { afterwards.new.capacity ≡ afterwards.old.capacity }
{
    afterwards.push_back(loaded);
}

impl<K: ArcKernel + Drop, A: Allocator> Ring<K, A> {
    /// Returns an empty ring for `room` commands, 1 to 1,024, with all its memory.
    pub fn new(alloc: A, room: usize) -> Result<Ring<K, A>, AllocError>
        requires some { 1 ≤ room }
        requires few { room ≤ MOST_LEGS }
        ensures { IfOk result
            (λ (r : RingData). r ≡ record { loaded = []; place = 0; room = room }) }
    {
        let afterwards = HeapCircularBuffer::with_capacity(alloc, room - 1)?;
        Ok(Ring {
            head: None,
            afterwards,
        })
    }

    /// Returns the number of loaded commands, including the head.
    pub fn len(&self) -> u32
        ensures value { result ≡ length self.now.loaded }
        ensures few { result ≤ self.now.room }
    {
        match self.head {
            Some(_) => 1 + self.afterwards.len() as u32,
            None => 0,
        }
    }

    /// Adds a command after the others. The ring must not be full.
    pub fn push(&mut self, loaded: Loaded<K>)
        requires room { length self.old.loaded < self.old.room }
        requires beginning { loaded.place ≡ 0 }
        ensures loaded { self.new.loaded ≡ self.old.loaded ++ loaded.queued ∷ [] }
        ensures place { self.new.place ≡ self.old.place }
        ensures room { self.new.room ≡ self.old.room }
    {
        if self.head.is_none() {
            self.head = Some(loaded);
        } else {
            put(&mut self.afterwards, loaded);
        }
    }

    /// Returns the command that is executed.
    pub fn head(&self) -> Option<&Loaded<K>>
        ensures { option_copied result ≡ head_of self.now.loaded self.now.place }
    {
        self.head.as_ref()
    }

    /// Returns whether the head is a motion with path steps.
    pub fn moves(&self) -> bool
        ensures { IsTrue result ↔ IsMoving self.now.loaded }
    {
        match &self.head {
            Some(head) => head.path_steps() > 0,
            None => false,
        }
    }

    /// Goes to the next point of the head's path, if it is due, and returns the current point. The
    /// head must be a motion with path steps.
    pub fn follow(&mut self, due: bool) -> StepPos
        requires moves { IsMoving self.old.loaded }
        requires room { due ≡ true → HasNext self.old.loaded self.old.place }
        ensures loaded { self.new.loaded ≡ self.old.loaded }
        ensures place { self.new.place ≡ next_place self.old.place due }
        ensures point { IsPointOn self.new.loaded self.new.place result }
        ensures room { self.new.room ≡ self.old.room }
    {
        let Some(head) = &mut self.head else {
            unreachable!();
        };
        head.follow(due)
    }

    /// Removes the head from the ring.
    pub fn leave(&mut self)
        ensures loaded { self.new.loaded ≡ drop 1 self.old.loaded }
        ensures place { self.new.place ≡ 0 }
        ensures room { self.new.room ≡ self.old.room }
    {
        self.head = self.afterwards.pop_front();
    }
}
