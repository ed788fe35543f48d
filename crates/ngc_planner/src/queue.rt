//! Motions in memory that is allocated once.
ghost use Rattle.std.specs.Prelude.{◌≡◌, ◌≢◌, ◌-◌, ◌*◌, ◌≤◌, ◌<◌, ◌++◌, ◌∷◌, [], length, drop};
ghost use Rattle.std.specs.Prelude.{vec_len, vec_capacity, IfOk};
ghost use Rattle.ngc_braking.specs.Leg.{IsLeg};
ghost use Rattle.ngc_planner.specs.Queue.{Waiting};
ghost use Rattle.ngc_planner.specs.Ramp.{MOST_LEGS};
ghost use Rattle.ngc_braking.specs.Work.{legs_beyond};

use ngc_braking::{Leg, Outlook};
use std::alloc::{AllocError, Allocator};
use std::marker::Model;

/// Waiting motions, in order. A motion that leaves stays in its slot until the slots are full; then
/// the others are moved to the front. So the cost of loads and leaves does not depend on the number
/// of waiting motions.
#[derive(Drop)]
pub struct Queue<A: Allocator> {
    first: usize,
    room: usize,
    slots: Vec<Leg, A>,
    outlook: Outlook<A>,
}

impl<A: Allocator> Model for Queue<A> {
    ghost use Rattle.ngc_planner.specs.Queue.{Waiting, IsQueue};
    ghost use Rattle.std.specs.Prelude.{drop, vec_capacity};

    ghost Value = { Waiting };

    ghost view = { λ q. record {
      legs = drop q.first q.slots.items;
      room = q.room;
    } };

    ghost invariant = { λ q. IsQueue q.first q.room q.slots.items
        (vec_capacity q.slots) q.outlook };
}

// Returns the motions in the slots from the first one on.
fn waiting<A: Allocator>(slots: &Vec<Leg, A>, first: usize) -> &[Leg]
    requires { first ≤ length slots.now.items }
    ensures { result.now ≡ drop first slots.now.items }
{
    &slots.as_slice()[first..]
}

// Moves the waiting motions to the front, over the slots of those that left.
fn move_to_front<A: Allocator>(slots: &mut Vec<Leg, A>, first: usize)
    requires { first ≤ length slots.old.items }
    ensures items { slots.new.items ≡ drop first slots.old.items }
    ensures len { vec_len slots.new ≡ vec_len slots.old - first }
    ensures capacity { vec_capacity slots.new ≡ vec_capacity slots.old }
{
    let len = slots.len();
    slots.as_mut_slice().copy_within(first..len, 0);
    slots.truncate(len - first);
}

impl<A: Allocator + Copy> Queue<A> {
    /// Returns an empty queue with all its memory, for `room` motions, 1 to 1,024.
    pub fn new(alloc: A, room: usize) -> Result<Queue<A>, AllocError>
        requires some { 1 ≤ room }
        requires few { room ≤ MOST_LEGS }
        ensures { IfOk result (λ (q : Waiting). q ≡ record { legs = []; room = room }) }
    {
        let slots = Vec::with_capacity(alloc, 2 * room)?;
        let outlook = Outlook::new(alloc, room)?;
        Ok(Queue {
            first: 0,
            room,
            slots,
            outlook,
        })
    }
}

impl<A: Allocator> Queue<A> {
    /// Returns the motions.
    pub fn as_slice(&self) -> &[Leg]
        ensures { result.now ≡ self.now.legs }
    {
        waiting(&self.slots, self.first)
    }

    /// Adds a motion after the others. The queue must not be full.
    pub fn push(&mut self, leg: Leg)
        requires room { length self.old.legs < self.old.room }
        requires leg { IsLeg leg }
        ensures { self.new ≡ record self.old { legs = self.old.legs ++ leg ∷ [] } }
    {
        self.outlook.add(waiting(&self.slots, self.first), &leg);
        if self.slots.len() >= 2 * self.room {
            move_to_front(&mut self.slots, self.first);
            self.first = 0;
        }
        self.slots.push_reserved(leg);
    }

    /// Removes the first motion. There must be one.
    pub fn leave(&mut self)
        requires { self.old.legs ≢ [] }
        ensures { self.new ≡ record self.old { legs = drop 1 self.old.legs } }
    {
        self.first += 1;
        self.outlook.leave(waiting(&self.slots, self.first));
    }

    /// Returns how much work beyond the end of the second motion braking may use, in 64 bits.
    pub fn beyond(&self) -> u64
        ensures { result ≡ legs_beyond self.now.legs }
    {
        self.outlook.beyond()
    }
}
