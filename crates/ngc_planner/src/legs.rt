//! The storage of a ramp's motions.
ghost use Rattle.std.specs.Prelude.{◌≡◌, ◌≢◌, ◌≤◌, ◌<◌, ◌++◌, ◌∷◌, [], length, drop, IfOk};
ghost use Rattle.std.specs.List.{All};
ghost use Rattle.ngc_braking.specs.Leg.{IsLeg};
ghost use Rattle.ngc_planner.specs.Queue.{Waiting};
ghost use Rattle.ngc_planner.specs.Ramp.{LEGS, MOST_LEGS};
ghost use Rattle.ngc_braking.specs.Work.{legs_beyond};

use crate::queue::Queue;
use arrayvec::ArrayVec;
use ngc_braking::{Leg, legs_beyond};
use std::alloc::{AllocError, Allocator};
use std::marker::Model;

/// Up to 16 motions in place, or a list in memory that may be longer.
#[derive(Drop)]
enum Store<A: Allocator> {
    Few(ArrayVec<Leg, 16>),
    Many(Queue<A>),
}

/// Waiting motions, in order.
#[derive(Drop)]
pub struct Legs<A: Allocator> {
    store: Store<A>,
}

impl<A: Allocator> Model for Legs<A> {
    ghost use Rattle.ngc_planner.specs.Queue.{Waiting};
    ghost use Rattle.ngc_planner.specs.Legs.{waiting_in};

    ghost Value = { Waiting };

    ghost view = { λ l. waiting_in l.store };
}

impl<A: Allocator + Copy> Legs<A> {
    /// Returns a store with capacity for `room` motions, 1 to 1,024. All memory is allocated here.
    pub fn many(alloc: A, room: usize) -> Result<Legs<A>, AllocError>
        requires some { 1 ≤ room }
        requires few { room ≤ MOST_LEGS }
        ensures { IfOk result (λ (l : Waiting). l ≡ record { legs = []; room = room }) }
    {
        let queue = Queue::new(alloc, room)?;
        Ok(Legs {
            store: Store::Many(queue),
        })
    }
}

impl<A: Allocator> Legs<A> {
    /// Returns a store with capacity for 16 motions. It allocates no memory.
    pub fn few() -> Legs<A>
        ensures { result ≡ record { legs = []; room = LEGS } }
    {
        Legs {
            store: Store::Few(ArrayVec::new()),
        }
    }

    /// Returns the motions.
    pub fn as_slice(&self) -> &[Leg]
        ensures { result.now ≡ self.now.legs }
    {
        match &self.store {
            Store::Few(legs) => legs.as_slice(),
            Store::Many(queue) => queue.as_slice(),
        }
    }

    /// Adds a motion after the others. The store must not be full.
    pub fn push(&mut self, leg: Leg)
        requires room { length self.old.legs < self.old.room }
        requires leg { IsLeg leg }
        ensures { self.new ≡ record self.old { legs = self.old.legs ++ leg ∷ [] } }
    {
        match &mut self.store {
            Store::Few(legs) => legs.push(leg),
            Store::Many(queue) => queue.push(leg),
        }
    }

    /// Removes the first motion. There must be one.
    pub fn leave(&mut self)
        requires { self.old.legs ≢ [] }
        ensures { self.new ≡ record self.old { legs = drop 1 self.old.legs } }
    {
        match &mut self.store {
            Store::Few(legs) => {
                legs.remove(0);
            }
            Store::Many(queue) => queue.leave(),
        }
    }

    /// Returns how much work beyond the end of the second motion braking may use, in 64 bits.
    pub fn beyond(&self) -> u64
        requires { All IsLeg self.now.legs }
        ensures { result ≡ legs_beyond self.now.legs }
    {
        match &self.store {
            Store::Few(legs) => legs_beyond(legs.as_slice()),
            Store::Many(queue) => queue.beyond(),
        }
    }
}
