ghost use Rattle.std.specs.Prelude.{◌≡◌, ◌≤◌, ◌+◌, ◌*◌, ◌++◌, ◌∷◌, [], false, unsigned_abs, int_lt};
ghost use Rattle.std.specs.Prelude.{pos, ◌+ℤ◌, ◌-ℤ◌, ◌*ℤ◌, ◌<ℤ◌};
ghost use Rattle.smallvec.specs.SmallVec.{HasRoomFor, small_vec_len};
ghost use Rattle.ngc_fixed_length.specs.Limits.{LENGTH_LIMIT, IsLength};
ghost use Rattle.ngc_canned_cycles.specs.Holes.{traverse_to, feed_to, peck_count as pecks_over};
ghost use Rattle.ngc_canned_cycles.specs.Holes.{peck_depth as depth_of, back_down};
ghost use Rattle.ngc_canned_cycles.specs.Holes.{peck as peck_moves, pecks, hole_moves};
ghost use Rattle.ngc_canned_cycles.specs.Refusals.{bad_peck};
ghost use Rattle.ngc_canned_cycles.specs.Moves.{approach, hole_limit};

use crate::cycle::{CycleMove, Hole, Site};
use crate::heights::{is_same, length, times};
use crate::refusals::peck_count;
use ngc_fixed_length::Nm;
use smallvec::SmallVec;
use std::alloc::Allocator;

/// Adds one move, for which there must be space.
pub(crate) fn add<A: Allocator>(moves: &mut SmallVec<CycleMove, 16, A>, move_on: CycleMove)
    requires { HasRoomFor moves.old 1 }
    ensures items { moves.new.items ≡ moves.old.items ++ move_on ∷ [] }
    ensures len { small_vec_len moves.new ≡ small_vec_len moves.old + 1 }
    ensures capacity { moves.new.capacity ≡ moves.old.capacity }
{
    moves.push_reserved(move_on);
}

// Returns the height to which the tool traverses back down between pecks.
fn back_height(depth: Nm) -> i128
    ensures value { result ≡ depth +ℤ pos 254000 }
    ensures bound { unsigned_abs result ≤ LENGTH_LIMIT + 254000 }
{
    i128::from(depth.nanometres()) + 254_000
}

impl Site {
    fn traverse(&self, height: Nm) -> CycleMove
        ensures { result ≡ traverse_to self.now height }
    {
        CycleMove::Traverse(self.place.at_height(self.plane, height))
    }

    fn feed(&self, height: Nm) -> CycleMove
        ensures { result ≡ feed_to self.now height }
    {
        CycleMove::Feed(self.place.at_height(self.plane, height))
    }

    // Returns the height of `index` pecks below R.
    fn height_of_peck(&self, peck: Nm, index: u64) -> i128
        requires { pos 0 <ℤ peck }
        ensures value { result ≡ self.now.retract -ℤ (pos index *ℤ peck) }
        ensures length { IsLength self.now.retract }
    {
        i128::from(self.retract.nanometres()) - times(index, peck)
    }

    // Returns the height that a peck reaches; pecks are counted from 1.
    fn peck_depth(&self, peck: Nm, index: u64) -> Nm
        requires { pos 0 <ℤ peck }
        ensures { result ≡ depth_of self.now peck index }
    {
        let reached = self.height_of_peck(peck, index);
        if i128::from(self.bottom.nanometres()) < reached {
            length(reached)
        } else {
            self.bottom
        }
    }

    // Returns whether the tool traverses back down before it feeds on.
    fn goes_back_down(&self, depth: Nm) -> bool
        ensures value { result ≡ int_lt (depth +ℤ pos 254000) self.now.retract }
        ensures length { IsLength self.now.retract }
    {
        back_height(depth) < i128::from(self.retract.nanometres())
    }

    // Adds the traverse to 254,000 nm above the last depth, unless that is at or above R.
    fn add_way_down<A: Allocator>(&self, moves: &mut SmallVec<CycleMove, 16, A>, depth: Nm)
        requires { HasRoomFor moves.old 1 }
        ensures items { moves.new.items ≡ moves.old.items ++ back_down self.now depth }
        ensures len { small_vec_len moves.new ≤ small_vec_len moves.old + 1 }
        ensures capacity { moves.new.capacity ≡ moves.old.capacity }
    {
        if self.goes_back_down(depth) {
            let back = length(back_height(depth));
            add(moves, self.traverse(back));
        }
    }

    // Adds a peck, counted from 1, and after each peck but the last the moves to R and back.
    fn add_peck<A: Allocator>(
        &self,
        moves: &mut SmallVec<CycleMove, 16, A>,
        peck: Nm,
        count: u64,
        index: u64,
    )
        requires positive { pos 0 <ℤ peck }
        requires room { HasRoomFor moves.old 3 }
        ensures items { moves.new.items ≡ moves.old.items ++ peck_moves self.now peck count index }
        ensures len { small_vec_len moves.new ≤ small_vec_len moves.old + 3 }
        ensures capacity { moves.new.capacity ≡ moves.old.capacity }
    {
        let depth = self.peck_depth(peck, index);
        add(moves, self.feed(depth));
        if index < count {
            add(moves, self.traverse(self.retract));
            self.add_way_down(moves, depth);
        }
    }

    fn add_pecks<A: Allocator>(&self, moves: &mut SmallVec<CycleMove, 16, A>, peck: Nm, count: u64)
        requires positive { pos 0 <ℤ peck }
        requires few { count ≤ 10000 }
        requires room { HasRoomFor moves.old (3 * count) }
        ensures items { moves.new.items ≡ moves.old.items ++ pecks self.now peck count }
        ensures len { small_vec_len moves.new ≤ small_vec_len moves.old + 3 * count }
        ensures capacity { moves.new.capacity ≡ moves.old.capacity }
    {
        for index in 0..count {
            self.add_peck(moves, peck, count, index + 1);
        }
    }

    // Returns the distance from the bottom up to R, in nanometres.
    fn way(&self) -> i128
        ensures value { result ≡ self.now.retract -ℤ self.now.bottom }
        ensures bound { unsigned_abs result ≤ 200000000000 }
    {
        i128::from(self.retract.nanometres() - self.bottom.nanometres())
    }

    // Returns the number of pecks that reach the bottom.
    fn peck_count(&self, peck: Nm) -> u64
        requires { bad_peck (Hole.Peck peck) (self.now.retract -ℤ self.now.bottom) ≡ false }
        ensures value { result ≡ pecks_over (self.now.retract -ℤ self.now.bottom)
            (unsigned_abs peck) }
        ensures few { result ≤ 10000 }
        ensures positive { pos 0 <ℤ peck }
    {
        peck_count(self.way(), peck.nanometres().unsigned_abs())
    }

    /// Returns the greatest number of moves for a hole.
    pub(crate) fn hole_limit(&self, hole: &Hole) -> usize
        requires { bad_peck hole.now (self.now.retract -ℤ self.now.bottom) ≡ false }
        ensures { result ≡ hole_limit hole.now (self.now.retract -ℤ self.now.bottom) }
    {
        match hole {
            Hole::Peck(peck) => 3 * self.peck_count(*peck) as usize + 1,
            _ => 5,
        }
    }

    /// Adds the moves of a hole.
    pub(crate) fn add_hole<A: Allocator>(&self, moves: &mut SmallVec<CycleMove, 16, A>, hole: &Hole)
        requires peck { bad_peck hole.now (self.now.retract -ℤ self.now.bottom) ≡ false }
        requires room { HasRoomFor moves.old
            (hole_limit hole.now (self.now.retract -ℤ self.now.bottom)) }
        ensures { moves.new.items ≡ moves.old.items ++ hole_moves hole.now self.now }
    {
        match hole {
            Hole::Drill => {
                add(moves, self.feed(self.bottom));
                add(moves, self.traverse(self.clear));
            }
            Hole::DrillWithDwell(dwell) => {
                add(moves, self.feed(self.bottom));
                add(moves, CycleMove::Dwell(*dwell));
                add(moves, self.traverse(self.clear));
            }
            Hole::Peck(peck) => {
                let count = self.peck_count(*peck);
                self.add_pecks(moves, *peck, count);
                add(moves, self.traverse(self.clear));
            }
            Hole::Bore => {
                add(moves, self.feed(self.bottom));
                add(moves, self.feed(self.clear));
            }
            Hole::BoreWithStop(dwell) => {
                add(moves, self.feed(self.bottom));
                add(moves, CycleMove::Dwell(*dwell));
                add(moves, CycleMove::StopSpindle);
                add(moves, self.traverse(self.clear));
                add(moves, CycleMove::StartSpindle);
            }
            Hole::BoreWithDwell(dwell) => {
                add(moves, self.feed(self.bottom));
                add(moves, CycleMove::Dwell(*dwell));
                add(moves, self.feed(self.clear));
            }
        }
    }

    /// Adds the move to the place of the hole at the height `arrival`, and the move to R unless the
    /// tool is there already.
    pub(crate) fn add_approach<A: Allocator>(
        &self,
        moves: &mut SmallVec<CycleMove, 16, A>,
        arrival: Nm,
    )
        requires { HasRoomFor moves.old 2 }
        ensures items { moves.new.items ≡ moves.old.items ++ approach self.now arrival }
        ensures len { small_vec_len moves.new ≤ small_vec_len moves.old + 2 }
        ensures capacity { moves.new.capacity ≡ moves.old.capacity }
    {
        add(moves, self.traverse(arrival));
        if !is_same(arrival, self.retract) {
            add(moves, self.traverse(self.retract));
        }
    }
}
