ghost use Rattle.std.specs.Prelude.{◌≡◌, ◌≢◌, ◌≤◌, ◌+◌, ◌++◌, Err, IfOk};
ghost use Rattle.smallvec.specs.SmallVec.{HasRoomFor, small_vec_len};
ghost use Rattle.ngc_canned_cycles.specs.Faults.{Gives};
ghost use Rattle.ngc_canned_cycles.specs.Heights.{site_of, retract_of, AreLengths};
ghost use Rattle.ngc_canned_cycles.specs.Moves.{first_rise, arrival as arrival_of};
ghost use Rattle.ngc_canned_cycles.specs.Moves.{expand as expanded, move_limit};
ghost use Rattle.ngc_canned_cycles.specs.Reach.{StaysInReach};

use crate::cycle::{Cycle, CycleMove, Site, Start};
use crate::fault::CycleFault;
use crate::heights::{higher, is_below};
use crate::holes::add;
use ngc_fixed_length::Nm;
use smallvec::SmallVec;
use std::alloc::Allocator;

impl Cycle {
    // Adds the rise to R, if the height before is below it. It belongs to the first repeat of a
    // line.
    fn add_first_rise<A: Allocator>(
        &self,
        moves: &mut SmallVec<CycleMove, 16, A>,
        start: &Start,
        retract: Nm,
        repeat: u16,
    )
        requires retract { retract ≡ retract_of self.now start.now }
        requires room { HasRoomFor moves.old 1 }
        ensures items { moves.new.items ≡ moves.old.items ++ first_rise self.now start.now repeat }
        ensures len { small_vec_len moves.new ≤ small_vec_len moves.old + 1 }
        ensures capacity { moves.new.capacity ≡ moves.old.capacity }
    {
        if repeat == 1 && is_below(start.place.height(self.plane), retract) {
            let place = start.place.in_plane(self.plane);
            add(
                moves,
                CycleMove::Traverse(place.at_height(self.plane, retract)),
            );
        }
    }

    // Returns the height at which a repeat reaches its place.
    fn arrival(&self, start: &Start, site: &Site, repeat: u16) -> Nm
        requires { site.now ≡ site_of self.now start.now repeat }
        ensures { result ≡ arrival_of self.now start.now repeat }
    {
        if repeat == 1 {
            higher(start.place.height(self.plane), site.retract)
        } else {
            site.clear
        }
    }
}

/// Returns the moves of a repeat, counted from 1; the first traverse to R belongs to repeat 1.
/// Returns the faults of `Cycle::check`, or `Memory`. NISTIR 6556, 3.5.16.
pub fn expand<A: Allocator + Copy>(
    alloc: A,
    cycle: &Cycle,
    start: &Start,
    repeat: u16,
) -> Result<SmallVec<CycleMove, 16, A>, CycleFault>
    requires { AreLengths cycle.now start.now repeat }
    ensures value { Gives (λ v. v.items) result (expanded cycle.now start.now repeat) }
    ensures room { move_limit cycle.now start.now ≤ 16 → result ≢ Err CycleFault.Memory }
    ensures reach { IfOk result (λ v. StaysInReach cycle.now start.now repeat v.items) }
{
    let mut moves = SmallVec::new(alloc);
    fill(&mut moves, cycle, start, repeat)?;
    Ok(moves)
}

/// Does the same as `expand` in space that exists already, for a caller that makes all repeats. The
/// moves replace the contents of `moves`. After a refusal it may hold anything.
pub fn fill<A: Allocator + Copy>(
    moves: &mut SmallVec<CycleMove, 16, A>,
    cycle: &Cycle,
    start: &Start,
    repeat: u16,
) -> Result<(), CycleFault>
    requires { AreLengths cycle.now start.now repeat }
    ensures value { Gives (λ _. moves.new.items) result (expanded cycle.now start.now repeat) }
    ensures room { move_limit cycle.now start.now ≤ 16 → result ≢ Err CycleFault.Memory }
    ensures reach { IfOk result (λ _. StaysInReach cycle.now start.now repeat moves.new.items) }
{
    cycle.check(start)?;
    let site = cycle.site(start, repeat);
    moves.clear();
    // This call tells the proof that there is space inline.
    let _capacity = moves.capacity();
    if moves.reserve(3 + site.hole_limit(&cycle.hole)).is_err() {
        return Err(CycleFault::Memory);
    }
    cycle.add_first_rise(moves, start, site.retract, repeat);
    site.add_approach(moves, cycle.arrival(start, &site, repeat));
    site.add_hole(moves, &cycle.hole);
    Ok(())
}
