use crate::rolls::rolls;
use crate::spot::Spot;
use ngc_circle_walk::{Spoke, Wheel};

/// A plan of an arc's path over the grid of its plane: straight to a joint at the radius of its
/// end, onto the wheel, round with it, and straight to the end.
#[derive(Clone, Copy)]
pub(crate) struct Plan {
    pub start: Spot,
    pub joint: Spot,
    pub entry: Spot,
    pub end: Spot,
    /// The numbers of moves to the joint, to the entry, to the wheel's last point, and in all.
    pub joined: u32,
    pub entered: u32,
    pub rolled: u32,
    pub moves: u32,
    /// The wheel's first point about the centre, the length of its moves, and its limit.
    pub first: Spoke,
    pub step: u64,
    pub limit: u64,
}

impl Plan {
    ghost use Rattle.std.specs.Prelude.{◌≡◌, ℕ, ◌≤◌, ◌<◌};
    ghost use Rattle.ngc_circle_walk.specs.Rolling.{spoke_at};
    ghost use Rattle.ngc_circle_walk.specs.Wheel.{IsSmall};
    ghost use Rattle.ngc_circle_laws.specs.ArcWalk.{IsBeforeEnd};
    ghost use Rattle.ngc_step_kernel.specs.Course.{IsPlan, round_at};
    ghost use Rattle.ngc_step_kernel.specs.Plans.{IsRoundPlan, IsJointPlan, IsStraightPlan};
    ghost use Rattle.ngc_step_kernel.specs.Spots.{IsSpot, straight_moves};

    /// Returns the straight plan from start to end.
    pub(crate) fn straight(start: Spot, end: Spot, step: u64) -> Plan
        requires start { IsSpot start }
        requires end { IsSpot end }
        requires some { 0 < step }
        requires short { step ≤ 50000 }
        requires few { straight_moves start end ≤ 200000000 }
        ensures plan { IsPlan result }
        ensures straight { IsStraightPlan start end result }
        ensures start { result.start ≡ start }
        ensures end { result.end ≡ end }
    {
        Plan {
            start,
            joint: start,
            entry: start,
            end,
            joined: 0,
            entered: 0,
            rolled: 0,
            moves: start.moves_to(&end),
            first: Spoke::of(1, 0),
            step,
            limit: 1,
        }
    }

    /// Returns the plan straight to a joint, and straight from there to the end.
    pub(crate) fn through_joint(start: Spot, joint: Spot, end: Spot, step: u64) -> Plan
        requires start { IsSpot start }
        requires joint { IsSpot joint }
        requires end { IsSpot end }
        requires some { 0 < step }
        requires short { step ≤ 50000 }
        requires joins { straight_moves start joint ≤ 30000000 }
        requires ends { straight_moves joint end ≤ 30000000 }
        ensures plan { IsPlan result }
        ensures bent { IsJointPlan start joint end result }
        ensures start { result.start ≡ start }
        ensures end { result.end ≡ end }
    {
        let joined = start.moves_to(&joint);
        Plan {
            start,
            joint,
            entry: joint,
            end,
            joined,
            entered: joined,
            rolled: joined,
            moves: joined + joint.moves_to(&end),
            first: Spoke::of(1, 0),
            step,
            limit: 1,
        }
    }

    /// Returns the plan that passes a joint and an entry, and turns from there with a wheel until
    /// it reaches the end's direction, `quadrants` further on.
    pub(crate) fn round<W: Wheel + Drop>(
        start: Spot,
        joint: Spot,
        entry: Spot,
        end: Spot,
        first: Spoke,
        end_spoke: &Spoke,
        quadrants: u32,
        step: u64,
        limit: u64,
    ) -> Plan
        requires some { 0 < step }
        requires short { step ≤ 50000 }
        requires start { IsSpot start }
        requires joint { IsSpot joint }
        requires end { IsSpot end }
        requires end_spoke { IsSmall end_spoke.now }
        requires small { (k : ℕ) → IsSmall (spoke_at step limit first k) }
        requires range { (k : ℕ) → IsSpot (round_at step limit first entry k) }
        requires joins { straight_moves start joint ≤ 30000000 }
        requires enters { straight_moves joint entry ≤ 30000000 }
        requires ends { (k : ℕ) → straight_moves (round_at step limit first entry k) end
            ≤ 30000000 }
        requires before { IsBeforeEnd 0 quadrants first end_spoke.now }
        ensures plan { IsPlan result }
        ensures round { IsRoundPlan start joint entry end first end_spoke.now quadrants step
            limit result }
        ensures start { result.start ≡ start }
        ensures end { result.end ≡ end }
    {
        let (moves, last) = rolls::<W>(entry, first, end_spoke, quadrants, step, limit);
        let joined = start.moves_to(&joint);
        let entered = joined + joint.moves_to(&entry);
        let rolled = entered + moves;
        Plan {
            start,
            joint,
            entry,
            end,
            joined,
            entered,
            rolled,
            moves: rolled + last.moves_to(&end),
            first,
            step,
            limit,
        }
    }
}
