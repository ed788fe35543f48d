//! How much work beyond the end of the second motion braking may use, updated from load to load.
ghost use Rattle.std.specs.Prelude.{◌≡◌, ◌≤◌, ◌++◌, ◌∷◌, List, [], length, reverse};
ghost use Rattle.std.specs.Prelude.{vec_capacity, IfOk};
ghost use Rattle.std.specs.List.{All};
ghost use Rattle.ngc_braking.specs.declared.leg.Leg.{Leg as TheLeg};
ghost use Rattle.ngc_braking.specs.Leg.{IsLeg};
ghost use Rattle.ngc_braking.specs.Outlook.{none, with_leg, followed, IsOutlook};
ghost use Rattle.ngc_braking.specs.Work.{legs_beyond};

use crate::leg::Leg;
use crate::stretch::{joint_slack, leg_work};
use std::alloc::{AllocError, Allocator};

/// How much work braking may use on some motions: the least over their joints, and their whole work,
/// each limited to 64 bits.
#[derive(Clone, Copy)]
pub struct Allowance {
    pub least: u64,
    pub total: u64,
}

impl Allowance {
    // The allowance of no motions.
    const NONE: Allowance = Allowance {
        least: u64::MAX,
        total: 0,
    };

    // Returns the allowance with one more motion in front, which follows the motion `before`.
    fn with_leg(self, before: &Leg, leg: &Leg) -> Allowance
        requires before { IsLeg before.now }
        requires leg { IsLeg leg.now }
        ensures { result ≡ with_leg before.now.change before.now.exit leg.now self }
    {
        let work = leg_work(before, leg);
        let least = work.saturating_add(self.least);
        Allowance {
            least: least.min(joint_slack(before, leg)),
            total: work.saturating_add(self.total),
        }
    }

    // Returns the allowance of these motions followed by others.
    fn followed(self, far: Allowance) -> Allowance
        ensures { result ≡ followed self far }
    {
        Allowance {
            least: self.least.min(self.total.saturating_add(far.least)),
            total: self.total.saturating_add(far.total),
        }
    }
}

/// A summary of the motions after the second one, so that neither a load nor the end of a motion
/// goes through all of them. For each nearer motion it stores the allowance from that motion to the
/// last nearer one, with the first one last. For the farther ones it stores one allowance. When no
/// nearer ones remain, the farther ones take their place.
#[derive(Drop)]
pub struct Outlook<A: Allocator> {
    pub near: Allowance,
    pub later: Vec<Allowance, A>,
    pub far: Allowance,
}

// Makes all motions after the second one nearer ones.
fn foresee<A: Allocator>(legs: &[Leg], later: &mut Vec<Allowance, A>) -> Allowance
    requires each { All IsLeg legs.now }
    requires none { later.old.items ≡ [] }
    requires memory { length legs.now ≤ vec_capacity later.old }
    ensures foresees { IsOutlook legs.now result (reverse later.new.items) none }
    ensures capacity { vec_capacity later.new ≡ vec_capacity later.old }
{
    let mut near = Allowance::NONE;
    let mut index = legs.len();
    while index > 2 {
        index -= 1;
        let Some(before) = legs.get(index - 1) else {
            unreachable!();
        };
        let Some(leg) = legs.get(index) else {
            unreachable!();
        };
        later.push_reserved(near);
        near = near.with_leg(before, leg);
    }
    near
}

impl<A: Allocator> Outlook<A> {
    /// Returns the outlook of no motions, with memory for `room` motions.
    pub fn new(alloc: A, room: usize) -> Result<Outlook<A>, AllocError>
        ensures { IfOk result (λ o. (vec_capacity o.later ≡ room) ×
            IsOutlook [] o.near (reverse o.later.items) o.far) }
    {
        let later = Vec::with_capacity(alloc, room)?;
        Ok(Outlook {
            near: Allowance::NONE,
            later,
            far: Allowance::NONE,
        })
    }

    /// Adds a motion, after these.
    pub fn add(&mut self, legs: &[Leg], leg: &Leg)
        requires each { All IsLeg legs.now }
        requires leg { IsLeg leg.now }
        requires was { IsOutlook legs.now self.old.near (reverse self.old.later.items) self.old.far }
        ensures is { IsOutlook (legs.now ++ leg.now ∷ []) self.new.near
            (reverse self.new.later.items) self.new.far }
        ensures capacity { vec_capacity self.new.later ≡ vec_capacity self.old.later }
    {
        if legs.len() >= 2 {
            let Some(before) = legs.get(legs.len() - 1) else {
                unreachable!();
            };
            let added = Allowance::NONE.with_leg(before, leg);
            self.far = self.far.followed(added);
        }
    }

    /// Removes the first motion; these are the others.
    pub fn leave(&mut self, legs: &[Leg])
        requires each { All IsLeg legs.now }
        requires was { (head : TheLeg) × IsOutlook (head ∷ legs.now) self.old.near
            (reverse self.old.later.items) self.old.far }
        requires memory { length legs.now ≤ vec_capacity self.old.later }
        ensures is { IsOutlook legs.now self.new.near (reverse self.new.later.items) self.new.far }
        ensures capacity { vec_capacity self.new.later ≡ vec_capacity self.old.later }
    {
        match self.later.pop() {
            Some(next) => self.near = next,
            None => {
                self.near = foresee(legs, &mut self.later);
                self.far = Allowance::NONE;
            }
        }
    }

    /// Returns how much work beyond the end of the second motion braking may use, in 64 bits.
    pub fn beyond(&self) -> u64
        ensures { (legs : List TheLeg) → IsOutlook legs self.now.near
            (reverse self.now.later.items) self.now.far → result ≡ legs_beyond legs }
    {
        let all = self.near.followed(self.far);
        all.least.min(all.total)
    }
}
