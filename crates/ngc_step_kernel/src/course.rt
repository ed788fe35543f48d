use crate::moves::AxisMove;
use crate::plan::Plan;
use crate::spot::{PlaneMove, Spot};
use ngc_circle_walk::Wheel;

/// A position on an arc's path over the grid of its plane.
#[derive(Drop)]
pub(crate) struct Course<W> {
    pub plan: Plan,
    pub at: Spot,
    pub done: u32,
    pub wheel: W,
}

impl<W: Wheel + Drop> Course<W> {
    ghost use Rattle.std.specs.Prelude.{◌≡◌, ◌+◌, ◌<◌};
    ghost use Rattle.ngc_step_kernel.specs.Course.{IsPlan, IsCourseAt};
    ghost use Rattle.ngc_step_kernel.specs.Spots.{spot_moved};
    ghost use Rattle.ngc_step_kernel.specs.Round.{followed};
    ghost use Rattle.ngc_step_kernel.specs.declared.moves.AxisMove.TheVariants.{Forward};

    /// Returns the position at the beginning of a plan.
    pub(crate) fn new(plan: Plan) -> Course<W>
        requires { IsPlan plan }
        ensures plan { result.plan ≡ plan }
        ensures done { result.done ≡ 0 }
        ensures state { IsCourseAt result.plan result.done result.at (W.place result.wheel)
            (W.pace result.wheel) (W.rim result.wheel) }
    {
        Course {
            plan,
            at: plan.start,
            done: 0,
            wheel: W::new(plan.first, plan.step, plan.limit),
        }
    }

    pub(crate) fn advance(&mut self) -> PlaneMove
        requires state { IsCourseAt self.old.plan self.old.done self.old.at (W.place self.old.wheel)
            (W.pace self.old.wheel) (W.rim self.old.wheel) }
        requires room { self.old.done < self.old.plan.moves }
        ensures plan { self.new.plan ≡ self.old.plan }
        ensures done { self.new.done ≡ self.old.done + 1 }
        ensures state { IsCourseAt self.new.plan self.new.done self.new.at (W.place self.new.wheel)
            (W.pace self.new.wheel) (W.rim self.new.wheel) }
        ensures answer { self.new.at ≡ spot_moved self.old.at result }
    {
        let step = if self.done < self.plan.joined {
            self.at.towards(&self.plan.joint)
        } else if self.done < self.plan.entered {
            self.at.towards(&self.plan.entry)
        } else if self.done < self.plan.rolled {
            let quadrant = self.wheel.spoke().quadrant;
            PlaneMove::of(self.wheel.advance(), quadrant)
        } else {
            self.at.towards(&self.plan.end)
        };
        self.done += 1;
        self.at = self.at.moved(step);
        step
    }

    /// Makes one move if one is due.
    pub(crate) fn follow(&mut self, due: AxisMove) -> PlaneMove
        requires state { IsCourseAt self.old.plan self.old.done self.old.at (W.place self.old.wheel)
            (W.pace self.old.wheel) (W.rim self.old.wheel) }
        requires room { due ≡ Forward → self.old.done < self.old.plan.moves }
        ensures plan { self.new.plan ≡ self.old.plan }
        ensures done { self.new.done ≡ followed due self.old.done }
        ensures state { IsCourseAt self.new.plan self.new.done self.new.at (W.place self.new.wheel)
            (W.pace self.new.wheel) (W.rim self.new.wheel) }
        ensures answer { self.new.at ≡ spot_moved self.old.at result }
    {
        match due {
            AxisMove::Forward => self.advance(),
            AxisMove::Back | AxisMove::Stay => PlaneMove {
                u: AxisMove::Stay,
                v: AxisMove::Stay,
            },
        }
    }
}
