//! The motions of a plan, with the pieces that are computed from the commands.
ghost use Rattle.std.specs.Prelude.{◌≡◌};
ghost use Rattle.ngc_fixed_length.specs.Length.{IsStep};
ghost use Rattle.ngc_certificate_text.specs.Certificate.{AreEntries};
ghost use Rattle.ngc_certificate.specs.Planned.{planned};

use crate::joiner::way_at;
use crate::plan::Plan;
use ngc_certificate_text::{MotionList, Piece};
use ngc_commands::Command;
use ngc_fixed_length::Nm;
use std::alloc::Allocator;

/// The motions of a plan for the commands of its setting.
#[derive(Drop)]
pub struct PlannedMotions<'a, A: Allocator> {
    pub(crate) plan: &'a Plan<A>,
    pub(crate) commands: &'a [Command],
    pub(crate) step: Nm,
    ghost are: { AreEntries (planned step commands.now plan.now) },
    ghost step_in_range: { IsStep step },
}

impl<A: Allocator> Plan<A> {
    ghost use Rattle.ngc_certificate.specs.PlannedBy.{planned_by};

    /// Returns the motions of the plan. The commands and the step are those for which it was made.
    pub fn motions<'a>(&'a self, commands: &'a [Command], step: Nm) -> PlannedMotions<'a, A>
        requires step { IsStep step }
        requires are { AreEntries (planned step commands.now self.now) }
        ensures { planned_by result ≡ planned step commands.now self.now }
    {
        PlannedMotions {
            plan: self,
            commands,
            step,
        }
    }
}

impl<A: Allocator> MotionList for PlannedMotions<'_, A> {
    ghost use Rattle.ngc_certificate.specs.PlannedBy.{planned_by};

    ghost entries = { λ m. planned_by m };

    fn count(&self) -> usize {
        self.plan.motions.len()
    }

    fn command_index(&self, i: usize) -> u32 {
        self.plan.motions[i].index
    }

    fn piece_count(&self, i: usize) -> usize {
        let planned = self.plan.motions[i];
        let way = way_at(self.commands, planned.index);
        planned.cutting.count(self.step, &way, &self.plan.arcs)
    }

    fn piece(&self, i: usize, k: usize) -> Piece {
        let planned = self.plan.motions[i];
        let way = way_at(self.commands, planned.index);
        planned.cutting.piece(self.step, &way, &self.plan.arcs, k)
    }
}
