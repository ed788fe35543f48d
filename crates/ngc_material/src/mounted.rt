//! The mounted tool between two commands, and the discs of its cutter.
ghost use Rattle.std.specs.Prelude.{◌≡◌, IfOk, OnOk};
ghost use Rattle.ngc_commands.specs.Reached.{after};
ghost use Rattle.ngc_stock.specs.Discs.{discs_in};

use crate::discs::discs_in;
use ngc_commands::{Action, Reached};
use ngc_file_figures::ToolLimits;
use ngc_stock::Cylinder;
use std::alloc::{AllocError, Allocator};

/// The mounted tool and the position of the axes, and the discs of the tool's cutter.
#[derive(Drop)]
pub(crate) struct Mounted<A: Allocator> {
    pub(crate) reached: Reached,
    pub(crate) discs: Vec<Cylinder, A>,
}

impl<A: Allocator + Copy> Mounted<A> {
    /// Returns a state with its discs. It fails if memory is refused.
    pub(crate) fn new(
        alloc: A,
        table: &[ToolLimits],
        reached: &Reached,
    ) -> Result<Mounted<A>, AllocError>
        ensures reached { IfOk result (λ m. m.reached ≡ reached.now) }
        ensures discs { IfOk result (λ m. m.discs.items ≡ discs_in table.now reached.now.tool) }
    {
        let discs = discs_in(alloc, table, &reached.tool)?;
        Ok(Mounted {
            reached: *reached,
            discs,
        })
    }

    /// Follows an action. The discs are made again at a tool change alone. It fails if memory is refused.
    pub(crate) fn advance(
        &mut self,
        alloc: A,
        table: &[ToolLimits],
        action: &Action,
    ) -> Result<(), AllocError>
        requires { self.old.discs.items ≡ discs_in table.now self.old.reached.tool }
        ensures reached { OnOk result (self.new.reached ≡ after self.old.reached action.now) }
        ensures discs { OnOk result (self.new.discs.items ≡ discs_in table.now self.new.reached.tool) }
    {
        self.reached = self.reached.after(action);
        if let Action::Mount(tool) = action {
            self.discs = discs_in(alloc, table, tool)?;
        }
        Ok(())
    }
}
