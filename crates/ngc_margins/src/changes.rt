ghost use Rattle.std.specs.Prelude.{◌≡◌};
ghost use Rattle.ngc_machine_files.specs.Machine.{file_of};
ghost use Rattle.ngc_machine_files.specs.Refusals.{FileResultIs};
ghost use Rattle.ngc_margins.specs.Changes.{changed, no_changes};

use crate::demands::Demands;
use ngc_added_boxes::Boxes;
use ngc_machine_files::{FileFault, Machine};
use ngc_origins::Origins;
use std::alloc::Allocator;

/// What the options of a call replace in a machine file, and what they add to it.
#[derive(Clone, Copy)]
pub struct Changes {
    /// The origins that replace those of the machine file.
    pub origins: Origins,
    /// The fixtures that are added, and the block of material that replaces that of the machine file.
    pub boxes: Boxes,
    /// The margins and the way of traverses that replace those of the machine file.
    pub demands: Demands,
}

impl Changes {
    /// Returns no changes: all keys of the machine file stay.
    pub fn none() -> Changes
        ensures { result ≡ no_changes }
    {
        Changes {
            origins: Origins::none(),
            boxes: Boxes::none(),
            demands: Demands::none(),
        }
    }

    /// Returns the machine of a call: with these values in place of its own, with the added fixtures,
    /// and with its margins kept.
    ///
    /// Returns 267 if there are over 256 fixtures or an added one is too far away; otherwise 265 if
    /// the start is outside the travel limits then; and otherwise 267 if a corner of a fixture is
    /// over 4*10^9 nm in size with the margin. Returns 900 if memory is refused.
    pub fn apply<A: Allocator>(&self, machine: Machine<A>) -> Result<Machine<A>, FileFault>
        ensures { FileResultIs file_of result (changed self.now (file_of machine)) }
    {
        match self.boxes.place(self.origins.place(machine)) {
            Ok(boxed) => self.demands.meet(boxed),
            Err(fault) => Err(fault),
        }
    }
}
