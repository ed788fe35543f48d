ghost use Rattle.std.specs.Prelude.{◌≡◌};
ghost use Rattle.ngc_machine_files.specs.Machine.{file_of};
ghost use Rattle.ngc_collision.specs.Body.{first_met};

use crate::solid::{Solid, are_apart};
use ngc_fixed_length::GridBox;
use ngc_machine_files::{Machine, Tool};
use std::alloc::Allocator;

/// Returns the lowest number of a fixture, counted from 0, that any part of the tool meets while
/// its spindle nose moves over a box of grid points. Returns `None` if each part clears all
/// fixtures. Without a tool it tests the spindle nose itself. A part may touch a fixture.
pub fn first_met<A: Allocator>(
    machine: &Machine<A>,
    tool: Option<Tool>,
    bounds: &GridBox,
) -> Option<u32>
    ensures { result ≡ first_met (file_of machine.now) tool bounds.now }
{
    let parts = Solid::swept(machine.step, tool, bounds);
    for (i, fixture) in machine.fixtures.iter().enumerate() {
        if !are_apart(parts.as_slice(), fixture) {
            return Some(i as u32);
        }
    }
    None
}
