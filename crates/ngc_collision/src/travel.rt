ghost use Rattle.std.specs.Prelude.{◌≡◌};
ghost use Rattle.ngc_machine_files.specs.Machine.{file_of};
ghost use Rattle.ngc_collision.specs.Body.{is_in_travel};

use crate::solid::Place;
use ngc_fixed_length::GridBox;
use ngc_machine_files::Machine;
use std::alloc::Allocator;

/// Returns whether a box of grid points is within the travel limits, the limits included.
pub fn is_in_travel<A: Allocator>(machine: &Machine<A>, bounds: &GridBox) -> bool
    ensures { result ≡ is_in_travel (file_of machine.now) bounds.now }
{
    let low = Place::of(machine.step, &bounds.low);
    let high = Place::of(machine.step, &bounds.high);
    Place::at(&machine.low).is_below(&low) && high.is_below(&Place::at(&machine.high))
}
