//! Traverses on a machine whose control may take any way within the box of their ends.
ghost use Rattle.std.specs.Prelude.{◌≡◌, ◌≤◌};
ghost use Rattle.ngc_machine_files.specs.Machine.{file_of};
ghost use Rattle.ngc_certificate.specs.Traverses.{are_free, takes_any_way as takes};
ghost use Rattle.ngc_certificate.specs.Traverses.{most_pieces as most_of};

use ngc_commands::Pace;
use ngc_machine_files::{Machine, Rapids};
use std::alloc::Allocator;

fn are_free(rapids: &Rapids) -> bool
    ensures { result ≡ are_free rapids.now }
{
    matches!(rapids, Rapids::Free)
}

/// Returns whether the control may take any way within the box of its ends to the end of a motion
/// with this pace: a traverse, if rapids are free.
pub fn takes_any_way<A: Allocator>(machine: &Machine<A>, pace: &Pace) -> bool
    ensures { result ≡ takes (file_of machine.now) pace.now }
{
    match pace {
        Pace::Rapid => are_free(&machine.rapids),
        Pace::Feed(_) => false,
    }
}

/// Returns the most pieces that a motion with this pace may have, if others have at most `most`: one
/// if the control may take any way to its end, since one box holds all ways. `most` is at least 1.
pub fn most_pieces<A: Allocator>(machine: &Machine<A>, most: u16, pace: &Pace) -> u16
    requires { 1 ≤ most }
    ensures value { result ≡ most_of (file_of machine.now) most pace.now }
    ensures some { 1 ≤ result }
{
    if takes_any_way(machine, pace) {
        1
    } else {
        most
    }
}
