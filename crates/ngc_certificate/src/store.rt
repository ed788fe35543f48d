//! Stores for the motions that the maker cuts.
ghost use Rattle.std.specs.Prelude.{◌≡◌, ◌<◌, ◌++◌, ◌∷◌, [], ℤ, List, Some, OnOk, length};
ghost use Rattle.ngc_commands.specs.declared.command.Command.{Command};
ghost use Rattle.ngc_fixed_length.specs.Length.{IsStep};
ghost use Rattle.ngc_certificate_text.specs.Certificate.{Entry, AreEntries, IsEntry, MOTION_LIMIT};
ghost use Rattle.ngc_certificate.specs.Common.{way_at};
ghost use Rattle.ngc_certificate.specs.Planned.{IsDividedIfLine};

use ngc_certificate_text::{Motions, Piece};
use ngc_commands::{Command, Way};
use ngc_fixed_length::Nm;
use std::alloc::{AllocError, Allocator};

/// A store to which the motions of a setting are added in order, each with its pieces.
pub(crate) trait MotionStore {
    /// The motions so far, for commands and a step.
    ghost entries: { Self → ℤ → List Command → List Entry };

    /// Adds the motion of the command with this index. If memory is refused, the store is not used
    /// again.
    fn add(
        &mut self,
        step: Nm,
        commands: &[Command],
        index: u32,
        way: &Way,
        pieces: &[Piece],
    ) -> Result<(), AllocError>
        requires step { IsStep step }
        requires way { way_at commands.now index ≡ Some way.now }
        requires divided { IsDividedIfLine step way.now pieces.now }
        requires entry { IsEntry (record { index = index; pieces = pieces.now }) }
        requires are { AreEntries (entries self.old step commands.now) }
        requires room { length (entries self.old step commands.now) < MOTION_LIMIT }
        ensures { OnOk result (entries self.new step commands.now
            ≡ entries self.old step commands.now
            ++ (record { index = index; pieces = pieces.now } ∷ [])) };
}

impl<A: Allocator> MotionStore for Motions<A> {
    ghost entries = { λ m step commands. m };

    fn add(
        &mut self,
        _step: Nm,
        _commands: &[Command],
        index: u32,
        _way: &Way,
        pieces: &[Piece],
    ) -> Result<(), AllocError> {
        self.push(index, pieces)
    }
}
