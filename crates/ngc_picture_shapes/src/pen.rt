ghost use Rattle.std.specs.Prelude.{◌≡◌};
ghost use Rattle.ngc_picture_shapes.specs.Strokes.{ink_of, is_same_ink, after};

use crate::eye::Eye;
use crate::shape::Ink;
use crate::spot::Spot;
use crate::tools::{number_of, rank_of};
use ngc_commands::{Action, Pace};
use ngc_machine_files::Tool;

/// A path that is being drawn: its ink, and the spot that it has reached.
#[derive(Clone, Copy)]
pub struct Run {
    pub ink: Ink,
    pub at: Spot,
}

/// The rank of the mounted tool among those that are used, where its tip is seen, and the path that
/// is being drawn.
#[derive(Clone, Copy)]
pub struct Pen {
    pub rank: usize,
    pub eye: Eye,
    pub run: Option<Run>,
}

/// Returns the ink of a motion.
pub(crate) fn ink_of(rank: usize, pace: &Pace) -> Ink
    ensures { result ≡ ink_of rank pace.now }
{
    match pace {
        Pace::Rapid => Ink::Traverse(rank),
        Pace::Feed(_) => Ink::Feed(rank),
    }
}

impl Ink {
    pub(crate) fn is_same(&self, other: &Ink) -> bool
        ensures { result ≡ is_same_ink self.now other.now }
    {
        match (self, other) {
            (Ink::Feed(rank), Ink::Feed(other)) | (Ink::Traverse(rank), Ink::Traverse(other)) => {
                *rank == *other
            }
            _ => false,
        }
    }
}

impl Pen {
    /// Returns the pen after an action.
    pub fn after(&self, used: &[Option<Tool>], action: &Action) -> Pen
        ensures { result ≡ after used.now self.now action.now }
    {
        match action {
            Action::Move(motion) => Pen {
                rank: self.rank,
                eye: self.eye,
                run: Some(Run {
                    ink: ink_of(self.rank, &motion.pace),
                    at: self.eye.spot(&motion.way.end()),
                }),
            },
            Action::Mount(tool) => Pen {
                rank: rank_of(used, number_of(tool)),
                eye: Eye::of(self.eye.view, tool),
                run: self.run,
            },
            _ => *self,
        }
    }
}
