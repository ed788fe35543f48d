ghost use Rattle.std.specs.Prelude.{◌≡◌};
ghost use Rattle.ngc_fixed_length.specs.Length.{IsStep};
ghost use Rattle.ngc_certificate.specs.Shared.{shared_of};

use crate::derived::whole_box;
use ngc_arc_geometry::GridArc;
use ngc_commands::Way;
use ngc_fixed_length::{GridBox, Nm};

/// The value that the pieces of a motion share, so that it is computed once.
#[derive(Drop)]
pub(crate) enum Shared {
    /// The box of a motion in one piece.
    Whole(GridBox),
    /// An arc that is cut into several pieces.
    Cut(GridArc),
}

impl Shared {
    /// Returns the value that the pieces of a motion share, for several pieces or one.
    pub(crate) fn of(step: Nm, way: &Way, several: bool) -> Shared
        requires { IsStep step }
        ensures { result ≡ shared_of step way.now several }
    {
        match way {
            Way::Arc(arc) if several => Shared::Cut(GridArc::new(*arc, step)),
            Way::Arc(_) | Way::Line { .. } => Shared::Whole(whole_box(step, way)),
        }
    }
}
