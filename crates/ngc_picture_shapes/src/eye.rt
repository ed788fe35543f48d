//! Where the tip of the mounted tool is seen.
ghost use Rattle.std.specs.Prelude.{◌≡◌};
ghost use Rattle.ngc_collision.specs.Inside.{place_of};
ghost use Rattle.ngc_picture_shapes.specs.Tools.{tip_of, eye_of};
ghost use Rattle.ngc_picture_shapes.specs.Views.{tip_at, tip_spot};

use crate::spot::Spot;
use crate::view::View;
use ngc_collision::Place;
use ngc_fixed_length::{Nm, Point3};
use ngc_machine_files::Tool;

/// The view of a path, and the height of the mounted tool's tip relative to the spindle nose.
#[derive(Clone, Copy)]
pub struct Eye {
    pub view: View,
    /// In nanometres, at most 0: the tip is below the nose.
    pub tip: Nm,
}

/// Returns the height of a tool's tip relative to the spindle nose. Without a tool the tip is the
/// nose.
fn tip_of(tool: &Option<Tool>) -> Nm
    ensures { result ≡ tip_of tool.now }
{
    match tool {
        None => Nm::zero(),
        Some(tool) => tool.bottom,
    }
}

impl Eye {
    /// Returns how a path is seen while this tool is mounted.
    pub fn of(view: View, tool: &Option<Tool>) -> Eye
        ensures { result ≡ eye_of view tool.now }
    {
        Eye {
            view,
            tip: tip_of(tool),
        }
    }

    /// Returns the place of the tip while the spindle nose is at a point.
    fn tip_at(&self, nose: &Point3) -> Place
        ensures { place_of result ≡ tip_at self.now.tip nose.now }
    {
        Place {
            x: nose.x.nanometres(),
            y: nose.y.nanometres(),
            z: nose.z.nanometres() + self.tip.nanometres(),
        }
    }

    /// Returns where the tip is seen while the spindle nose is at a point.
    pub fn spot(&self, nose: &Point3) -> Spot
        ensures { result ≡ tip_spot self.now nose.now }
    {
        self.view.sees(&self.tip_at(nose))
    }
}
