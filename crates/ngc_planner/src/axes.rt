ghost use Rattle.std.specs.Prelude.{◌≡◌};
ghost use Rattle.ngc_fixed_length.specs.Length.{IsStep};
ghost use Rattle.ngc_planner.specs.Axes.{differing, with_plane, axes_of, rate_where, least_rate};

use ngc_commands::Way;
use ngc_fixed_length::{Nm, Plane, StepPos};
use ngc_machine_files::AxisRates;

/// The axes that a motion may move.
#[derive(Clone, Copy)]
pub struct Axes {
    pub x: bool,
    pub y: bool,
    pub z: bool,
}

impl Axes {
    /// Returns the axes on which two grid points differ.
    fn differing(start: &StepPos, end: &StepPos) -> Axes
        ensures { result ≡ differing start.now end.now }
    {
        Axes {
            x: start.x.abs_diff(end.x) > 0,
            y: start.y.abs_diff(end.y) > 0,
            z: start.z.abs_diff(end.z) > 0,
        }
    }

    /// Returns these axes and the two of a plane.
    pub(crate) fn with_plane(self, plane: Plane) -> Axes
        ensures { result ≡ with_plane plane self }
    {
        match plane {
            Plane::XY => Axes {
                x: true,
                y: true,
                z: self.z,
            },
            Plane::ZX => Axes {
                x: true,
                y: self.y,
                z: true,
            },
            Plane::YZ => Axes {
                x: self.x,
                y: true,
                z: true,
            },
        }
    }
}

/// Returns the axes that a motion along a path may move: those on which the grid points of its ends
/// differ, and for an arc also the two of its plane.
pub(crate) fn axes_of(way: &Way, step: Nm) -> Axes
    requires { IsStep step }
    ensures { result ≡ axes_of step way.now }
{
    match way {
        Way::Line { start, end } => Axes::differing(&start.to_grid(step), &end.to_grid(step)),
        Way::Arc(arc) => Axes::differing(
            &arc.start().to_grid(step),
            &arc.end().to_grid(step),
        ).with_plane(arc.plane()),
    }
}

fn rate_where(moves: bool, rate: u32) -> u32
    ensures { result ≡ rate_where moves rate }
{
    if moves { rate } else { 1_000_000 }
}

/// Returns the least rate of these axes. If there are none, it returns 1,000,000, which no rate
/// exceeds.
pub(crate) fn least_rate(rates: &AxisRates, axes: Axes) -> u32
    ensures { result ≡ least_rate rates.now axes }
{
    let x = rate_where(axes.x, rates.x);
    let y = rate_where(axes.y, rates.y);
    let z = rate_where(axes.z, rates.z);
    x.min(y.min(z))
}
