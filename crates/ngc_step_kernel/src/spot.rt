ghost use Rattle.std.specs.Prelude.{◌≡◌, ◌≤◌, unsigned_abs};
ghost use Rattle.ngc_step_kernel.specs.Spots.{axis_towards, roll_move, spot_towards, spot_moved};
ghost use Rattle.ngc_step_kernel.specs.Spots.{straight_moves, IsSpot};

use crate::moves::AxisMove;
use ngc_circle_walk::{Quadrant, Roll};

/// A grid point of a plane, in steps.
#[derive(Clone, Copy)]
pub(crate) struct Spot {
    pub u: i32,
    pub v: i32,
}

/// A move in a plane, by at most one step on each axis.
#[derive(Clone, Copy)]
pub(crate) struct PlaneMove {
    pub u: AxisMove,
    pub v: AxisMove,
}

/// Returns one step towards a coordinate, or none if the axis is there.
fn towards(at: i32, place: i32) -> AxisMove
    ensures { result ≡ axis_towards at place }
{
    if at < place {
        AxisMove::Forward
    } else if place < at {
        AxisMove::Back
    } else {
        AxisMove::Stay
    }
}

impl AxisMove {
    ghost use Rattle.ngc_step_kernel.specs.Spots.{opposite};

    pub(crate) fn opposite(self) -> AxisMove
        ensures { result ≡ opposite self }
    {
        match self {
            AxisMove::Back => AxisMove::Forward,
            AxisMove::Stay => AxisMove::Stay,
            AxisMove::Forward => AxisMove::Back,
        }
    }
}

impl PlaneMove {
    /// Returns a wheel's move as a move in the plane, from a point in this quadrant.
    pub(crate) fn of(roll: Roll, quadrant: Quadrant) -> PlaneMove
        ensures { result ≡ roll_move roll quadrant }
    {
        let (x, y) = match roll {
            Roll::Outward => (AxisMove::Stay, AxisMove::Forward),
            Roll::Diagonal => (AxisMove::Back, AxisMove::Forward),
            Roll::Inward | Roll::Over => (AxisMove::Back, AxisMove::Stay),
        };
        match quadrant {
            Quadrant::First => PlaneMove { u: x, v: y },
            Quadrant::Second => PlaneMove {
                u: y.opposite(),
                v: x,
            },
            Quadrant::Third => PlaneMove {
                u: x.opposite(),
                v: y.opposite(),
            },
            Quadrant::Fourth => PlaneMove {
                u: y,
                v: x.opposite(),
            },
        }
    }
}

impl Spot {
    pub(crate) fn towards(&self, place: &Spot) -> PlaneMove
        ensures { result ≡ spot_towards self.now place.now }
    {
        PlaneMove {
            u: towards(self.u, place.u),
            v: towards(self.v, place.v),
        }
    }

    pub(crate) fn moved(&self, m: PlaneMove) -> Spot
        requires { IsSpot self.now }
        ensures { result ≡ spot_moved self.now m }
    {
        Spot {
            u: self.u + m.u.steps(),
            v: self.v + m.v.steps(),
        }
    }

    /// Returns the number of moves straight to another point.
    pub(crate) fn moves_to(&self, place: &Spot) -> u32
        ensures { result ≡ straight_moves self.now place.now }
    {
        self.u.abs_diff(place.u).max(self.v.abs_diff(place.v))
    }
}
