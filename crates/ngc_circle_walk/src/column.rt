use crate::spoke::{Roll, Spoke};
use crate::wheel::Wheel;
use ngc_fixed_length::root_floor;
use std::marker::Model;

/// A column of points: the coordinate `at` along one axis, and how far the limit extends along the
/// other axis there.
#[derive(Clone, Copy)]
struct Column {
    at: u64,
    reach: u64,
}

/// A wheel that finds, with a root, how far the limit extends in the column of the point's greater
/// coordinate. It keeps that value as long as the point stays in the column.
#[derive(Drop)]
pub struct ColumnWheel {
    spoke: Spoke,
    step: u64,
    limit: u64,
    column: Column,
}

impl Model for ColumnWheel {
    ghost use Rattle.ngc_circle_walk.specs.Turning.{Turning};

    ghost Value = { Turning };

    ghost use Rattle.ngc_circle_walk.specs.Turning.{column_turning, IsColumnWheel};

    ghost view = { column_turning };

    ghost invariant = { IsColumnWheel };
}

impl Column {
    ghost use Rattle.std.specs.Prelude.{◌≡◌, ◌≤◌, ◌*◌, ◌+◌, nat_le};
    ghost use Rattle.ngc_circle_walk.specs.Wheel.{square};
    ghost use Rattle.ngc_circle_walk.specs.Turning.{IsColumn};

    /// Returns the column at a coordinate. It computes a root.
    fn of(at: u64, limit: u64) -> Column
        requires { at * at ≤ limit }
        ensures at { result.at ≡ at }
        ensures column { IsColumn limit result.at result.reach }
    {
        Column {
            at,
            reach: root_floor(u128::from(limit - at * at)),
        }
    }

    /// Returns whether a point is within the limit. It computes a root if the point is in another
    /// column.
    fn has(&mut self, x: u64, y: u64, limit: u64) -> bool
        requires column { IsColumn limit self.old.at self.old.reach }
        requires x { x ≤ 4000000000 }
        requires y { y ≤ 4000000000 }
        ensures column { IsColumn limit self.new.at self.new.reach }
        ensures value { result ≡ nat_le (square x y) limit }
    {
        let greater = x.max(y);
        let lesser = x.min(y);
        if greater * greater > limit {
            return false;
        }
        if self.at != greater {
            *self = Column::of(greater, limit);
        }
        lesser <= self.reach
    }
}

impl Wheel for ColumnWheel {
    ghost place = { λ w. w.place };

    ghost pace = { λ w. w.pace };

    ghost rim = { λ w. w.rim };

    fn new(spoke: Spoke, step: u64, limit: u64) -> ColumnWheel {
        ColumnWheel {
            spoke,
            step,
            limit,
            column: Column {
                at: 0,
                reach: root_floor(u128::from(limit)),
            },
        }
    }

    fn spoke(&self) -> Spoke {
        self.spoke
    }

    fn advance(&mut self) -> Roll {
        let Spoke { x, y, .. } = self.spoke;
        let step = self.step;
        let roll = if x < step {
            Roll::Over
        } else if self.column.has(x, y + step, self.limit) {
            Roll::Outward
        } else if self.column.has(x - step, y + step, self.limit) {
            Roll::Diagonal
        } else {
            Roll::Inward
        };
        self.spoke = self.spoke.rolled(roll, step);
        roll
    }
}
