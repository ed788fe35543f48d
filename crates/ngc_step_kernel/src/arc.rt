use crate::course::Course;
use crate::kernel::ArcKernel;
use crate::line::Axis;
use crate::moves::{AxisMove, Move};
use crate::path::Path;
use crate::plan::Plan;
use crate::roots::Roots;
use crate::spot::{PlaneMove, Spot};
use crate::view::View;
use ngc_arc_geometry::Arc;
use ngc_circle_walk::{ColumnWheel, SquareWheel, Wheel};
use ngc_fixed_length::{Nm, Plane, StepPos, Turn};
use std::marker::Model;

/// A path that follows an arc with a wheel about its centre.
#[derive(Drop)]
pub struct RoundPath<W: Wheel + Drop> {
    plane: Plane,
    turn: Turn,
    course: Course<W>,
    /// The progress of the plane's moves, and the height, each distributed over all moves.
    progress: Axis,
    height: Axis,
    moves: u32,
    done: u32,
    /// The number of roots that the plan took.
    roots: u64,
}

impl<W: Wheel + Drop> Model for RoundPath<W> {
    ghost use Rattle.ngc_step_kernel.specs.Walk.{RootedWalk};
    ghost use Rattle.ngc_step_kernel.specs.Course.{IsCourseAt};
    ghost use Rattle.ngc_step_kernel.specs.Round.{round_walk, IsSpread};

    ghost Value = { RootedWalk };

    ghost view = { λ r. round_walk r.plane r.turn r.course.plan r.moves r.height r.done r.roots };

    ghost invariant = { λ r. IsSpread r.course.plan r.course.done r.moves r.done r.progress
        r.height × IsCourseAt r.course.plan r.course.done r.course.at (W.place r.course.wheel)
        (W.pace r.course.wheel) (W.rim r.course.wheel) };
}

/// A path that follows an arc. It updates squares with additions, and takes no roots.
pub type ArcPath = RoundPath<SquareWheel>;

/// A path that follows an arc, with one root for each column.
pub type ColumnPath = RoundPath<ColumnWheel>;

ghost use Rattle.std.specs.Prelude.{◌≡◌, ◌≤◌, ◌<◌, ◌+◌, max, unsigned_abs, length};
ghost use Rattle.ngc_fixed_length.specs.Grid.{distance, IsInRange};
ghost use Rattle.ngc_fixed_length.specs.Length.{IsStep};
ghost use Rattle.ngc_fixed_length.specs.LinePath.{point};
ghost use Rattle.ngc_arc_geometry.specs.ArcPath.{IsArcPath};
ghost use Rattle.ngc_step_kernel.specs.Move.{moved};
ghost use Rattle.ngc_step_kernel.specs.Course.{IsPlan};
ghost use Rattle.ngc_step_kernel.specs.Round.{in_space, move_in_space, grid_point_in_plane, seen_height};
ghost use Rattle.ngc_step_kernel.specs.Round.{round_points};
ghost use Rattle.ngc_step_kernel.specs.Spots.{IsSpot};

/// Returns the grid point at a point `at` of the plane and the height `w`.
fn in_space(plane: Plane, turn: Turn, at: Spot, w: i32) -> StepPos
    requires { IsSpot at }
    ensures { result ≡ in_space plane turn at w }
{
    let u = at.u;
    let v = match turn {
        Turn::Counterclockwise => at.v,
        Turn::Clockwise => -at.v,
    };
    match plane {
        Plane::XY => StepPos { x: u, y: v, z: w },
        Plane::ZX => StepPos { x: v, y: w, z: u },
        Plane::YZ => StepPos { x: w, y: u, z: v },
    }
}

/// Returns the move that combines a move in the plane and one of the height.
fn move_in_space(plane: Plane, turn: Turn, m: PlaneMove, w: AxisMove) -> Move
    ensures { result ≡ move_in_space plane turn m w }
{
    let u = m.u;
    let v = match turn {
        Turn::Counterclockwise => m.v,
        Turn::Clockwise => m.v.opposite(),
    };
    match plane {
        Plane::XY => Move { x: u, y: v, z: w },
        Plane::ZX => Move { x: v, y: w, z: u },
        Plane::YZ => Move { x: w, y: u, z: v },
    }
}

/// Returns a grid point's coordinates in an arc's plane.
fn spot(plane: Plane, turn: Turn, p: &StepPos) -> Spot
    requires { IsInRange p.now }
    ensures value { result ≡ grid_point_in_plane plane turn p.now }
    ensures range { IsSpot result }
{
    let (u, v) = match plane {
        Plane::XY => (p.x, p.y),
        Plane::ZX => (p.z, p.x),
        Plane::YZ => (p.y, p.z),
    };
    match turn {
        Turn::Counterclockwise => Spot { u, v },
        Turn::Clockwise => Spot { u, v: -v },
    }
}

fn height(plane: Plane, p: &StepPos) -> i32
    requires { IsInRange p.now }
    ensures value { result ≡ seen_height plane p.now }
    ensures range { unsigned_abs result ≤ 200000000 }
{
    match plane {
        Plane::XY => p.z,
        Plane::ZX => p.y,
        Plane::YZ => p.x,
    }
}

/// Returns the number of moves of a path: the number that its plane needs, or its height if that is
/// more.
fn moves_of(plane_moves: u32, low: i32, high: i32) -> u32
    ensures { result ≡ max plane_moves (distance low high) }
{
    plane_moves.max(low.abs_diff(high))
}

impl<W: Wheel + Drop> RoundPath<W> {
    ghost use Rattle.ngc_step_kernel.specs.UnitPath.{IsUnitPath};

    /// Returns the path along a plan, from one height to another.
    fn along(plane: Plane, turn: Turn, plan: Plan, low: i32, high: i32, roots: u64) -> RoundPath<W>
        requires plan { IsPlan plan }
        requires low { unsigned_abs low ≤ 200000000 }
        requires high { unsigned_abs high ≤ 200000000 }
        ensures points { result.points ≡ round_points plane turn plan
            (max plan.moves (distance low high)) low high }
        ensures unit { IsUnitPath (in_space plane turn plan.start low)
            (in_space plane turn plan.end high) (max plan.moves (distance low high)) result.points }
        ensures place { result.place ≡ 0 }
        ensures roots { result.roots ≡ roots }
    {
        let moves = moves_of(plan.moves, low, high);
        RoundPath {
            plane,
            turn,
            course: Course::new(plan),
            progress: Axis::new(0, plan.moves as i32, moves),
            height: Axis::new(low, high, moves),
            moves,
            done: 0,
            roots,
        }
    }
}

impl<W: Wheel + Drop> Path for RoundPath<W> {
    ghost points = { λ walk. walk.points };

    ghost place = { λ walk. walk.place };

    fn remaining(&self) -> u64 {
        u64::from(self.moves - self.done)
    }

    fn position(&self) -> StepPos {
        in_space(self.plane, self.turn, self.course.at, self.height.at)
    }

    fn advance(&mut self) -> Move
        requires { self.old.place + 1 < length self.old.points }
        ensures points { self.new.points ≡ self.old.points }
        ensures place { self.new.place ≡ self.old.place + 1 }
        ensures answer { point self.new.points self.new.place
            ≡ moved (point self.old.points self.old.place) result }
        ensures roots { self.new.roots ≡ self.old.roots }
    {
        self.done += 1;
        let w = self.height.advance(self.moves);
        let due = self.progress.advance(self.moves);
        let m = self.course.follow(due);
        move_in_space(self.plane, self.turn, m, w)
    }
}

impl<W: Wheel + Drop> ArcKernel for RoundPath<W> {
    fn new(arc: &Arc, step: Nm) -> RoundPath<W>
        requires { IsStep step }
        ensures arc { IsArcPath step arc.now result.points }
        ensures place { result.place ≡ 0 }
        ensures roots { result.roots ≤ 16 }
    {
        let plane = arc.plane();
        let turn = arc.turn();
        let from = arc.start().to_grid(step);
        let to = arc.end().to_grid(step);
        let start = spot(plane, turn, &from);
        let end = spot(plane, turn, &to);
        let size = step.nanometres().unsigned_abs();
        let mut roots = Roots { taken: 0 };
        let plan = Plan::around::<W>(&View::of(arc), start, end, size, &mut roots);
        let (low, high) = (height(plane, &from), height(plane, &to));
        RoundPath::along(plane, turn, plan, low, high, roots.taken)
    }
}

impl RoundPath<SquareWheel> {
    /// Returns the number of square roots computed for the path: at most 16 when it is made, and
    /// none while it is followed.
    pub fn roots(&self) -> u64
        ensures { result ≡ self.now.roots }
    {
        self.roots
    }
}
