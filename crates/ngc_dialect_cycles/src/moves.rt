ghost use Rattle.std.specs.Prelude.{◌≡◌, ◌<◌, ◌≤◌, length, slice_get, IfSome};
ghost use Rattle.ngc_dialect_cycles.specs.Moves.{end_of, differ, acts, IsNext};
ghost use Rattle.ngc_dialect_cycles.specs.Refusals.{cycle};

use crate::line::{CycleLine, Series};
use crate::plan::Plan;
use crate::refusal::CycleRefusal;
use crate::walk::Walk;
use ngc_canned_cycles::CycleMove;
use ngc_canned_cycles::heights::is_same;
use ngc_fixed_length::Point3;
use std::marker::Model;

/// The moves of a line that has a cycle, those that are left. Points are points of the machine.
/// They take no memory, however many there are.
#[derive(Drop)]
pub struct CycleMoves {
    walk: Walk,
    /// The point where the tool is.
    place: Point3,
}

impl Model for CycleMoves {
    ghost use Rattle.std.specs.Prelude.{List};
    ghost use Rattle.ngc_canned_cycles.specs.declared.cycle.CycleMove.{CycleMove};
    ghost use Rattle.ngc_dialect_cycles.specs.Moves.{acting};
    ghost use Rattle.ngc_dialect_cycles.specs.Walk.{IsPlan, left};

    ghost Value = { List CycleMove };

    ghost view = { λ m. acting m.place (left m.walk) };

    ghost invariant = { λ m. IsPlan m.walk.plan };
}

/// Returns the move with an index, from 0, or `None` after the last of at most five.
pub(crate) fn nth(moves: &[CycleMove], index: usize) -> Option<CycleMove>
    requires { length moves.now ≤ 5 }
    ensures value { result ≡ slice_get moves.now index }
    ensures few { IfSome result (λ _. index < 5) }
{
    moves.get(index).copied()
}

fn is_elsewhere(place: &Point3, other: &Point3) -> bool
    ensures { result ≡ differ place.now other.now }
{
    let is_here = is_same(place.x, other.x)
        && is_same(place.y, other.y)
        && is_same(place.z, other.z);
    !is_here
}

// Returns whether a move isn't a motion, or goes somewhere else.
fn acts(place: &Point3, taken: &CycleMove) -> bool
    ensures { result ≡ acts place.now taken.now }
{
    match taken {
        CycleMove::Traverse(end) | CycleMove::Feed(end) => is_elsewhere(place, end),
        _ => true,
    }
}

fn end_of(place: &Point3, taken: &CycleMove) -> Point3
    ensures { result ≡ end_of place.now taken.now }
{
    match taken {
        CycleMove::Traverse(end) | CycleMove::Feed(end) => *end,
        _ => *place,
    }
}

impl CycleMoves {
    /// Returns the moves of a line's cycle, or the first reason to refuse it, in the order of
    /// `CycleRefusal`.
    pub fn start(series: &Series, line: &CycleLine) -> Result<CycleMoves, CycleRefusal>
        ensures { result ≡ cycle series.now line.now }
    {
        series.check(line)?;
        Ok(CycleMoves {
            walk: Walk::new(Plan::new(series, line)),
            place: line.place,
        })
    }

    /// Takes the next move, or returns `None` after the last. A motion that goes nowhere is left
    /// out.
    pub fn next_move(&mut self) -> Option<CycleMove>
        ensures { IsNext result self.old self.new }
    {
        while let Some(taken) = self.walk.step() {
            if acts(&self.place, &taken) {
                self.place = end_of(&self.place, &taken);
                return Some(taken);
            }
        }
        None
    }
}
