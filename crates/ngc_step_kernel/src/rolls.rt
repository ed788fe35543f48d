ghost use Rattle.std.specs.Prelude.{◌≡◌, ℕ, ◌+◌, ◌<◌, ◌≤◌};
ghost use Rattle.ngc_circle_walk.specs.Rolling.{spoke_at, quadrant_at};
ghost use Rattle.ngc_circle_walk.specs.Wheel.{IsSmall};
ghost use Rattle.ngc_circle_laws.specs.ArcWalk.{IsBeforeEnd};
ghost use Rattle.ngc_step_kernel.specs.Course.{round_at};
ghost use Rattle.ngc_step_kernel.specs.Left.{IsLeftAfter};
ghost use Rattle.ngc_step_kernel.specs.Spots.{IsSpot};

use crate::spot::{PlaneMove, Spot};
use ngc_circle_walk::{Roll, Spoke, Wheel};

/// Returns the number of quadrants to the end after a move, or `None` if the end's direction is
/// reached.
fn left_after(left: u32, roll: Roll, at: &Spoke, end: &Spoke) -> Option<u32>
    requires at { IsSmall at.now }
    requires end { IsSmall end.now }
    ensures { IsLeftAfter left roll at.now end.now result }
{
    let left = match roll {
        Roll::Over if left == 0 => return None,
        Roll::Over => left - 1,
        Roll::Outward | Roll::Diagonal | Roll::Inward => left,
    };
    if left == 0 && !at.is_before(end) {
        return None;
    }
    Some(left)
}

/// Returns the number of moves round the centre before the end's direction, `quadrants` further on,
/// and the point to which they lead from the entry.
pub(crate) fn rolls<W: Wheel + Drop>(
    entry: Spot,
    first: Spoke,
    end: &Spoke,
    quadrants: u32,
    step: u64,
    limit: u64,
) -> (u32, Spot)
    requires some { 0 < step }
    requires short { step ≤ 50000 }
    requires end { IsSmall end.now }
    requires small { (k : ℕ) → IsSmall (spoke_at step limit first k) }
    requires range { (k : ℕ) → IsSpot (round_at step limit first entry k) }
    requires before { IsBeforeEnd 0 quadrants first end.now }
    ensures few { result.0 ≤ 100000000 }
    ensures before { IsBeforeEnd (quadrant_at step limit first result.0) quadrants
        (spoke_at step limit first result.0) end.now }
    ensures past { result.0 < 100000000 →
        IsBeforeEnd (quadrant_at step limit first (result.0 + 1)) quadrants
        (spoke_at step limit first (result.0 + 1)) end.now → ⊥ }
    ensures last { result.1 ≡ round_at step limit first entry result.0 }
{
    let mut wheel = W::new(first, step, limit);
    let mut last = entry;
    let mut left = quadrants;
    for moves in 0..100_000_000 {
        let quadrant = wheel.spoke().quadrant;
        let roll = wheel.advance();
        match left_after(left, roll, &wheel.spoke(), end) {
            None => return (moves, last),
            Some(next) => left = next,
        }
        last = last.moved(PlaneMove::of(roll, quadrant));
    }
    (100_000_000, last)
}
