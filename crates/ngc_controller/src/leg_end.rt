//! The ticks up to the end of a leg, at once.
ghost use Rattle.std.specs.Prelude.{◌≡◌, ◌≢◌, ◌*◌, ◌≤◌, []};
ghost use Rattle.ngc_fixed_length.specs.Limits.{MILLION};
ghost use Rattle.ngc_planner.specs.Caps.{STEPS_LIMIT};
ghost use Rattle.ngc_planner.specs.Stretches.{Ticks};
ghost use Rattle.ngc_controller.specs.Finishing.{EndsLeg};

use ngc_planner::Ramp;
use std::alloc::Allocator;

// Makes the ticks that can be computed at once after one that changed the rate from `before` to
// `rate`: mostly they are of its kind. None of them ends the first motion. Returns their number.
fn make_more<A: Allocator>(ramp: &mut Ramp<A>, wish: u64, before: u64, rate: u64) -> u64
    ensures ticks { Ticks result ramp.old wish ramp.new }
    ensures same { ramp.new.legs ≡ ramp.old.legs }
{
    if before < rate {
        ramp.rise(wish, u64::MAX)
    } else if before == rate {
        ramp.go_on(wish, u64::MAX)
    } else {
        ramp.brake(wish, u64::MAX)
    }
}

/// Makes the ticks up to the end of the first motion, with one wish. Returns their number.
pub fn end_leg<A: Allocator>(ramp: &mut Ramp<A>, wish: u64) -> u64
    requires some { ramp.old.legs ≢ [] }
    requires wish { 1 ≤ wish }
    requires short { ramp.old.rest ≤ STEPS_LIMIT * MILLION }
    ensures { EndsLeg result ramp.old wish ramp.new }
{
    let mut ticks = 0;
    'ticks: loop {
        let before = ramp.rate();
        let travel = ramp.tick(wish);
        ticks += 1;
        if travel.ended {
            return ticks;
        }
        ticks += make_more(ramp, wish, before, travel.rate);
    }
}
