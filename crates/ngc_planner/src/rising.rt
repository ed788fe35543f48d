//! How many ticks may speed up by the change, go on at one rate, or slow down by the change.
ghost use Rattle.std.specs.Prelude.{◌≡◌, ◌+◌, ◌-◌, ◌*◌, ◌≤◌, ◌<◌, nat_lt, ◌&&◌, true};
ghost use Rattle.ngc_braking.specs.Braking.{braking};
ghost use Rattle.ngc_fixed_length.specs.Limits.{MILLION};
ghost use Rattle.ngc_planner.specs.Stretches.{rise, fall, may_rise, MayFallTo};

use ngc_braking::{brakes_within, braking};

/// Returns the distance of `ticks` ticks after one at `rate`, each by `change` faster than the one
/// before.
#[tactic(auto, using(crate::proofs::StretchLaws::rise_small))]
pub(crate) fn rise(ticks: u64, rate: u64, change: u64) -> u64
    requires ticks { ticks ≤ MILLION }
    requires rate { rate ≤ MILLION }
    requires change { change ≤ MILLION }
    ensures { result ≡ rise ticks rate change }
{
    ticks * rate + change * (ticks * (ticks + 1) / 2)
}

/// Returns whether `ticks` ticks may speed up within `rest` and leave the braking distance of the
/// last one.
fn may_rise(ticks: u64, rate: u64, change: u64, rest: u64) -> bool
    requires ticks { ticks ≤ MILLION }
    requires change_least { 1 ≤ change }
    requires change_greatest { change ≤ MILLION }
    requires rate { rate + ticks * change ≤ MILLION }
    ensures { result ≡ may_rise ticks rate change rest }
{
    let way = rise(ticks, rate, change);
    let last = rate + ticks * change;
    way < rest && brakes_within(last.saturating_sub(change), change, rest - way)
}

/// Returns how many ticks may speed up within `rest`, at most `most`. It may be fewer than the most
/// that may.
#[tactic(auto, using(crate::proofs::StretchLaws::slower))]
pub(crate) fn rising_ticks(most: u64, rate: u64, change: u64, rest: u64) -> u64
    requires most { most ≤ MILLION }
    requires change_least { 1 ≤ change }
    requires change_greatest { change ≤ MILLION }
    requires rate { rate + most * change ≤ MILLION }
    ensures few { result ≤ most }
    ensures may { 0 < result → may_rise result rate change rest ≡ true }
{
    let mut may = 0;
    let mut highest = most;
    for _ in 0..20 {
        let middle = may + (highest - may + 1) / 2;
        if may < middle {
            if may_rise(middle, rate, change, rest) {
                may = middle;
            } else {
                highest = middle - 1;
            }
        }
    }
    may
}

/// Returns how many ticks at a rate leave more of `rest` than the braking distance of the last one.
#[tactic(auto, using(crate::proofs::StretchLaws::lasts))]
pub(crate) fn lasting_ticks(rate: u64, change: u64, rest: u64) -> u64
    requires rate_least { 1 ≤ rate }
    requires rate_greatest { rate ≤ MILLION }
    requires change_least { 1 ≤ change }
    requires change_greatest { change ≤ MILLION }
    ensures { 0 < result → result * rate + braking (rate - change) change < rest }
{
    let needed = braking(rate.saturating_sub(change), change);
    if rest <= needed {
        return 0;
    }
    (rest - needed - 1) / rate
}

/// Returns the distance of `ticks` ticks after one at `rate`, each by `change` slower than the one
/// before.
#[tactic(auto, using(crate::proofs::StretchLaws::fall_small))]
pub(crate) fn fall(ticks: u64, rate: u64, change: u64) -> u64
    requires ticks { ticks ≤ MILLION }
    requires rate { rate ≤ MILLION }
    requires least { ticks * change ≤ rate }
    ensures { result ≡ fall ticks rate change }
{
    ticks * rate - change * (ticks * (ticks + 1) / 2)
}

/// Returns how many ticks may slow down for what is ahead, at most `most`. The braking distance may
/// end up to `beyond` after `rest`.
#[tactic(auto, using(crate::proofs::StretchLaws::braking_small))]
pub(crate) fn falling_ticks(most: u64, rate: u64, change: u64, rest: u64, beyond: u64) -> u64
    requires rate_least { 1 ≤ rate }
    requires rate_greatest { rate + change ≤ MILLION }
    requires change_least { 1 ≤ change }
    requires change_greatest { change ≤ MILLION }
    ensures few { result ≤ most }
    ensures may { 0 < result → MayFallTo change rate rest beyond result }
    ensures small { result ≤ MILLION }
{
    let needed = braking(rate + change, change) + 2 * change;
    let fast = (rate / change).saturating_sub(1);
    let near = rest.saturating_sub(2 * change + 1) / rate;
    let short = needed.saturating_sub(rest.saturating_add(beyond)) / (2 * change);
    most.min(fast).min(near).min(short)
}
