ghost use Rattle.std.specs.Prelude.{◌≡◌, ◌≤◌, nat_lt};
ghost use Rattle.ngc_braking.specs.Braking.{braking};
ghost use Rattle.ngc_fixed_length.specs.Limits.{MILLION};

/// Returns the braking distance of a rate of at most 1,000,000, if each tick reduces it by
/// `change`, 1 to 1,000,000. It is rate + (rate - change) + (rate - 2 change) + .., while above 0.
pub fn braking(rate: u64, change: u64) -> u64
    requires rate { rate ≤ MILLION }
    requires change_least { 1 ≤ change }
    requires change_greatest { change ≤ MILLION }
    ensures { result ≡ braking rate change }
{
    let ticks = (rate + change - 1) / change;
    ticks * rate - change * (ticks * ticks.saturating_sub(1) / 2)
}

/// Returns whether the braking distance is less than `way`.
pub fn brakes_within(rate: u64, change: u64, way: u64) -> bool
    requires rate { rate ≤ MILLION }
    requires change_least { 1 ≤ change }
    requires change_greatest { change ≤ MILLION }
    ensures { result ≡ nat_lt (braking rate change) way }
{
    // 8 * change times the braking distance is at most the square of 2 * rate + change, and at
    // least 4 * rate * (rate + change). Only a distance between these two needs the division.
    let scaled = u128::from(8 * change) * u128::from(way);
    let doubled = 2 * rate + change;
    if u128::from(doubled * doubled) < scaled {
        return true;
    }
    if scaled <= u128::from(4 * rate * (rate + change)) {
        return false;
    }
    braking(rate, change) < way
}
