//! By how much the radii of an arc may differ, and how small a radius may be.
ghost use Rattle.std.specs.Prelude.{◌≡◌, ◌+◌, ◌*◌, ◌^◌, ◌≤◌};
ghost use Rattle.ngc_arc_geometry.specs.Radii.{roots_within};
ghost use Rattle.ngc_arc_geometry.specs.Tolerance.{tolerance as tolerance_in};
ghost use Rattle.ngc_dialect_arcs.specs.Limits as spec;

use ngc_dialect_names::Dialect;
use ngc_fixed_length::Units;

/// Returns the least radius in nanometres.
pub(crate) fn least_radius(dialect: Dialect) -> u128
    ensures value { result ≡ spec.least_radius dialect }
    ensures bound { result ≤ 1270 }
{
    match dialect {
        Dialect::LinuxCnc => 1270,
        _ => 1,
    }
}

/// Returns by how many nanometres R may be too short.
pub(crate) fn slack(dialect: Dialect) -> u128
    ensures value { result ≡ spec.slack dialect }
    ensures bound { result ≤ 1270 }
{
    match dialect {
        Dialect::LinuxCnc => 1270,
        _ => 2,
    }
}

/// Returns by how many nanometres the radii may differ in our own language.
pub(crate) fn tolerance(units: Units) -> u128
    ensures value { result ≡ tolerance_in units }
    ensures bound { result ≤ 5080 }
{
    match units {
        Units::Millimetres => 2000,
        Units::Inches => 5080,
    }
}

fn spiral_limit(units: Units) -> u128
    ensures value { result ≡ spec.spiral_limit units }
    ensures bound { result ≤ 71842 }
{
    match units {
        Units::Millimetres => 28_284,
        Units::Inches => 71_842,
    }
}

/// Returns whether two radii differ by at most `t`, all in nanometres. The radii are given by their
/// squares.
pub(crate) fn roots_are_within(t: u128, start: u128, end: u128) -> bool
    requires t { t ≤ 10 ^ 7 }
    requires start { start ≤ 4 * 10 ^ 18 }
    requires end { end ≤ 4 * 10 ^ 18 }
    ensures { result ≡ roots_within t start end }
{
    let sum = start + end;
    let square = t * t;
    sum <= square || (sum - square) * (sum - square) <= 4 * start * end
}

fn is_slight(start: u128, end: u128) -> bool
    requires start { start ≤ 4 * 10 ^ 18 }
    requires end { end ≤ 4 * 10 ^ 18 }
    ensures { result ≡ spec.is_slight start end }
{
    998_001 * start <= 1_000_000 * end && 998_001 * end <= 1_000_000 * start
}

fn is_slight_at_start(start: u128, end: u128) -> bool
    requires start { start ≤ 4 * 10 ^ 18 }
    requires end { end ≤ 4 * 10 ^ 18 }
    ensures { result ≡ spec.is_slight_at_start start end }
{
    998_001 * start <= 1_000_000 * end && 1_000_000 * end <= 1_002_001 * start
}

/// Returns whether a dialect lets the radii differ so. They are given by their squares.
pub(crate) fn may_differ(dialect: Dialect, units: Units, start: u128, end: u128) -> bool
    requires start { start ≤ 4 * 10 ^ 18 }
    requires end { end ≤ 4 * 10 ^ 18 }
    ensures { result ≡ spec.may_differ dialect units start end }
{
    match dialect {
        Dialect::LinuxCnc => {
            let limit = spiral_limit(units);
            roots_are_within(limit, start, end)
                || (roots_are_within(100 * limit, start, end) && is_slight(start, end))
        }
        Dialect::Grbl => {
            roots_are_within(5_000, start, end)
                || (roots_are_within(500_000, start, end) && is_slight_at_start(start, end))
        }
        Dialect::Mach3 | Dialect::Fanuc => true,
    }
}
