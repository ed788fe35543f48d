//! The shortest shift along one axis at which a program fits.
ghost use Rattle.std.specs.Prelude.{◌≡◌};
ghost use Rattle.ngc_place_report.specs.Nearest as spec;

use crate::placement::{Finding, Placement};
use ngc_place::{Axis, Interval};

/// A shift along one axis, in steps.
#[derive(Clone, Copy)]
pub(crate) struct Shift {
    pub(crate) axis: Axis,
    pub(crate) steps: i32,
}

/// Returns the end of an interval next to 0, or 0 within it.
fn next_to_zero(interval: Interval) -> i32
    ensures { result ≡ spec.next_to_zero interval }
{
    if interval.from > 0 {
        interval.from
    } else if interval.to < 0 {
        interval.to
    } else {
        0
    }
}

fn shift_along(axis: Axis, finding: &Finding) -> Option<Shift>
    ensures { result ≡ spec.shift_along axis finding.now }
{
    match finding {
        Finding::Unmoved => None,
        Finding::Nowhere => None,
        Finding::Fits(interval) => Some(Shift {
            axis,
            steps: next_to_zero(*interval),
        }),
    }
}

/// Returns the shorter of two shifts, the first if they are as short.
fn shorter(one: Option<Shift>, other: Option<Shift>) -> Option<Shift>
    ensures { result ≡ spec.shorter one other }
{
    let Some(a) = one else {
        return other;
    };
    let Some(b) = other else {
        return one;
    };
    if b.steps.unsigned_abs() < a.steps.unsigned_abs() {
        Some(b)
    } else {
        Some(a)
    }
}

/// Returns the shortest shift at which the program fits; the first axis if several are as short.
pub(crate) fn shortest(placement: &Placement) -> Option<Shift>
    ensures { result ≡ spec.shortest placement.now }
{
    let x = shift_along(Axis::X, &placement.x.finding);
    let y = shift_along(Axis::Y, &placement.y.finding);
    let z = shift_along(Axis::Z, &placement.z.finding);
    shorter(shorter(x, y), z)
}
