//! How far a command must move to be clear of an obstacle.
ghost use Rattle.std.specs.Prelude.{◌≡◌, ◌<◌, ◌^◌, unsigned_abs, ◌||◌};
ghost use Rattle.ngc_collision.specs.Inside.{solid_of};
ghost use Rattle.ngc_fixed_length.specs.Length.{IsStep};
ghost use Rattle.ngc_findings.specs.Shifts.{whole_steps, axis_shift, is_apart_along, stays, unless};
ghost use Rattle.ngc_findings.specs.Shifts.{shifts_of, no_shifts, longer, longest, shifts_past};
ghost use Rattle.ngc_findings.specs.Shifts.{if_fits, shift_inside};

use crate::gaps::rise;
use crate::margins::Side;
use crate::travel::AxisSpace;
use ngc_collision::{Place, Solid};
use ngc_fixed_length::{GridBox, Nm};
use ngc_machine_files::{Fixture, Tool};

/// The distances along an axis, in nanometres, by which a tool must move until it is past a
/// fixture: upwards and downwards.
#[derive(Clone, Copy)]
pub struct AxisShift {
    pub up: u128,
    pub down: u128,
}

/// The distances in each of the six directions, in nanometres. Each is a whole number of steps.
#[derive(Clone, Copy)]
pub struct Shifts {
    pub x: AxisShift,
    pub y: AxisShift,
    pub z: AxisShift,
}

// Returns the least number of whole steps, in nanometres, that isn't less than a length, and 0 for
// a length below zero.
fn whole_steps(step: Nm, length: i128) -> u128
    requires step { IsStep step }
    requires length { unsigned_abs length < 2 ^ 70 }
    ensures { result ≡ whole_steps step length }
{
    if length < 0 {
        return 0;
    }
    let step = u128::from(step.nanometres().unsigned_abs());
    length.unsigned_abs().div_ceil(step) * step
}

fn axis_shift(step: Nm, low: i64, high: i64, least: i64, greatest: i64) -> AxisShift
    requires { IsStep step }
    ensures { result ≡ axis_shift step low high least greatest }
{
    AxisShift {
        up: whole_steps(step, rise(low, greatest)),
        down: whole_steps(step, rise(least, high)),
    }
}

fn is_apart_along(low: i64, high: i64, least: i64, greatest: i64) -> bool
    ensures { result ≡ is_apart_along low high least greatest }
{
    high <= least || greatest <= low
}

impl AxisShift {
    fn none() -> AxisShift
        ensures { result ≡ stays }
    {
        AxisShift { up: 0, down: 0 }
    }

    // Returns the shift, or none if the part is beside the fixture along one of the other axes.
    fn unless(self, one: bool, other: bool) -> AxisShift
        ensures { result ≡ unless (one || other) self }
    {
        if one || other {
            AxisShift::none()
        } else {
            self
        }
    }

    fn longer(self, other: AxisShift) -> AxisShift
        ensures { result ≡ longer self other }
    {
        AxisShift {
            up: self.up.max(other.up),
            down: self.down.max(other.down),
        }
    }
}

impl Shifts {
    fn none() -> Shifts
        ensures { result ≡ no_shifts }
    {
        Shifts {
            x: AxisShift::none(),
            y: AxisShift::none(),
            z: AxisShift::none(),
        }
    }

    fn longest(self, other: Shifts) -> Shifts
        ensures { result ≡ longest self other }
    {
        Shifts {
            x: self.x.longer(other.x),
            y: self.y.longer(other.y),
            z: self.z.longer(other.z),
        }
    }

    // Returns how far one part of a tool must move.
    fn of(step: Nm, fixture: &Fixture, solid: &Solid) -> Shifts
        requires { IsStep step }
        ensures { result ≡ shifts_of step fixture.now (solid_of solid.now) }
    {
        let (low, high) = (Place::at(&fixture.low), Place::at(&fixture.high));
        let (part_low, part_high) = (&solid.low, &solid.high);
        let x = is_apart_along(part_low.x, part_high.x, low.x, high.x);
        let y = is_apart_along(part_low.y, part_high.y, low.y, high.y);
        let z = is_apart_along(part_low.z, part_high.z, low.z, high.z);
        Shifts {
            x: axis_shift(step, part_low.x, part_high.x, low.x, high.x).unless(y, z),
            y: axis_shift(step, part_low.y, part_high.y, low.y, high.y).unless(x, z),
            z: axis_shift(step, part_low.z, part_high.z, low.z, high.z).unless(x, y),
        }
    }

    /// Returns how far a tool whose spindle nose moves over a box of grid points must move, in
    /// each of the six directions, until each of its parts is past a fixture or beside it. After
    /// any longer move in that direction it doesn't meet the fixture either.
    ///
    /// The step is 500 to 50,000 nm.
    pub fn past(step: Nm, tool: Option<Tool>, bounds: &GridBox, fixture: &Fixture) -> Shifts
        requires { IsStep step }
        ensures { result ≡ shifts_past step tool bounds.now fixture.now }
    {
        let parts = Solid::swept(step, tool, bounds);
        let mut most = Shifts::none();
        for solid in parts.as_slice() {
            most = most.longest(Shifts::of(step, fixture, solid));
        }
        most
    }
}

fn if_fits(shift: u128, left: i64) -> Option<u128>
    ensures { result ≡ if_fits shift left }
{
    if left >= 0 && shift <= u128::from(left.unsigned_abs()) {
        Some(shift)
    } else {
        None
    }
}

/// Returns the least distance, in nanometres and away from a side, after which a box lies within
/// the travel along an axis, or `None` if it is too long for the travel.
///
/// The step is 500 to 50,000 nm.
pub(crate) fn shift_inside(step: Nm, side: Side, room: &AxisSpace) -> Option<u128>
    requires { IsStep step }
    ensures { result ≡ shift_inside step side room.now }
{
    match side {
        Side::Below => if_fits(whole_steps(step, -i128::from(room.below)), room.above),
        Side::Above => if_fits(whole_steps(step, -i128::from(room.above)), room.below),
    }
}
