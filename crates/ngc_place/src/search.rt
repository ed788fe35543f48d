//! Intervals of shifts along an axis at which programs fit the machine.
ghost use Rattle.std.specs.Prelude.{◌≡◌, ◌<◌, ◌≤◌, pos, unsigned_abs, slice_index_or, false, IsTrue, MatchOption};
ghost use Rattle.std.specs.Prelude.{IfSome};
ghost use Rattle.ngc_machine_files.specs.Machine.{file_of};
ghost use Rattle.ngc_place.specs.Shifts.{SHIFT_LIMIT};
ghost use Rattle.ngc_place.specs.Longest.{IsInLimit, at as interval_at, hold_over, IsGrowth};
ghost use Rattle.ngc_place.specs.Longest.{IsGrown, IsFound, IsNearest, first_side, tried};
ghost use Rattle.ngc_place.specs.declared.interval.Side.TheVariants as sides;

use crate::axis::Axis;
use crate::growing::Growing;
use crate::growth::growth;
use crate::interval::{Interval, Side};
use crate::programs::Program;
use ngc_machine_files::Machine;
use std::alloc::Allocator;

/// The shifts that are tried, in steps: 0, and then the distances 1, 2, 4 and so on from it, above
/// and below.
const TRIED: [i32; 45] = [
    0, 1, -1, 2, -2, 4, -4, 8, -8, 16, -16, 32, -32, 64, -64, 128, -128, 256, -256, 512, -512,
    1024, -1024, 2048, -2048, 4096, -4096, 8192, -8192, 16_384, -16_384, 32_768, -32_768, 65_536,
    -65_536, 131_072, -131_072, 262_144, -262_144, 524_288, -524_288, 1_048_576, -1_048_576,
    2_097_152, -2_097_152,
];

/// Returns the interval around a shift that grows on one side as far as the programs hold, and then
/// on the opposite side. Returns `None` if the programs don't fit at the shift.
fn grown<A: Allocator>(
    machine: &Machine<A>,
    programs: &[Program],
    axis: Axis,
    around: i32,
    side: Side,
    cuts: u16,
) -> Option<Interval>
    requires around { unsigned_abs around ≤ SHIFT_LIMIT }
    requires cuts { 1 ≤ cuts }
    ensures { MatchOption result
        (hold_over (file_of machine.now) cuts axis programs.now (interval_at around) ≡ false)
        (λ i. IsGrown (file_of machine.now) cuts axis programs.now side around i) }
{
    let interval = Interval::at(around);
    let growing = Growing {
        axis,
        interval,
        side,
    };
    let first = match growth(machine, programs, &growing, cuts) {
        Some(first) => first,
        None => return None,
    };
    let interval = interval.grown(side, first);
    let side = side.opposite();
    let growing = Growing {
        axis,
        interval,
        side,
    };
    match growth(machine, programs, &growing, cuts) {
        Some(then) => Some(interval.grown(side, then)),
        None => None,
    }
}

/// Returns the longest interval of shifts along an axis, around a shift, at each of which the
/// programs fit the machine. Returns `None` if they don't fit at the shift itself.
///
/// The programs are those of one or both settings of block delete, judged as by `holds`; `cuts` is
/// at least 1. Shifts are whole steps, at most 4,000,000 in size. The upper end is found first, and
/// then the lower end for it. No interval that is longer on either side holds, by the law
/// `grown_is_found`.
pub fn longest<A: Allocator>(
    machine: &Machine<A>,
    programs: &[Program],
    axis: Axis,
    around: i32,
    cuts: u16,
) -> Option<Interval>
    requires around { unsigned_abs around ≤ SHIFT_LIMIT }
    requires cuts { 1 ≤ cuts }
    ensures { MatchOption result
        (hold_over (file_of machine.now) cuts axis programs.now (interval_at around) ≡ false)
        (λ i. IsGrown (file_of machine.now) cuts axis programs.now sides.Above around i) }
{
    grown(machine, programs, axis, around, Side::Above, cuts)
}

/// Returns the shift with this index among those that are tried.
fn shift_at(index: usize) -> i32
    requires { index < 45 }
    ensures value { result ≡ slice_index_or tried index (pos 0) }
    ensures limit { unsigned_abs result ≤ SHIFT_LIMIT }
{
    TRIED[index]
}

/// Returns the side on which the interval around a shift grows first: towards 0, and above 0 itself.
fn first_side(shift: i32) -> Side
    ensures { result ≡ first_side shift }
{
    if shift > 0 { Side::Below } else { Side::Above }
}

/// Returns an interval of shifts along an axis at each of which the programs fit the machine, and
/// which can't be longer on either side.
///
/// It is the interval around the first shift of *tried* at which the programs fit: 0, and then the
/// distances 1, 2, 4 and so on from it, above and below. It grows towards 0 first. Returns `None` if
/// they fit at none of these shifts; they may fit at others. `cuts` is at least 1.
pub fn nearest<A: Allocator>(
    machine: &Machine<A>,
    programs: &[Program],
    axis: Axis,
    cuts: u16,
) -> Option<Interval>
    requires { 1 ≤ cuts }
    ensures nearest { IsNearest (file_of machine.now) cuts axis programs.now result }
    ensures found { IfSome result (λ i. IsFound (file_of machine.now) cuts axis programs.now i) }
{
    for index in 0..45 {
        let shift = shift_at(index);
        match grown(machine, programs, axis, shift, first_side(shift), cuts) {
            Some(found) => return Some(found),
            None => {}
        }
    }
    None
}
