ghost use Rattle.std.specs.Prelude.{◌≡◌, ◌+◌, ◌-◌, ◌*◌, ◌^◌, ◌<◌, ◌≤◌, ◌*ℤ◌, unsigned_abs};
ghost use Rattle.std.specs.Int.{int_signum};
ghost use Rattle.ngc_arc_geometry.specs.Chord.{aside as aside_of, side as side_of};

use ngc_fixed_length::{Turn, root_floor};

/// Returns the side of the chord on which the centre lies: 1 for the left, -1 for the right.
pub(crate) fn side(turn: Turn, is_long: bool) -> i64
    ensures value { result ≡ side_of turn is_long }
    ensures bound { unsigned_abs result ≤ 1 }
{
    if (turn == Turn::Counterclockwise) == is_long {
        -1
    } else {
        1
    }
}

/// Returns the distance from the middle of the chord to the centre along one axis. It depends on
/// the chord's length `part` along the other axis.
pub(crate) fn aside(square: u128, chord_square: u128, part: i64) -> i64
    requires chord { 0 < chord_square }
    requires reached { chord_square ≤ 4 * square }
    requires limit { square ≤ 4 * 10 ^ 18 }
    requires part { unsigned_abs part * unsigned_abs part ≤ chord_square }
    ensures value { result ≡ aside_of square chord_square part }
    ensures bound { unsigned_abs result ≤ 2 * 10 ^ 9 }
    ensures square { 4 * chord_square * (unsigned_abs result * unsigned_abs result)
        ≤ unsigned_abs part * unsigned_abs part * (4 * square - chord_square) }
{
    let size = u128::from(part.unsigned_abs());
    root_floor(size * size * (4 * square - chord_square) / (4 * chord_square)) as i64
}

/// Returns that distance with the sign of one side of the chord.
pub(crate) fn signed_aside(side: i64, part: i64, aside: i64) -> i64
    requires side { unsigned_abs side ≤ 1 }
    requires aside { unsigned_abs aside ≤ 2 * 10 ^ 9 }
    ensures value { result ≡ side *ℤ int_signum part *ℤ aside }
    ensures bound { unsigned_abs result ≤ unsigned_abs aside }
{
    side * part.signum() * aside
}
