//! Sine and cosine, in degrees.
ghost use Rattle.std.specs.Prelude.{◌≡◌, ◌+◌, ◌*◌, ◌<◌, ◌≤◌, pos, ◌+ℤ◌, unsigned_abs};
ghost use Rattle.std.specs.Int.{int_rem_euclid};
ghost use Rattle.ngc_dialect_numbers.specs.Circles as spec;
ghost use Rattle.ngc_dialect_numbers.specs.Series.{series, term as term_of};

use crate::number::Number;
use crate::rounding::signed;
use ngc_fixed_length::rounded_quotient;

/// The units of an angle in a turn.
const TURN: i128 = 360_000_000_000_000;

/// The units of an angle in a quarter of a turn.
pub(crate) const QUARTER: u64 = 90_000_000_000_000;

/// The units of an angle in an eighth of a turn.
pub(crate) const EIGHTH: u64 = 45_000_000_000_000;

/// The unit inside a function is 10^-18.
pub(crate) const WIDE: u128 = 1_000_000_000_000_000_000;

/// Half a turn in 10^-18 radians.
pub(crate) const PI: u128 = 3_141_592_653_589_793_238;

// Half a turn in units of an angle.
const HALF_TURN: u128 = 180_000_000_000_000;

/// How the sine of an angle is found from that of at most 45 degrees.
#[derive(Clone, Copy)]
pub(crate) struct Octant {
    pub(crate) negative: bool,
    /// Whether the cosine of `rest` is taken.
    pub(crate) cosine: bool,
    /// The angle, of at most 45 degrees.
    pub(crate) rest: u64,
}

fn in_quarter(negative: bool, cosine: bool, angle: u64) -> Octant
    requires { angle ≤ 90000000000000 }
    ensures value { result ≡ spec.in_quarter negative cosine angle }
    ensures bound { result.rest ≤ 45000000000000 }
{
    if angle <= EIGHTH {
        Octant {
            negative,
            cosine,
            rest: angle,
        }
    } else {
        Octant {
            negative,
            cosine: !cosine,
            rest: QUARTER - angle,
        }
    }
}

fn turn_octant(angle: u64) -> Octant
    requires { angle < 360000000000000 }
    ensures value { result ≡ spec.octant angle }
    ensures bound { result.rest ≤ 45000000000000 }
{
    in_quarter(
        2 * QUARTER <= angle,
        angle / QUARTER % 2 == 1,
        angle % QUARTER,
    )
}

fn octant_of(angle: i128) -> Octant
    requires { unsigned_abs angle ≤ 2000000000000000000000 }
    ensures value { result ≡ spec.octant_of angle }
    ensures bound { result.rest ≤ 45000000000000 }
{
    turn_octant(angle.rem_euclid(TURN).unsigned_abs() as u64)
}

// Returns a term of a series, with the terms after it.
fn term(factor: u128, square: u128, rest: u128) -> u128
    requires factor { 2 ≤ factor }
    requires limit { factor ≤ 272 }
    requires square { square ≤ 1000000000000000000 }
    requires rest { rest ≤ 1000000000000000000 }
    ensures value { result ≡ term_of factor square rest }
    ensures low { 500000000000000000 ≤ result }
    ensures high { result ≤ 1000000000000000000 }
{
    WIDE - rest * square / (WIDE * factor)
}

/// Returns an angle in 10^-18 radians.
pub(crate) fn radians(angle: u64) -> u128
    requires { angle ≤ 45000000000000 }
    ensures value { result ≡ spec.radians angle }
    ensures bound { result ≤ 1000000000000000000 }
{
    u128::from(angle) * PI / HALF_TURN
}

fn square(angle: u64) -> u128
    requires { angle ≤ 45000000000000 }
    ensures value { result ≡ spec.square angle }
    ensures bound { result ≤ 1000000000000000000 }
{
    let length = radians(angle);
    length * length / WIDE
}

fn cosine_series(square: u128) -> u128
    requires { square ≤ 1000000000000000000 }
    ensures value { result ≡ series 8 1 square }
    ensures low { 500000000000000000 ≤ result }
    ensures high { result ≤ 1000000000000000000 }
{
    let sum = term(240, square, WIDE);
    let sum = term(182, square, sum);
    let sum = term(132, square, sum);
    let sum = term(90, square, sum);
    let sum = term(56, square, sum);
    let sum = term(30, square, sum);
    let sum = term(12, square, sum);
    term(2, square, sum)
}

fn sine_series(square: u128) -> u128
    requires { square ≤ 1000000000000000000 }
    ensures value { result ≡ series 8 2 square }
    ensures low { 500000000000000000 ≤ result }
    ensures high { result ≤ 1000000000000000000 }
{
    let sum = term(272, square, WIDE);
    let sum = term(210, square, sum);
    let sum = term(156, square, sum);
    let sum = term(110, square, sum);
    let sum = term(72, square, sum);
    let sum = term(42, square, sum);
    let sum = term(20, square, sum);
    term(6, square, sum)
}

/// Returns the cosine of an angle of at most 45 degrees, in 10^-18.
#[tactic(auto, unfolding(crate::specs::Circles::low_cosine))]
pub(crate) fn low_cosine(angle: u64) -> u128
    requires { angle ≤ 45000000000000 }
    ensures value { result ≡ spec.low_cosine angle }
    ensures low { 500000000000000000 ≤ result }
    ensures high { result ≤ 1000000000000000000 }
{
    cosine_series(square(angle))
}

/// Returns the sine of an angle of at most 45 degrees over the angle, in 10^-18.
#[tactic(auto, unfolding(crate::specs::Circles::low_ratio))]
pub(crate) fn low_ratio(angle: u64) -> u128
    requires { angle ≤ 45000000000000 }
    ensures value { result ≡ spec.low_ratio angle }
    ensures low { 500000000000000000 ≤ result }
    ensures high { result ≤ 1000000000000000000 }
{
    sine_series(square(angle))
}

fn low_sine(angle: u64) -> u128
    requires { angle ≤ 45000000000000 }
    ensures value { result ≡ spec.low_sine angle }
    ensures bound { result ≤ 1000000000000000000 }
{
    radians(angle) * low_ratio(angle) / WIDE
}

// Returns the size of a sine, in 10^-18.
fn wide_size(octant: Octant) -> u128
    requires { octant.rest ≤ 45000000000000 }
    ensures value { result ≡ spec.wide_size octant }
    ensures bound { result ≤ 1000000000000000000 }
{
    if octant.cosine {
        low_cosine(octant.rest)
    } else {
        low_sine(octant.rest)
    }
}

/// Returns a number in units, of one in 10^-18.
pub(crate) fn narrow(negative: bool, size: u128) -> i128
    requires { size ≤ 1000000000000000000000000000 }
    ensures value { result ≡ spec.narrow negative size }
    ensures bound { unsigned_abs result ≤ 1000000000000000000000 }
{
    rounded_quotient(signed(negative, size), 1_000_000)
}

/// Returns the sine of an angle in units of 10^-12 degrees, in units of 10^-12.
fn sine(angle: i128) -> i128
    requires { unsigned_abs angle ≤ 2000000000000000000000 }
    ensures value { result ≡ spec.sine angle }
    ensures near { spec.IsSine angle result }
    ensures bound { unsigned_abs result ≤ 1000000000000000000000 }
{
    let octant = octant_of(angle);
    narrow(octant.negative, wide_size(octant))
}

impl Number {
    /// Returns what SIN returns: the sine of an angle in degrees, within one unit.
    pub fn sin(self) -> Number
        ensures value { result ≡ spec.sine self }
        ensures near { spec.IsSine self result }
    {
        Number::new(sine(self.trillionths()))
    }

    /// Returns what COS returns: the cosine of an angle in degrees, within one unit.
    pub fn cos(self) -> Number
        ensures value { result ≡ spec.cosine self }
        ensures near { spec.IsSine (self +ℤ pos 90000000000000) result }
    {
        Number::new(sine(self.trillionths() + 90_000_000_000_000))
    }
}
