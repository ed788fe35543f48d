ghost use Rattle.std.specs.Prelude.{◌≡◌, ◌≤◌, ℤ, pos, unsigned_abs};
ghost use Rattle.ngc_fixed_length.specs.Limits.{IsValue, limited, sum, difference, product};
ghost use Rattle.ngc_fixed_length.specs.Limits.{quotient, nanometres_of, length_of};

use crate::fault::NumberFault;
use crate::length::Nm;
use crate::rounding::{rounded_quotient, short_quotient};
use crate::units::Units;
use std::marker::Model;

/// The number of millionths in one unit.
pub const MILLIONTHS: u64 = 1_000_000;

/// A number of a program, in millionths. Its size is at most 10^9 units, which is 10^15 millionths.
#[derive(Clone, Copy, PartialEq, Eq, PartialOrd, Ord)]
pub struct Value {
    millionths: i64,
}

impl Model for Value {
    ghost Value = { ℤ };

    ghost view = { λ v. v.millionths };

    ghost invariant = { λ v. IsValue v.millionths };

    ghost inverse = { λ z. record { millionths = z } };
}

impl Value {
    /// Returns a number of millionths as a value, or `TooLarge` above 10^15 in size.
    pub fn from_millionths(millionths: i128) -> Result<Value, NumberFault>
        ensures { result ≡ limited millionths }
    {
        if millionths.unsigned_abs() <= 1_000_000_000_000_000 {
            Ok(Value {
                millionths: millionths as i64,
            })
        } else {
            Err(NumberFault::TooLarge)
        }
    }

    /// Returns the value 0.
    pub fn zero() -> Value
        ensures { result ≡ pos 0 }
    {
        Value { millionths: 0 }
    }

    /// Returns the number of millionths.
    pub fn millionths(self) -> i64
        ensures value { result ≡ self }
        ensures bound { IsValue result }
    {
        self.millionths
    }

    /// Returns the exact sum, or `TooLarge`.
    pub fn add(self, other: Value) -> Result<Value, NumberFault>
        ensures { result ≡ sum self other }
    {
        Value::from_millionths(i128::from(self.millionths) + i128::from(other.millionths))
    }

    /// Returns the exact difference, or `TooLarge`.
    pub fn sub(self, other: Value) -> Result<Value, NumberFault>
        ensures { result ≡ difference self other }
    {
        Value::from_millionths(i128::from(self.millionths) - i128::from(other.millionths))
    }

    /// Returns the product, rounded to the nearest millionth with ties away from zero, or
    /// `TooLarge`.
    pub fn mul(self, other: Value) -> Result<Value, NumberFault>
        ensures { result ≡ product self other }
    {
        let product = i128::from(self.millionths) * i128::from(other.millionths);
        Value::from_millionths(rounded_quotient(product, 1_000_000))
    }

    /// Returns the quotient, rounded to the nearest millionth with ties away from zero. Returns
    /// `DivisionByZero` for a zero divisor, or `TooLarge`.
    pub fn div(self, other: Value) -> Result<Value, NumberFault>
        ensures { result ≡ quotient self other }
    {
        if other.millionths == 0 {
            return Err(NumberFault::DivisionByZero);
        }
        let dividend = i128::from(self.millionths) * 1_000_000;
        Value::from_millionths(rounded_quotient(dividend, i128::from(other.millionths)))
    }

    /// Returns this number of units in nanometres, rounded to the nearest one with ties away from
    /// zero. It may exceed a length's limit: a feed, in nanometres per minute, has no other bound
    /// than a value's.
    pub fn nanometres(self, units: Units) -> i64
        ensures value { result ≡ nanometres_of units self }
        ensures bound { unsigned_abs result ≤ 25400000000000000 }
    {
        match units {
            Units::Millimetres => self.millionths,
            // An inch is 25.4 millimetres.
            Units::Inches => short_quotient(self.millionths * 254, 10),
        }
    }

    /// Returns this number of units as a length, rounded to the nearest nanometre with ties away
    /// from zero, or `TooLarge` above 10^11 nm.
    pub fn to_nm(self, units: Units) -> Result<Nm, NumberFault>
        ensures { result ≡ length_of units self }
    {
        Nm::from_nanometres(i128::from(self.nanometres(units)))
    }
}
