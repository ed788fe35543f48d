ghost use Rattle.std.specs.Prelude.{◌≡◌, ℤ, pos, neg_ℤ, ◌+ℤ◌, ◌*ℤ◌};
ghost use Rattle.ngc_fixed_length.specs.Rounding.{nearest};
ghost use Rattle.ngc_dialect_numbers.specs.Numbers as spec;

use crate::fault::NoValue;
use crate::rounding::{ONE, rounded_product, rounded_ratio};
use ngc_fixed_length::{Value, rounded_quotient};
use std::marker::Model;

// Numbers this near to a whole one are taken as it: 10^-9.
pub(crate) const NEAR: i128 = 1000;

/// A number that a program of another control computes with, in units of 10^-12. It is at most 10^9
/// in size.
#[derive(Clone, Copy, Debug, PartialEq, Eq)]
pub struct Number {
    trillionths: i128,
}

impl Model for Number {
    ghost use Rattle.std.specs.Prelude.{ℤ};
    ghost use Rattle.ngc_dialect_numbers.specs.Numbers.{IsNumber};

    ghost Value = { ℤ };

    ghost view = { λ n. n.trillionths };

    ghost invariant = { λ n. IsNumber n.trillionths };

    ghost inverse = { λ z. record { trillionths = z } };
}

// Returns the greatest whole number that is at most a number, or that is within 10^-9 above it.
fn floor(trillionths: i128) -> i128
    requires { spec.IsNumber trillionths }
    ensures value { result ≡ spec.floor trillionths }
    ensures bound { spec.IsNumber result }
{
    (trillionths + NEAR).div_euclid(ONE) * ONE
}

impl Number {
    /// Returns a number of units of 10^-12 as a number, or `OutOfRange` above 10^9 in size.
    pub fn from_trillionths(trillionths: i128) -> Result<Number, NoValue>
        ensures { result ≡ spec.limited trillionths }
    {
        if trillionths.unsigned_abs() <= 1_000_000_000_000_000_000_000 {
            Ok(Number { trillionths })
        } else {
            Err(NoValue::OutOfRange)
        }
    }

    pub(crate) fn new(trillionths: i128) -> Number
        requires { spec.IsNumber trillionths }
        ensures { result ≡ trillionths }
    {
        Number { trillionths }
    }

    /// Returns the number of units of 10^-12.
    pub fn trillionths(self) -> i128
        ensures value { result ≡ self }
        ensures bound { spec.IsNumber result }
    {
        self.trillionths
    }

    /// Returns 1 for a condition that holds, and 0 otherwise.
    pub fn truth(holds: bool) -> Number
        ensures { result ≡ spec.truth holds }
    {
        Number {
            trillionths: if holds { ONE } else { 0 },
        }
    }

    /// Returns a value of a program line as a number.
    pub fn from_value(value: Value) -> Number
        ensures { result ≡ value *ℤ pos 1000000 }
    {
        Number {
            trillionths: i128::from(value.millionths()) * 1_000_000,
        }
    }

    /// Returns the number as a program line has it: rounded to the nearest millionth, with ties away
    /// from zero.
    pub fn to_value(self) -> Value
        ensures { result ≡ nearest self (pos 1000000) }
    {
        match Value::from_millionths(rounded_quotient(self.trillionths, 1_000_000)) {
            Ok(value) => value,
            Err(_) => Value::zero(),
        }
    }

    /// Returns the exact sum, or `OutOfRange`.
    pub fn plus(self, other: Number) -> Result<Number, NoValue>
        ensures { result ≡ spec.sum self other }
    {
        Number::from_trillionths(self.trillionths + other.trillionths)
    }

    /// Returns the exact difference, or `OutOfRange`.
    pub fn minus(self, other: Number) -> Result<Number, NoValue>
        ensures { result ≡ spec.difference self other }
    {
        Number::from_trillionths(self.trillionths - other.trillionths)
    }

    /// Returns the product, rounded to the nearest unit with ties away from zero, or `OutOfRange`.
    pub fn times(self, other: Number) -> Result<Number, NoValue>
        ensures { result ≡ spec.product self other }
    {
        match rounded_product(self.trillionths, other.trillionths) {
            Some(product) => Number::from_trillionths(product),
            None => Err(NoValue::OutOfRange),
        }
    }

    /// Returns the quotient, rounded to the nearest unit with ties away from zero. Returns
    /// `DivisionByZero` for a zero divisor, or `OutOfRange`.
    pub fn divided_by(self, other: Number) -> Result<Number, NoValue>
        ensures { result ≡ spec.quotient self other }
    {
        if other.trillionths == 0 {
            return Err(NoValue::DivisionByZero);
        }
        Number::from_trillionths(rounded_ratio(self.trillionths, other.trillionths))
    }

    /// Returns what MOD returns: the remainder that is at least 0. Returns `DivisionByZero` for a
    /// zero divisor.
    pub fn modulo(self, other: Number) -> Result<Number, NoValue>
        ensures { result ≡ spec.modulo self other }
    {
        if other.trillionths == 0 {
            return Err(NoValue::DivisionByZero);
        }
        Ok(Number {
            trillionths: self.trillionths.rem_euclid(other.trillionths),
        })
    }

    /// Returns the number with the other sign.
    pub fn negated(self) -> Number
        ensures { result ≡ neg_ℤ self }
    {
        Number {
            trillionths: -self.trillionths,
        }
    }

    /// Returns what ABS returns: the size.
    pub fn abs(self) -> Number
        ensures { result ≡ spec.size self }
    {
        Number {
            trillionths: self.trillionths.abs(),
        }
    }

    /// Returns what FIX returns: the greatest whole number that is at most the number, or that is
    /// within 10^-9 above it.
    pub fn fix(self) -> Number
        ensures { result ≡ spec.floor self }
    {
        Number {
            trillionths: floor(self.trillionths),
        }
    }

    /// Returns what FUP returns: the least whole number that is at least the number, or that is
    /// within 10^-9 below it.
    pub fn fup(self) -> Number
        ensures { result ≡ spec.ceiling self }
    {
        Number {
            trillionths: -floor(-self.trillionths),
        }
    }

    /// Returns what ROUND returns: the nearest whole number, with ties away from zero.
    pub fn round(self) -> Number
        ensures { result ≡ spec.rounded self }
    {
        Number {
            trillionths: rounded_quotient(self.trillionths, ONE) * ONE,
        }
    }
}
