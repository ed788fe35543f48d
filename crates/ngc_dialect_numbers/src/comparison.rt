//! Comparisons, and AND, OR and XOR.
ghost use Rattle.std.specs.Prelude.{◌≡◌};
ghost use Rattle.ngc_dialect_numbers.specs.Comparisons as spec;

use crate::number::{NEAR, Number};

// LinuxCNC's EQ and NE take numbers as equal that are nearer than this: 0.0001.
const TOLERANCE: u128 = 100_000_000;

impl Number {
    /// Returns what EQ tests: whether two numbers are less than 0.0001 apart.
    pub fn equals(self, other: Number) -> bool
        ensures { result ≡ spec.equals self other }
    {
        (self.trillionths() - other.trillionths()).unsigned_abs() < TOLERANCE
    }

    /// Returns what NE tests: whether two numbers are at least 0.0001 apart.
    pub fn differs(self, other: Number) -> bool
        ensures { result ≡ spec.differs self other }
    {
        !self.equals(other)
    }

    /// Returns what LT tests: whether the number is more than 10^-9 below another.
    pub fn is_below(self, other: Number) -> bool
        ensures { result ≡ spec.is_below self other }
    {
        self.trillionths() + NEAR < other.trillionths()
    }

    /// Returns what LE tests: whether the number is below another, or within 10^-9 above it.
    pub fn is_at_most(self, other: Number) -> bool
        ensures { result ≡ spec.is_at_most self other }
    {
        !other.is_below(self)
    }

    /// Returns what GT tests: whether the number is more than 10^-9 above another.
    pub fn is_above(self, other: Number) -> bool
        ensures { result ≡ spec.is_below other self }
    {
        other.is_below(self)
    }

    /// Returns what GE tests: whether the number is above another, or within 10^-9 below it.
    pub fn is_at_least(self, other: Number) -> bool
        ensures { result ≡ spec.is_at_most other self }
    {
        !self.is_below(other)
    }

    /// Returns whether the number is true, which is any other than 0.
    pub fn is_true(self) -> bool
        ensures { result ≡ spec.is_true self }
    {
        self.trillionths() != 0
    }

    /// Returns what AND tests: whether both numbers are true.
    pub fn and(self, other: Number) -> bool
        ensures { result ≡ spec.both self other }
    {
        self.is_true() && other.is_true()
    }

    /// Returns what OR tests: whether a number of the two is true.
    pub fn or(self, other: Number) -> bool
        ensures { result ≡ spec.either self other }
    {
        self.is_true() || other.is_true()
    }

    /// Returns what XOR tests: whether exactly one of two numbers is true.
    pub fn xor(self, other: Number) -> bool
        ensures { result ≡ spec.one_of self other }
    {
        self.is_true() != other.is_true()
    }
}
