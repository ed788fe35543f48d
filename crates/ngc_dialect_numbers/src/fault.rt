/// The reasons why an operation has no value.
#[derive(Clone, Copy, Debug, PartialEq, Eq)]
pub enum NoValue {
    /// A value is over 1,000,000,000.
    OutOfRange,
    /// The divisor is 0.
    DivisionByZero,
    /// The square root is that of a negative number.
    NegativeRoot,
    /// The arc sine or arc cosine is that of a number beyond 1.
    BeyondOne,
    /// The logarithm is that of a number that is not above 0.
    NotAboveZero,
    /// The power of a negative number is not whole.
    NegativeBase,
    /// The power of 0 is below 0.
    ZeroBase,
    /// The tangent is that of a right angle.
    RightAngle,
}
