/// A part of a sentence.
#[derive(Clone, Copy)]
pub enum Part<'a> {
    /// A text, as it is.
    Text(&'a [u8]),
    /// A whole number, in decimal.
    Number(u128),
    /// A whole number that may be below zero, in decimal: `-5`.
    Signed(i64),
    /// A size in nanometres, as millimetres without the unit: `0.5`.
    Size(u128),
    /// A length in nanometres, as millimetres without the unit: `-0.5`.
    Length(i64),
    /// A length in nanometres, as millimetres with the unit: `-0.5 mm`.
    Millimetres(i64),
    /// A number of thousandths, with the decimals that it needs: `12.5`.
    Thousandths(u128),
    /// A tool by its number: `tool 3`.
    Tool(u32),
    /// Whole seconds and thousandths, as hours, minutes and seconds: `1:02:03.045`.
    Clock(u128, u128),
    /// Whole seconds and thousandths, as a number: `3723.045`.
    Seconds(u128, u128),
}
