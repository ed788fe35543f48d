use ngc_dialect_numbers::Number;

/// What a step does beside going to a line.
#[derive(Clone, Copy)]
pub enum Effect {
    Stay,
    /// A call begins: the line's arguments are its parameters.
    Enter,
    /// A call ends, and returns a value.
    Return(Option<Number>),
    /// The program ends.
    End,
}
