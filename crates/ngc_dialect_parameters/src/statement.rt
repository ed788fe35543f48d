ghost use Rattle.std.specs.Prelude.{◌≡◌};

use ngc_dialect_numbers::Number;
use ngc_dialect_reader::{Keyword, Name};

/// A word with its value.
#[derive(Clone, Copy)]
pub struct Word {
    /// The letter, in upper case.
    pub letter: u8,
    pub value: Number,
    /// Whether the value is written with a point, or isn't a number alone.
    pub point: bool,
}

/// What a part of a line says, with its values.
#[derive(Clone, Copy)]
pub enum Statement {
    /// A block delete switch, 1 to 9, may skip the line.
    Delete(u8),
    LineNumber(Number),
    Percent,
    /// Grbl's `$H`.
    Home,
    Word(Word),
    /// Sets the parameter with this number; `None` makes it empty.
    Set(usize, Option<Number>),
    SetNamed(Name, Number),
    Label(Number),
    LabelNamed(Name),
    /// What the O word does, with this number of arguments: those of the line's values.
    Flow(Keyword, u8),
    /// Goes to the line with this number.
    GoTo(Number),
    /// The beginning of a loop: whether its condition holds, and the loop's number.
    Loop(bool, Number),
    /// The end of the loop with this number.
    EndLoop(Number),
}

impl Default for Statement {
    ghost use Rattle.ngc_dialect_parameters.specs.declared.statement.Statement.TheVariants.{Percent};

    ghost is_default = { λ s. s ≡ Percent };

    fn default() -> Statement {
        Statement::Percent
    }
}
