ghost use Rattle.std.specs.Prelude.{◌≡◌};

use ngc_fixed_length::Value;

/// An operator between two values in brackets.
#[derive(Clone, Copy)]
pub enum Operator {
    Add,
    Subtract,
    Multiply,
    Divide,
}

/// A part of a real value.
#[derive(Clone, Copy)]
pub enum Symbol {
    Number(Value),
    /// `#`: the real value after it is a parameter's index.
    Parameter,
    Open,
    Close,
    Operator(Operator),
}

/// A part of a real value, and the column, from 1, of its first byte.
#[derive(Clone, Copy)]
pub struct Token {
    pub symbol: Symbol,
    pub column: u16,
}

impl Default for Token {
    ghost use Rattle.ngc_line_reader.specs.declared.token.Symbol.TheVariants.{Close};

    ghost is_default = { λ t. t ≡ record { symbol = Close; column = 0 } };

    fn default() -> Token {
        Token {
            symbol: Symbol::Close,
            column: 0,
        }
    }
}
