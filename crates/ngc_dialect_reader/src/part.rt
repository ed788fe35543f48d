ghost use Rattle.std.specs.Prelude.{◌≡◌};

/// An operator between two values of an expression.
#[derive(Clone, Copy)]
pub enum Operator {
    Power,
    Multiply,
    Divide,
    Modulo,
    Add,
    Subtract,
    Equal,
    NotEqual,
    Greater,
    NotLess,
    Less,
    NotGreater,
    And,
    Or,
    Xor,
}

/// A function of one value.
#[derive(Clone, Copy)]
pub enum Function {
    Absolute,
    ArcCosine,
    ArcSine,
    Cosine,
    Exponential,
    RoundDown,
    RoundUp,
    Logarithm,
    Round,
    Sine,
    SquareRoot,
    Tangent,
}

/// A word that says what an O word does.
#[derive(Clone, Copy)]
pub enum Keyword {
    Sub,
    EndSub,
    Call,
    Return,
    If,
    ElseIf,
    Else,
    EndIf,
    While,
    EndWhile,
    Do,
    Repeat,
    EndRepeat,
    Break,
    Continue,
}

/// A number that the text writes: its value in 10^-12, at most 10^9 in size, and whether it is
/// written with a point.
#[derive(Clone, Copy)]
pub struct Literal {
    pub value: i128,
    pub point: bool,
}

/// The place of a name in the line's text: the number of bytes from its first one on, and its length.
#[derive(Clone, Copy)]
pub struct Name {
    pub left: usize,
    pub size: usize,
}

/// What a part of a line does to a stack of values.
#[derive(Clone, Copy)]
pub enum PartKind {
    /// `/`: a block delete switch, 1 to 9, may skip the line.
    Delete(u8),
    /// `N`: the line's number is the value on top.
    LineNumber,
    /// The line is a percent sign.
    Percent,
    /// `$H`, by which Grbl moves to its switches.
    Home,
    /// Puts a number on top.
    Number(Literal),
    /// `#`: puts a parameter's value in place of its index.
    Parameter,
    /// `#<name>`: puts a named parameter's value on top.
    Named(Name),
    /// `EXISTS[#<name>]`: puts on top 1 if the name is set, else 0.
    Exists(Name),
    /// Changes the sign of the value on top.
    Negate,
    /// Puts a function's value in place of the value on top.
    Apply(Function),
    /// `ATAN[y]/[x]`: puts an angle in place of two values.
    ArcTangent,
    /// Puts an operator's result in place of two values.
    Operate(Operator),
    /// A word: its letter, in upper case, and its value on top.
    Word(u8),
    /// `#index = value`: sets a parameter to the value on top; its index is below that.
    Set,
    /// `#<name> = value`: sets a named parameter.
    SetNamed(Name),
    /// `O`: the line's label is the value on top.
    Label,
    /// `O<name>`: the line's label is a name.
    LabelNamed(Name),
    /// What the O word does, with this number of arguments on top.
    Flow(Keyword, u8),
    /// `IF [condition]`: what follows on the line is done only if the value on top isn't 0.
    When,
    /// `GOTO`: goes to the line with this number.
    GoTo,
    /// `WHILE [condition] DO n`: a loop's beginning; its number is on top, the condition below.
    Loop,
    /// `END n`: a loop's end.
    EndLoop,
}

/// A part of a line, and the number of bytes of the line's text from the part on.
#[derive(Clone, Copy)]
pub struct Part {
    pub kind: PartKind,
    pub left: usize,
}

impl Default for Part {
    ghost use Rattle.ngc_dialect_reader.specs.declared.part.PartKind.TheVariants.{Percent};

    ghost is_default = { λ t. t ≡ record { kind = Percent; left = 0 } };

    fn default() -> Part {
        Part {
            kind: PartKind::Percent,
            left: 0,
        }
    }
}
