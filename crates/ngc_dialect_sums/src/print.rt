//! What lines say with their values, printed.

use ngc_dialect_numbers::Number;
use ngc_dialect_parameters::{LineValues, Statement, Word};
use ngc_dialect_reader::{DialectLine, Keyword, Name};
use std::{fmt, io};

const ONE: u128 = 1_000_000_000_000;

/// A number, as it is printed: with a point if it has decimals, or if `point` says so.
#[derive(Clone, Copy)]
struct Shown {
    number: Number,
    point: bool,
}

impl fmt::Display for Shown {
    fn fmt<W: fmt::Write>(&self, f: &mut fmt::Formatter<W>) -> fmt::Result {
        let trillionths = self.number.trillionths();
        let size = trillionths.unsigned_abs();
        if trillionths < 0 {
            write!(f, "-")?;
        }
        let whole = size / ONE;
        let decimals = size % ONE;
        if decimals != 0 {
            write!(f, "{whole}.{decimals:012}")
        } else if self.point {
            write!(f, "{whole}.")
        } else {
            write!(f, "{whole}")
        }
    }
}

fn plain(number: Number) -> Shown {
    Shown {
        number,
        point: false,
    }
}

fn print_value(rt: &impl Print, value: Option<Number>) -> io::Result<()> {
    match value {
        Some(number) => print!(rt; "{}", plain(number)),
        None => print!(rt; "empty"),
    }
}

fn print_name(rt: &impl Print, front: &str, line: &DialectLine, name: Name) -> io::Result<()> {
    print!(rt; "{front}<")?;
    for byte in line.name(name) {
        let letter = char::from(*byte);
        print!(rt; "{letter}")?;
    }
    print!(rt; ">")
}

fn keyword_text(keyword: Keyword) -> &'static str {
    match keyword {
        Keyword::Sub => "sub",
        Keyword::EndSub => "endsub",
        Keyword::Call => "call",
        Keyword::Return => "return",
        Keyword::If => "if",
        Keyword::ElseIf => "elseif",
        Keyword::Else => "else",
        Keyword::EndIf => "endif",
        Keyword::While => "while",
        Keyword::EndWhile => "endwhile",
        Keyword::Do => "do",
        Keyword::Repeat => "repeat",
        Keyword::EndRepeat => "endrepeat",
        Keyword::Break => "break",
        Keyword::Continue => "continue",
    }
}

fn print_word(rt: &impl Print, word: &Word) -> io::Result<()> {
    let letter = char::from(word.letter);
    let value = Shown {
        number: word.value,
        point: word.point,
    };
    print!(rt; "{letter}{value}")
}

fn print_statement(rt: &impl Print, line: &DialectLine, statement: &Statement) -> io::Result<()> {
    match statement {
        Statement::Delete(level) => print!(rt; "/{level}"),
        Statement::LineNumber(number) => print!(rt; "N{}", plain(*number)),
        Statement::Percent => print!(rt; "%"),
        Statement::Home => print!(rt; "$H"),
        Statement::Word(word) => print_word(rt, word),
        Statement::Set(index, value) => {
            print!(rt; "#{index}=")?;
            print_value(rt, *value)
        }
        Statement::SetNamed(name, value) => {
            print_name(rt, "#", line, *name)?;
            print!(rt; "={}", plain(*value))
        }
        Statement::Label(number) => print!(rt; "O{}", plain(*number)),
        Statement::LabelNamed(name) => print_name(rt, "O", line, *name),
        Statement::Flow(keyword, count) => {
            let text = keyword_text(*keyword);
            print!(rt; "{text}:{count}")
        }
        Statement::GoTo(number) => print!(rt; "goto {}", plain(*number)),
        Statement::Loop(condition, number) => {
            let word = if *condition { "loop" } else { "pass" };
            print!(rt; "{word} {}", plain(*number))
        }
        Statement::EndLoop(number) => print!(rt; "endloop {}", plain(*number)),
    }
}

/// Prints what a line says, and then its arguments.
pub fn print_values(rt: &impl Print, line: &DialectLine, values: &LineValues) -> io::Result<()> {
    for (i, statement) in values.statements.as_slice().iter().enumerate() {
        if i > 0 {
            print!(rt; " ")?;
        }
        print_statement(rt, line, statement)?;
    }
    for value in values.arguments.as_slice() {
        print!(rt; " [")?;
        print_value(rt, *value)?;
        print!(rt; "]")?;
    }
    println!(rt;)
}
