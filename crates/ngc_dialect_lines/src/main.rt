//! Prints the parts of lines. Each line of standard input is a dialect, a colon, a blank and a line
//! in that dialect. What is printed for it is the line's parts, in their order, or its fault.
#![tactic(auto)]

use ngc_dialect_names::Dialect;
use ngc_dialect_reader::{DialectLine, Function, Keyword, Literal, Name, Operator, PartKind};
use std::io;

const ONE: u128 = 1_000_000_000_000;

fn print_literal(rt: &impl Print, literal: &Literal) -> io::Result<()> {
    let size = literal.value.unsigned_abs();
    let whole = size / ONE;
    let rest = size % ONE;
    let sign = if literal.value < 0 { "-" } else { "" };
    if rest != 0 {
        print!(rt; "{sign}{whole}.{rest:012}")
    } else if literal.point {
        print!(rt; "{sign}{whole}.")
    } else {
        print!(rt; "{sign}{whole}")
    }
}

fn print_name(rt: &impl Print, front: &str, line: &DialectLine, name: Name) -> io::Result<()> {
    print!(rt; "{front}<")?;
    for byte in line.name(name) {
        let letter = char::from(*byte);
        print!(rt; "{letter}")?;
    }
    print!(rt; ">")
}

fn operator_text(operator: Operator) -> &'static str {
    match operator {
        Operator::Power => "**",
        Operator::Multiply => "*",
        Operator::Divide => "/",
        Operator::Modulo => "MOD",
        Operator::Add => "+",
        Operator::Subtract => "-",
        Operator::Equal => "EQ",
        Operator::NotEqual => "NE",
        Operator::Greater => "GT",
        Operator::NotLess => "GE",
        Operator::Less => "LT",
        Operator::NotGreater => "LE",
        Operator::And => "AND",
        Operator::Or => "OR",
        Operator::Xor => "XOR",
    }
}

fn function_text(function: Function) -> &'static str {
    match function {
        Function::Absolute => "ABS",
        Function::ArcCosine => "ACOS",
        Function::ArcSine => "ASIN",
        Function::Cosine => "COS",
        Function::Exponential => "EXP",
        Function::RoundDown => "FIX",
        Function::RoundUp => "FUP",
        Function::Logarithm => "LN",
        Function::Round => "ROUND",
        Function::Sine => "SIN",
        Function::SquareRoot => "SQRT",
        Function::Tangent => "TAN",
    }
}

fn keyword_text(keyword: Keyword) -> &'static str {
    match keyword {
        Keyword::Sub => "sub",
        Keyword::EndSub => "endsub",
        Keyword::Call => "call",
        Keyword::Return => "return",
        Keyword::If => "if",
        Keyword::ElseIf => "elseif",
        Keyword::Else => "else",
        Keyword::EndIf => "endif",
        Keyword::While => "while",
        Keyword::EndWhile => "endwhile",
        Keyword::Do => "do",
        Keyword::Repeat => "repeat",
        Keyword::EndRepeat => "endrepeat",
        Keyword::Break => "break",
        Keyword::Continue => "continue",
    }
}

fn print_kind(rt: &impl Print, line: &DialectLine, kind: &PartKind) -> io::Result<()> {
    match kind {
        PartKind::Delete(level) => print!(rt; "/{level}"),
        PartKind::LineNumber => print!(rt; "N"),
        PartKind::Percent => print!(rt; "%"),
        PartKind::Home => print!(rt; "$H"),
        PartKind::Number(literal) => print_literal(rt, literal),
        PartKind::Parameter => print!(rt; "#"),
        PartKind::Named(name) => print_name(rt, "#", line, *name),
        PartKind::Exists(name) => print_name(rt, "EXISTS", line, *name),
        PartKind::Negate => print!(rt; "NEG"),
        PartKind::Apply(function) => {
            let text = function_text(*function);
            print!(rt; "{text}")
        }
        PartKind::ArcTangent => print!(rt; "ATAN"),
        PartKind::Operate(operator) => {
            let text = operator_text(*operator);
            print!(rt; "{text}")
        }
        PartKind::Word(letter) => {
            let letter = char::from(*letter);
            print!(rt; "{letter}")
        }
        PartKind::Set => print!(rt; "="),
        PartKind::SetNamed(name) => print_name(rt, "=", line, *name),
        PartKind::Label => print!(rt; "O"),
        PartKind::LabelNamed(name) => print_name(rt, "O", line, *name),
        PartKind::Flow(keyword, count) => {
            let text = keyword_text(*keyword);
            print!(rt; "{text}:{count}")
        }
        PartKind::When => print!(rt; "when"),
        PartKind::GoTo => print!(rt; "goto"),
        PartKind::Loop => print!(rt; "loop"),
        PartKind::EndLoop => print!(rt; "endloop"),
    }
}

fn print_line(
    rt: &impl Print,
    dialect: Dialect,
    text: &str,
    line: &mut DialectLine,
) -> io::Result<()> {
    match line.read(dialect, text.as_bytes()) {
        Ok(()) => {
            for (i, part) in line.parts.as_slice().iter().enumerate() {
                if i > 0 {
                    print!(rt; " ")?;
                }
                print_kind(rt, line, &part.kind)?;
            }
            println!(rt;)
        }
        Err(fault) => {
            let number = fault.cause.number();
            let column = fault.column;
            let cause = fault.cause;
            println!(rt; "fault {number} column {column}: {cause:?}")
        }
    }
}

fn main(rt: HostRuntime) -> io::Result<()> {
    let mut contents = DialectLine::empty();
    for line in rt.lines(rt.alloc()) {
        let line = line?;
        let read = line.as_str().split_once(": ");
        let Some((name, text)) = read else {
            println!(rt; "no dialect")?;
            continue;
        };
        match Dialect::named(name) {
            Some(dialect) => print_line(&rt, dialect, text, &mut contents)?,
            None => println!(rt; "no dialect")?,
        }
    }
    Ok(())
}
