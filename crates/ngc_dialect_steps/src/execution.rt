//! The execution of a program's lines.
ghost use Rattle.std.specs.Prelude.{◌≡◌, None};

use ngc_dialect_flow::{Effect, State, Table, leave_with};
use ngc_dialect_names::Dialect;
use ngc_dialect_numbers::Number;
use ngc_dialect_parameters::{Control, LineValues, Parameters, StoreFault};
use ngc_dialect_reader::DialectLine;
use std::alloc::Global;
use std::io;

/// A control that has no parameters of its own.
#[derive(Clone, Copy)]
struct NoControl;

impl Control for NoControl {
    ghost number = { λ _ _. None };

    ghost name = { λ _ _. None };

    fn numbered(&self, _index: usize) -> Option<Number> {
        None
    }

    fn named(&self, _bytes: &[u8]) -> Option<Number> {
        None
    }
}

/// One more than the greatest number of lines that are executed.
const MOST: u32 = 2_000_001;

/// The greatest number of lines that are printed.
const PRINTED: u32 = 40;

/// Why a program isn't executed further: the number of a fault.
#[derive(Clone, Copy)]
enum Stop {
    End,
    Fault(u16),
}

/// The execution of a program.
#[derive(Drop)]
pub struct Execution {
    parameters: Parameters<Global>,
    table: Table<Global>,
    state: State,
    line: DialectLine,
    values: LineValues,
}

fn stored(done: Result<(), StoreFault>) -> Result<(), Stop> {
    match done {
        Ok(()) => Ok(()),
        Err(fault) => Err(Stop::Fault(fault.number())),
    }
}

impl Execution {
    /// Returns a program before its first line, or `None` if memory is refused.
    pub fn begin(alloc: Global, dialect: Dialect, lines: &[&[u8]]) -> Option<Execution> {
        Some(Execution {
            parameters: Parameters::new(alloc, dialect).ok()?,
            table: Table::new(alloc, dialect, lines).ok()?,
            state: State::new(0),
            line: DialectLine::empty(),
            values: LineValues::empty(),
        })
    }

    // Makes the parameters what they are after a step.
    fn take_effect(&mut self, effect: Effect) -> Result<(), Stop> {
        match effect {
            Effect::Stay => Ok(()),
            Effect::Enter => stored(self.parameters.enter(self.values.arguments.as_slice())),
            Effect::Return(value) => stored(leave_with(&mut self.parameters, value)),
            Effect::End => Err(Stop::End),
        }
    }

    fn evaluate(&mut self, text: &[u8]) -> Result<(), Stop> {
        match self.line.read(self.parameters.dialect(), text) {
            Ok(()) => {}
            Err(fault) => return Err(Stop::Fault(fault.cause.number())),
        }
        if !self.state.needs_values(&self.table) {
            return Ok(());
        }
        match self
            .parameters
            .evaluate(&NoControl, &self.line, &mut self.values)
        {
            Ok(()) => stored(self.parameters.apply(&self.line, &self.values)),
            Err(fault) => Err(Stop::Fault(fault.cause.number())),
        }
    }

    // Executes one line.
    fn step(&mut self, text: &[u8]) -> Result<(), Stop> {
        self.evaluate(text)?;
        match self.state.next(&self.table, &self.line, &self.values) {
            Ok(effect) => self.take_effect(effect),
            Err(fault) => Err(Stop::Fault(fault.number())),
        }
    }

    /// Executes the program, and prints the numbers of its lines.
    pub fn print(mut self, rt: &impl Print, lines: &[&[u8]]) -> io::Result<()> {
        for count in 1..=MOST {
            let index = self.state.line();
            if index >= lines.len() {
                return println!(rt; "end");
            }
            let number = index.saturating_add(1);
            if count <= PRINTED {
                print!(rt; "{number} ")?;
            }
            match self.step(lines[index]) {
                Ok(()) => {}
                Err(Stop::End) => return println!(rt; "end"),
                Err(Stop::Fault(fault)) => {
                    return println!(rt; "fault {fault} on line {number}");
                }
            }
        }
        println!(rt; "no end")
    }
}
