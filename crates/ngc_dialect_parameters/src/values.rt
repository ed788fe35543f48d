ghost use Rattle.std.specs.Prelude.{◌≡◌, ◌≤◌, ◌<◌, [], Some};
ghost use Rattle.arrayvec.specs.ArrayVec.{array_vec_len};
ghost use Rattle.ngc_dialect_parameters.specs.Evaluation as spec;
ghost use Rattle.ngc_dialect_parameters.specs.Evaluation.{sums_of};

use crate::operation::number_of;
use crate::statement::{Statement, Word};
use arrayvec::ArrayVec;
use ngc_dialect_numbers::Number;
use ngc_dialect_reader::PartKind;

/// The values of a line.
#[derive(Drop)]
pub struct LineValues {
    /// What the line says, from left to right. A word whose value is empty is left out.
    pub statements: ArrayVec<Statement, 128>,
    /// The arguments of what an O word does.
    pub arguments: ArrayVec<Option<Number>, 128>,
    // Whether the value on top is written with a point, or isn't a number alone.
    point: bool,
}

impl LineValues {
    /// Returns the values of an empty line.
    pub fn empty() -> LineValues
        ensures statements { result.statements.items ≡ [] }
        ensures arguments { result.arguments.items ≡ [] }
    {
        LineValues {
            statements: ArrayVec::new(),
            arguments: ArrayVec::new(),
            point: true,
        }
    }

    pub(crate) fn clear(&mut self)
        ensures { sums_of self.new ≡ spec.none }
    {
        self.statements.clear();
        self.arguments.clear();
        self.point = true;
    }

    // Puts a value on top. `point` says whether it is written with a point, or isn't a number alone.
    pub(crate) fn push(&mut self, value: Option<Number>, point: bool)
        requires { array_vec_len self.old.arguments < 128 }
        ensures { sums_of self.new ≡ spec.push value point (sums_of self.old) }
    {
        self.arguments.push(value);
        self.point = point;
    }

    // Takes the value on top.
    pub(crate) fn pop(&mut self) -> Option<Number>
        ensures value { result ≡ spec.top (sums_of self.old) }
        ensures rest { sums_of self.new ≡ spec.pop (sums_of self.old) }
        ensures arguments { array_vec_len self.new.arguments ≤ array_vec_len self.old.arguments }
        ensures statements { array_vec_len self.new.statements ≡ array_vec_len self.old.statements }
    {
        match self.arguments.pop() {
            Some(value) => value,
            None => None,
        }
    }

    pub(crate) fn point(&self) -> bool
        ensures { result ≡ (sums_of self.now).point }
    {
        self.point
    }

    // Returns the value on top.
    fn top(&self) -> Option<Number>
        ensures { result ≡ spec.top (sums_of self.now) }
    {
        match self.arguments.as_slice().last() {
            Some(value) => *value,
            None => None,
        }
    }

    // Returns whether nothing after a part is done: it is a condition, and the value on top is 0.
    pub(crate) fn is_stopped(&self, kind: PartKind) -> bool
        ensures { result ≡ spec.is_stopped kind (sums_of self.now) }
    {
        match kind {
            PartKind::When => !number_of(self.top()).is_true(),
            _ => false,
        }
    }

    // Adds a statement.
    pub(crate) fn say(&mut self, statement: Statement)
        requires { array_vec_len self.old.statements < 128 }
        ensures { sums_of self.new ≡ spec.say statement (sums_of self.old) }
    {
        self.statements.push(statement);
    }

    // Says the word of a number, which then need not be put on top.
    #[inline]
    pub(crate) fn say_word(&mut self, letter: u8, value: Number, point: bool)
        requires { array_vec_len self.old.statements < 128 }
        ensures { sums_of self.new
            ≡ spec.word letter (spec.push (Some value) point (sums_of self.old)) }
    {
        self.point = point;
        self.say(Statement::Word(Word {
            letter,
            value,
            point,
        }));
    }
}
