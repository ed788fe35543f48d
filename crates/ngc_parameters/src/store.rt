ghost use Rattle.std.specs.Prelude.{◌≡◌, ℕ, ◌+◌, ◌≤◌, List, [], length, pos, IfOk, IfErr, ◌≢◌};
ghost use Rattle.std.specs.Prelude.{◌==◌, if◌then◌else◌};
ghost use Rattle.ngc_line_reader.specs.Grammar.{Reading};
ghost use Rattle.ngc_line_reader.specs.Scan.{Gives};
ghost use Rattle.ngc_line_reader.specs.Held.{Holds, AllWithinLimit};
ghost use Rattle.ngc_line_reader.specs.Shown.{view_parts, items_of, parsed_items};
ghost use Rattle.ngc_parameters.specs.EvaluateView.{held};
ghost use Rattle.ngc_parameters.specs.Meaning.{after_settings};
ghost use Rattle.ngc_parameters.specs.Stored.{parameters_of, changes_of, line_values, value_from};
ghost use Rattle.ngc_parameters.specs.Stored.{words_on, settings_on, values_in, IsSame};
ghost use Rattle.ngc_line_reader.specs.Words.{pairs_of};
ghost use Rattle.ngc_parameters.specs.Stored.{change_from, values_on};

use crate::change::Change;
use crate::evaluation::{evaluate, index_of};
use crate::fault::EvalFault;
use crate::parameters::Store;
use arrayvec::ArrayVec;
use ngc_fixed_length::Value;
use ngc_line_reader::{Line, LineView, Token, Word};
use std::alloc::Allocator;

const COUNT: usize = 5161;

/// The changes of a line's settings, from left to right.
#[derive(Drop)]
pub struct Changes {
    settings: ArrayVec<Change, 64>,
}

/// The values of a line's words, and the changes of its settings.
#[derive(Drop)]
pub struct LineValues {
    pub words: ArrayVec<Word, 64>,
    pub changes: Changes,
}

// Returns the value whose tokens begin at `first`.
fn value_at(parameters: &[Value], tokens: &[Token], first: u16) -> Result<Value, EvalFault>
    requires all { length parameters.now ≡ 5161 }
    requires short { length tokens.now ≤ 256 }
    ensures value { result ≡ value_from (held parameters.now) tokens.now first }
    ensures not_memory { IfErr result (λ e. e ≢ EvalFault.Memory) }
{
    let first = (first as usize).min(tokens.len());
    match evaluate(parameters, tokens.split_at(first).1) {
        Ok((value, _)) => Ok(value),
        Err(fault) => Err(fault),
    }
}

// Computes the values of the words.
#[tactic(auto, using(crate::proofs::StoredSteps::mapped))]
fn words_of(
    parameters: &[Value],
    line: LineView<'_>,
    words: &mut ArrayVec<Word, 64>,
) -> Result<(), EvalFault>
    requires { length parameters.now ≡ 5161 }
    ensures value { Gives (λ _. pairs_of words.new.items) result
        (words_on (held parameters.now) line.entry.tokens.now line.entry.words.now) }
    ensures not_memory { IfErr result (λ e. e ≢ EvalFault.Memory) }
{
    words.clear();
    for raw in line.words {
        match value_at(parameters, line.tokens, raw.first) {
            Ok(value) => words.push(Word {
                letter: raw.letter,
                value,
            }),
            Err(fault) => return Err(fault),
        }
    }
    Ok(())
}

fn change_of(
    parameters: &[Value],
    tokens: &[Token],
    index: u16,
    value: u16,
) -> Result<Change, EvalFault>
    requires all { length parameters.now ≡ 5161 }
    requires short { length tokens.now ≤ 256 }
    ensures value { IsSame result (change_from (held parameters.now) tokens.now index value) }
    ensures not_memory { IfErr result (λ e. e ≢ EvalFault.Memory) }
{
    let place = match value_at(parameters, tokens, index) {
        Ok(place) => place,
        Err(fault) => return Err(fault),
    };
    let index = match index_of(place) {
        Ok(index) => index,
        Err(fault) => return Err(fault),
    };
    match value_at(parameters, tokens, value) {
        Ok(value) => Ok(Change { index, value }),
        Err(fault) => Err(fault),
    }
}

// Computes the changes of the settings.
#[tactic(auto, using(crate::proofs::StoredSteps::mapped))]
fn changes_of_line(
    parameters: &[Value],
    line: LineView<'_>,
    changes: &mut Changes,
) -> Result<(), EvalFault>
    requires { length parameters.now ≡ 5161 }
    ensures value { Gives (λ _. changes_of changes.new) result
        (settings_on (held parameters.now) line.entry.tokens.now line.entry.settings.now) }
    ensures not_memory { IfErr result (λ e. e ≢ EvalFault.Memory) }
{
    changes.settings.clear();
    for raw in line.settings {
        match change_of(parameters, line.tokens, raw.index, raw.value) {
            Ok(change) => changes.settings.push(change),
            Err(fault) => return Err(fault),
        }
    }
    Ok(())
}

// Computes the values of words and the changes of settings.
fn line_of(
    parameters: &[Value],
    line: LineView<'_>,
    values: &mut LineValues,
) -> Result<(), EvalFault>
    requires { length parameters.now ≡ 5161 }
    ensures value { Gives (λ _. values_in values.new) result
        (values_on (held parameters.now) (view_parts line.entry)) }
    ensures not_memory { IfErr result (λ e. e ≢ EvalFault.Memory) }
{
    match words_of(parameters, line, &mut values.words) {
        Ok(()) => changes_of_line(parameters, line, &mut values.changes),
        Err(fault) => Err(fault),
    }
}

impl LineValues {
    /// Returns the values of an empty line.
    pub fn empty() -> LineValues
        ensures { values_in result ≡ ([], []) }
    {
        LineValues {
            words: ArrayVec::new(),
            changes: Changes {
                settings: ArrayVec::new(),
            },
        }
    }
}

impl<A: Allocator> Store<A> {
    /// Returns a store of all parameters, each 0.
    pub fn new(alloc: A) -> Result<Store<A>, EvalFault>
        ensures zero { IfOk result (λ s. (k : ℕ) → parameters_of s k ≡ pos 0) }
        ensures refused { IfErr result (λ e. e ≡ EvalFault.Memory) }
    {
        let mut values = match Vec::with_capacity(alloc, COUNT) {
            Ok(values) => values,
            Err(_) => return Err(EvalFault::Memory),
        };
        while values.len() < COUNT {
            if values.push(Value::zero()).is_err() {
                return Err(EvalFault::Memory);
            }
        }
        Ok(Store { values })
    }

    /// Computes the values of a line's words and the changes of its settings, and puts them in
    /// `values`. All are computed from the current parameters. After a fault the contents of
    /// `values` are unspecified.
    pub fn read(&self, line: LineView<'_>, values: &mut LineValues) -> Result<(), EvalFault>
        ensures value { (bytes : List ℕ) (r : Reading) →
            items_of (view_parts line.entry) ≡ parsed_items bytes r → AllWithinLimit r.items →
            Gives (λ _. values_in values.new) result
            (line_values (parameters_of self.now) r.items) }
        ensures not_memory { IfErr result (λ e. e ≢ EvalFault.Memory) }
    {
        line_of(self.values.as_slice(), line, values)
    }

    /// Returns the values of a line's words and the changes of its settings. All are computed from
    /// the current parameters.
    pub fn words(&self, line: &Line) -> Result<(ArrayVec<Word, 64>, Changes), EvalFault>
        ensures value { (bytes : List ℕ) (r : Reading) → Holds bytes line.now r →
            AllWithinLimit r.items →
            Gives (λ x. (pairs_of x.0.items, changes_of x.1)) result
            (line_values (parameters_of self.now) r.items) }
        ensures not_memory { IfErr result (λ e. e ≢ EvalFault.Memory) }
    {
        let mut values = LineValues::empty();
        match self.read(line.view(), &mut values) {
            Ok(()) => {
                let LineValues { words, changes } = values;
                Ok((words, changes))
            }
            Err(fault) => Err(fault),
        }
    }

    #[tactic(auto, using(crate::proofs::StoredSteps::changed))]
    fn change(&mut self, change: Change)
        ensures { (k : ℕ) → parameters_of self.new k
            ≡ (if k == change.index then change.value else parameters_of self.old k) }
    {
        self.values[change.index] = change.value;
    }

    /// Makes the changes, from left to right, so that the last change of a parameter counts.
    pub fn make(&mut self, changes: &Changes)
        ensures { (k : ℕ) → parameters_of self.new k
            ≡ after_settings (changes_of changes.now) (parameters_of self.old) k }
    {
        for change in changes.settings.as_slice() {
            self.change(*change);
        }
    }

    /// Makes the changes, from left to right, so that the last change of a parameter counts.
    pub fn apply(&mut self, changes: Changes)
        ensures { (k : ℕ) → parameters_of self.new k
            ≡ after_settings (changes_of changes) (parameters_of self.old) k }
    {
        self.make(&changes);
    }
}
