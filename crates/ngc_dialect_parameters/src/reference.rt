//! What the parameters that a line names have for values, and which of them it may set.
ghost use Rattle.std.specs.Prelude.{◌≡◌};
ghost use Rattle.ngc_dialect_parameters.specs.Known as spec;
ghost use Rattle.ngc_dialect_parameters.specs.Known.{known};
ghost use Rattle.ngc_dialect_parameters.specs.Stored.{dialect_of, number_in};
ghost use Rattle.ngc_dialect_parameters.specs.Settings.{after as value_after, after_all as value_after_all};

use crate::control::Control;
use crate::fault::Cause;
use crate::parameters::Parameters;
use crate::rules::{COUNT, first_of_control, has_macros};
use crate::statement::Statement;
use crate::store::is_global;
use ngc_dialect_numbers::Number;
use std::alloc::Allocator;

// Returns the value of a parameter after a statement, by that before it.
fn after(statement: &Statement, index: usize, before: Option<Number>) -> Option<Number>
    ensures { result ≡ value_after statement.now index before }
{
    match statement {
        Statement::Set(changed, value) if index == *changed && *changed < COUNT => *value,
        _ => before,
    }
}

// Returns the value of a parameter after statements, by that before them.
fn after_all(statements: &[Statement], index: usize, before: Option<Number>) -> Option<Number>
    ensures { result ≡ value_after_all statements.now index before }
{
    let mut value = before;
    for statement in statements {
        value = after(statement, index, value);
    }
    value
}

// Returns the value of a parameter of the control, or that to which the program has set it.
fn from_control(control: Option<Number>, set: Option<Number>) -> Result<Option<Number>, Cause>
    ensures { result ≡ spec.from_control control set }
{
    match (control, set) {
        (Some(value), _) => Ok(Some(value)),
        (None, Some(value)) => Ok(Some(value)),
        (None, None) => Err(Cause::Unset),
    }
}

impl<A: Allocator + Copy> Parameters<A> {
    // Returns the value of a parameter of the program.
    fn own(&self, done: &[Statement], index: usize) -> Option<Number>
        ensures { result ≡ spec.own (dialect_of self.now) done.now index (number_in self.now index) }
    {
        let set = self.numbered(index);
        if has_macros(self.dialect) {
            return after_all(done, index, set);
        }
        match set {
            Some(value) => Some(value),
            None => Some(Number::truth(false)),
        }
    }

    /// Returns the value of a numbered parameter on a line of which some statements are done.
    pub(crate) fn value<C: Control>(
        &self,
        control: &C,
        done: &[Statement],
        index: usize,
    ) -> Result<Option<Number>, Cause>
        ensures { result ≡ spec.value (known self.now (C.number control.now) (C.name control.now))
            done.now index }
    {
        if index < first_of_control(self.dialect) {
            Ok(self.own(done, index))
        } else {
            from_control(control.numbered(index), self.numbered(index))
        }
    }

    fn control_name<C: Control>(&self, control: &C, name: &[u8]) -> Option<Number>
        ensures { result ≡ spec.control_name
            (known self.now (C.number control.now) (C.name control.now)) name.now }
    {
        if is_global(name) {
            control.named(name)
        } else {
            None
        }
    }

    /// Returns the value of a name, or `None` if it isn't set.
    pub(crate) fn found<C: Control>(&self, control: &C, name: &[u8]) -> Option<Number>
        ensures { result ≡ spec.found (known self.now (C.number control.now) (C.name control.now))
            name.now }
    {
        match self.control_name(control, name) {
            Some(value) => Some(value),
            None => self.named(name),
        }
    }

    /// Returns the number of a parameter that a line may set.
    pub(crate) fn settable<C: Control>(&self, control: &C, index: usize) -> Result<usize, Cause>
        ensures { result ≡ spec.settable
            (known self.now (C.number control.now) (C.name control.now)) index }
    {
        let own = index < first_of_control(self.dialect) && index != 0;
        if own {
            return Ok(index);
        }
        if has_macros(self.dialect) || index >= COUNT || control.numbered(index).is_some() {
            return Err(Cause::ReadOnly);
        }
        Ok(index)
    }

    /// Returns whether a line may set a name.
    pub(crate) fn is_settable<C: Control>(&self, control: &C, name: &[u8]) -> bool
        ensures { result ≡ spec.is_settable
            (known self.now (C.number control.now) (C.name control.now)) name.now }
    {
        self.control_name(control, name).is_none()
    }
}
