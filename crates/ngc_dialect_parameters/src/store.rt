ghost use Rattle.std.specs.Prelude.{◌≡◌, ◌<◌, ◌↔◌, IfOk, IfErr, OnOk, OnErr, IsTrue, None, true, slice_index_or};
ghost use Rattle.ngc_dialect_parameters.specs.Names.{is_global as is_global_name};
ghost use Rattle.ngc_dialect_parameters.specs.Stored.{number_in, name_in, depth_of, dialect_of};
ghost use Rattle.ngc_dialect_parameters.specs.Stored.{HasLocals, stored_in};
ghost use Rattle.ngc_dialect_parameters.specs.Storing as spec;
ghost use Rattle.ngc_dialect_parameters.specs.Storing.{Stores};

use crate::fault::StoreFault;
use crate::names::Names;
use crate::parameters::{Call, Parameters};
use crate::rules::{COUNT, local_count};
use crate::statement::Statement;
use crate::values::LineValues;
use arrayvec::ArrayVec;
use ngc_dialect_names::Dialect;
use ngc_dialect_numbers::Number;
use ngc_dialect_reader::DialectLine;
use std::alloc::{AllocError, Allocator};
use std::mem;

/// The greatest number of calls inside one another.
const DEPTH: usize = 10;

// Returns whether a name belongs to all calls.
pub(crate) fn is_global(name: &[u8]) -> bool
    ensures { result ≡ is_global_name name.now }
{
    match name {
        [b'_', ..] => true,
        _ => false,
    }
}

// Returns the value at an index, or `None` after the last one.
fn value_at(values: &[Option<Number>], index: usize) -> Option<Number>
    ensures { result ≡ slice_index_or values.now index None }
{
    match values.get(index) {
        Some(value) => *value,
        None => None,
    }
}

impl<A: Allocator + Copy> Parameters<A> {
    /// Returns the parameters of a program before its first line: none is set.
    pub fn new(alloc: A, dialect: Dialect) -> Result<Parameters<A>, StoreFault>
        ensures none { IfOk result (λ p. stored_in p ≡ spec.none_stored dialect) }
        ensures refused { IfErr result (λ e. e ≡ StoreFault.Memory) }
    {
        let mut numbers = match Vec::with_capacity(alloc, COUNT) {
            Ok(numbers) => numbers,
            Err(_) => return Err(StoreFault::Memory),
        };
        while numbers.len() < COUNT {
            if numbers.push(None).is_err() {
                return Err(StoreFault::Memory);
            }
        }
        Ok(Parameters {
            dialect,
            alloc,
            numbers,
            globals: Names::new(alloc),
            locals: Names::new(alloc),
            calls: Vec::new(alloc),
        })
    }

    /// Returns the dialect of the program.
    pub fn dialect(&self) -> Dialect
        ensures { result ≡ dialect_of self.now }
    {
        self.dialect
    }

    /// Returns the value to which the program has set a numbered parameter, or `None` if it is empty.
    pub fn numbered(&self, index: usize) -> Option<Number>
        ensures { result ≡ number_in self.now index }
    {
        if index < self.numbers.len() {
            self.numbers[index]
        } else {
            None
        }
    }

    /// Returns the value to which the program has set a name, in upper case, of the current call or of
    /// all calls, or `None` if it isn't set.
    pub fn named(&self, name: &[u8]) -> Option<Number>
        ensures { result ≡ name_in self.now name.now }
    {
        if is_global(name) {
            self.globals.value(name)
        } else {
            self.locals.value(name)
        }
    }

    /// Sets a numbered parameter, from 1 to 5999; `None` makes it empty.
    pub fn set(&mut self, index: usize, value: Option<Number>)
        ensures { stored_in self.new ≡ spec.with_number index value (stored_in self.old) }
    {
        if index < self.numbers.len() {
            self.numbers[index] = value;
        }
    }

    // Returns whether there is room for a name.
    fn has_room(&self, name: &[u8]) -> bool
        ensures { result ≡ spec.has_room name.now (stored_in self.now) }
    {
        if is_global(name) {
            self.globals.has_room(name)
        } else {
            self.locals.has_room(name)
        }
    }

    // Sets a name for which there is room.
    fn store_name(&mut self, name: &[u8], value: Number) -> Result<(), AllocError>
        requires { spec.has_room name.now (stored_in self.old) ≡ true }
        ensures set { OnOk result (stored_in self.new ≡ spec.named name.now value (stored_in self.old)) }
        ensures refused { OnErr result (stored_in self.new ≡ stored_in self.old) }
    {
        if is_global(name) {
            self.globals.set(self.alloc, name, value)
        } else {
            self.locals.set(self.alloc, name, value)
        }
    }

    /// Sets a name, in upper case, of the current call or of all calls. The errors are a name too many
    /// and refused memory.
    pub fn set_named(&mut self, name: &[u8], value: Number) -> Result<(), StoreFault>
        ensures set { Stores result (stored_in self.new)
            (spec.with_name name.now value (stored_in self.old)) }
        ensures refused { OnErr result (stored_in self.new ≡ stored_in self.old) }
    {
        if !self.has_room(name) {
            return Err(StoreFault::TooManyNames);
        }
        match self.store_name(name, value) {
            Ok(()) => Ok(()),
            Err(_) => Err(StoreFault::Memory),
        }
    }

    fn make(&mut self, line: &DialectLine, statement: &Statement) -> Result<(), StoreFault>
        ensures { Stores result (stored_in self.new)
            (spec.set_by line.now.text.items statement.now (stored_in self.old)) }
    {
        match statement {
            Statement::Set(index, value) => {
                self.set(*index, *value);
                Ok(())
            }
            Statement::SetNamed(name, value) => self.set_named(line.name(*name), *value),
            _ => Ok(()),
        }
    }

    /// Makes the settings of a line, from left to right, so that the last setting of a parameter
    /// counts. After a fault only those before it are made.
    pub fn apply(&mut self, line: &DialectLine, values: &LineValues) -> Result<(), StoreFault>
        ensures { Stores result (stored_in self.new)
            (spec.set_by_all line.now.text.items values.now.statements.items (stored_in self.old)) }
    {
        for statement in values.statements.as_slice() {
            match self.make(line, statement) {
                Ok(()) => {}
                Err(fault) => return Err(fault),
            }
        }
        Ok(())
    }

    fn saved(&self) -> ArrayVec<Option<Number>, 33>
        ensures { HasLocals self.now result.items }
    {
        let mut saved = ArrayVec::new();
        for index in 0..local_count(self.dialect) {
            saved.push(self.numbered(index + 1));
        }
        saved
    }

    fn set_locals(&mut self, values: &[Option<Number>])
        ensures { stored_in self.new ≡ spec.with_locals values.now (stored_in self.old) }
    {
        for index in 0..local_count(self.dialect) {
            self.set(index + 1, value_at(values, index));
        }
    }
    /// Begins a call: the numbered parameters from 1 on that belong to calls (30, or 33 in Fanuc's
    /// dialect) take the values of the arguments, and those without one become unset. Names that
    /// don't begin with `_` are unset.
    pub fn enter(&mut self, arguments: &[Option<Number>]) -> Result<(), StoreFault>
        ensures call { Stores result (stored_in self.new)
            (spec.called arguments.now (stored_in self.old)) }
        ensures refused { OnErr result (stored_in self.new ≡ stored_in self.old) }
    {
        if self.calls.len() >= DEPTH {
            return Err(StoreFault::TooDeep);
        }
        let numbers = self.saved();
        let names = mem::replace(&mut self.locals, Names::new(self.alloc));
        match self.calls.push(Call { numbers, names }) {
            Ok(()) => {
                self.set_locals(arguments);
                Ok(())
            }
            Err(failed) => {
                let Call { numbers: _, names } = failed.value;
                self.locals = names;
                Err(StoreFault::Memory)
            }
        }
    }

    /// Ends the current call: the parameters that belong to calls are those of its caller again. Does
    /// nothing outside of calls, and returns whether there was a call.
    pub fn leave(&mut self) -> bool
        ensures call { IsTrue result ↔ (0 < depth_of self.old) }
        ensures left { stored_in self.new ≡ spec.left (stored_in self.old) }
    {
        match self.calls.pop() {
            Some(call) => {
                let Call { numbers, names } = call;
                self.set_locals(numbers.as_slice());
                self.locals = names;
                true
            }
            None => false,
        }
    }
}
