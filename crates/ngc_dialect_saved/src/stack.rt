//! The modes that are saved, at each level of calls.
ghost use Rattle.std.specs.Prelude.{◌≡◌, IfOk, OnOk};
ghost use Rattle.ngc_dialect_saved.specs.Stack as spec;
ghost use Rattle.ngc_dialect_saved.specs.Stack.{stack_of};

use crate::modes::SavedModes;
use std::alloc::{AllocError, Allocator};

/// What is saved at a level of calls.
#[derive(Clone, Copy)]
pub struct SavedLevel {
    /// The modes that M70 or M73 saved.
    pub modes: Option<SavedModes>,
    /// Whether the end of the level restores them: after M73, also if M70 has saved others since.
    pub returns: bool,
}

/// What is saved at the present level, and at those of its callers.
#[derive(Drop)]
pub struct SavedStack<A: Allocator> {
    pub here: SavedLevel,
    /// The outermost first.
    pub callers: Vec<SavedLevel, A>,
}

// Returns a level at which nothing is saved.
fn nothing() -> SavedLevel
    ensures { result ≡ spec.nothing }
{
    SavedLevel {
        modes: None,
        returns: false,
    }
}

// Returns what a caller has saved, if there is a caller.
fn of_caller(caller: Option<SavedLevel>) -> SavedLevel
    ensures { result ≡ spec.of_caller caller }
{
    match caller {
        None => nothing(),
        Some(level) => level,
    }
}

impl<A: Allocator> SavedStack<A> {
    /// Returns the main program's level, at which nothing is saved.
    pub fn new(alloc: A) -> SavedStack<A>
        ensures { stack_of result ≡ spec.no_stack }
    {
        SavedStack {
            here: nothing(),
            callers: Vec::new(alloc),
        }
    }

    /// Saves modes at the present level. `returns` says that its end restores them.
    pub fn save(&mut self, returns: bool, modes: SavedModes)
        ensures { stack_of self.new ≡ spec.saved returns modes (stack_of self.old) }
    {
        self.here = SavedLevel {
            modes: Some(modes),
            returns: returns || self.here.returns,
        };
    }

    /// Forgets what the present level saved.
    pub fn forget(&mut self)
        ensures { stack_of self.new ≡ spec.forgotten (stack_of self.old) }
    {
        self.here.modes = None;
    }

    /// Begins a call, in which nothing is saved yet. Nothing is stated of the levels if memory ran out.
    pub fn enter(&mut self) -> Result<(), AllocError>
        ensures { OnOk result (stack_of self.new ≡ spec.entered (stack_of self.old)) }
    {
        match self.callers.push(self.here) {
            Ok(()) => {
                self.here = nothing();
                Ok(())
            }
            Err(_) => Err(AllocError),
        }
    }

    /// Ends a call: what its caller saved counts again.
    pub fn leave(&mut self)
        ensures { stack_of self.new ≡ spec.left (stack_of self.old) }
    {
        self.here = of_caller(self.callers.pop());
    }

    /// Returns the modes that the end of the present call restores.
    pub fn returning(&self) -> Option<SavedModes>
        ensures { result ≡ spec.returning (stack_of self.now) }
    {
        if self.here.returns {
            self.here.modes
        } else {
            None
        }
    }
}
