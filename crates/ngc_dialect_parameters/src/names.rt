ghost use Rattle.std.specs.Prelude.{◌≡◌, ◌||◌, ℕ, List, OnOk, OnErr, IfErr, None, Some, Err, nat_lt, true, false};
ghost use Rattle.std.specs.Prelude.{if◌then◌else◌};
ghost use Rattle.std.specs.Option.{is_some};
ghost use Rattle.std.specs.Str.{bytes_eq};
ghost use Rattle.ngc_dialect_parameters.specs.Names as spec;
ghost use Rattle.ngc_dialect_parameters.specs.Storing.{counted};

use ngc_dialect_numbers::Number;
use std::alloc::{AllocError, Allocator};
use std::collections::BTreeMap;

/// The greatest number of names that belong to one call, and of those that belong to all.
const MOST: usize = 10_000;

/// Names with their values.
#[derive(Drop)]
pub(crate) struct Names<A: Allocator> {
    pub(crate) table: BTreeMap<Vec<u8, A>, Number, A>,
    pub(crate) count: usize,
}

impl<A: Allocator + Clone> Names<A> {
    pub(crate) fn new(alloc: A) -> Names<A>
        ensures values { (name : List ℕ) → spec.value_in result name ≡ None }
        ensures count { spec.count_in result ≡ 0 }
    {
        Names {
            table: BTreeMap::new(alloc),
            count: 0,
        }
    }

    pub(crate) fn value(&self, name: &[u8]) -> Option<Number>
        ensures { result ≡ spec.value_in self.now name.now }
    {
        self.table.get(name).copied()
    }

    // Returns whether there is room for a name: one that is set, or one of the first 10,000.
    pub(crate) fn has_room(&self, name: &[u8]) -> bool
        ensures { result ≡ (nat_lt (spec.count_in self.now) 10000 || is_some (spec.value_in self.now name.now)) }
    {
        self.count < MOST || self.value(name).is_some()
    }

    // Returns how many names there are after a name is set for which there is room.
    fn count_with(&self, name: &[u8]) -> usize
        requires { (nat_lt (spec.count_in self.now) 10000 || is_some (spec.value_in self.now name.now)) ≡ true }
        ensures { result ≡ counted (spec.value_in self.now name.now) (spec.count_in self.now) }
    {
        match self.value(name) {
            Some(_) => self.count,
            None => self.count + 1,
        }
    }

    // Sets a name for which there is room. The only error is refused memory.
    pub(crate) fn set(&mut self, alloc: A, name: &[u8], value: Number) -> Result<(), AllocError>
        requires { (nat_lt (spec.count_in self.old) 10000 || is_some (spec.value_in self.old name.now)) ≡ true }
        ensures values { OnOk result ((other : List ℕ) → spec.value_in self.new other
            ≡ (if bytes_eq other name.now then Some value else spec.value_in self.old other)) }
        ensures count { OnOk result (spec.count_in self.new
            ≡ counted (spec.value_in self.old name.now) (spec.count_in self.old)) }
        ensures err { OnErr result ((other : List ℕ) →
            spec.value_in self.new other ≡ spec.value_in self.old other) }
        ensures err_count { OnErr result (spec.count_in self.new ≡ spec.count_in self.old) }
    {
        let count = self.count_with(name);
        let Ok(key) = Vec::from_slice(alloc, name) else {
            return Err(AllocError);
        };
        match self.table.insert(key, value) {
            Ok(_) => {
                self.count = count;
                Ok(())
            }
            Err(_) => Err(AllocError),
        }
    }
}
