//! The boxes of a machine that count from a coordinate system.
ghost use Rattle.std.specs.Prelude.{◌≡◌, count_by};
ghost use Rattle.std.specs.List.{list_any};
ghost use Rattle.ngc_machine_files.specs.Machine.{file_of};
ghost use Rattle.ngc_length_warnings.specs.Boxes.{block_counts, count_from, counts_from, first_from};
ghost use Rattle.ngc_length_warnings.specs.Boxes.{system_number};

use crate::cut::{Boxes, FirstFixture};
use ngc_fixed_length::System;
use ngc_frames::index_of;
use ngc_machine_files::{Fixture, Machine, StockBox};
use std::alloc::Allocator;

// Returns the number of a coordinate system in a machine file: 1 is G54, .., 9 is G59.3.
fn system_number(system: System) -> u32
    ensures { result ≡ system_number system }
{
    index_of(system) as u32 + 1
}

fn counts_from(system: System, fixture: &Fixture) -> bool
    ensures { result ≡ counts_from system fixture.now }
{
    fixture.system == system_number(system)
}

fn some_counts(system: System, fixtures: &[Fixture]) -> bool
    ensures { result ≡ list_any (counts_from system) fixtures.now }
{
    fixtures.iter().any(|fixture| counts_from(system, fixture))
}

fn block_counts(system: System, block: &Option<StockBox>) -> bool
    ensures { result ≡ block_counts system block.now }
{
    match block {
        Some(block) => block.system == system_number(system),
        None => false,
    }
}

/// Returns whether such boxes of a machine count from the origin of a coordinate system.
pub(crate) fn count_from<A: Allocator>(boxes: Boxes, machine: &Machine<A>, system: System) -> bool
    ensures { result ≡ count_from boxes (file_of machine.now) system }
{
    match boxes {
        Boxes::Fixtures => some_counts(system, machine.fixtures.as_slice()),
        Boxes::Block => block_counts(system, &machine.stock),
    }
}

// Returns how many fixtures count from a coordinate system.
fn count_in(system: System, fixtures: &[Fixture]) -> usize
    ensures { result ≡ count_by (counts_from system) fixtures.now }
{
    fixtures
        .iter()
        .filter(|fixture| counts_from(system, fixture))
        .count()
}

/// Returns the first fixture that counts from a coordinate system, or `None`.
pub(crate) fn first_from(system: System, fixtures: &[Fixture]) -> Option<FirstFixture>
    ensures { result ≡ first_from system 0 fixtures.now }
{
    for (number, fixture) in fixtures.iter().enumerate() {
        if counts_from(system, fixture) {
            return Some(FirstFixture {
                number,
                name: fixture.name,
                more: count_in(system, &fixtures[number + 1..]),
            });
        }
    }
    None
}
