ghost use Rattle.std.specs.Prelude.{◌≡◌, ◌<◌, Some, length, slice_get, slice_set};
ghost use Rattle.std.specs.List.{All};
ghost use Rattle.ngc_machine_files.specs.Machine.{file_of};
ghost use Rattle.ngc_machine_files.specs.Ranges.{IsSized, NEAR_LIMIT};
ghost use Rattle.ngc_origins.specs.Placed.{placed, replaced};
ghost use Rattle.ngc_origins.specs.Texts.{is_given, no_origins, position_of, replaces};

use ngc_fixed_length::{Point3, System};
use ngc_machine_files::Machine;
use std::alloc::Allocator;
use std::marker::Model;

/// The origins of coordinate systems that replace those of a machine file: for each of the nine
/// systems from G54 to G59.3 a place, each coordinate at most 10^9 nm in size, or none.
#[derive(Clone, Copy)]
pub struct Origins {
    systems: [Option<Point3>; 9],
}

impl Model for Origins {
    ghost use Rattle.ngc_origins.specs.Placed.{AreOrigins};
    ghost use Rattle.ngc_origins.specs.Texts.{OriginList};

    ghost Value = { OriginList };

    ghost view = { λ o. o.systems };

    ghost invariant = { λ o. AreOrigins o.systems };

    ghost inverse = { λ list. record { systems = list } };
}

fn copied(places: &[Point3; 9]) -> [Point3; 9]
    ensures { result ≡ places.now }
{
    let mut copy = [places[0]; 9];
    copy.copy_from_slice(places);
    copy
}

// Returns each origin that is replaced, and the others as they are.
fn replaced(own: &[Point3; 9], systems: &[Option<Point3>; 9]) -> [Point3; 9]
    ensures { result ≡ replaced systems.now own.now }
{
    let mut places = copied(own);
    for (i, origin) in systems.iter().enumerate() {
        match origin {
            Some(place) => places[i] = *place,
            None => {}
        }
    }
    places
}

fn position_of(system: System) -> usize
    ensures value { result ≡ position_of system }
    ensures nine { result < 9 }
{
    match system {
        System::First => 0,
        System::Second => 1,
        System::Third => 2,
        System::Fourth => 3,
        System::Fifth => 4,
        System::Sixth => 5,
        System::Seventh => 6,
        System::Eighth => 7,
        System::Ninth => 8,
    }
}

impl Origins {
    /// Returns no origins: those of the machine file stay.
    pub fn none() -> Origins
        ensures { result ≡ no_origins }
    {
        Origins { systems: [None; 9] }
    }

    /// Returns, for each system from G54 to G59.3, the origin that replaces that of the machine
    /// file.
    pub(crate) fn systems(&self) -> &[Option<Point3>; 9]
        ensures list { result.now ≡ self.now }
        ensures nine { length result.now ≡ 9 }
    {
        &self.systems
    }

    // Returns whether the origin of a system is replaced.
    pub(crate) fn is_given(&self, system: usize) -> bool
        requires { system < 9 }
        ensures { result ≡ is_given (slice_get self.now system) }
    {
        self.systems[system].is_some()
    }

    /// Returns whether the origin of a system is replaced.
    pub fn replaces(&self, system: System) -> bool
        ensures { result ≡ replaces self.now system }
    {
        self.is_given(position_of(system))
    }

    // Returns these origins with one more.
    pub(crate) fn with_origin(self, system: usize, place: Point3) -> Origins
        requires system { system < 9 }
        requires place { IsSized NEAR_LIMIT place }
        ensures { result ≡ slice_set self system (Some place) }
    {
        let mut systems = self.systems;
        systems[system] = Some(place);
        Origins { systems }
    }

    /// Returns the machine with these origins in place of its own.
    pub fn place<A: Allocator>(&self, machine: Machine<A>) -> Machine<A>
        ensures { file_of result ≡ placed self.now (file_of machine) }
    {
        let mut machine = machine;
        machine.origins = replaced(&machine.origins, &self.systems);
        machine
    }
}
