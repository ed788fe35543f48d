//! A machine with the boxes of a call.
ghost use Rattle.std.specs.Prelude.{◌≡◌, ◌≤◌, ◌+◌, ◌++◌, IfSome, OnOk, length, map};
ghost use Rattle.std.specs.List.{All, list_all};
ghost use Rattle.ngc_fixed_length.specs.Places.{plus};
ghost use Rattle.ngc_machine_files.specs.Machine.{file_of};
ghost use Rattle.ngc_machine_files.specs.Ranges.{AreFixtures, CORNER_LIMIT, IsFixture, IsSized};
ghost use Rattle.ngc_machine_files.specs.Ranges.{IsStock, PLACE_LIMIT};
ghost use Rattle.ngc_machine_files.specs.Refusals.{FileResultIs};
ghost use Rattle.ngc_added_boxes.specs.Boxes.{IsAdded};
ghost use Rattle.ngc_added_boxes.specs.Placing as spec;

use crate::boxes::{AddedFixture, Boxes, zero_point};
use ngc_fixed_length::Point3;
use ngc_machine_files::{FileFault, Fixture, Machine, StockBox};
use std::alloc::{AllocError, Allocator};

fn copied(origins: &[Point3; 9]) -> [Point3; 9]
    ensures { result ≡ origins.now }
{
    let mut copy = [origins[0]; 9];
    copy.copy_from_slice(origins);
    copy
}

fn origin_of(origins: &[Point3; 9], system: u32) -> Point3
    requires system { system ≤ 9 }
    requires range { All (IsSized PLACE_LIMIT) origins.now }
    ensures value { result ≡ spec.origin_of origins.now system }
    ensures range { IsSized PLACE_LIMIT result }
{
    if system == 0 {
        return zero_point();
    }
    origins[system as usize - 1]
}

fn moved(corner: &Point3, origin: &Point3) -> Point3
    requires corner { IsSized CORNER_LIMIT corner.now }
    requires origin { IsSized PLACE_LIMIT origin.now }
    ensures { result ≡ plus corner.now origin.now }
{
    Point3 {
        x: corner.x.plus(origin.x),
        y: corner.y.plus(origin.y),
        z: corner.z.plus(origin.z),
    }
}

fn in_machine(origins: &[Point3; 9], added: &AddedFixture) -> Fixture
    requires origins { All (IsSized PLACE_LIMIT) origins.now }
    requires added { IsAdded added.now }
    ensures { result ≡ spec.in_machine origins.now added.now }
{
    let origin = origin_of(origins, added.place.system);
    Fixture {
        low: moved(&added.place.low, &origin),
        high: moved(&added.place.high, &origin),
        name: added.name,
        system: added.place.system,
    }
}

fn is_sized(point: &Point3) -> bool
    ensures { result ≡ spec.is_sized point.now }
{
    point.x.nanometres().unsigned_abs() <= 4_000_000_000
        && point.y.nanometres().unsigned_abs() <= 4_000_000_000
        && point.z.nanometres().unsigned_abs() <= 4_000_000_000
}

fn fits(fixture: &Fixture) -> bool
    ensures { result ≡ spec.fits fixture.now }
{
    is_sized(&fixture.low) && is_sized(&fixture.high)
}

// Returns whether all added fixtures, in machine coordinates, are in the range of a machine file's.
fn each_fits(origins: &[Point3; 9], added: &[AddedFixture]) -> bool
    requires origins { All (IsSized PLACE_LIMIT) origins.now }
    requires added { All IsAdded added.now }
    ensures { result ≡ list_all spec.fits (map (spec.in_machine origins.now) added.now) }
{
    for one in added {
        if !fits(&in_machine(origins, one)) {
            return false;
        }
    }
    true
}

// Adds these fixtures in machine coordinates. If memory is refused, some of them are added.
fn extend<A: Allocator>(
    fixtures: &mut Vec<Fixture, A>,
    origins: &[Point3; 9],
    added: &[AddedFixture],
) -> Result<(), AllocError>
    requires origins { All (IsSized PLACE_LIMIT) origins.now }
    requires own { AreFixtures fixtures.old.items }
    requires added { All IsAdded added.now }
    requires each { All IsFixture (map (spec.in_machine origins.now) added.now) }
    requires count { length fixtures.old.items + length added.now ≤ 256 }
    ensures value { OnOk result (fixtures.new.items
        ≡ fixtures.old.items ++ map (spec.in_machine origins.now) added.now) }
    ensures range { AreFixtures fixtures.new.items }
{
    for one in added {
        fixtures.push(in_machine(origins, one))?;
    }
    Ok(())
}

fn stock_or(stock: Option<StockBox>, own: Option<StockBox>) -> Option<StockBox>
    requires stock { IfSome stock IsStock }
    requires own { IfSome own IsStock }
    ensures value { result ≡ spec.stock_or stock own }
    ensures range { IfSome result IsStock }
{
    match stock {
        Some(stock) => Some(stock),
        None => own,
    }
}

impl Boxes {
    /// Returns the machine with these fixtures after its own, and with this block of material in
    /// place of its own. The origin of a fixture's coordinate system is that of the machine.
    ///
    /// Returns 267 if there are over 256 fixtures then or a corner is over 4*10^9 nm in size, and
    /// 900 if memory is refused.
    pub fn place<A: Allocator>(&self, machine: Machine<A>) -> Result<Machine<A>, FileFault>
        ensures { FileResultIs file_of result (spec.boxed self.now (file_of machine)) }
    {
        let added = self.fixtures();
        if machine.fixtures.len() + added.len() > 256 || !each_fits(&machine.origins, added) {
            return Err(FileFault::Fixtures);
        }
        let origins = copied(&machine.origins);
        let mut machine = machine;
        if extend(&mut machine.fixtures, &origins, added).is_err() {
            return Err(FileFault::Memory);
        }
        machine.stock = stock_or(self.stock(), machine.stock);
        Ok(machine)
    }
}
