ghost use Rattle.std.specs.Prelude.{◌≡◌, ◌<◌, ◌++◌, ◌∷◌, [], IfSome, Some, length};
ghost use Rattle.std.specs.List.{All};
ghost use Rattle.ngc_fixed_length.specs.Places.{zero_point};
ghost use Rattle.ngc_machine_files.specs.Ranges.{IsStock};
ghost use Rattle.ngc_added_boxes.specs.Boxes.{IsAdded, no_boxes, unused};

use ngc_fixed_length::{Nm, Point3};
use ngc_machine_files::{Name, StockBox};
use std::marker::Model;

/// A box in a coordinate system, in nanometres.
#[derive(Clone, Copy)]
pub struct SystemBox {
    /// The coordinate system of the corners: 1 is G54, .., 9 is G59.3; 0 is the machine's own.
    pub system: u32,
    /// The corner with the least coordinates.
    pub low: Point3,
    /// The corner with the greatest coordinates; each is above that of `low`.
    pub high: Point3,
}

/// A fixture that is added for one call, each coordinate at most 4*10^9 nm in size.
#[derive(Clone, Copy)]
pub struct AddedFixture {
    pub name: Name,
    pub place: SystemBox,
}

/// The fixtures that are added to those of a machine file, at most 16, and the block of material
/// that replaces its own, or none.
#[derive(Clone, Copy)]
pub struct Boxes {
    places: [AddedFixture; 16],
    count: usize,
    stock: Option<StockBox>,
}

impl Model for Boxes {
    ghost use Rattle.ngc_added_boxes.specs.Boxes.{AddedBoxes, AreKept, kept, kept-used, used};

    ghost Value = { AddedBoxes };

    ghost view = { used };

    ghost invariant = { AreKept };

    ghost inverse = { kept };

    ghost inverse_ok = { kept-used };
}

/// Returns the zero of the machine.
pub(crate) fn zero_point() -> Point3
    ensures { result ≡ zero_point }
{
    Point3 {
        x: Nm::zero(),
        y: Nm::zero(),
        z: Nm::zero(),
    }
}

// Returns the value of a place that isn't used.
fn unused() -> AddedFixture
    ensures { result ≡ unused }
{
    AddedFixture {
        name: Name::none(),
        place: SystemBox {
            system: 0,
            low: zero_point(),
            high: zero_point(),
        },
    }
}

impl Boxes {
    /// Returns no boxes: the machine file's stay.
    pub fn none() -> Boxes
        ensures { result ≡ no_boxes }
    {
        Boxes {
            places: [unused(); 16],
            count: 0,
            stock: None,
        }
    }

    // Returns the fixtures that are added, in the order of their options.
    pub(crate) fn fixtures(&self) -> &[AddedFixture]
        ensures list { result.now ≡ self.now.fixtures }
        ensures range { All IsAdded self.now.fixtures }
    {
        &self.places[..self.count]
    }

    // Returns the block of material that replaces the machine file's.
    pub(crate) fn stock(&self) -> Option<StockBox>
        ensures value { result ≡ self.now.stock }
        ensures range { IfSome result IsStock }
    {
        self.stock
    }

    // Returns these boxes with one more fixture.
    pub(crate) fn with_fixture(self, fixture: AddedFixture) -> Boxes
        requires fewer { length self.fixtures < 16 }
        requires range { IsAdded fixture }
        ensures { result ≡ record self { fixtures = self.fixtures ++ fixture ∷ [] } }
    {
        let mut boxes = self;
        boxes.places[boxes.count] = fixture;
        boxes.count += 1;
        boxes
    }

    // Returns these boxes with this block of material.
    pub(crate) fn with_stock(self, stock: StockBox) -> Boxes
        requires { IsStock stock }
        ensures { result ≡ record self { stock = Some stock } }
    {
        let mut boxes = self;
        boxes.stock = Some(stock);
        boxes
    }
}
