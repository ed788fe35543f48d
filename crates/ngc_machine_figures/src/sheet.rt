//! What is written in a machine file. `None` is a key that the file doesn't have.

use ngc_dialect_names::Dialect;
use ngc_machine_files::{Name, Rapids};
use ngc_quantities::{Place, Range, Step};

/// A length.
#[derive(Clone, Copy)]
pub struct Length {
    pub nanometres: i64,
}

/// A speed.
#[derive(Clone, Copy)]
pub struct Speed {
    pub nanometres_a_minute: u64,
}

/// An acceleration.
#[derive(Clone, Copy)]
pub struct Acceleration {
    pub nanometres_a_second_squared: u64,
}

/// A coordinate system.
#[derive(Clone, Copy)]
pub struct System {
    /// 1 is G54, .., 9 is G59.3.
    pub number: u8,
}

/// How the machine's controller works.
#[derive(Clone, Copy)]
pub struct ControlSheet {
    pub dialect: Option<Dialect>,
    /// Whether the machine changes tools by itself.
    pub changer: Option<bool>,
    /// Ticks per second, 1 to 1,000,000.
    pub ticks: Option<u32>,
    /// The greatest number of loaded commands that aren't done, 16 to 1,024.
    pub ring: Option<u32>,
    /// The greatest speed where the direction changes.
    pub corner: Option<Speed>,
    /// The greatest change of an axis' speed where two motions meet.
    pub jump: Option<Speed>,
    /// What holds on arcs at every place: 0 nothing, 1 the feed, 2 the feed and the turn.
    pub arc_feed: Option<u32>,
    /// The greatest acceleration towards the centre of an arc.
    pub turn: Option<Acceleration>,
}

/// How far programs keep from fixtures and travel limits, and where the machine goes.
#[derive(Clone, Copy)]
pub struct PlaceSheet {
    pub margin: Option<Length>,
    pub travel_margin: Option<Length>,
    /// The ways of traverses.
    pub rapids: Option<Rapids>,
    /// Where the axes are when a program starts.
    pub start: Option<Place>,
    /// Where `G28` goes.
    pub home28: Option<Place>,
    /// Where `G30` goes.
    pub home30: Option<Place>,
}

/// An axis.
#[derive(Clone, Copy)]
pub struct AxisSheet {
    pub motor: Step,
    pub travel: Range,
    /// The greatest speed.
    pub speed: Speed,
    pub acceleration: Acceleration,
}

/// The axes.
#[derive(Clone, Copy)]
pub struct AxesSheet {
    pub x: AxisSheet,
    pub y: AxisSheet,
    pub z: AxisSheet,
}

/// Two corners of a box, in nanometres. Nothing says that `to` is above `from`.
#[derive(Clone, Copy)]
pub struct BoxSheet {
    pub from: Place,
    pub to: Place,
}

/// A fixture.
#[derive(Clone, Copy)]
pub struct FixtureSheet {
    pub name: Option<Name>,
    /// The coordinate system in which the corners are written. `None` is the machine's own.
    pub system: Option<System>,
    /// The corners in the machine's coordinates: the origin of the fixture's system is added.
    pub corners: BoxSheet,
}

/// The block of material.
#[derive(Clone, Copy)]
pub struct StockSheet {
    /// The coordinate system of the corners. `None` is the machine's own.
    pub system: Option<System>,
    pub corners: BoxSheet,
}

/// What is written before the fixtures.
#[derive(Clone, Copy)]
pub struct HeadSheet {
    pub control: ControlSheet,
    pub places: PlaceSheet,
    pub axes: AxesSheet,
    /// The origins of G54 to G59.3, in nanometres.
    pub origins: [Option<Place>; 9],
}

/// What is written in a machine file.
#[derive(Drop)]
pub struct Sheet {
    pub head: HeadSheet,
    pub fixtures: Vec<FixtureSheet>,
    pub stock: Option<StockSheet>,
}
