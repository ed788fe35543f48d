//! The keys of machine files and of tool tables.
ghost use Rattle.std.specs.Prelude.{◌≡◌};
ghost use Rattle.ngc_machine_figures.specs.Keys as spec;

use crate::tool_key::ToolKey;

/// An axis of the machine.
#[derive(Clone, Copy)]
pub enum AxisName {
    X,
    Y,
    Z,
}

/// A key of a machine file or of a tool table, or one of their tables. Fixtures are counted from 0.
#[derive(Clone, Copy)]
pub enum Key {
    /// The file itself.
    File,
    Version,
    /// The path of a machine file, in a job file.
    Machine,
    /// The path of a tool table, in a job file.
    Tools,
    Dialect,
    Changer,
    Ticks,
    Ring,
    Corner,
    Jump,
    ArcFeed,
    Turn,
    Margin,
    TravelMargin,
    Rapids,
    Start,
    Home28,
    Home30,
    /// The table `axis`.
    Axes,
    /// The table of an axis, as `axis.x`.
    Axis(AxisName),
    Motor(AxisName),
    Travel(AxisName),
    Speed(AxisName),
    Acceleration(AxisName),
    /// The table `origin`.
    Origins,
    /// The origin of a coordinate system: 1 is `G54`, .., 9 is `G59.3`.
    Origin(u8),
    /// All fixtures.
    Fixtures,
    /// The table of a fixture.
    Fixture(u16),
    FixtureName(u16),
    FixtureIn(u16),
    FixtureFrom(u16),
    FixtureTo(u16),
    FixtureSize(u16),
    /// The table `stock`.
    Stock,
    StockIn,
    StockFrom,
    StockTo,
    StockSize,
    /// A key of a tool table.
    Tool(ToolKey),
}

/// Returns the name of a coordinate system, which is empty for a number other than 1 to 9.
pub fn system_name(system: u8) -> &'static str
    ensures { result.now ≡ spec.system_name system }
{
    match system {
        1 => "G54",
        2 => "G55",
        3 => "G56",
        4 => "G57",
        5 => "G58",
        6 => "G59",
        7 => "G59.1",
        8 => "G59.2",
        9 => "G59.3",
        _ => "",
    }
}

impl AxisName {
    /// Returns the name of the axis' table: `x`, `y` or `z`.
    pub fn name(self) -> &'static str
        ensures { result.now ≡ spec.axis_name self }
    {
        match self {
            AxisName::X => "x",
            AxisName::Y => "y",
            AxisName::Z => "z",
        }
    }
}

impl Key {
    /// Returns the key's name in its table, as `speed`. The file itself has none.
    pub fn name(self) -> &'static str
        ensures { result.now ≡ spec.name_of self }
    {
        match self {
            Key::File => "",
            Key::Version => "version",
            Key::Machine => "machine",
            Key::Tools => "tools",
            Key::Dialect => "dialect",
            Key::Changer => "changer",
            Key::Ticks => "ticks",
            Key::Ring => "ring",
            Key::Corner => "corner",
            Key::Jump => "jump",
            Key::ArcFeed => "arc_feed",
            Key::Turn => "turn",
            Key::Margin => "margin",
            Key::TravelMargin => "travel_margin",
            Key::Rapids => "rapids",
            Key::Start => "start",
            Key::Home28 => "home28",
            Key::Home30 => "home30",
            Key::Axes => "axis",
            Key::Axis(axis) => axis.name(),
            Key::Motor(_) => "motor",
            Key::Travel(_) => "travel",
            Key::Speed(_) => "speed",
            Key::Acceleration(_) => "acceleration",
            Key::Origins => "origin",
            Key::Origin(system) => system_name(system),
            Key::Fixtures | Key::Fixture(_) => "fixture",
            Key::FixtureName(_) => "name",
            Key::FixtureIn(_) | Key::StockIn => "in",
            Key::FixtureFrom(_) | Key::StockFrom => "from",
            Key::FixtureTo(_) | Key::StockTo => "to",
            Key::FixtureSize(_) | Key::StockSize => "size",
            Key::Stock => "stock",
            Key::Tool(key) => key.name(),
        }
    }

    /// Returns another name under which people know the key, as `clamp`. That of a key without one is its
    /// own. No file has such a name.
    pub(crate) fn other_name(self) -> &'static str
        ensures { result.now ≡ spec.other_name_of self }
    {
        match self {
            Key::Changer => "tool_changer",
            Key::Motor(_) => "steps",
            Key::Acceleration(_) => "accel",
            Key::Fixtures | Key::Fixture(_) => "clamp",
            Key::FixtureSize(_) | Key::StockSize => "width",
            Key::Stock => "material",
            Key::Tool(key) => key.other_name(),
            _ => self.name(),
        }
    }
}

// The keys of each table, in the order of the format's example.

pub const FILE_KEYS: [Key; 19] = [
    Key::Version,
    Key::Dialect,
    Key::Changer,
    Key::Ticks,
    Key::Ring,
    Key::Corner,
    Key::Jump,
    Key::ArcFeed,
    Key::Turn,
    Key::Margin,
    Key::TravelMargin,
    Key::Rapids,
    Key::Start,
    Key::Home28,
    Key::Home30,
    Key::Axes,
    Key::Origins,
    Key::Fixtures,
    Key::Stock,
];

pub const AXES_KEYS: [Key; 3] = [
    Key::Axis(AxisName::X),
    Key::Axis(AxisName::Y),
    Key::Axis(AxisName::Z),
];

pub const ORIGIN_KEYS: [Key; 9] = [
    Key::Origin(1),
    Key::Origin(2),
    Key::Origin(3),
    Key::Origin(4),
    Key::Origin(5),
    Key::Origin(6),
    Key::Origin(7),
    Key::Origin(8),
    Key::Origin(9),
];

pub const STOCK_KEYS: [Key; 4] = [Key::StockIn, Key::StockFrom, Key::StockTo, Key::StockSize];

/// The numbers of the coordinate systems.
pub const SYSTEMS: [u8; 9] = [1, 2, 3, 4, 5, 6, 7, 8, 9];

/// Returns the keys of an axis' table.
pub(crate) fn axis_keys(axis: AxisName) -> [Key; 4]
    ensures { result ≡ spec.axis_keys axis }
{
    [
        Key::Motor(axis),
        Key::Travel(axis),
        Key::Speed(axis),
        Key::Acceleration(axis),
    ]
}

/// Returns the keys of a fixture's table.
pub fn fixture_keys(number: u16) -> [Key; 5]
    ensures { result ≡ spec.fixture_keys number }
{
    [
        Key::FixtureName(number),
        Key::FixtureIn(number),
        Key::FixtureFrom(number),
        Key::FixtureTo(number),
        Key::FixtureSize(number),
    ]
}
