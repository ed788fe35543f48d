use ngc_dialect_names::Dialect;
use ngc_file_figures::{Cutter, Limits};
use ngc_fixed_length::{Point3, System};
use ngc_machine_files::{Name, StockBox};

/// An axis of the machine.
#[derive(Clone, Copy)]
pub enum Axis {
    X,
    Y,
    Z,
}

/// The range from one coordinate or height to another, in nanometres.
#[derive(Clone, Copy)]
pub struct Span {
    pub low: i64,
    pub high: i64,
}

/// The subject of a line with a figure.
#[derive(Clone, Copy)]
pub enum Fact {
    /// The step length.
    Step,
    /// The steps per millimetre.
    Steps,
    /// The step of the path's grid, on a machine whose motors have others.
    PathStep,
    PathSteps,
    /// The step of the axis' motor.
    Motor(Axis),
    /// The steps per millimetre of the axis' motor.
    MotorSteps(Axis),
    Ticks,
    GreatestSpeed,
    CornerSpeed,
    /// The allowed sudden change of an axis' speed where two motions meet.
    Jump,
    /// The most commands that are loaded and not done.
    Ring,
    /// Where the feed of an arc is kept.
    ArcFeed,
    /// By what the tools are changed.
    Changer,
    /// How far programs keep from fixtures.
    Margin,
    /// How far they keep from the travel limits.
    TravelMargin,
    /// The way to the end of a traverse.
    Rapids,
    /// The language of programs for another control.
    Dialect,
    /// The block of material that is cut.
    Stock,
    /// The acceleration along the path, where all axes have the same.
    Acceleration,
    /// The acceleration of a motion along the axis alone.
    AxisAcceleration(Axis),
    /// The greatest acceleration towards the centre of an arc that is aimed at.
    ArcAcceleration,
    /// The greatest speed of the axis.
    Speed(Axis),
    Travel(Axis),
    Start,
    /// The home position of G28.
    Home,
    /// The home position of G30.
    SecondHome,
    /// The origin of the coordinate system.
    Origin(System),
    /// A fixture's extent on the axis.
    Extent(Axis),
    /// The offset that G43 applies.
    Offset,
    /// A part of a tool.
    Part,
    /// The shape of a tool's cutter.
    Cutter,
    /// The limits of the spindle's speeds with a tool.
    SpindleLimits,
    /// The limits of a tool's feeds.
    FeedLimits,
    /// The limits of a tool's feeds straight down.
    PlungeLimits,
}

/// A number with its unit. Lengths are in nanometres, and rounded numbers in thousandths of the
/// unit.
#[derive(Clone, Copy)]
pub enum Figure {
    Length(i64),
    PerMillimetre(u128),
    PerSecond(u32),
    Count(u32),
    /// At each point.
    ByPlace,
    /// At each point, and so is the acceleration.
    ByPlaceWithTurn,
    /// The machine itself, without a person.
    ByMachine,
    /// Any way within the box of a traverse's ends.
    AnyWay,
    Language(Dialect),
    Block(StockBox),
    /// In thousandths of a millimetre per minute.
    Speed(u128),
    /// In thousandths of a millimetre per second squared.
    Acceleration(u128),
    /// The same, and a number of nanometres per minute that was written.
    SpeedAsWritten(u128, u64),
    /// The same, and a number of nanometres per second squared that was written.
    AccelerationAsWritten(u128, u64),
    Span(Span),
    Place(Point3),
    /// The heights from the spindle nose between which a part of a tool lies, and its diameter.
    Part(Span, i64),
    Cutter(Cutter),
    /// In millionths of a turn per minute.
    Turning(Limits),
    /// In nanometres per minute.
    Feeds(Limits),
}

/// What looks wrong in a machine file or in a tool table.
#[derive(Clone, Copy)]
pub enum Warning {
    Speed,
    Acceleration,
    /// A low acceleration towards the centres of arcs.
    Arcs,
    /// The same in a file of version 3, that has the key `turn`.
    WrittenTurn,
    /// The same in one that hasn't.
    WrittenArcs,
    Travel(Axis),
    /// The origin of the coordinate system is out of reach.
    Origin(System),
    /// A thin fixture, by its number.
    Thin(usize),
    /// The same in a file of version 3.
    WrittenThin(usize),
    /// A fixture out of reach, by its number.
    OutOfReach(usize),
    /// A short tool, by its number.
    Short(u32),
    /// The same in a table of version 3.
    WrittenShort(u32),
    /// A tool whose offset isn't its length, by its number.
    Offset(u32),
    /// A table in which no tool has an offset.
    Unset,
}

/// A line of a setup sheet, or another form of a warning.
#[derive(Clone, Copy)]
pub enum Line {
    /// The heading of the machine's lines.
    Machine,
    /// The heading of the lines of the fixture with this number and name.
    Fixture(usize, Name),
    /// The heading of the lines of the tool with this number and name.
    Tool(u32, Name),
    Fact(Fact, Figure),
    /// The note that the corner speed alone bounds where motions meet, in thousandths of a millimetre
    /// per minute.
    CornerNote(u128),
    /// The same on a file of version 3.
    WrittenCornerNote(u128),
    Warning(Warning),
    /// The warning as an object of a JSON document.
    WarningFact(Warning),
    /// The warning as a comment of a machine file.
    WarningRemark(Warning),
}

impl Default for Line {
    ghost use Rattle.std.specs.Prelude.{◌≡◌};
    ghost use Rattle.ngc_setup_sheet.specs.declared.line.Line.TheVariants as lines;

    ghost is_default = { λ line. line ≡ lines.Machine };

    fn default() -> Line {
        Line::Machine
    }
}
