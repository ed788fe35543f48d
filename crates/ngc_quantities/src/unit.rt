//! The units, in tables by kind.
ghost use Rattle.std.specs.Prelude.{◌≡◌, ◌≤◌, ◌<◌, find};
ghost use Rattle.ngc_quantities.specs.Units as spec;

/// What a text is to be.
#[derive(Clone, Copy)]
pub enum Kind {
    Length,
    Speed,
    Acceleration,
    Turning,
    Steps,
    Angle,
    Microsteps,
    Teeth,
}

/// A unit.
#[derive(Clone, Copy)]
pub enum Unit {
    Millimetre,
    Inch,
    Micrometre,
    Nanometre,
    MillimetrePerMinute,
    MillimetrePerSecond,
    InchPerMinute,
    MillimetrePerSecondSquared,
    InchPerSecondSquared,
    TurnPerMinute,
    StepPerMillimetre,
    StepPerInch,
    Degree,
    Microstep,
    Tooth,
}

/// A word after the unit, which says what a length of a motor's chain is.
#[derive(Clone, Copy)]
pub enum Ending {
    Nothing,
    Pitch,
    Belt,
}

// The units of each kind.
pub const LENGTHS: [Unit; 4] = [
    Unit::Millimetre,
    Unit::Inch,
    Unit::Micrometre,
    Unit::Nanometre,
];

pub const SPEEDS: [Unit; 3] = [
    Unit::MillimetrePerMinute,
    Unit::MillimetrePerSecond,
    Unit::InchPerMinute,
];

pub const ACCELERATIONS: [Unit; 2] = [Unit::MillimetrePerSecondSquared, Unit::InchPerSecondSquared];

pub const TURNING: [Unit; 1] = [Unit::TurnPerMinute];

pub const STEPS: [Unit; 2] = [Unit::StepPerMillimetre, Unit::StepPerInch];

pub const ANGLES: [Unit; 1] = [Unit::Degree];

pub const MICROSTEPS: [Unit; 1] = [Unit::Microstep];

pub const TEETH: [Unit; 1] = [Unit::Tooth];

/// All units.
pub const ALL: [Unit; 15] = [
    Unit::Millimetre,
    Unit::Inch,
    Unit::Micrometre,
    Unit::Nanometre,
    Unit::MillimetrePerMinute,
    Unit::MillimetrePerSecond,
    Unit::InchPerMinute,
    Unit::MillimetrePerSecondSquared,
    Unit::InchPerSecondSquared,
    Unit::TurnPerMinute,
    Unit::StepPerMillimetre,
    Unit::StepPerInch,
    Unit::Degree,
    Unit::Microstep,
    Unit::Tooth,
];

impl Kind {
    /// Returns the units of the kind.
    pub fn units(self) -> &'static [Unit]
        ensures { result.now ≡ spec.units_of self }
    {
        match self {
            Kind::Length => &LENGTHS,
            Kind::Speed => &SPEEDS,
            Kind::Acceleration => &ACCELERATIONS,
            Kind::Turning => &TURNING,
            Kind::Steps => &STEPS,
            Kind::Angle => &ANGLES,
            Kind::Microsteps => &MICROSTEPS,
            Kind::Teeth => &TEETH,
        }
    }

    /// Returns the greatest amount of the kind, in base units.
    pub fn most(self) -> u64
        ensures value { result ≡ spec.most_of self }
        ensures bound { result ≤ 1000000000000 }
    {
        match self {
            Kind::Length | Kind::Speed | Kind::Acceleration => 1_000_000_000_000,
            Kind::Turning | Kind::Steps => 1_000_000_000_000,
            Kind::Angle => 360_000_000_000,
            Kind::Microsteps | Kind::Teeth => 99_999,
        }
    }
}

impl Unit {
    /// Returns the unit's name, as texts have it.
    pub fn name(self) -> &'static [u8]
        ensures { result.now ≡ spec.name_of self }
    {
        match self {
            Unit::Millimetre => b"mm",
            Unit::Inch => b"in",
            Unit::Micrometre => b"um",
            Unit::Nanometre => b"nm",
            Unit::MillimetrePerMinute => b"mm/min",
            Unit::MillimetrePerSecond => b"mm/s",
            Unit::InchPerMinute => b"in/min",
            Unit::MillimetrePerSecondSquared => b"mm/s2",
            Unit::InchPerSecondSquared => b"in/s2",
            Unit::TurnPerMinute => b"rpm",
            Unit::StepPerMillimetre => b"steps/mm",
            Unit::StepPerInch => b"steps/in",
            Unit::Degree => b"deg",
            Unit::Microstep => b"microsteps",
            Unit::Tooth => b"teeth",
        }
    }

    fn second_name(self) -> &'static [u8]
        ensures { result.now ≡ spec.second_name_of self }
    {
        match self {
            Unit::Millimetre => b"millimetre",
            Unit::Inch => b"inch",
            Unit::Micrometre => b"micron",
            Unit::Nanometre => b"nanometre",
            Unit::MillimetrePerMinute => b"mmpm",
            Unit::MillimetrePerSecond => b"mm/sec",
            Unit::InchPerMinute => b"ipm",
            Unit::MillimetrePerSecondSquared => b"mm/s^2",
            Unit::InchPerSecondSquared => b"in/s^2",
            Unit::TurnPerMinute => b"1/min",
            Unit::StepPerMillimetre => b"step/mm",
            Unit::StepPerInch => b"step/in",
            Unit::Degree => b"degree",
            Unit::Microstep => b"microstep",
            Unit::Tooth => b"tooth",
        }
    }

    fn third_name(self) -> &'static [u8]
        ensures { result.now ≡ spec.third_name_of self }
    {
        match self {
            Unit::Millimetre => b"millimeter",
            Unit::Inch => b"inches",
            Unit::Micrometre => b"microns",
            Unit::Nanometre => b"nanometer",
            Unit::MillimetrePerMinute => b"mm/m",
            Unit::MillimetrePerSecond => b"mm/second",
            Unit::InchPerMinute => b"inch/min",
            Unit::MillimetrePerSecondSquared => b"mm/sec2",
            Unit::InchPerSecondSquared => b"in/sec2",
            Unit::TurnPerMinute => b"rev/min",
            Unit::StepPerMillimetre => b"steps",
            Unit::StepPerInch => b"steps/inch",
            Unit::Degree => b"degrees",
            Unit::Microstep => b"usteps",
            Unit::Tooth => b"tooths",
        }
    }

    /// Returns the unit in base units of its kind; of steps per length, the length in nanometres.
    pub fn size(self) -> u64
        ensures value { result ≡ spec.size_of self }
        ensures some { 0 < result }
        ensures bound { result ≤ 1000000000 }
    {
        match self {
            Unit::Millimetre => 1_000_000,
            Unit::Inch => 25_400_000,
            Unit::Micrometre => 1_000,
            Unit::Nanometre => 1,
            Unit::MillimetrePerMinute => 1_000_000,
            Unit::MillimetrePerSecond => 60_000_000,
            Unit::InchPerMinute => 25_400_000,
            Unit::MillimetrePerSecondSquared => 1_000_000,
            Unit::InchPerSecondSquared => 25_400_000,
            Unit::TurnPerMinute => 1_000_000,
            Unit::StepPerMillimetre => 1_000_000,
            Unit::StepPerInch => 25_400_000,
            Unit::Degree => 1_000_000_000,
            Unit::Microstep => 1,
            Unit::Tooth => 1,
        }
    }

    /// Returns whether the unit is the inch, before which a fraction may stand.
    pub(crate) fn is_inch(self) -> bool
        ensures { result ≡ spec.is_inch self }
    {
        matches!(self, Unit::Inch)
    }
}

fn is_named(word: &[u8], unit: Unit) -> bool
    ensures { result ≡ spec.is_named word.now unit }
{
    word == unit.name()
}

fn is_meant(word: &[u8], unit: Unit) -> bool
    ensures { result ≡ spec.is_meant word.now unit }
{
    word.eq_ignore_ascii_case(unit.name())
        || word.eq_ignore_ascii_case(unit.second_name())
        || word.eq_ignore_ascii_case(unit.third_name())
}

/// Returns the unit of a table with this name.
pub(crate) fn named(word: &[u8], units: &[Unit]) -> Option<Unit>
    ensures { result ≡ spec.named word.now units.now }
{
    units.iter().copied().find(|unit| is_named(word, *unit))
}

/// Returns the unit of a table with this word as a name, in capitals or not.
pub(crate) fn known(word: &[u8], units: &[Unit]) -> Option<Unit>
    ensures { result ≡ spec.known word.now units.now }
{
    units.iter().copied().find(|unit| is_meant(word, *unit))
}

impl Ending {
    /// Returns the word.
    pub fn text(self) -> &'static [u8]
        ensures { result.now ≡ spec.ending_text self }
    {
        match self {
            Ending::Nothing => b"",
            Ending::Pitch => b"pitch",
            Ending::Belt => b"belt",
        }
    }
}
