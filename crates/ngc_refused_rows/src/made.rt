//! Mistakes that no file of standard input has, for the length of the lines.

use ngc_machine_figures::{AxisName, FileRefusal, Form, Key, Wrong};
use ngc_quantities::{Cause, Ending, Fault, Kind, Unit};
use ngc_refused_files::write_refusal;
use ngc_text::Device;
use std::io;

// A value of the greatest length that is shown, in each table.
const FILE: &str =
    "start = \"123456789012345678\"\nfrom = \"x\"\n[axis.x]\nmotor = \"123456789012345678\"\ntravel = \"123456789012345678\"\nspeed = \"123456789012345678\"\nacceleration = \"123456789012345678\"\n[origin]\n\"G59.3\" = \"123456789012345678\"\nG54 = \"123456789012345678\"\n[[fixture]]\nname = \"123456789012345678\"\nin = \"123456789012345678\"\nfrom = \"123456789012345678\"\nto = \"123456789012345678\"\nsize = \"123456789012345678\"\n[stock]\nin = \"123456789012345678\"\nfrom = \"123456789012345678\"\n";

// The keys whose names are the longest of those with a text.
const KEYS: [Key; 8] = [
    Key::TravelMargin,
    Key::Motor(AxisName::X),
    Key::Travel(AxisName::X),
    Key::Speed(AxisName::X),
    Key::Acceleration(AxisName::X),
    Key::Origin(9),
    Key::FixtureFrom(0),
    Key::FixtureFrom(255),
];

// What may be wrong with any of them.
const CAUSES: [Cause; 11] = [
    Cause::LongText,
    Cause::NoNumber,
    Cause::NoBlanks,
    Cause::ManyDigits,
    Cause::ZeroBelow,
    Cause::Comma,
    Cause::FractionUnit,
    Cause::OtherEnding(Ending::Nothing),
    Cause::Negative,
    Cause::Reversed,
    Cause::Between {
        low: -1_000_000_000_000,
        high: -999_999_999_999,
    },
];

// What may be wrong with an acceleration, a motor and a place alone.
const ACCELERATION: [Cause; 5] = [
    Cause::NoUnit(Kind::Acceleration),
    Cause::UnknownUnit {
        kind: Kind::Acceleration,
        meant: Some(Unit::MillimetrePerSecondSquared),
    },
    Cause::UnknownUnit {
        kind: Kind::Acceleration,
        meant: None,
    },
    Cause::OtherKind {
        kind: Kind::Acceleration,
        unit: Unit::Microstep,
    },
    Cause::TooLarge(Kind::Acceleration),
];

const MOTOR: [Cause; 17] = [
    Cause::NoUnit(Kind::Length),
    Cause::NoUnit(Kind::Steps),
    Cause::UnknownUnit {
        kind: Kind::Steps,
        meant: Some(Unit::StepPerMillimetre),
    },
    Cause::UnknownUnit {
        kind: Kind::Steps,
        meant: None,
    },
    Cause::UnknownUnit {
        kind: Kind::Microsteps,
        meant: Some(Unit::Microstep),
    },
    Cause::UnknownUnit {
        kind: Kind::Microsteps,
        meant: None,
    },
    Cause::OtherKind {
        kind: Kind::Steps,
        unit: Unit::Microstep,
    },
    Cause::OtherKind {
        kind: Kind::Microsteps,
        unit: Unit::StepPerMillimetre,
    },
    Cause::OtherKind {
        kind: Kind::Length,
        unit: Unit::Microstep,
    },
    Cause::OtherKind {
        kind: Kind::Angle,
        unit: Unit::Microstep,
    },
    Cause::OtherKind {
        kind: Kind::Teeth,
        unit: Unit::Microstep,
    },
    Cause::OtherEnding(Ending::Pitch),
    Cause::OtherEnding(Ending::Belt),
    Cause::TooLarge(Kind::Microsteps),
    Cause::TooLarge(Kind::Length),
    Cause::Zero,
    Cause::NoGear,
];

const PLACE: [Cause; 4] = [
    Cause::NoUnit(Kind::Length),
    Cause::UnknownUnit {
        kind: Kind::Length,
        meant: Some(Unit::Millimetre),
    },
    Cause::UnknownUnit {
        kind: Kind::Length,
        meant: None,
    },
    Cause::OtherKind {
        kind: Kind::Length,
        unit: Unit::Microstep,
    },
];

const OTHERS: [(Key, Wrong); 14] = [
    (Key::Version, Wrong::Missing),
    (Key::Axes, Wrong::Missing),
    (Key::Axis(AxisName::X), Wrong::Missing),
    (Key::Motor(AxisName::X), Wrong::Missing),
    (Key::FixtureFrom(255), Wrong::Missing),
    (Key::FixtureFrom(255), Wrong::Bare(Form::Place)),
    (
        Key::Acceleration(AxisName::X),
        Wrong::Bare(Form::Acceleration),
    ),
    (Key::FixtureFrom(255), Wrong::NoText(Form::Place)),
    (
        Key::Acceleration(AxisName::X),
        Wrong::NoText(Form::Acceleration),
    ),
    (Key::FixtureSize(255), Wrong::Far),
    (Key::FixtureName(255), Wrong::NoName),
    (Key::FixtureIn(255), Wrong::NoSystem),
    (Key::Fixture(255), Wrong::NoTable),
    (Key::Fixture(255), Wrong::NoEnd),
];

// Returns a line without the number of a file's line.
fn sentence(line: &[u8]) -> &[u8] {
    match line.iter().position(|byte| *byte == b' ') {
        Some(at) if at > 0 => &line[(at + 1).min(line.len())..],
        _ => line,
    }
}

// Prints a mistake's lines that have more than 96 bytes, and returns the number of lines.
fn said(rt: &HostRuntime, key: Key, wrong: Wrong) -> io::Result<usize> {
    let refusal = FileRefusal { key, wrong };
    let mut sink = Device::new(Vec::new(rt.alloc()));
    if write_refusal(b"", FILE.as_bytes(), &refusal, &mut sink).is_err() {
        return Ok(0);
    }
    let bytes = sink.into_inner();
    let mut count: usize = 0;
    for line in bytes.as_slice().split(|byte| *byte == b'\n') {
        count = count.saturating_add(1);
        if sentence(line).len() > 96 {
            let line = str::from_utf8(line).unwrap_or("?");
            println!(rt; "long: {line}")?;
        }
    }
    Ok(count)
}

fn all_said(rt: &HostRuntime, key: Key, causes: &[Cause]) -> io::Result<usize> {
    let mut count: usize = 0;
    for cause in causes {
        let fault = Fault {
            column: 3,
            cause: *cause,
        };
        count = count.saturating_add(said(rt, key, Wrong::Text(fault))?);
    }
    Ok(count)
}

/// Prints each line of a mistake that has more than 96 bytes after the number of the file's line, and
/// the number of lines.
pub(crate) fn made(rt: &HostRuntime) -> io::Result<()> {
    let mut count: usize = 0;
    for key in KEYS {
        count = count.saturating_add(all_said(rt, key, &CAUSES)?);
    }
    count = count.saturating_add(all_said(rt, Key::Acceleration(AxisName::X), &ACCELERATION)?);
    count = count.saturating_add(all_said(rt, Key::Motor(AxisName::X), &MOTOR)?);
    count = count.saturating_add(all_said(rt, Key::FixtureFrom(255), &PLACE)?);
    for (key, wrong) in OTHERS {
        count = count.saturating_add(said(rt, key, wrong)?);
    }
    println!(rt; "{count} lines of made mistakes")
}
