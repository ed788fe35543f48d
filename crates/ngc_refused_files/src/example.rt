//! What to write in place of what is refused.
ghost use Rattle.std.specs.Prelude.{◌≡◌};
ghost use Rattle.ngc_refused_files.specs.Examples as spec;

use ngc_machine_figures::{Key, ToolKey};
use ngc_quantities::{Cause, Ending, Kind};

/// What the text of a key says.
#[derive(Clone, Copy)]
pub(crate) enum Sample {
    Length,
    Speed,
    Acceleration,
    Motor,
    /// A motor by the angle of a step and what it drives.
    Chain,
    Range,
    Place,
    /// The diameter of a tool.
    Diameter,
    /// The length of a tool.
    Reach,
    /// The length of a tool that cuts.
    Flute,
    /// The diameter of a holder.
    HolderDiameter,
    /// The length of a part of a holder.
    HolderLength,
    /// The limits of a tool's feeds.
    Feeds,
    /// The greatest feed of a tool straight down.
    Plunge,
    /// The limits of the spindle's speeds with a tool.
    Turning,
    /// No length, speed or the like.
    Other,
}

fn tool_sample(key: ToolKey) -> Sample
    ensures { result ≡ spec.tool_sample key }
{
    match key {
        ToolKey::Diameter(_) | ToolKey::Shank(_) | ToolKey::Point(_) => Sample::Diameter,
        ToolKey::Length(_) | ToolKey::Stickout(_) | ToolKey::Offset(_) => Sample::Reach,
        ToolKey::Flute(_) => Sample::Flute,
        ToolKey::PartDiameter { .. } => Sample::HolderDiameter,
        ToolKey::PartLength { .. } => Sample::HolderLength,
        ToolKey::Speed(_) => Sample::Turning,
        ToolKey::Feed(_) => Sample::Feeds,
        ToolKey::Plunge(_) => Sample::Plunge,
        _ => Sample::Other,
    }
}

/// Returns what the text of a key says.
pub(crate) fn sample_of(key: Key) -> Sample
    ensures { result ≡ spec.sample_of key }
{
    match key {
        Key::Motor(_) => Sample::Motor,
        Key::Travel(_) => Sample::Range,
        Key::Speed(_) | Key::Corner | Key::Jump => Sample::Speed,
        Key::Acceleration(_) | Key::Turn => Sample::Acceleration,
        Key::Margin | Key::TravelMargin => Sample::Length,
        Key::Start | Key::Home28 | Key::Home30 | Key::Origin(_) => Sample::Place,
        Key::FixtureFrom(_) | Key::FixtureTo(_) | Key::FixtureSize(_) => Sample::Place,
        Key::StockFrom | Key::StockTo | Key::StockSize => Sample::Place,
        Key::Tool(key) => tool_sample(key),
        _ => Sample::Other,
    }
}

impl Sample {
    /// Returns an example in quotation marks.
    pub(crate) fn text(self) -> &'static [u8]
        ensures { result.now ≡ spec.sample_text self }
    {
        match self {
            Sample::Length => b"\"300 mm\"",
            Sample::Speed => b"\"8000 mm/min\"",
            Sample::Acceleration => b"\"500 mm/s2\"",
            Sample::Motor => b"\"80 steps/mm\"",
            Sample::Chain => b"\"1.8 deg, 8 microsteps, 5 mm pitch\"",
            Sample::Range => b"\"0 mm to 300 mm\"",
            Sample::Place => b"\"60, 40, -140 mm\"",
            Sample::Diameter => b"\"6 mm\"",
            Sample::Reach => b"\"45 mm\"",
            Sample::Flute => b"\"18 mm\"",
            Sample::HolderDiameter => b"\"25 mm\"",
            Sample::HolderLength => b"\"30 mm\"",
            Sample::Feeds => b"\"100 to 1500 mm/min\"",
            Sample::Plunge => b"\"300 mm/min\"",
            Sample::Turning => b"\"8000 to 24000 rpm\"",
            Sample::Other => b"a text with a unit",
        }
    }
}

// Returns the sample if a part of this kind is wrong: in a motor's text only a chain has other parts
// than steps.
fn sample_by(key: Key, kind: Kind) -> Sample
    ensures { result ≡ spec.sample_by key kind }
{
    match (sample_of(key), kind) {
        (Sample::Motor, Kind::Steps) => Sample::Motor,
        (Sample::Motor, _) => Sample::Chain,
        (sample, _) => sample,
    }
}

/// Returns the example for a text of a key in which a part of this kind is wrong.
pub(crate) fn example(key: Key, kind: Kind) -> &'static [u8]
    ensures { result.now ≡ spec.example key kind }
{
    sample_by(key, kind).text()
}

fn ending_example(key: Key, ending: Ending) -> &'static [u8]
    ensures { result.now ≡ spec.ending_example key ending }
{
    match ending {
        Ending::Nothing => sample_of(key).text(),
        Ending::Pitch => Sample::Chain.text(),
        Ending::Belt => b"\"1.8 deg, 8 microsteps, 20 teeth, 2 mm belt\"",
    }
}

/// Returns what ends the sentence on a cause: an example, or nothing where `complaint` says it all.
pub(crate) fn remedy(key: Key, cause: Cause) -> &'static [u8]
    ensures { result.now ≡ spec.remedy key cause }
{
    match cause {
        Cause::ManyDigits => b"",
        Cause::NoBlanks => b"\"60 mm + 12.5 mm\"",
        Cause::ZeroBelow | Cause::FractionUnit => b"\"1/8 in\"",
        Cause::Comma => b"\"12.5 mm\"",
        Cause::OtherEnding(ending) => ending_example(key, ending),
        Cause::UnknownUnit { kind, meant: _ } => example(key, kind),
        Cause::NoGear => b"\"24 teeth drive 60 teeth\"",
        _ => sample_of(key).text(),
    }
}
