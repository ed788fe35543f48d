//! What is wrong, and what to write.
ghost use Rattle.std.specs.Prelude.{◌≡◌};
ghost use Rattle.std.specs.Fmt.{signed_decimal};
ghost use Rattle.ngc_sentences.specs.Parts.{part_text};
ghost use Rattle.ngc_sentences.specs.Saying.{Says};
ghost use Rattle.ngc_refused_files.specs.Sentences as spec;

use crate::example::{Sample, example, remedy, sample_of};
use crate::place::table_of;
use ngc_machine_figures::{Key, ToolKey, ToolWrong, Wrong};
use ngc_quantities::{Cause, Ending, Kind, Unit};
use ngc_sentences::{Page, Part, say};
use ngc_text::{Sink, shown_bytes};

fn complaint(cause: Cause) -> &'static [u8]
    ensures { result.now ≡ spec.complaint cause }
{
    match cause {
        Cause::LongText => b"the text is longer than 256 bytes; example: ",
        Cause::NoNumber => b"a number is missing or wrong; example: ",
        Cause::NoBlanks => b"+ and - need a blank on each side: write it like ",
        Cause::ManyDigits =>
            b"a number has too many digits: write at most 12 on each side of the point",
        Cause::ZeroBelow => b"a fraction is over zero; example: ",
        Cause::Comma => b"there is a comma too many: write decimals as ",
        Cause::FractionUnit => b"a fraction must be in inches; example: ",
        Cause::OtherEnding(Ending::Nothing) => b"there is more text after the unit; example: ",
        Cause::OtherEnding(Ending::Pitch) => b"the word pitch is missing; example: ",
        Cause::OtherEnding(Ending::Belt) => b"the word belt is missing; example: ",
        Cause::Negative => b"a number is below zero; example: ",
        Cause::Zero => b"a number is zero; example: ",
        Cause::NoTo => b"the word to is missing; example: ",
        Cause::Reversed => b"the end is below the start; example: ",
        Cause::NoGear => b"the last part is no gear; example: ",
        _ => b"",
    }
}

fn kind_text(kind: Kind) -> &'static [u8]
    ensures { result.now ≡ spec.kind_text kind }
{
    match kind {
        Kind::Length => b"a length",
        Kind::Speed => b"a speed",
        Kind::Acceleration => b"an acceleration",
        Kind::Turning => b"a spindle speed",
        Kind::Steps => b"a motor",
        Kind::Angle => b"an angle",
        Kind::Microsteps => b"microsteps",
        Kind::Teeth => b"teeth",
    }
}

fn most_text(kind: Kind) -> &'static [u8]
    ensures { result.now ≡ spec.most_text kind }
{
    match kind {
        Kind::Length => b"1000000 mm",
        Kind::Speed => b"1000000 mm/min",
        Kind::Acceleration => b"1000000 mm/s2",
        Kind::Turning => b"1000000 rpm",
        Kind::Steps => b"1000000 steps/mm",
        Kind::Angle => b"360 deg",
        Kind::Microsteps => b"99999 microsteps",
        Kind::Teeth => b"99999 teeth",
    }
}

fn base_unit(sample: Sample) -> &'static [u8]
    ensures { result.now ≡ spec.base_unit sample }
{
    match sample {
        Sample::Length | Sample::Range | Sample::Place => b" nm",
        Sample::Diameter | Sample::Reach | Sample::Flute => b" nm",
        Sample::HolderDiameter | Sample::HolderLength => b" nm",
        Sample::Speed | Sample::Feeds | Sample::Plunge => b" nm/min",
        Sample::Turning => b" millionths of rpm",
        Sample::Acceleration => b" nm/s2",
        _ => b"",
    }
}

#[tactic(auto, unfolding(crate::specs::Sentences::no_unit))]
fn say_no_unit<'x, W: Sink>(subject: &'x [u8], example: &'x [u8], page: &mut Page, output: &mut W)
    ensures { Says (W.written output.old) (W.written output.new)
        (W.failures output.old) (W.failures output.new) page.old page.new
        (spec.no_unit subject.now example.now) }
{
    say!(page, output; Part::Text(subject), b" has no unit; example: ", Part::Text(example));
}

#[tactic(auto, unfolding(crate::specs::Sentences::meant_unit))]
fn say_meant_unit<'x, W: Sink>(subject: &'x [u8], unit: &'x [u8], page: &mut Page, output: &mut W)
    ensures { Says (W.written output.old) (W.written output.new)
        (W.failures output.old) (W.failures output.new) page.old page.new
        (spec.meant_unit subject.now unit.now) }
{
    say!(page, output; Part::Text(subject), b" has an unknown unit: did you mean ", Part::Text(unit), b"?");
}

#[tactic(auto, unfolding(crate::specs::Sentences::unmeant_unit))]
fn say_unmeant_unit<W: Sink>(example: &[u8], page: &mut Page, output: &mut W)
    ensures { Says (W.written output.old) (W.written output.new)
        (W.failures output.old) (W.failures output.new) page.old page.new
        (spec.unmeant_unit example.now) }
{
    say!(page, output; b"the unit is unknown; example: ", Part::Text(example));
}

#[tactic(auto, unfolding(crate::specs::Sentences::unknown_unit))]
fn say_unknown_unit<'x, W: Sink>(
    subject: &'x [u8],
    example: &'x [u8],
    meant: Option<Unit>,
    page: &mut Page,
    output: &mut W,
)
    ensures { Says (W.written output.old) (W.written output.new)
        (W.failures output.old) (W.failures output.new) page.old page.new
        (spec.unknown_unit subject.now example.now meant) }
{
    match meant {
        None => say_unmeant_unit(example, page, output),
        Some(unit) => say_meant_unit(subject, unit.name(), page, output),
    }
}

#[tactic(auto, unfolding(crate::specs::Sentences::other_kind))]
fn say_other_kind<'x, W: Sink>(
    example: &'x [u8],
    kind: &'x [u8],
    unit: &'x [u8],
    page: &mut Page,
    output: &mut W,
)
    ensures { Says (W.written output.old) (W.written output.new)
        (W.failures output.old) (W.failures output.new) page.old page.new
        (spec.other_kind example.now kind.now unit.now) }
{
    say!(page, output; Part::Text(unit), b" is no unit of ", Part::Text(kind), b"; example: ", Part::Text(example));
}

#[tactic(auto, unfolding(crate::specs::Sentences::too_large))]
fn say_too_large<W: Sink>(most: &[u8], page: &mut Page, output: &mut W)
    ensures { Says (W.written output.old) (W.written output.new)
        (W.failures output.old) (W.failures output.new) page.old page.new
        (spec.too_large most.now) }
{
    say!(page, output; b"the number is too large: write at most ", Part::Text(most));
}

fn signed(number: &i64) -> Part<'static>
    ensures { part_text result ≡ signed_decimal number.now }
{
    Part::Signed(*number)
}

#[tactic(auto, unfolding(crate::specs::Sentences::between_text))]
fn say_between<W: Sink>(unit: &[u8], low: &i64, high: &i64, page: &mut Page, output: &mut W)
    ensures { Says (W.written output.old) (W.written output.new)
        (W.failures output.old) (W.failures output.new) page.old page.new
        (spec.between_text unit.now low.now high.now) }
{
    say!(page, output; b"a number is between ", signed(low), b" and ", signed(high), Part::Text(unit), b": round it");
}

// Says a complaint, and what ends it.
#[tactic(auto, unfolding(crate::specs::Sentences::ended))]
fn say_ended<'x, W: Sink>(complaint: &'x [u8], remedy: &'x [u8], page: &mut Page, output: &mut W)
    ensures { Says (W.written output.old) (W.written output.new)
        (W.failures output.old) (W.failures output.new) page.old page.new
        (spec.ended complaint.now remedy.now) }
{
    say!(page, output; Part::Text(complaint), Part::Text(remedy));
}

// Says what is wrong in a text with a unit. The subject is the value as it is written, or "the value".
#[tactic(auto, unfolding(crate::specs::Sentences::cause_text))]
fn say_cause<W: Sink>(subject: &[u8], key: Key, cause: Cause, page: &mut Page, output: &mut W)
    ensures { Says (W.written output.old) (W.written output.new)
        (W.failures output.old) (W.failures output.new) page.old page.new
        (spec.cause_text subject.now key cause) }
{
    match cause {
        Cause::NoUnit(kind) => say_no_unit(subject, example(key, kind), page, output),
        Cause::UnknownUnit { kind, meant } => {
            say_unknown_unit(subject, example(key, kind), meant, page, output)
        }
        Cause::OtherKind { kind, unit } => {
            say_other_kind(
                example(key, kind),
                kind_text(kind),
                unit.name(),
                page,
                output,
            )
        }
        Cause::TooLarge(kind) => say_too_large(most_text(kind), page, output),
        Cause::Between { low, high } => {
            say_between(base_unit(sample_of(key)), &low, &high, page, output)
        }
        _ => say_ended(complaint(cause), remedy(key, cause), page, output),
    }
}

fn other_text(wrong: &Wrong) -> &'static [u8]
    ensures { result.now ≡ spec.other_text wrong.now }
{
    match wrong {
        Wrong::NoVersion => b" isn't a version that is read here: write 3",
        Wrong::NoDialect =>
            b" isn't a language: write \"linuxcnc\", \"grbl\", \"mach3\" or \"fanuc\"",
        Wrong::NoBool => b" is neither true nor false: write one of them",
        Wrong::NoRapids => b" isn't a kind of traverse: write \"straight\" or \"free\"",
        Wrong::NoSystem => b" isn't a coordinate system: write one of \"G54\" to \"G59.3\"",
        _ => b"",
    }
}

fn tool_text(wrong: ToolWrong) -> &'static [u8]
    ensures { result.now ≡ spec.tool_text wrong }
{
    match wrong {
        ToolWrong::NoTools => b"it isn't a list: write [[tool]] above the keys of each tool",
        ToolWrong::NoHolder =>
            b"it isn't a list: write [{ diameter = \"25 mm\", length = \"30 mm\" }]",
        ToolWrong::NoPart =>
            b"it isn't a table: write { diameter = \"25 mm\", length = \"30 mm\" }",
        ToolWrong::NoLength => b"length and stickout are missing: write length = \"45 mm\"",
        ToolWrong::LoneShank => b"it needs flute, above which it begins: write flute = \"18 mm\"",
        ToolWrong::ManyTools => b"there are more than 1000 tools: remove some",
        ToolWrong::Number => b"a tool's number is from 1 to 9999: write one of them",
        ToolWrong::NumberTwice =>
            b"a later tool has this number too: give each tool a number of its own",
        ToolWrong::Size => b"it isn't above 0 mm and at most 1000 mm: change it",
        ToolWrong::Offset => b"the offset is over 1000 mm: write at most 1000 mm either way",
        ToolWrong::ShortTool =>
            b"the holder is as long or longer: write the length from spindle nose to tip",
        ToolWrong::LongTool => b"stickout and holder are over 1000 mm together: write shorter ones",
        ToolWrong::UnequalHolder => b"with the holder it isn't the length: change it, or remove it",
        ToolWrong::UnequalLength =>
            b"it isn't the length: describe the rest of it with the key holder",
        ToolWrong::LongFlute =>
            b"it is longer than what sticks out of the holder: write a shorter one",
        ToolWrong::ManyParts =>
            b"cutter, shank and holder have over four parts: join parts of the holder",
        ToolWrong::NoCutter => b"it isn't a cutter: write \"flat\", \"ball\", \"vee\" or \"drill\"",
        ToolWrong::LonePoint =>
            b"only a vee or a drill has a point: write cutter = \"vee\", or remove it",
        ToolWrong::LongPoint => b"it is longer than the cutter: write at most the flute",
    }
}

fn whole_text(wrong: &Wrong) -> &'static [u8]
    ensures { result.now ≡ spec.whole_text wrong.now }
{
    match wrong {
        Wrong::Far => b"a length is over 4000 mm: write at most 4000 mm either way",
        Wrong::NoName =>
            b"it isn't a name: write 1 to 40 printable ASCII characters in quotation marks",
        Wrong::NoArray => b"it isn't a list: write [[fixture]] above the keys of each fixture",
        Wrong::ManyFixtures => b"there are more than 256 fixtures: remove some",
        Wrong::ManyClamps => b"there are more than 16 fixtures: move some to the machine file",
        Wrong::NoPath => b"it isn't a path: write it in quotation marks, as \"../mill.toml\"",
        Wrong::NoEnd => b"the box has no end: write to or size, as size = \"60, 40, 20 mm\"",
        Wrong::TwoEnds => b"the box has to and size: remove one of them",
        Wrong::Tool(wrong) => tool_text(*wrong),
        _ => b"",
    }
}

#[tactic(auto, unfolding(crate::specs::Sentences::range_text))]
fn say_range<W: Sink>(subject: &[u8], low: u32, high: u32, page: &mut Page, output: &mut W)
    ensures { Says (W.written output.old) (W.written output.new)
        (W.failures output.old) (W.failures output.new) page.old page.new
        (spec.range_text subject.now low high) }
{
    say!(page, output; Part::Text(subject), b" isn't a whole number from ", Part::Number(u128::from(low)), b" to ", Part::Number(u128::from(high)), b": write one");
}

fn lacking(key: Key) -> &'static [u8]
    ensures { result.now ≡ spec.lacking key }
{
    match key {
        Key::Axes | Key::Axis(_) => b"the table is missing: write ",
        _ => b"the key is missing: write ",
    }
}

fn table_example(key: Key) -> &'static [u8]
    ensures { result.now ≡ spec.table_example key }
{
    match key {
        Key::Axes => b"[axis.x], [axis.y] and [axis.z]",
        Key::Version => b"version = 3",
        Key::Tool(ToolKey::Number(_)) => b"number = 2",
        Key::Axis(_) => table_of(key).header(),
        _ => key.name().as_bytes(),
    }
}

#[tactic(auto, unfolding(crate::specs::Sentences::with_example))]
fn say_with_example<'x, W: Sink>(
    lacking: &'x [u8],
    name: &'x [u8],
    example: &'x [u8],
    page: &mut Page,
    output: &mut W,
)
    ensures { Says (W.written output.old) (W.written output.new)
        (W.failures output.old) (W.failures output.new) page.old page.new
        (spec.with_example lacking.now name.now example.now) }
{
    say!(page, output; Part::Text(lacking), Part::Text(name), b" = ", Part::Text(example));
}

#[tactic(auto, unfolding(crate::specs::Sentences::missing_text))]
fn say_missing<W: Sink>(key: Key, sample: Sample, page: &mut Page, output: &mut W)
    ensures { Says (W.written output.old) (W.written output.new)
        (W.failures output.old) (W.failures output.new) page.old page.new
        (spec.missing_text key sample) }
{
    match sample {
        Sample::Other => say_ended(lacking(key), table_example(key), page, output),
        _ => say_with_example(
            lacking(key),
            key.name().as_bytes(),
            sample.text(),
            page,
            output,
        ),
    }
}

#[tactic(auto, unfolding(crate::specs::Sentences::did_you_mean))]
fn say_did_you_mean<W: Sink>(name: &[u8], page: &mut Page, output: &mut W)
    ensures { Says (W.written output.old) (W.written output.new)
        (W.failures output.old) (W.failures output.new) page.old page.new
        (spec.did_you_mean name.now) }
{
    say!(page, output; b"did you mean ", Part::Text(name), b"?");
}

#[tactic(auto, unfolding(crate::specs::Sentences::meant_key))]
fn say_meant_key<W: Sink>(meant: Option<Key>, page: &mut Page, output: &mut W)
    ensures { Says (W.written output.old) (W.written output.new)
        (W.failures output.old) (W.failures output.new) page.old page.new
        (spec.meant_key meant) }
{
    match meant {
        None => say!(page, output; b"remove it"),
        Some(key) => say_did_you_mean(key.name().as_bytes(), page, output),
    }
}

#[tactic(auto, unfolding(crate::specs::Sentences::not_here))]
fn say_not_here<W: Sink>(word: &[u8], page: &mut Page, output: &mut W)
    ensures { Says (W.written output.old) (W.written output.new)
        (W.failures output.old) (W.failures output.new) page.old page.new
        (spec.not_here word.now) }
{
    say!(page, output; b"\"", Part::Text(word), b"\" isn't a key here: ");
}

#[tactic(auto, unfolding(crate::specs::Sentences::unknown_text))]
fn say_unknown<W: Sink>(word: &[u8], meant: Option<Key>, page: &mut Page, output: &mut W)
    ensures { Says (W.written output.old) (W.written output.new)
        (W.failures output.old) (W.failures output.new) page.old page.new
        (spec.unknown_text word.now meant) }
{
    say_not_here(shown_bytes(word).as_slice(), page, output);
    say_meant_key(meant, page, output);
}

#[tactic(auto, unfolding(crate::specs::Sentences::no_text))]
fn say_no_text<W: Sink>(example: &[u8], page: &mut Page, output: &mut W)
    ensures { Says (W.written output.old) (W.written output.new)
        (W.failures output.old) (W.failures output.new) page.old page.new
        (spec.no_text example.now) }
{
    say!(page, output; b"the value isn't a text with a unit; example: ", Part::Text(example));
}

#[tactic(auto, unfolding(crate::specs::Sentences::no_table))]
fn say_no_table<W: Sink>(header: &[u8], page: &mut Page, output: &mut W)
    ensures { Says (W.written output.old) (W.written output.new)
        (W.failures output.old) (W.failures output.new) page.old page.new
        (spec.no_table header.now) }
{
    say!(page, output; b"it isn't a table: write ", Part::Text(header), b" and its keys below");
}

/// Says what is wrong, and what to write. The subject is the value as it is written, or "the value".
#[tactic(auto, unfolding(crate::specs::Sentences::wrong_text))]
pub(crate) fn say_wrong<W: Sink>(
    subject: &[u8],
    key: Key,
    wrong: &Wrong,
    page: &mut Page,
    output: &mut W,
)
    ensures { Says (W.written output.old) (W.written output.new)
        (W.failures output.old) (W.failures output.new) page.old page.new
        (spec.wrong_text subject.now key wrong.now) }
{
    match wrong {
        Wrong::Missing => say_missing(key, sample_of(key), page, output),
        Wrong::Unknown { word, meant } => say_unknown(word.as_bytes(), *meant, page, output),
        Wrong::Bare(_) => say_no_unit(subject, sample_of(key).text(), page, output),
        Wrong::NoText(_) => say_no_text(sample_of(key).text(), page, output),
        Wrong::Text(fault) => say_cause(subject, key, fault.cause, page, output),
        Wrong::NoWhole { low, high } => say_range(subject, *low, *high, page, output),
        Wrong::NoTable => say_no_table(table_of(key).header(), page, output),
        Wrong::NoVersion | Wrong::NoDialect | Wrong::NoBool | Wrong::NoRapids | Wrong::NoSystem => {
            say_ended(subject, other_text(wrong), page, output)
        }
        _ => say!(page, output; Part::Text(whole_text(wrong))),
    }
}
