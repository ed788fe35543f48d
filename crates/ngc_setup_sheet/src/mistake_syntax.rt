//! How mistakes are written.
ghost use Rattle.std.specs.Prelude.{◌≡◌, ◌+◌, ◌≤◌, ◌++◌, codes, length};
ghost use Rattle.ngc_text.specs.Collected.{CHUNK_SIZE};
ghost use Rattle.ngc_setup_sheet.specs.Keys.{key_text};
ghost use Rattle.ngc_setup_sheet.specs.MistakeTexts.{requested_text, known_text, section_text};
ghost use Rattle.ngc_setup_sheet.specs.MistakeTexts.{sentence_text, mistake_text};
ghost use Rattle.ngc_setup_sheet.specs.Quoted.{quote_of};

use crate::mistake::{Mistake, Rule, Section};
use crate::quoted::add_quote;
use crate::rows::key;
use itoa::Integer;
use ngc_text::{Chunk, shown_bytes};

#[tactic(auto, unfolding(crate::specs::MistakeTexts::requested_text))]
fn asked(rule: Rule) -> &'static [u8]
    ensures text { result.now ≡ requested_text rule }
    ensures short { length result.now ≤ 200 }
{
    match rule {
        Rule::Version =>
            b"It must be 1, 2 where the file has `axis_rate`, or 3 where its lengths have a unit: the version of this format.\n",
        Rule::Step =>
            b"It must be a whole number from 500 to 50,000: the length of a step in nm.\n",
        Rule::TicksPerSecond =>
            b"It must be a whole number from 1 to 1,000,000: ticks in a second.\n",
        Rule::MaxRate =>
            b"It must be a whole number from 1 to 1,000,000: the greatest rate, in millionths of a step a tick.\n",
        Rule::AxisRate =>
            b"In version 2 it must be three whole numbers from 1 to 1,000,000: the greatest rates on X, Y and Z, in millionths of a step a tick. Version 1 has no such key.\n",
        Rule::Jump =>
            b"In version 2 it must be a whole number from 0 to 1,000,000, or left out: how much the rate of an axis may change where motions meet, in millionths of a step a tick. Version 1 has no such key.\n",
        Rule::Ring =>
            b"In version 2 it must be a whole number from 16 to 1,024, or left out: how many commands are loaded and not done at most. Version 1 has no such key.\n",
        Rule::ArcFeed =>
            b"In version 2 it must be 0, 1 or 2, or left out: 1 where arcs run at their feed at every place, 2 where they keep `turn` there too. Version 1 has no such key.\n",
        Rule::Changer =>
            b"In version 2 it must be 0 or 1, or left out: 1 where the machine changes tools by itself. Version 1 has no such key.\n",
        Rule::Margin =>
            b"In version 2 it must be a whole number from 0 to 100,000,000, or left out: how far programs keep from every fixture, in nm. Version 1 has no such key.\n",
        Rule::TravelMargin =>
            b"In version 2 it must be a whole number from 0 to 100,000,000, or left out: how far programs keep from the travel limits, in nm. Version 1 has no such key.\n",
        Rule::Rapids =>
            b"In version 2 it must be \"straight\" or \"free\", or left out: the way that the control takes to the end of a traverse. Version 1 has no such key.\n",
        Rule::Dialect =>
            b"In version 2 it must be \"linuxcnc\", \"grbl\", \"mach3\" or \"fanuc\", or left out: the language of programs for another control. Version 1 has no such key.\n",
        Rule::Stock =>
            b"In version 2 it must be a table of `low` below `high`, three numbers each from -1,000,000,000 to 1,000,000,000 in nm, and perhaps `system`, 0 to 9, or left out. Version 1 has no such key.\n",
        Rule::Change =>
            b"It must be a whole number from 1 to 1,000,000: how much the rate may change in a tick, in millionths of a step a tick.\n",
        Rule::Corner =>
            b"It must be a whole number from 1 to 1,000,000: the greatest rate at a change of direction, in millionths of a step a tick.\n",
        Rule::Turn =>
            b"It must be a whole number from 1 to 1,000,000,000,000: on arcs the square of the rate, times `step`, is at most this times the radius in nm.\n",
        Rule::Low =>
            b"It must be three whole numbers from -1,000,000,000 to 1,000,000,000: the least X, Y and Z of the travel in nm.\n",
        Rule::High =>
            b"It must be three whole numbers from -1,000,000,000 to 1,000,000,000: the greatest X, Y and Z of the travel in nm.\n",
        Rule::LowAtMostHigh => b"On each axis it must be at most the number that `high` has.\n",
        Rule::StartWithin =>
            b"It must be three whole numbers, on each axis from `low` to `high`: where the axes are when a program starts, in nm.\n",
        Rule::StartOnGrid => b"Its numbers must be whole multiples of `step`.\n",
        Rule::Home28 =>
            b"It must be three whole numbers from -1,000,000,000 to 1,000,000,000: where G28 goes, in nm.\n",
        Rule::Home30 =>
            b"It must be three whole numbers from -1,000,000,000 to 1,000,000,000: where G30 goes, in nm.\n",
        Rule::Origins =>
            b"It must be nine positions of three whole numbers from -1,000,000,000 to 1,000,000,000: the origins of G54 to G59, G59.1, G59.2 and G59.3 in nm.\n",
        Rule::Fixtures =>
            b"It must be at most 256 tables `[[fixture]]`, each with `low` and `high`.\n",
        Rule::LowCorner =>
            b"It must be three whole numbers from -4,000,000,000 to 4,000,000,000: the lower corner in nm.\n",
        Rule::HighCorner =>
            b"It must be three whole numbers from -4,000,000,000 to 4,000,000,000: the upper corner in nm.\n",
        Rule::LowBelowHigh => b"On each axis it must be less than the number that `high` has.\n",
        Rule::ToolsVersion =>
            b"It must be 1, 2 where tools have `parts`, or 3 where their lengths have a unit: the version of this format.\n",
        Rule::Tools => b"It must be at most 1,000 tables `[[tool]]`.\n",
        Rule::Number => b"It must be a whole number from 1 to 9,999: what T and H call the tool.\n",
        Rule::NumberOnce => b"It must be a number that no other tool has.\n",
        Rule::Length =>
            b"It must be a whole number from 0 to 1,000,000,000: how far the tool reaches below the spindle nose, in nm.\n",
        Rule::Radius => b"It must be a whole number from 0 to 1,000,000,000: the radius in nm.\n",
        Rule::Offset =>
            b"It must be a whole number from -1,000,000,000 to 1,000,000,000: what G43 adds to Z, in nm.\n",
        Rule::Bottom =>
            b"It must be a whole number from -1,000,000,000 to 0: the height of the tool's tip relative to the spindle nose, in nm.\n",
        Rule::Parts =>
            b"It must be one to four tables from the lowest part up, each with `length` and `radius`, whole numbers from 0 to 1,000,000,000 in nm.\n",
        Rule::Name =>
            b"It must be 1 to 40 printable ASCII characters in quotation marks, or left out: what reports call it.\n",
    }
}

#[tactic(auto, unfolding(crate::specs::MistakeTexts::known_text))]
fn known(section: Section) -> &'static [u8]
    ensures text { result.now ≡ known_text section }
    ensures short { length result.now ≤ 290 }
{
    match section {
        Section::Machine =>
            b"Known are `version`, `step`, `ticks_per_second`, `max_rate`, `change`, `corner`, `turn`, `low`, `high`, `start`, `home28`, `home30`, `origins`, `fixture`, and in version 2 `axis_rate`, `jump`, `ring`, `arc_feed`, `changer`, `margin`, `travel_margin`, `rapids`, `dialect` and `stock`.\n",
        Section::FirstFixture(_) => b"Known are `low` and `high`.\n",
        Section::SecondFixture(_) => b"Known are `low`, `high` and `name`.\n",
        Section::Tools => b"Known are `version` and `tool`.\n",
        Section::FirstTool(_) => b"Known are `number`, `length`, `radius` and `offset`.\n",
        Section::SecondTool(_) => b"Known are `number`, `offset`, `bottom`, `parts` and `name`.\n",
    }
}

/// Adds a text, a number and a text.
fn add_numbered<I: Integer>(chunk: &mut Chunk, before: &[u8], number: I, afterwards: &[u8])
    requires room { length chunk.old + 160 ≤ CHUNK_SIZE }
    requires before { length before.now ≤ 20 }
    requires afterwards { length afterwards.now ≤ 80 }
    ensures text { chunk.new ≡ chunk.old ++ (before.now ++ I.text number ++ afterwards.now) }
    ensures short { length chunk.new ≤ length chunk.old + 160 }
{
    chunk.add_text(before);
    chunk.add_number(number);
    chunk.add_text(afterwards);
}

fn add_section(chunk: &mut Chunk, section: Section)
    requires { length chunk.old + 160 ≤ CHUNK_SIZE }
    ensures text { chunk.new ≡ chunk.old ++ section_text section }
    ensures short { length chunk.new ≤ length chunk.old + 160 }
{
    match section {
        Section::Machine | Section::Tools => chunk.add_text(b"The"),
        Section::FirstFixture(number) | Section::SecondFixture(number) => add_numbered(
            chunk,
            b"In fixture ",
            number,
            b", counted from 0, the",
        ),
        Section::FirstTool(number) | Section::SecondTool(number) => add_numbered(
            chunk,
            b"In `[[tool]]` ",
            number,
            b", counted from 0, the",
        ),
    }
}

/// Adds what is said of a key, and the requirement.
fn add_sentence(chunk: &mut Chunk, section: Section, key: &[u8], said: &[u8], asked: &[u8])
    requires room { length chunk.old + 730 ≤ CHUNK_SIZE }
    requires said { length said.now ≤ 10 }
    requires asked { length asked.now ≤ 290 }
    ensures text { chunk.new ≡ chunk.old ++ sentence_text section key.now said.now asked.now }
    ensures short { length chunk.new ≤ length chunk.old + 730 }
{
    add_section(chunk, section);
    chunk.add_text(b" key `");
    chunk.add_text(shown_bytes(key).as_slice());
    chunk.add_text(b"` is ");
    chunk.add_text(said);
    chunk.add_text(asked);
}

fn add_unknown(chunk: &mut Chunk, section: Section, key: &[u8], bytes: &[u8])
    requires { length chunk.old + 1130 ≤ CHUNK_SIZE }
    ensures { chunk.new ≡ chunk.old
        ++ (sentence_text section key.now (codes "unknown. ") (known_text section)
        ++ quote_of section key.now bytes.now) }
{
    add_sentence(chunk, section, key, b"unknown. ", known(section));
    add_quote(chunk, section, key, bytes);
}

fn add_refused(chunk: &mut Chunk, section: Section, rule: Rule, bytes: &[u8])
    requires { length chunk.old + 1130 ≤ CHUNK_SIZE }
    ensures { chunk.new ≡ chunk.old
        ++ (sentence_text section (key_text rule) (codes "refused. ") (requested_text rule)
        ++ quote_of section (key_text rule) bytes.now) }
{
    let key = key(rule).as_bytes();
    add_sentence(chunk, section, key, b"refused. ", asked(rule));
    add_quote(chunk, section, key, bytes);
}

/// Adds what is wrong in a file.
fn add_mistake(chunk: &mut Chunk, mistake: &Mistake, bytes: &[u8])
    requires { length chunk.old + 1130 ≤ CHUNK_SIZE }
    ensures { chunk.new ≡ chunk.old ++ mistake_text bytes.now mistake.now }
{
    match mistake {
        Mistake::NoDocument => chunk.add_text(b"The file is no TOML document.\n"),
        Mistake::Unknown(section, key) => add_unknown(chunk, *section, key.as_slice(), bytes),
        Mistake::Missing(section, rule) => {
            let key = key(*rule).as_bytes();
            add_sentence(chunk, *section, key, b"missing. ", asked(*rule));
        }
        Mistake::Refused(section, rule) => add_refused(chunk, *section, *rule, bytes),
        Mistake::Other(fault) => { add_numbered(chunk, b"The fault is ", fault.number(), b".\n") }
    }
}

/// Returns the text of a mistake.
pub(crate) fn text(mistake: &Mistake, bytes: &[u8]) -> Chunk
    ensures { result ≡ mistake_text bytes.now mistake.now }
{
    let mut chunk = Chunk::new();
    add_mistake(&mut chunk, mistake, bytes);
    chunk
}
