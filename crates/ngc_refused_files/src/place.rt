//! The table of a key, and the place that a message names.
ghost use Rattle.std.specs.Prelude.{◌≡◌};
ghost use Rattle.ngc_sentences.specs.Saying.{Says};
ghost use Rattle.ngc_refused_files.specs.Places as spec;

use ngc_machine_figures::{AxisName, Key, ToolKey};
use ngc_sentences::{Page, Part, say};
use ngc_text::Sink;

/// A table of a machine file or of a tool table.
#[derive(Clone, Copy)]
pub(crate) enum Section {
    /// What is before all tables.
    Top,
    Axes,
    Axis(AxisName),
    Origins,
    /// The fixture with this number in the file's order, from 0.
    Fixture(u16),
    Stock,
    /// The tool with this number in the table's order, from 0.
    Tool(u16),
    /// A part of a tool's holder, from 0.
    Part { tool: u16, part: u8 },
}

// Returns the table that has a key of a tool table. Of a tool's table itself it is that table, and of
// a part of a holder it is that part.
fn tool_with(key: ToolKey) -> Section
    ensures { result ≡ spec.tool_with key }
{
    match key {
        ToolKey::Tools => Section::Top,
        ToolKey::Tool(tool)
        | ToolKey::Number(tool)
        | ToolKey::Name(tool)
        | ToolKey::Diameter(tool)
        | ToolKey::Length(tool)
        | ToolKey::Stickout(tool)
        | ToolKey::Flute(tool)
        | ToolKey::Shank(tool)
        | ToolKey::Offset(tool)
        | ToolKey::Cutter(tool)
        | ToolKey::Point(tool)
        | ToolKey::Speed(tool)
        | ToolKey::Feed(tool)
        | ToolKey::Plunge(tool)
        | ToolKey::Holder(tool) => Section::Tool(tool),
        ToolKey::Part { tool, part }
        | ToolKey::PartDiameter { tool, part }
        | ToolKey::PartLength { tool, part } => Section::Part { tool, part },
    }
}

/// Returns the table that has a key. Of the table of a fixture or a tool itself it is that table.
pub(crate) fn table_with(key: Key) -> Section
    ensures { result ≡ spec.table_with key }
{
    match key {
        Key::Axis(_) => Section::Axes,
        Key::Motor(axis) | Key::Travel(axis) | Key::Speed(axis) | Key::Acceleration(axis) => {
            Section::Axis(axis)
        }
        Key::Origin(_) => Section::Origins,
        Key::Fixture(number)
        | Key::FixtureName(number)
        | Key::FixtureIn(number)
        | Key::FixtureFrom(number)
        | Key::FixtureTo(number)
        | Key::FixtureSize(number) => Section::Fixture(number),
        Key::StockIn | Key::StockFrom | Key::StockTo | Key::StockSize => Section::Stock,
        Key::Tool(key) => tool_with(key),
        _ => Section::Top,
    }
}

fn tool_of(key: ToolKey) -> Section
    ensures { result ≡ spec.tool_of key }
{
    match key {
        ToolKey::Tool(tool) => Section::Tool(tool),
        ToolKey::Part { tool, part } => Section::Part { tool, part },
        _ => Section::Top,
    }
}

/// Returns the table that a key names; what is before all tables if it names none.
pub(crate) fn table_of(key: Key) -> Section
    ensures { result ≡ spec.table_of key }
{
    match key {
        Key::Axes => Section::Axes,
        Key::Axis(axis) => Section::Axis(axis),
        Key::Origins => Section::Origins,
        Key::Fixture(number) => Section::Fixture(number),
        Key::Stock => Section::Stock,
        Key::Tool(key) => tool_of(key),
        _ => Section::Top,
    }
}

impl Section {
    /// Returns the header of the table. A part of a holder has that of its tool.
    pub(crate) fn header(self) -> &'static [u8]
        ensures { result.now ≡ spec.header_text self }
    {
        match self {
            Section::Top => b"",
            Section::Axes => b"[axis]",
            Section::Axis(AxisName::X) => b"[axis.x]",
            Section::Axis(AxisName::Y) => b"[axis.y]",
            Section::Axis(AxisName::Z) => b"[axis.z]",
            Section::Origins => b"[origin]",
            Section::Fixture(_) => b"[[fixture]]",
            Section::Stock => b"[stock]",
            Section::Tool(_) | Section::Part { .. } => b"[[tool]]",
        }
    }

    /// Returns the number of lines with this header up to the table's own.
    pub(crate) fn headers(self) -> u128
        ensures { result ≡ spec.headers self }
    {
        match self {
            Section::Top => 0,
            Section::Fixture(number) => u128::from(number) + 1,
            Section::Tool(tool) | Section::Part { tool, part: _ } => u128::from(tool) + 1,
            _ => 1,
        }
    }
}

#[tactic(auto, unfolding(crate::specs::Places::tool_text))]
fn say_tool<W: Sink>(tool: u16, end: &[u8], page: &mut Page, output: &mut W)
    ensures { Says (W.written output.old) (W.written output.new)
        (W.failures output.old) (W.failures output.new) page.old page.new
        (spec.tool_text tool end.now) }
{
    say!(page, output; b"[[tool]] ", Part::Number(u128::from(tool) + 1), Part::Text(end));
}

#[tactic(auto, unfolding(crate::specs::Places::part_text))]
fn say_part<W: Sink>(tool: u16, part: u8, end: &[u8], page: &mut Page, output: &mut W)
    ensures { Says (W.written output.old) (W.written output.new)
        (W.failures output.old) (W.failures output.new) page.old page.new
        (spec.part_text tool part end.now) }
{
    say!(page, output; b"[[tool]] ", Part::Number(u128::from(tool) + 1), b", holder part ", Part::Number(u128::from(part) + 1), Part::Text(end));
}

#[tactic(auto, unfolding(crate::specs::Places::section_text))]
fn say_section<W: Sink>(section: Section, page: &mut Page, output: &mut W)
    ensures { Says (W.written output.old) (W.written output.new)
        (W.failures output.old) (W.failures output.new) page.old page.new
        (spec.section_text section) }
{
    match section {
        Section::Top => {}
        Section::Axes => say!(page, output; b"axis."),
        Section::Axis(axis) => {
            say!(page, output; b"axis.", Part::Text(axis.name().as_bytes()), b".")
        }
        Section::Origins => say!(page, output; b"origin."),
        Section::Fixture(number) => {
            say!(page, output; b"fixture ", Part::Number(u128::from(number) + 1), b", ")
        }
        Section::Stock => say!(page, output; b"stock."),
        Section::Tool(tool) => say_tool(tool, b", ", page, output),
        Section::Part { tool, part } => say_part(tool, part, b", ", page, output),
    }
}

/// How a message names a key.
#[derive(Clone, Copy)]
pub(crate) enum Naming {
    /// The file itself has no name.
    Nothing,
    /// By its number.
    Fixture(u16),
    Tool(u16),
    Part { tool: u16, part: u8 },
    /// By its table and its name.
    Key,
}

fn tool_naming(key: ToolKey) -> Naming
    ensures { result ≡ spec.tool_naming key }
{
    match key {
        ToolKey::Tool(tool) => Naming::Tool(tool),
        ToolKey::Part { tool, part } => Naming::Part { tool, part },
        _ => Naming::Key,
    }
}

fn naming_of(key: Key) -> Naming
    ensures { result ≡ spec.naming_of key }
{
    match key {
        Key::File => Naming::Nothing,
        Key::Fixture(number) => Naming::Fixture(number),
        Key::Tool(key) => tool_naming(key),
        _ => Naming::Key,
    }
}

#[tactic(auto, unfolding(crate::specs::Places::key_text))]
fn say_key<W: Sink>(section: Section, name: &[u8], page: &mut Page, output: &mut W)
    ensures { Says (W.written output.old) (W.written output.new)
        (W.failures output.old) (W.failures output.new) page.old page.new
        (spec.key_text section name.now) }
{
    say_section(section, page, output);
    say!(page, output; Part::Text(name), b": ");
}

#[tactic(auto, unfolding(crate::specs::Places::named_text))]
fn say_named<W: Sink>(key: Key, naming: Naming, page: &mut Page, output: &mut W)
    ensures { Says (W.written output.old) (W.written output.new)
        (W.failures output.old) (W.failures output.new) page.old page.new
        (spec.named_text key naming) }
{
    match naming {
        Naming::Nothing => {}
        Naming::Fixture(number) => {
            say!(page, output; b"fixture ", Part::Number(u128::from(number) + 1), b": ")
        }
        Naming::Tool(tool) => say_tool(tool, b": ", page, output),
        Naming::Part { tool, part } => say_part(tool, part, b": ", page, output),
        Naming::Key => say_key(table_with(key), key.name().as_bytes(), page, output),
    }
}

/// Says which key a message is about, before a colon; nothing for the file itself.
#[tactic(auto, unfolding(crate::specs::Places::place_text))]
pub(crate) fn say_place<W: Sink>(key: Key, page: &mut Page, output: &mut W)
    ensures { Says (W.written output.old) (W.written output.new)
        (W.failures output.old) (W.failures output.new) page.old page.new
        (spec.place_text key) }
{
    say_named(key, naming_of(key), page, output);
}

/// Returns the word with which the line of a key begins: of a part of a holder it is `holder`, since a
/// holder's parts are written in its line, or in the lines after it.
pub(crate) fn line_word(key: Key) -> &'static [u8]
    ensures { result.now ≡ spec.line_word key }
{
    match table_with(key) {
        Section::Part { .. } => b"holder",
        _ => key.name().as_bytes(),
    }
}
