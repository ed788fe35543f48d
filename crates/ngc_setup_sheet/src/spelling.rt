//! How lines are said.
ghost use Rattle.std.specs.Prelude.{◌≡◌, ◌++◌, codes, decimal};
ghost use Rattle.ngc_text.specs.Millimetres.{mm_text};
ghost use Rattle.ngc_sentences.specs.Parts.{parts_text};
ghost use Rattle.ngc_sentences.specs.Saying.{Says};
ghost use Rattle.ngc_setup_sheet.specs.declared.line.Warning.TheVariants as warnings;
ghost use Rattle.ngc_setup_sheet.specs.Spelling.{span_text, place_text, block_system, block_text};
ghost use Rattle.ngc_setup_sheet.specs.Spelling.{system_text, origin_text, fact_text};
ghost use Rattle.ngc_setup_sheet.specs.Spelling.{figure_text, warning_text};
ghost use Rattle.ngc_setup_sheet.specs.Spelling.{bracketed, corner_note, limits_text, line_text};
ghost use Rattle.ngc_setup_sheet.specs.Spelling.{written_note};

use crate::line::{Axis, Fact, Figure, Line, Span, Warning};
use ngc_file_figures::Limits;
use ngc_fixed_length::{Point3, System};
use ngc_machine_files::{Name, StockBox};
use ngc_sentences::{Page, Part, say};
use ngc_text::Sink;

fn span(span: &Span) -> [Part<'static>; 6]
    ensures { parts_text result ≡ span_text span.now }
{
    [
        Part::Length(span.low),
        Part::Text(b" to "),
        Part::Length(span.high),
        Part::Text(b" mm, "),
        Part::Size(u128::from(span.high.abs_diff(span.low))),
        Part::Text(b" mm long"),
    ]
}

fn place(place: &Point3) -> [Part<'static>; 6]
    ensures { parts_text result ≡ place_text place.now }
{
    [
        Part::Text(b"X "),
        Part::Length(place.x.nanometres()),
        Part::Text(b" Y "),
        Part::Length(place.y.nanometres()),
        Part::Text(b" Z "),
        Part::Millimetres(place.z.nanometres()),
    ]
}

#[tactic(auto, unfolding(crate::specs::Spelling::system_text))]
fn system_name(system: System) -> &'static [u8]
    ensures { result.now ≡ system_text system }
{
    match system {
        System::First => b"G54",
        System::Second => b"G55",
        System::Third => b"G56",
        System::Fourth => b"G57",
        System::Fifth => b"G58",
        System::Sixth => b"G59",
        System::Seventh => b"G59.1",
        System::Eighth => b"G59.2",
        System::Ninth => b"G59.3",
    }
}

#[tactic(auto, unfolding(crate::specs::Spelling::origin_text))]
fn origin(system: System) -> &'static [u8]
    ensures { result.now ≡ origin_text system }
{
    match system {
        System::First => b"  origin of G54         ",
        System::Second => b"  origin of G55         ",
        System::Third => b"  origin of G56         ",
        System::Fourth => b"  origin of G57         ",
        System::Fifth => b"  origin of G58         ",
        System::Sixth => b"  origin of G59         ",
        System::Seventh => b"  origin of G59.1       ",
        System::Eighth => b"  origin of G59.2       ",
        System::Ninth => b"  origin of G59.3       ",
    }
}

#[tactic(auto, unfolding(crate::specs::Spelling::fact_text))]
fn fact(fact: &Fact) -> &'static [u8]
    ensures { result.now ≡ fact_text fact.now }
{
    match fact {
        Fact::Step => b"  step                  ",
        Fact::Steps => b"  steps                 ",
        Fact::PathStep => b"  step of the path      ",
        Fact::PathSteps => b"  steps of the path     ",
        Fact::Motor(Axis::X) => b"  step of X's motor     ",
        Fact::Motor(Axis::Y) => b"  step of Y's motor     ",
        Fact::Motor(Axis::Z) => b"  step of Z's motor     ",
        Fact::MotorSteps(Axis::X) => b"  steps of X's motor    ",
        Fact::MotorSteps(Axis::Y) => b"  steps of Y's motor    ",
        Fact::MotorSteps(Axis::Z) => b"  steps of Z's motor    ",
        Fact::Ticks => b"  ticks                 ",
        Fact::GreatestSpeed => b"  greatest speed        ",
        Fact::CornerSpeed => b"  speed at corners      ",
        Fact::Jump => b"  jump at corners       ",
        Fact::Ring => b"  commands in the ring  ",
        Fact::ArcFeed => b"  feed on arcs          ",
        Fact::Changer => b"  tools are changed     ",
        Fact::Margin => b"  margin to fixtures    ",
        Fact::TravelMargin => b"  margin to the limits  ",
        Fact::Rapids => b"  traverses take        ",
        Fact::Dialect => b"  language of programs  ",
        Fact::Stock => b"  material              ",
        Fact::Acceleration => b"  acceleration          ",
        Fact::AxisAcceleration(Axis::X) => b"  acceleration of X     ",
        Fact::AxisAcceleration(Axis::Y) => b"  acceleration of Y     ",
        Fact::AxisAcceleration(Axis::Z) => b"  acceleration of Z     ",
        Fact::ArcAcceleration => b"  acceleration on arcs  ",
        Fact::Speed(Axis::X) => b"  speed of X            ",
        Fact::Speed(Axis::Y) => b"  speed of Y            ",
        Fact::Speed(Axis::Z) => b"  speed of Z            ",
        Fact::Travel(Axis::X) => b"  travel on X           ",
        Fact::Travel(Axis::Y) => b"  travel on Y           ",
        Fact::Travel(Axis::Z) => b"  travel on Z           ",
        Fact::Start => b"  start                 ",
        Fact::Home => b"  home of G28           ",
        Fact::SecondHome => b"  home of G30           ",
        Fact::Origin(system) => origin(*system),
        Fact::Extent(Axis::X) => b"  on X                  ",
        Fact::Extent(Axis::Y) => b"  on Y                  ",
        Fact::Extent(Axis::Z) => b"  on Z                  ",
        Fact::Offset => b"  length offset         ",
        Fact::Part => b"  part                  ",
        Fact::Cutter => b"  cutter                ",
        Fact::SpindleLimits => b"  spindle               ",
        Fact::FeedLimits => b"  feed                  ",
        Fact::PlungeLimits => b"  feed straight down    ",
    }
}

fn say_length<W: Sink>(nanometres: &i64, page: &mut Page, output: &mut W)
    ensures { Says (W.written output.old) (W.written output.new)
        (W.failures output.old) (W.failures output.new) page.old page.new (mm_text nanometres.now) }
{
    say!(page, output; Part::Millimetres(*nanometres));
}

/// Says limits in millionths of a unit, without it.
fn say_limits<W: Sink>(limits: &Limits, page: &mut Page, output: &mut W)
    ensures { Says (W.written output.old) (W.written output.new)
        (W.failures output.old) (W.failures output.new) page.old page.new (limits_text limits.now) }
{
    if limits.least == 0 {
        say!(page, output; b"at most ", Part::Size(u128::from(limits.greatest)));
    } else {
        say!(page, output; Part::Size(u128::from(limits.least)), b" to ", Part::Size(u128::from(limits.greatest)));
    }
}

/// Says the coordinate system of a block of material.
fn say_block_system<W: Sink>(number: u32, page: &mut Page, output: &mut W)
    ensures { Says (W.written output.old) (W.written output.new)
        (W.failures output.old) (W.failures output.new) page.old page.new (block_system number) }
{
    if number == 0 {
        say!(page, output; b"machine coordinates");
    } else if number <= 6 {
        say!(page, output; b"G", Part::Number(u128::from(number + 53)));
    } else {
        say!(page, output; b"G59.", Part::Number(u128::from(number - 6)));
    }
}

/// Says the corners of a block of material, and their coordinate system.
fn say_block<W: Sink>(block: &StockBox, page: &mut Page, output: &mut W)
    ensures { Says (W.written output.old) (W.written output.new)
        (W.failures output.old) (W.failures output.new) page.old page.new (block_text block.now) }
{
    page.say(output, &place(&block.low));
    say!(page, output; b" to ");
    page.say(output, &place(&block.high));
    say!(page, output; b" in ");
    say_block_system(block.system, page, output);
}

#[tactic(auto, unfolding(crate::specs::Spelling::figure_text))]
fn say_figure<W: Sink>(figure: &Figure, page: &mut Page, output: &mut W)
    ensures { Says (W.written output.old) (W.written output.new)
        (W.failures output.old) (W.failures output.new) page.old page.new (figure_text figure.now) }
{
    match figure {
        Figure::Length(nanometres) => say_length(nanometres, page, output),
        Figure::PerMillimetre(number) => {
            say!(page, output; Part::Thousandths(*number), b" a mm")
        }
        Figure::PerSecond(number) =>
            say!(page, output; Part::Number(u128::from(*number)), b" a second"),
        Figure::Count(number) => say!(page, output; Part::Number(u128::from(*number))),
        Figure::ByPlace => say!(page, output; b"at each place"),
        Figure::ByPlaceWithTurn => { say!(page, output; b"at each place, as is the acceleration") }
        Figure::ByMachine => say!(page, output; b"by the machine"),
        Figure::AnyWay => say!(page, output; b"any way within the box of their ends"),
        Figure::Language(dialect) => say!(page, output; Part::Text(dialect.name().as_bytes())),
        Figure::Block(block) => say_block(block, page, output),
        Figure::Speed(number) => { say!(page, output; Part::Thousandths(*number), b" mm/min") }
        Figure::Acceleration(number) => {
            say!(page, output; Part::Thousandths(*number), b" mm/s^2")
        }
        Figure::SpeedAsWritten(number, written) =>
            say!(page, output; Part::Thousandths(*number), b" mm/min (", Part::Size(u128::from(*written)), b" as written)"),
        Figure::AccelerationAsWritten(number, written) =>
            say!(page, output; Part::Thousandths(*number), b" mm/s^2 (", Part::Size(u128::from(*written)), b" as written)"),
        Figure::Cutter(cutter) => say!(page, output; Part::Text(cutter.name().as_bytes())),
        Figure::Turning(limits) => {
            say_limits(limits, page, output);
            say!(page, output; b" rpm");
        }
        Figure::Feeds(limits) => {
            say_limits(limits, page, output);
            say!(page, output; b" mm/min");
        }
        Figure::Span(heights) => page.say(output, &span(heights)),
        Figure::Place(point) => page.say(output, &place(point)),
        Figure::Part(heights, diameter) => {
            page.say(output, &span(heights));
            say!(page, output; b", diameter ");
            say_length(diameter, page, output);
        }
    }
}

#[tactic(auto, unfolding(crate::specs::Spelling::warning_text))]
fn short_travel(axis: Axis) -> &'static [u8]
    ensures { result.now ≡ warning_text (warnings.Travel axis) }
{
    match axis {
        Axis::X => b"the travel on X is less than 10 mm",
        Axis::Y => b"the travel on Y is less than 10 mm",
        Axis::Z => b"the travel on Z is less than 10 mm",
    }
}

#[tactic(auto, unfolding(crate::specs::Spelling::warning_text))]
fn say_warning_text<W: Sink>(warning: &Warning, page: &mut Page, output: &mut W)
    ensures { Says (W.written output.old) (W.written output.new)
        (W.failures output.old) (W.failures output.new) page.old page.new
        (warning_text warning.now) }
{
    match warning {
        Warning::Speed => say!(page, output; b"the greatest speed is not from 0.1 to 1000 mm/s"),
        Warning::Acceleration =>
            say!(page, output; b"the acceleration is not from 1 to 20000 mm/s^2"),
        Warning::Arcs =>
            say!(page, output; b"the acceleration on arcs is below 1 mm/s^2, so arcs crawl: raise `turn` to about 500000 times `change`"),
        Warning::WrittenTurn =>
            say!(page, output; b"the acceleration on arcs is below 1 mm/s^2, so arcs crawl: raise `turn` to about the least `acceleration` of the axes"),
        Warning::WrittenArcs =>
            say!(page, output; b"the acceleration on arcs is below 1 mm/s^2, so arcs crawl: raise the least `acceleration` of the axes"),
        Warning::Travel(axis) => say!(page, output; Part::Text(short_travel(*axis))),
        Warning::Origin(system) =>
            say!(page, output; b"the origin of ", Part::Text(system_name(*system)), b" is outside the travel: no tool reaches it"),
        Warning::Thin(number) =>
            say!(page, output; b"fixture ", Part::Number(*number as u128), b" is thinner than 0.1 mm: its corners are in nanometres"),
        Warning::WrittenThin(number) =>
            say!(page, output; b"fixture ", Part::Number(*number as u128), b" is thinner than 0.1 mm: is the unit of its corners right?"),
        Warning::OutOfReach(number) =>
            say!(page, output; b"fixture ", Part::Number(*number as u128), b" is where no tool reaches"),
        Warning::Short(number) =>
            say!(page, output; Part::Tool(*number), b" is shorter than 1 mm: lengths are in nanometres"),
        Warning::WrittenShort(number) =>
            say!(page, output; Part::Tool(*number), b" is shorter than 1 mm: is the unit of its lengths right?"),
        Warning::Offset(number) =>
            say!(page, output; Part::Tool(*number), b" has an offset of more than twice or less than half its length"),
        Warning::Unset =>
            say!(page, output; b"every tool of the table has an offset of 0: G43 changes nothing"),
    }
}

/// Says a warning between two texts.
fn say_warning<W: Sink>(
    before: &[u8],
    told: &Warning,
    afterwards: &[u8],
    page: &mut Page,
    output: &mut W,
)
    ensures { Says (W.written output.old) (W.written output.new)
        (W.failures output.old) (W.failures output.new) page.old page.new
        (before.now ++ warning_text told.now ++ afterwards.now) }
{
    say!(page, output; Part::Text(before));
    say_warning_text(told, page, output);
    say!(page, output; Part::Text(afterwards));
}

/// Says a name after a number, if there is one.
fn say_bracketed<W: Sink>(name: &Name, page: &mut Page, output: &mut W)
    ensures { Says (W.written output.old) (W.written output.new)
        (W.failures output.old) (W.failures output.new) page.old page.new (bracketed name.now) }
{
    let name = name.as_bytes();
    if !name.is_empty() {
        say!(page, output; b" (", Part::Text(name), b")");
    }
}

/// Says the heading of a fixture or a tool.
fn say_heading<W: Sink>(kind: &[u8], number: u128, name: &Name, page: &mut Page, output: &mut W)
    ensures { Says (W.written output.old) (W.written output.new)
        (W.failures output.old) (W.failures output.new) page.old page.new
        (kind.now ++ decimal number ++ bracketed name.now ++ codes "\n") }
{
    say!(page, output; Part::Text(kind), Part::Number(number));
    say_bracketed(name, page, output);
    say!(page, output; b"\n");
}

/// Says the note on a machine file without a jump.
fn say_corner_note<W: Sink>(speed: u128, page: &mut Page, output: &mut W)
    ensures { Says (W.written output.old) (W.written output.new)
        (W.failures output.old) (W.failures output.new) page.old page.new (corner_note speed) }
{
    say!(page, output; b"note: motions meet at ", Part::Thousandths(speed), b" mm/min at most, except lines in one direction: `jump`, `ring` and `arc_feed` in the machine file would make it faster (docs/RUNNING.md)\n");
}

/// Says the note on a machine file of version 3 without a jump.
fn say_written_note<W: Sink>(speed: u128, page: &mut Page, output: &mut W)
    ensures { Says (W.written output.old) (W.written output.new)
        (W.failures output.old) (W.failures output.new) page.old page.new (written_note speed) }
{
    say!(page, output; b"note: motions meet at ", Part::Thousandths(speed), b" mm/min at most, except lines in one direction: without `jump`, `ring` and `arc_feed` in the machine file it would be faster (docs/RUNNING.md)\n");
}

/// Says a line.
pub(crate) fn say_line<W: Sink>(line: &Line, page: &mut Page, output: &mut W)
    ensures { Says (W.written output.old) (W.written output.new)
        (W.failures output.old) (W.failures output.new) page.old page.new (line_text line.now) }
{
    match line {
        Line::Machine => say!(page, output; b"machine\n"),
        Line::Fixture(number, name) => {
            say_heading(b"fixture ", *number as u128, name, page, output)
        }
        Line::Tool(number, name) => {
            say_heading(b"tool ", u128::from(*number), name, page, output)
        }
        Line::Fact(told, figure) => {
            say!(page, output; Part::Text(fact(told)));
            say_figure(figure, page, output);
            say!(page, output; b"\n");
        }
        Line::CornerNote(speed) => say_corner_note(*speed, page, output),
        Line::WrittenCornerNote(speed) => say_written_note(*speed, page, output),
        Line::Warning(told) => say_warning(b"warning: ", told, b"\n", page, output),
        Line::WarningFact(told) => say_warning(
            b",\n{\"fact\":\"warning\",\"text\":\"",
            told,
            b"\"}",
            page,
            output,
        ),
        Line::WarningRemark(told) => say_warning(b"# Warning: ", told, b"\n", page, output),
    }
}
