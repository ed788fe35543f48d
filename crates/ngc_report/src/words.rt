//! The sentences of a report.
ghost use Rattle.std.specs.Prelude.{◌≡◌, ◌++◌, codes, decimal};
ghost use Rattle.ngc_collision.specs.Inside.{place_of};
ghost use Rattle.ngc_sentences.specs.Parts.{part_text, parts_text};
ghost use Rattle.ngc_sentences.specs.Saying.{Says};
ghost use Rattle.ngc_text.specs.Millimetres.{mm_text, sign_text};
ghost use Rattle.ngc_report.specs.Words.{along_text, away_text, axis_text, bracketed, called_text};
ghost use Rattle.ngc_report.specs.Words.{clearing_text, command_text, concern_text, described_text};
ghost use Rattle.ngc_report.specs.Words.{fits_text, inward_text, line_text, met_text, nearest_text};
ghost use Rattle.ngc_report.specs.Words.{nose_text, obstacle_text, over_text, passed_text, place_text};
ghost use Rattle.ngc_report.specs.Words.{shift_text, side_text, space_text, space_words, use_text};
ghost use Rattle.ngc_report.specs.Words.{verdict_text, warning_text};

use ngc_collision::Place;
use ngc_findings::{
    Along, Axis, Clearing, Concern, Inward, Line, Margin, Met, Nearest, Obstacle, Passed, Scene,
    Side, ToolUse, Warning,
};
use ngc_machine_files::{Name, Tool};
use ngc_sentences::{Page, Part, say};
use ngc_text::Sink;

// ---- parts

pub(crate) fn sign(number: i128) -> &'static [u8]
    ensures { result.now ≡ sign_text number }
{
    if number < 0 { b"-" } else { b"" }
}

fn millimetres(nanometres: &i64) -> Part<'static>
    ensures { part_text result ≡ mm_text nanometres.now }
{
    Part::Millimetres(*nanometres)
}

// Returns a distance in millimetres. It needn't fit in 64 bits.
#[tactic(auto, unfolding(ngc_text::specs::Millimetres::length_text, ngc_text::specs::Millimetres::mm_text))]
fn distance(nanometres: i128) -> [Part<'static>; 3]
    ensures { parts_text result ≡ mm_text nanometres }
{
    [
        Part::Text(sign(nanometres)),
        Part::Size(nanometres.unsigned_abs()),
        Part::Text(b" mm"),
    ]
}

fn space_words(nanometres: i64) -> &'static [u8]
    ensures { result.now ≡ space_words nanometres }
{
    if nanometres < 0 {
        b" mm too far"
    } else {
        b" mm left"
    }
}

// Returns the margin on a side, or the distance beyond it.
#[tactic(auto, unfolding(crate::specs::Words::space_text))]
fn space(nanometres: &i64) -> [Part<'static>; 2]
    ensures { parts_text result ≡ space_text nanometres.now }
{
    [
        Part::Size(u128::from(nanometres.unsigned_abs())),
        Part::Text(space_words(*nanometres)),
    ]
}

#[tactic(auto, unfolding(crate::specs::Words::place_text))]
fn place(place: &Place) -> [Part<'static>; 6]
    ensures { parts_text result ≡ place_text (place_of place.now) }
{
    [
        Part::Text(b"X "),
        millimetres(&place.x),
        Part::Text(b", Y "),
        millimetres(&place.y),
        Part::Text(b", Z "),
        millimetres(&place.z),
    ]
}

#[tactic(auto, unfolding(crate::specs::Words::axis_text))]
pub(crate) fn axis_name(axis: Axis) -> &'static [u8]
    ensures { result.now ≡ axis_text axis }
{
    match axis {
        Axis::X => b"X",
        Axis::Y => b"Y",
        Axis::Z => b"Z",
    }
}

#[tactic(auto, unfolding(crate::specs::Words::side_text))]
fn side_name(side: Side) -> &'static [u8]
    ensures { result.now ≡ side_text side }
{
    match side {
        Side::Below => b"below ",
        Side::Above => b"above ",
    }
}

/// Returns the direction away from a side.
pub(crate) fn away(side: Side) -> &'static [u8]
    ensures { result.now ≡ away_text side }
{
    match side {
        Side::Below => b"+",
        Side::Above => b"-",
    }
}

// Returns a distance with at most three decimals, rounded up so that it is enough.
#[tactic(auto, unfolding(crate::specs::Words::shift_text))]
fn shift(shift: u128) -> Part<'static>
    ensures { part_text result ≡ shift_text shift }
{
    Part::Thousandths(shift.div_ceil(1000))
}

#[tactic(auto, unfolding(crate::specs::Words::concern_text))]
pub(crate) fn concern_words(concern: Concern) -> &'static [u8]
    ensures { result.now ≡ concern_text concern }
{
    match concern {
        Concern::NoTool => b"motions without a tool, away from the height of the start",
        Concern::IdleSpindle => b"feeds with a tool and the spindle off",
        Concern::FastFeed(_) => b"feeds above the greatest speed of the machine",
        Concern::NearlyFull => b"arcs of over 359 degrees with ends less than 0.01 mm apart",
        Concern::LowHome => b"traverses home along X or Y, below the top of a fixture",
        Concern::LowAcross => b"traverses across the work without a retract before them",
        Concern::Untested => b"motions on which only the spindle nose is tested",
    }
}

fn described(described: bool) -> &'static [u8]
    ensures { result.now ≡ described_text described }
{
    if described {
        b""
    } else {
        b"No fixture is described: only the travel was tested.\n"
    }
}

// ---- names

// Says a name after a number, if there is one.
#[tactic(auto, unfolding(crate::specs::Words::bracketed))]
fn say_bracketed<W: Sink>(name: &Name, page: &mut Page, output: &mut W)
    ensures { Says (W.written output.old) (W.written output.new)
        (W.failures output.old) (W.failures output.new) page.old page.new (bracketed name.now) }
{
    let name = name.as_bytes();
    if !name.is_empty() {
        say!(page, output; b" (", Part::Text(name), b")");
    }
}

#[tactic(auto, unfolding(crate::specs::Words::called_text))]
fn say_called<W: Sink>(tool: &Option<Tool>, page: &mut Page, output: &mut W)
    ensures { Says (W.written output.old) (W.written output.new)
        (W.failures output.old) (W.failures output.new) page.old page.new (called_text tool.now) }
{
    match tool {
        None => say!(page, output; b"no tool"),
        Some(tool) => {
            say!(page, output; Part::Tool(tool.number));
            say_bracketed(&tool.name, page, output);
        }
    }
}

// ---- the program

fn along(along: &Along) -> [Part<'static>; 6]
    ensures { parts_text result ≡ axis_text along.now.axis ++ codes " from " ++ mm_text along.now.low
        ++ codes " to " ++ mm_text along.now.high ++ codes ", " }
{
    [
        Part::Text(axis_name(along.axis)),
        Part::Text(b" from "),
        millimetres(&along.low),
        Part::Text(b" to "),
        millimetres(&along.high),
        Part::Text(b", "),
    ]
}

fn say_along<W: Sink>(one: &Along, page: &mut Page, output: &mut W)
    ensures { Says (W.written output.old) (W.written output.new)
        (W.failures output.old) (W.failures output.new) page.old page.new (along_text one.now) }
{
    page.say(output, &along(one));
    page.say(output, &space(&one.room.below));
    say!(page, output; b" below and ");
    page.say(output, &space(&one.room.above));
    say!(page, output; b" above.\n");
}

fn say_use<W: Sink>(one: &ToolUse, page: &mut Page, output: &mut W)
    ensures { Says (W.written output.old) (W.written output.new)
        (W.failures output.old) (W.failures output.new) page.old page.new (use_text one.now) }
{
    say!(page, output; b"With ");
    say_called(&one.tool, page, output);
    say!(page, output; b": traverses ", Part::Number(one.traverses as u128), b" along ", Part::Size(one.traverse_way), b" mm, feeds ", Part::Number(one.feeds as u128), b" along ", Part::Size(one.feed_way), b" mm, arcs ", Part::Number(one.arcs as u128), b", dwells ", Part::Number(one.dwells as u128), b", stops ", Part::Number(one.stops as u128));
}

fn say_distance<W: Sink>(nearest: &Nearest, name: &Name, page: &mut Page, output: &mut W)
    ensures { Says (W.written output.old) (W.written output.new)
        (W.failures output.old) (W.failures output.new) page.old page.new
        (codes "; nearest fixture " ++ decimal nearest.now.fixture ++ bracketed name.now
        ++ codes ", " ++ mm_text nearest.now.distance ++ codes " away.\n") }
{
    say!(page, output; b"; nearest fixture ", Part::Number(u128::from(nearest.fixture)));
    say_bracketed(name, page, output);
    say!(page, output; b", ");
    page.say(output, &distance(nearest.distance));
    say!(page, output; b" away.\n");
}

#[tactic(auto, unfolding(crate::specs::Words::nearest_text))]
fn say_nearest<W: Sink>(nearest: &Option<Nearest>, name: &Name, page: &mut Page, output: &mut W)
    ensures { Says (W.written output.old) (W.written output.new)
        (W.failures output.old) (W.failures output.new) page.old page.new
        (nearest_text nearest.now name.now) }
{
    match nearest {
        None => say!(page, output; b".\n"),
        Some(nearest) => say_distance(nearest, name, page, output),
    }
}

fn warning(warning: &Warning) -> [Part<'static>; 7]
    ensures { parts_text result ≡ warning_text warning.now }
{
    [
        Part::Text(b"warning: "),
        Part::Text(concern_words(warning.concern)),
        Part::Text(b": "),
        Part::Number(warning.count as u128),
        Part::Text(b", the first in line "),
        Part::Number(u128::from(warning.line)),
        Part::Text(b".\n"),
    ]
}

// Returns that a program fits, and the motions on which only the spindle nose was tested.
fn nose(nose: &Warning) -> [Part<'static>; 7]
    ensures { parts_text result ≡ nose_text nose.now }
{
    [
        Part::Text(
            b"The program fits, but without a tool only the spindle nose was tested: motions ",
        ),
        Part::Number(nose.count as u128),
        Part::Text(b", the first in line "),
        Part::Number(u128::from(nose.line)),
        Part::Text(b", the last in line "),
        Part::Number(u128::from(nose.last)),
        Part::Text(b".\n"),
    ]
}

#[tactic(auto, unfolding(crate::specs::Words::fits_text))]
fn say_fits<W: Sink>(unmounted: &Option<Warning>, page: &mut Page, output: &mut W)
    ensures { Says (W.written output.old) (W.written output.new)
        (W.failures output.old) (W.failures output.new) page.old page.new (fits_text unmounted.now) }
{
    match unmounted {
        None => {
            say!(page, output; b"The program fits: every position is inside the travel and clear of every fixture.\n")
        }
        Some(warning) => page.say(output, &nose(warning)),
    }
}

fn say_verdict<W: Sink>(nose: &Option<Warning>, is_described: bool, page: &mut Page, output: &mut W)
    ensures { Says (W.written output.old) (W.written output.new)
        (W.failures output.old) (W.failures output.new) page.old page.new
        (verdict_text nose.now is_described) }
{
    say_fits(nose, page, output);
    say!(page, output; Part::Text(described(is_described)));
}

// ---- a command and its obstacle

fn say_start<W: Sink>(scene: &Scene, page: &mut Page, output: &mut W)
    ensures { Says (W.written output.old) (W.written output.new)
        (W.failures output.old) (W.failures output.new) page.old page.new
        (codes "The start is refused, at " ++ place_text (place_of scene.now.from)
        ++ codes ".\n") }
{
    say!(page, output; b"The start is refused, at ");
    page.say(output, &place(&scene.from));
    say!(page, output; b".\n");
}

fn say_command<W: Sink>(command: usize, scene: &Scene, page: &mut Page, output: &mut W)
    ensures { Says (W.written output.old) (W.written output.new)
        (W.failures output.old) (W.failures output.new) page.old page.new
        (command_text command scene.now) }
{
    say!(page, output; b"Command ", Part::Number(command as u128), b" of line ", Part::Number(u128::from(scene.line)), b", with ");
    say_called(&scene.tool, page, output);
    say!(page, output; b", from ");
    page.say(output, &place(&scene.from));
    say!(page, output; b" to ");
    page.say(output, &place(&scene.to));
    say!(page, output; b".\n");
}

fn say_side<W: Sink>(margin: &Margin, page: &mut Page, output: &mut W)
    ensures { Says (W.written output.old) (W.written output.new)
        (W.failures output.old) (W.failures output.new) page.old page.new
        (codes "It leaves the travel " ++ side_text margin.now.side ++ axis_text margin.now.axis
        ++ codes ": " ++ space_text margin.now.left ++ codes ".\n") }
{
    say!(page, output; b"It leaves the travel ", Part::Text(side_name(margin.side)), Part::Text(axis_name(margin.axis)), b": ");
    page.say(output, &space(&margin.left));
    say!(page, output; b".\n");
}

#[tactic(auto, unfolding(crate::specs::Words::over_text))]
fn say_over<W: Sink>(over: &Option<i64>, page: &mut Page, output: &mut W)
    ensures { Says (W.written output.old) (W.written output.new)
        (W.failures output.old) (W.failures output.new) page.old page.new (over_text over.now) }
{
    match over {
        None => say!(page, output; b".\n"),
        Some(height) =>
            say!(page, output; b"; from Z ", millimetres(height), b" up it passes over.\n"),
    }
}

fn say_met<W: Sink>(met: &Met, page: &mut Page, output: &mut W)
    ensures { Says (W.written output.old) (W.written output.new)
        (W.failures output.old) (W.failures output.new) page.old page.new (met_text met.now) }
{
    say!(page, output; b"It meets fixture ", Part::Number(u128::from(met.number)));
    say_bracketed(&met.fixture.name, page, output);
    say!(page, output; b", from ");
    page.say(output, &place(&Place::at(&met.fixture.low)));
    say!(page, output; b" to ");
    page.say(output, &place(&Place::at(&met.fixture.high)));
    say_over(&met.over, page, output);
}

#[tactic(auto, unfolding(crate::specs::Words::obstacle_text))]
fn say_obstacle<W: Sink>(obstacle: &Option<Obstacle>, page: &mut Page, output: &mut W)
    ensures { Says (W.written output.old) (W.written output.new)
        (W.failures output.old) (W.failures output.new) page.old page.new
        (obstacle_text obstacle.now) }
{
    match obstacle {
        None => {
            say!(page, output; b"No side of the travel and no fixture is in the way of the whole: a box of the certificate is too large.\n")
        }
        Some(Obstacle::Travel(margin)) => say_side(margin, page, output),
        Some(Obstacle::Fixture(met)) => say_met(met, page, output),
    }
}

fn say_passed<W: Sink>(passed: &Passed, page: &mut Page, output: &mut W)
    ensures { Says (W.written output.old) (W.written output.new)
        (W.failures output.old) (W.failures output.new) page.old page.new (passed_text passed.now) }
{
    let shifts = &passed.shifts;
    say!(page, output; b"It is clear of fixture ", Part::Number(u128::from(passed.number)));
    say_bracketed(&passed.name, page, output);
    say!(page, output; b" if it moves by ", shift(shifts.x.up), b" mm in X+, ", shift(shifts.x.down), b" mm in X-, ", shift(shifts.y.up), b" mm in Y+, ", shift(shifts.y.down), b" mm in Y-, ", shift(shifts.z.up), b" mm in Z+ or ", shift(shifts.z.down), b" mm in Z-.\n");
}

#[tactic(auto, unfolding(crate::specs::Words::inward_text))]
fn say_inward<W: Sink>(inward: &Inward, page: &mut Page, output: &mut W)
    ensures { Says (W.written output.old) (W.written output.new)
        (W.failures output.old) (W.failures output.new) page.old page.new
        (inward_text inward.now.axis inward.now.side inward.now.shift) }
{
    let axis = Part::Text(axis_name(inward.axis));
    match inward.shift {
        None => say!(page, output; b"It is too long for the travel along ", axis, b".\n"),
        Some(distance) =>
            say!(page, output; b"It is inside the travel along ", axis, b" if it moves by ", shift(distance), b" mm in ", axis, Part::Text(away(inward.side)), b".\n"),
    }
}

#[tactic(auto, unfolding(crate::specs::Words::clearing_text))]
fn say_clearing<W: Sink>(clearing: &Option<Clearing>, page: &mut Page, output: &mut W)
    ensures { Says (W.written output.old) (W.written output.new)
        (W.failures output.old) (W.failures output.new) page.old page.new
        (clearing_text clearing.now) }
{
    match clearing {
        None => {}
        Some(Clearing::Fixture(passed)) => say_passed(passed, page, output),
        Some(Clearing::Travel(inward)) => say_inward(inward, page, output),
    }
}

/// Says a line in words.
#[tactic(auto, unfolding(crate::specs::Words::line_text))]
pub(crate) fn say_line<W: Sink>(line: &Line, page: &mut Page, output: &mut W)
    ensures { Says (W.written output.old) (W.written output.new)
        (W.failures output.old) (W.failures output.new) page.old page.new (line_text line.now) }
{
    match line {
        Line::Fits(nose, described) => say_verdict(nose, *described, page, output),
        Line::Refused => say!(page, output; b"The program does not fit.\n"),
        Line::Along(along) => say_along(along, page, output),
        Line::Use(one) => say_use(one, page, output),
        Line::Near(nearest, name) => say_nearest(nearest, name, page, output),
        Line::Start(scene) => say_start(scene, page, output),
        Line::Command(command, scene) => say_command(*command, scene, page, output),
        Line::InTheWay(obstacle) => say_obstacle(obstacle, page, output),
        Line::Clear(clearing) => say_clearing(clearing, page, output),
        Line::Warned(one) => page.say(output, &warning(one)),
    }
}
