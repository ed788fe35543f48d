//! The facts of a report, as a JSON document.
ghost use Rattle.std.specs.Prelude.{◌≡◌, ◌++◌, codes, decimal, flat_map};
ghost use Rattle.std.specs.Fmt.{signed_decimal};
ghost use Rattle.ngc_collision.specs.Inside.{place_of};
ghost use Rattle.ngc_sentences.specs.Parts.{part_text, parts_text};
ghost use Rattle.ngc_sentences.specs.Saying.{Says};
ghost use Rattle.ngc_report.specs.Facts.{along_fact, clearing_fact, command_fact, described_fact};
ghost use Rattle.ngc_report.specs.Facts.{distance_fact, distances, fits_fact, fixture_fact};
ghost use Rattle.ngc_report.specs.Facts.{inward_fact, line_fact, name_fact, nearest_fact, nose_fact};
ghost use Rattle.ngc_report.specs.Facts.{obstacle_fact, over_fact, passed_fact, side_fact, start_fact};
ghost use Rattle.ngc_report.specs.Facts.{tool_fact, travel_fact, triple, use_fact, verdict_fact};
ghost use Rattle.ngc_report.specs.Facts.{warning_fact};
ghost use Rattle.ngc_report.specs.Quotes.{escaped};

use crate::quotes::say_string;
use crate::words::{away, axis_name, concern_words, sign};
use ngc_collision::Place;
use ngc_findings::{
    Along, Clearing, Inward, Line, Margin, Met, Nearest, Obstacle, Passed, Scene, Side, ToolUse,
    Warning,
};
use ngc_machine_files::{Name, Tool};
use ngc_sentences::{Page, Part, say};
use ngc_text::Sink;

// ---- parts

fn signed(number: &i64) -> Part<'static>
    ensures { part_text result ≡ signed_decimal number.now }
{
    Part::Signed(*number)
}

// Returns a distance that needn't fit in 64 bits.
fn distance(nanometres: i128) -> [Part<'static>; 2]
    ensures { parts_text result ≡ signed_decimal nanometres }
{
    [
        Part::Text(sign(nanometres)),
        Part::Number(nanometres.unsigned_abs()),
    ]
}

#[tactic(auto, unfolding(crate::specs::Facts::triple))]
fn triple(place: &Place) -> [Part<'static>; 7]
    ensures { parts_text result ≡ triple (place_of place.now) }
{
    [
        Part::Text(b"["),
        signed(&place.x),
        Part::Text(b","),
        signed(&place.y),
        Part::Text(b","),
        signed(&place.z),
        Part::Text(b"]"),
    ]
}

#[tactic(auto, unfolding(crate::specs::Facts::distances))]
fn distances(x: u128, y: u128, z: u128) -> [Part<'static>; 7]
    ensures { parts_text result ≡ distances x y z }
{
    [
        Part::Text(b"["),
        Part::Number(x),
        Part::Text(b","),
        Part::Number(y),
        Part::Text(b","),
        Part::Number(z),
        Part::Text(b"]"),
    ]
}

fn side_name(side: Side) -> &'static [u8]
    ensures { result.now ≡ side_fact side }
{
    match side {
        Side::Below => b"below",
        Side::Above => b"above",
    }
}

fn described(described: bool) -> &'static [u8]
    ensures { result.now ≡ described_fact described }
{
    if described {
        b""
    } else {
        b",\n{\"fact\":\"fixtures\",\"described\":0}"
    }
}

// ---- names

fn say_known_name<W: Sink>(key: &[u8], name: &[u8], page: &mut Page, output: &mut W)
    ensures { Says (W.written output.old) (W.written output.new)
        (W.failures output.old) (W.failures output.new) page.old page.new
        (codes ",\"" ++ key.now ++ codes "\":\"" ++ flat_map escaped name.now ++ codes "\"") }
{
    say!(page, output; b",\"", Part::Text(key), b"\":\"");
    say_string(name, page, output);
    say!(page, output; b"\"");
}

// Says a name with a number, if there is one.
#[tactic(auto, unfolding(crate::specs::Facts::name_fact))]
fn say_name<W: Sink>(key: &[u8], name: &Name, page: &mut Page, output: &mut W)
    ensures { Says (W.written output.old) (W.written output.new)
        (W.failures output.old) (W.failures output.new) page.old page.new
        (name_fact key.now name.now) }
{
    let name = name.as_bytes();
    if !name.is_empty() {
        say_known_name(key, name, page, output);
    }
}

#[tactic(auto, unfolding(crate::specs::Facts::tool_fact))]
fn say_tool<W: Sink>(tool: &Option<Tool>, page: &mut Page, output: &mut W)
    ensures { Says (W.written output.old) (W.written output.new)
        (W.failures output.old) (W.failures output.new) page.old page.new (tool_fact tool.now) }
{
    match tool {
        None => say!(page, output; b"null"),
        Some(tool) => {
            say!(page, output; Part::Number(u128::from(tool.number)));
            say_name(b"tool_name", &tool.name, page, output);
        }
    }
}

// ---- the program

fn along(along: &Along) -> [Part<'static>; 11]
    ensures { parts_text result ≡ along_fact along.now }
{
    [
        Part::Text(b",\n{\"fact\":\"extent\",\"axis\":\""),
        Part::Text(axis_name(along.axis)),
        Part::Text(b"\",\"low\":"),
        signed(&along.low),
        Part::Text(b",\"high\":"),
        signed(&along.high),
        Part::Text(b",\"left_below\":"),
        signed(&along.room.below),
        Part::Text(b",\"left_above\":"),
        signed(&along.room.above),
        Part::Text(b"}"),
    ]
}

fn say_use<W: Sink>(one: &ToolUse, page: &mut Page, output: &mut W)
    ensures { Says (W.written output.old) (W.written output.new)
        (W.failures output.old) (W.failures output.new) page.old page.new (use_fact one.now) }
{
    say!(page, output; b",\n{\"fact\":\"use\",\"tool\":");
    say_tool(&one.tool, page, output);
    say!(page, output; b",\"traverses\":", Part::Number(one.traverses as u128), b",\"traverse_way\":", Part::Number(one.traverse_way), b",\"feeds\":", Part::Number(one.feeds as u128), b",\"feed_way\":", Part::Number(one.feed_way), b",\"arcs\":", Part::Number(one.arcs as u128), b",\"dwells\":", Part::Number(one.dwells as u128), b",\"stops\":", Part::Number(one.stops as u128));
}

fn say_distance<W: Sink>(nearest: &Nearest, name: &Name, page: &mut Page, output: &mut W)
    ensures { Says (W.written output.old) (W.written output.new)
        (W.failures output.old) (W.failures output.new) page.old page.new
        (codes ",\"nearest_fixture\":" ++ decimal nearest.now.fixture
        ++ name_fact (codes "fixture_name") name.now ++ codes ",\"distance\":"
        ++ signed_decimal nearest.now.distance ++ codes "}") }
{
    say!(page, output; b",\"nearest_fixture\":", Part::Number(u128::from(nearest.fixture)));
    say_name(b"fixture_name", name, page, output);
    say!(page, output; b",\"distance\":");
    page.say(output, &distance(nearest.distance));
    say!(page, output; b"}");
}

#[tactic(auto, unfolding(crate::specs::Facts::nearest_fact))]
fn say_nearest<W: Sink>(nearest: &Option<Nearest>, name: &Name, page: &mut Page, output: &mut W)
    ensures { Says (W.written output.old) (W.written output.new)
        (W.failures output.old) (W.failures output.new) page.old page.new
        (nearest_fact nearest.now name.now) }
{
    match nearest {
        None => say!(page, output; b",\"nearest_fixture\":null,\"distance\":null}"),
        Some(nearest) => say_distance(nearest, name, page, output),
    }
}

fn warning(warning: &Warning) -> [Part<'static>; 7]
    ensures { parts_text result ≡ warning_fact warning.now }
{
    [
        Part::Text(b",\n{\"fact\":\"warning\",\"text\":\""),
        Part::Text(concern_words(warning.concern)),
        Part::Text(b"\",\"count\":"),
        Part::Number(warning.count as u128),
        Part::Text(b",\"line\":"),
        Part::Number(u128::from(warning.line)),
        Part::Text(b"}"),
    ]
}

fn nose(nose: &Warning) -> [Part<'static>; 7]
    ensures { parts_text result ≡ nose_fact nose.now }
{
    [
        Part::Text(b",\n{\"fact\":\"verdict\",\"fits\":true,\"tested\":\"nose\",\"motions\":"),
        Part::Number(nose.count as u128),
        Part::Text(b",\"first\":"),
        Part::Number(u128::from(nose.line)),
        Part::Text(b",\"last\":"),
        Part::Number(u128::from(nose.last)),
        Part::Text(b"}"),
    ]
}

#[tactic(auto, unfolding(crate::specs::Facts::fits_fact))]
fn say_fits<W: Sink>(unmounted: &Option<Warning>, page: &mut Page, output: &mut W)
    ensures { Says (W.written output.old) (W.written output.new)
        (W.failures output.old) (W.failures output.new) page.old page.new (fits_fact unmounted.now) }
{
    match unmounted {
        None => say!(page, output; b",\n{\"fact\":\"verdict\",\"fits\":true}"),
        Some(warning) => page.say(output, &nose(warning)),
    }
}

fn say_verdict<W: Sink>(nose: &Option<Warning>, is_described: bool, page: &mut Page, output: &mut W)
    ensures { Says (W.written output.old) (W.written output.new)
        (W.failures output.old) (W.failures output.new) page.old page.new
        (verdict_fact nose.now is_described) }
{
    say_fits(nose, page, output);
    say!(page, output; Part::Text(described(is_described)));
}

// ---- a command and its obstacle

fn say_start<W: Sink>(scene: &Scene, page: &mut Page, output: &mut W)
    ensures { Says (W.written output.old) (W.written output.new)
        (W.failures output.old) (W.failures output.new) page.old page.new (start_fact scene.now) }
{
    say!(page, output; b",\n{\"fact\":\"start\",\"at\":");
    page.say(output, &triple(&scene.from));
    say!(page, output; b"}");
}

fn say_command<W: Sink>(command: usize, scene: &Scene, page: &mut Page, output: &mut W)
    ensures { Says (W.written output.old) (W.written output.new)
        (W.failures output.old) (W.failures output.new) page.old page.new
        (command_fact command scene.now) }
{
    say!(page, output; b",\n{\"fact\":\"command\",\"index\":", Part::Number(command as u128), b",\"line\":", Part::Number(u128::from(scene.line)), b",\"tool\":");
    say_tool(&scene.tool, page, output);
    say!(page, output; b",\"from\":");
    page.say(output, &triple(&scene.from));
    say!(page, output; b",\"to\":");
    page.say(output, &triple(&scene.to));
    say!(page, output; b"}");
}

fn travel(margin: &Margin) -> [Part<'static>; 7]
    ensures { parts_text result ≡ travel_fact margin.now }
{
    [
        Part::Text(b",\n{\"fact\":\"obstacle\",\"kind\":\"travel\",\"axis\":\""),
        Part::Text(axis_name(margin.axis)),
        Part::Text(b"\",\"side\":\""),
        Part::Text(side_name(margin.side)),
        Part::Text(b"\",\"left\":"),
        signed(&margin.left),
        Part::Text(b"}"),
    ]
}

fn say_travel<W: Sink>(margin: &Margin, page: &mut Page, output: &mut W)
    ensures { Says (W.written output.old) (W.written output.new)
        (W.failures output.old) (W.failures output.new) page.old page.new (travel_fact margin.now) }
{
    page.say(output, &travel(margin));
}

#[tactic(auto, unfolding(crate::specs::Facts::over_fact))]
fn say_over<W: Sink>(over: &Option<i64>, page: &mut Page, output: &mut W)
    ensures { Says (W.written output.old) (W.written output.new)
        (W.failures output.old) (W.failures output.new) page.old page.new (over_fact over.now) }
{
    match over {
        None => say!(page, output; b"null}"),
        Some(height) => say!(page, output; signed(height), b"}"),
    }
}

fn say_fixture<W: Sink>(met: &Met, page: &mut Page, output: &mut W)
    ensures { Says (W.written output.old) (W.written output.new)
        (W.failures output.old) (W.failures output.new) page.old page.new (fixture_fact met.now) }
{
    say!(page, output; b",\n{\"fact\":\"obstacle\",\"kind\":\"fixture\",\"fixture\":", Part::Number(u128::from(met.number)));
    say_name(b"fixture_name", &met.fixture.name, page, output);
    say!(page, output; b",\"low\":");
    page.say(output, &triple(&Place::at(&met.fixture.low)));
    say!(page, output; b",\"high\":");
    page.say(output, &triple(&Place::at(&met.fixture.high)));
    say!(page, output; b",\"over_from_z\":");
    say_over(&met.over, page, output);
}

#[tactic(auto, unfolding(crate::specs::Facts::obstacle_fact))]
fn say_obstacle<W: Sink>(obstacle: &Option<Obstacle>, page: &mut Page, output: &mut W)
    ensures { Says (W.written output.old) (W.written output.new)
        (W.failures output.old) (W.failures output.new) page.old page.new
        (obstacle_fact obstacle.now) }
{
    match obstacle {
        None => say!(page, output; b",\n{\"fact\":\"obstacle\",\"kind\":null}"),
        Some(Obstacle::Travel(margin)) => say_travel(margin, page, output),
        Some(Obstacle::Fixture(met)) => say_fixture(met, page, output),
    }
}

fn say_passed<W: Sink>(passed: &Passed, page: &mut Page, output: &mut W)
    ensures { Says (W.written output.old) (W.written output.new)
        (W.failures output.old) (W.failures output.new) page.old page.new (passed_fact passed.now) }
{
    let shifts = &passed.shifts;
    say!(page, output; b",\n{\"fact\":\"clear\",\"kind\":\"fixture\",\"fixture\":", Part::Number(u128::from(passed.number)));
    say_name(b"fixture_name", &passed.name, page, output);
    say!(page, output; b",\"plus\":");
    page.say(output, &distances(shifts.x.up, shifts.y.up, shifts.z.up));
    say!(page, output; b",\"minus\":");
    page.say(
        output,
        &distances(shifts.x.down, shifts.y.down, shifts.z.down),
    );
    say!(page, output; b"}");
}

#[tactic(auto, unfolding(crate::specs::Facts::distance_fact))]
fn say_shift<W: Sink>(shift: Option<u128>, page: &mut Page, output: &mut W)
    ensures { Says (W.written output.old) (W.written output.new)
        (W.failures output.old) (W.failures output.new) page.old page.new (distance_fact shift) }
{
    match shift {
        None => say!(page, output; b"null}"),
        Some(shift) => say!(page, output; Part::Number(shift), b"}"),
    }
}

fn say_inward<W: Sink>(inward: &Inward, page: &mut Page, output: &mut W)
    ensures { Says (W.written output.old) (W.written output.new)
        (W.failures output.old) (W.failures output.new) page.old page.new (inward_fact inward.now) }
{
    say!(page, output; b",\n{\"fact\":\"clear\",\"kind\":\"travel\",\"direction\":\"", Part::Text(axis_name(inward.axis)), Part::Text(away(inward.side)), b"\",\"distance\":");
    say_shift(inward.shift, page, output);
}

#[tactic(auto, unfolding(crate::specs::Facts::clearing_fact))]
fn say_clearing<W: Sink>(clearing: &Option<Clearing>, page: &mut Page, output: &mut W)
    ensures { Says (W.written output.old) (W.written output.new)
        (W.failures output.old) (W.failures output.new) page.old page.new
        (clearing_fact clearing.now) }
{
    match clearing {
        None => {}
        Some(Clearing::Fixture(passed)) => say_passed(passed, page, output),
        Some(Clearing::Travel(inward)) => say_inward(inward, page, output),
    }
}

/// Says the fact of a line.
#[tactic(auto, unfolding(crate::specs::Facts::line_fact))]
pub(crate) fn say_fact<W: Sink>(line: &Line, page: &mut Page, output: &mut W)
    ensures { Says (W.written output.old) (W.written output.new)
        (W.failures output.old) (W.failures output.new) page.old page.new (line_fact line.now) }
{
    match line {
        Line::Fits(nose, described) => say_verdict(nose, *described, page, output),
        Line::Refused => say!(page, output; b",\n{\"fact\":\"verdict\",\"fits\":false}"),
        Line::Along(one) => page.say(output, &along(one)),
        Line::Use(one) => say_use(one, page, output),
        Line::Near(nearest, name) => say_nearest(nearest, name, page, output),
        Line::Start(scene) => say_start(scene, page, output),
        Line::Command(command, scene) => say_command(*command, scene, page, output),
        Line::InTheWay(obstacle) => say_obstacle(obstacle, page, output),
        Line::Clear(clearing) => say_clearing(clearing, page, output),
        Line::Warned(one) => page.say(output, &warning(one)),
    }
}
