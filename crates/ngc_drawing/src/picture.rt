//! The whole picture.
ghost use Rattle.std.specs.Prelude.{◌≡◌, ◌<◌, ◌≤◌, ◌*◌, unsigned_abs, ◌++◌, ◌∷◌, [], length, drop};
ghost use Rattle.std.specs.Prelude.{map, OnOk, OnErr, Err, IfOk, ◌+◌, pos};
ghost use Rattle.std.specs.Io.KnownBytes.{Appends, Keeps};
ghost use Rattle.std.specs.List.{All};
ghost use Rattle.ngc_text.specs.Failures.{CountsFailure};
ghost use Rattle.ngc_text.specs.Written.{AppendsPrefix};
ghost use Rattle.ngc_machine_files.specs.Machine.{file_of};
ghost use Rattle.ngc_picture_shapes.specs.declared.shape.Shape.TheVariants as drawn;
ghost use Rattle.ngc_picture_shapes.specs.Draws.{Draws};
ghost use Rattle.ngc_drawing.specs.Faults.{CountsUnlessMemory};
ghost use Rattle.ngc_picture_shapes.specs.Sheets.{unit_of};
ghost use Rattle.ngc_drawing.specs.Holes.{holes};
ghost use Rattle.ngc_picture_shapes.specs.Tools.{used, eye_of};
ghost use Rattle.ngc_drawing.specs.Pictures.{fixture, fixtures_from, marked_in, marked, SCALES};
ghost use Rattle.ngc_drawing.specs.Pictures.{margin_shapes, raised, lowered};
ghost use Rattle.ngc_machine_files.specs.Ranges.{CORNER_LIMIT, MARGIN_LIMIT, IsFrom, IsSized};
ghost use Rattle.ngc_machine_files.specs.Ranges.{IsFixture};
ghost use Rattle.ngc_drawing.specs.Pictures.{scale_in, boxed, travel_in, shown_sweeps, places};
ghost use Rattle.ngc_drawing.specs.Pictures.{origin, picture_text};
ghost use Rattle.ngc_picture_shapes.specs.Spelling.{shapes_text};
ghost use Rattle.ngc_drawing.specs.Pictures.{part, parts, tool_row, tool_rows, first_red};
ghost use Rattle.ngc_drawing.specs.Pictures.{refused_fixture, refused_way, refused_action};
ghost use Rattle.ngc_drawing.specs.Pictures.{first_refused, refused, refusal_row, rows, opening};
ghost use Rattle.ngc_drawing.specs.Pictures.{refused_by, path, scaled, ground, picture_of};
ghost use Rattle.ngc_picture_shapes.specs.Strokes.{strokes_from, strokes, last_end};

use crate::bodies::draw_swept;
use crate::fault::DrawFault;
use crate::holes::draw_holes;
use crate::label::{Placed, labels, lines_at};
use crate::origin::WorkOrigin;
use crate::outline::{add_outline_at, tool_before};
use crate::refusal::RefusedMotion;
use crate::sweep::{Sweep, sweeps};
use arrayvec::ArrayVec;
use ngc_certificate_text::Motions;
use ngc_collision::Place;
use ngc_commands::{Action, Command, Way};
use ngc_fixed_length::{Nm, Point3};
use ngc_machine_files::{Fixture, Machine, Part, Tool};
use ngc_picture_shapes::{
    BoxKind, Eye, Ink, Look, Mark, Pen, Rectangle, Run, Shape, Spot, Unit, View, block,
    draw_action, draw_all, draw_stroke, frame, name_of, number_of, pane, rank_of, sheet_of,
    to_micrometres, unit_of, used,
};
use ngc_text::{Chunk, Sink, WriteFault};
use std::alloc::{AllocError, Allocator};

const SCALES: [u64; 15] = [
    50_000_000, 20_000_000, 10_000_000, 5_000_000, 2_000_000, 1_000_000, 500_000, 200_000, 100_000,
    50_000, 20_000, 10_000, 5_000, 2_000, 1_000,
];

/// Returns the first of these lengths that is at most `most` micrometres, or a millimetre.
fn first_within(most: u64, lengths: &[u64]) -> u64
    ensures { result ≡ scale_in most lengths.now }
{
    for length in lengths {
        if *length <= most {
            return *length;
        }
    }
    1_000
}

/// Returns the longest scale of at most 25 units, or the shortest.
fn scale_of(unit: &Unit) -> u64
    ensures { result ≡ scale_in (25 * unsigned_abs unit.now.micrometres) SCALES }
{
    first_within(25 * unit.micrometres.unsigned_abs(), &SCALES)
}

/// Adds the shapes of a box.
fn add_box(shapes: &mut ArrayVec<Shape, 12>, view: View, kind: BoxKind, low: &Point3, high: &Point3)
    requires { length shapes.old.items ≤ 4 }
    ensures value { shapes.new.items ≡ shapes.old.items ++ boxed view kind low.now high.now }
    ensures few { length shapes.new.items ≤ length shapes.old.items + 4 }
{
    match view {
        View::Iso => {
            let block = block(&Place::at(low), &Place::at(high));
            shapes.push(Shape::BoxBegin(kind));
            shapes.push(Shape::Silhouette(block));
            shapes.push(Shape::NearEdges(block));
            shapes.push(Shape::PathEnd);
        }
        _ => shapes.push(Shape::Outline(kind, view.rectangle(low, high))),
    }
}

// Adds the outline of a fixture that is grown by a margin.
fn add_margin(shapes: &mut ArrayVec<Shape, 12>, view: View, margin: Nm, one: &Fixture)
    requires { length shapes.old.items ≤ 4 }
    ensures value { shapes.new.items ≡ shapes.old.items ++ margin_shapes view margin one.now }
    ensures few { length shapes.new.items ≤ length shapes.old.items + 4 }
{
    if margin.nanometres() != 0 {
        add_box(shapes, view, BoxKind::Margin, &one.low, &one.high);
    }
}

// Returns the low corner of a fixture within its margin.
fn raised(margin: Nm, corner: &Point3) -> Point3
    requires corner { IsSized CORNER_LIMIT corner.now }
    requires margin { IsFrom (pos 0) MARGIN_LIMIT margin }
    ensures { result ≡ raised margin corner.now }
{
    Point3 {
        x: corner.x.plus(margin),
        y: corner.y.plus(margin),
        z: corner.z.plus(margin),
    }
}

// Returns the high corner of a fixture within its margin.
fn lowered(margin: Nm, corner: &Point3) -> Point3
    requires corner { IsSized CORNER_LIMIT corner.now }
    requires margin { IsFrom (pos 0) MARGIN_LIMIT margin }
    ensures { result ≡ lowered margin corner.now }
{
    Point3 {
        x: corner.x.minus(margin),
        y: corner.y.minus(margin),
        z: corner.z.minus(margin),
    }
}

/// Returns the shapes of a fixture that is grown by a margin, of the fixture within, and of its
/// label, which is moved down by `lines` lines.
fn fixture(
    view: View,
    margin: Nm,
    lines: usize,
    number: usize,
    one: &Fixture,
) -> ArrayVec<Shape, 12>
    requires fixture { IsFixture one.now }
    requires margin { IsFrom (pos 0) MARGIN_LIMIT margin }
    ensures { result.items ≡ fixture view margin lines number one.now }
{
    let mut shapes = ArrayVec::new();
    add_margin(&mut shapes, view, margin, one);
    let low = raised(margin, &one.low);
    let high = lowered(margin, &one.high);
    add_box(&mut shapes, view, BoxKind::Fixture, &low, &high);
    shapes.push(Shape::FixtureNumber(view.spot(&one.low), number, lines));
    shapes.push(Shape::Name(one.name));
    shapes.push(Shape::LabelEnd);
    shapes
}

// Draws fixtures that are grown by a margin.
fn draw_fixtures<W: Sink>(
    chunk: &mut Chunk,
    unit: &Unit,
    view: View,
    margin: Nm,
    labels: &[Placed],
    fixtures: &[Fixture],
    sink: &mut W,
) -> Result<(), WriteFault>
    requires fixtures { All IsFixture fixtures.now }
    requires margin { IsFrom (pos 0) MARGIN_LIMIT margin }
    ensures drawn { Draws unit.now.micrometres (W.written sink.old)
        (W.written sink.new) chunk.old chunk.new result
        (fixtures_from view margin labels.now 0 fixtures.now) }
    ensures counts { CountsFailure (W.failures sink.old) (W.failures sink.new) result }
{
    for (i, one) in fixtures.iter().enumerate() {
        let shapes = fixture(view, margin, lines_at(labels, i), i, one);
        match draw_all(chunk, unit, shapes.as_slice(), sink) {
            Ok(()) => {}
            Err(fault) => return Err(fault),
        }
    }
    Ok(())
}

fn draw_last_end<W: Sink>(
    chunk: &mut Chunk,
    unit: &Unit,
    run: &Option<Run>,
    sink: &mut W,
) -> Result<(), WriteFault>
    ensures drawn { Draws unit.now.micrometres (W.written sink.old)
        (W.written sink.new) chunk.old chunk.new result (last_end run.now) }
    ensures counts { CountsFailure (W.failures sink.old) (W.failures sink.new) result }
{
    match run {
        None => Ok(()),
        Some(_) => draw_all(chunk, unit, &[Shape::PathEnd], sink),
    }
}

fn draw_strokes<W: Sink>(
    chunk: &mut Chunk,
    unit: &Unit,
    view: View,
    tools: &[Option<Tool>],
    commands: &[Command],
    sink: &mut W,
) -> Result<(), WriteFault>
    ensures drawn { Draws unit.now.micrometres (W.written sink.old)
        (W.written sink.new) chunk.old chunk.new result (strokes view tools.now commands.now) }
    ensures counts { CountsFailure (W.failures sink.old) (W.failures sink.new) result }
{
    let mut pen = Pen {
        rank: rank_of(tools, 0),
        eye: Eye::of(view, &None),
        run: None,
    };
    for command in commands {
        match draw_action(chunk, unit, &pen, &command.action, sink) {
            Ok(()) => {}
            Err(fault) => return Err(fault),
        }
        pen = pen.after(tools, &command.action);
    }
    draw_last_end(chunk, unit, &pen.run, sink)
}

fn draw_path<W: Sink>(
    chunk: &mut Chunk,
    unit: &Unit,
    view: View,
    tools: &[Option<Tool>],
    commands: &[Command],
    sink: &mut W,
) -> Result<(), WriteFault>
    ensures drawn { Draws unit.now.micrometres (W.written sink.old)
        (W.written sink.new) chunk.old chunk.new result (path view tools.now commands.now) }
    ensures counts { CountsFailure (W.failures sink.old) (W.failures sink.new) result }
{
    match draw_strokes(chunk, unit, view, tools, commands, sink) {
        Ok(()) => {}
        Err(fault) => return Err(fault),
    }
    draw_holes(chunk, unit, view, commands, sink)
}

fn part(measures: &Part) -> Shape
    ensures { result ≡ part measures.now }
{
    Shape::Part(
        to_micrometres(2 * measures.radius.nanometres()),
        to_micrometres(measures.length.nanometres()),
    )
}

fn parts(tool: &Option<Tool>) -> ArrayVec<Shape, 12>
    ensures value { result.items ≡ parts tool.now }
    ensures few { length result.items ≤ 4 }
{
    let mut shapes = ArrayVec::new();
    if let Some(tool) = tool {
        for one in tool.parts.as_slice() {
            shapes.push(part(one));
        }
    }
    shapes
}

fn draw_tool<W: Sink>(
    chunk: &mut Chunk,
    unit: &Unit,
    rank: usize,
    tool: &Option<Tool>,
    sink: &mut W,
) -> Result<(), WriteFault>
    ensures drawn { Draws unit.now.micrometres (W.written sink.old)
        (W.written sink.new) chunk.old chunk.new result (tool_row rank tool.now) }
    ensures counts { CountsFailure (W.failures sink.old) (W.failures sink.new) result }
{
    let called = [
        Shape::Tool(rank, number_of(tool)),
        Shape::Name(name_of(tool)),
    ];
    match draw_all(chunk, unit, &called, sink) {
        Ok(()) => {}
        Err(fault) => return Err(fault),
    }
    let mut rest = parts(tool);
    rest.push(Shape::ToolEnd);
    draw_all(chunk, unit, rest.as_slice(), sink)
}

fn draw_tools<W: Sink>(
    chunk: &mut Chunk,
    unit: &Unit,
    tools: &[Option<Tool>],
    sink: &mut W,
) -> Result<(), WriteFault>
    ensures drawn { Draws unit.now.micrometres (W.written sink.old)
        (W.written sink.new) chunk.old chunk.new result (tool_rows 0 tools.now) }
    ensures counts { CountsFailure (W.failures sink.old) (W.failures sink.new) result }
{
    for (rank, tool) in tools.iter().enumerate() {
        match draw_tool(chunk, unit, rank, tool, sink) {
            Ok(()) => {}
            Err(fault) => return Err(fault),
        }
    }
    Ok(())
}

fn draw_refused_way<W: Sink>(
    chunk: &mut Chunk,
    unit: &Unit,
    eye: &Eye,
    fault: u16,
    way: &Way,
    sink: &mut W,
) -> Result<(), WriteFault>
    ensures drawn { Draws unit.now.micrometres (W.written sink.old)
        (W.written sink.new) chunk.old chunk.new result (refused_way eye.now fault way.now) }
    ensures counts { CountsFailure (W.failures sink.old) (W.failures sink.new) result }
{
    match draw_stroke(chunk, unit, eye, &None, Ink::Fault, way, sink) {
        Ok(()) => {}
        Err(fault) => return Err(fault),
    }
    let end = [
        Shape::PathEnd,
        Shape::FaultNumber(eye.spot(&way.end()), fault),
    ];
    draw_all(chunk, unit, &end, sink)
}

fn draw_refused_action<W: Sink>(
    chunk: &mut Chunk,
    unit: &Unit,
    eye: &Eye,
    fault: u16,
    action: &Action,
    sink: &mut W,
) -> Result<(), WriteFault>
    ensures drawn { Draws unit.now.micrometres (W.written sink.old)
        (W.written sink.new) chunk.old chunk.new result (refused_action eye.now fault action.now) }
    ensures counts { CountsFailure (W.failures sink.old) (W.failures sink.new) result }
{
    match action {
        Action::Move(motion) => draw_refused_way(chunk, unit, eye, fault, &motion.way, sink),
        _ => Ok(()),
    }
}

fn draw_first_refused<W: Sink>(
    chunk: &mut Chunk,
    unit: &Unit,
    eye: &Eye,
    fault: u16,
    commands: &[Command],
    sink: &mut W,
) -> Result<(), WriteFault>
    ensures drawn { Draws unit.now.micrometres (W.written sink.old)
        (W.written sink.new) chunk.old chunk.new result (first_refused eye.now fault commands.now) }
    ensures counts { CountsFailure (W.failures sink.old) (W.failures sink.new) result }
{
    match commands {
        [] => Ok(()),
        [command, ..] => draw_refused_action(chunk, unit, eye, fault, &command.action, sink),
    }
}

fn draw_refused_motion<W: Sink>(
    chunk: &mut Chunk,
    unit: &Unit,
    view: View,
    tool: &Option<Tool>,
    commands: &[Command],
    refusal: &RefusedMotion,
    sink: &mut W,
) -> Result<(), WriteFault>
    ensures drawn { Draws unit.now.micrometres (W.written sink.old)
        (W.written sink.new) chunk.old chunk.new result
        (first_refused (eye_of view tool.now) refusal.now.fault
        (drop refusal.now.command commands.now)) }
    ensures counts { CountsFailure (W.failures sink.old) (W.failures sink.new) result }
{
    let eye = Eye::of(view, tool);
    let rest = &commands[refusal.command.min(commands.len())..];
    draw_first_refused(chunk, unit, &eye, refusal.fault, rest, sink)
}

fn first_red(view: View, fixtures: &[Fixture]) -> ArrayVec<Shape, 12>
    ensures value { result.items ≡ first_red view fixtures.now }
    ensures few { length result.items ≤ 4 }
{
    let mut shapes = ArrayVec::new();
    if let [fixture, ..] = fixtures {
        add_box(
            &mut shapes,
            view,
            BoxKind::FaultFixture,
            &fixture.low,
            &fixture.high,
        );
    }
    shapes
}

fn refused_fixture(view: View, fixtures: &[Fixture], fixture: Option<usize>) -> ArrayVec<Shape, 12>
    ensures value { result.items ≡ refused_fixture view fixtures.now fixture }
    ensures few { length result.items ≤ 4 }
{
    match fixture {
        None => ArrayVec::new(),
        Some(i) => first_red(view, &fixtures[i.min(fixtures.len())..]),
    }
}

fn draw_refusal<A: Allocator, W: Sink>(
    chunk: &mut Chunk,
    unit: &Unit,
    view: View,
    machine: &Machine<A>,
    commands: &[Command],
    refusal: &RefusedMotion,
    tool: &Option<Tool>,
    sink: &mut W,
) -> Result<(), WriteFault>
    ensures drawn { Draws unit.now.micrometres (W.written sink.old)
        (W.written sink.new) chunk.old chunk.new result
        (refused_by view (file_of machine.now) commands.now refusal.now tool.now) }
    ensures counts { CountsFailure (W.failures sink.old) (W.failures sink.new) result }
{
    let mut first = refused_fixture(view, machine.fixtures.as_slice(), refusal.fixture);
    add_outline_at(&mut first, view, machine, tool, commands, refusal.command);
    match draw_all(chunk, unit, first.as_slice(), sink) {
        Ok(()) => {}
        Err(fault) => return Err(fault),
    }
    draw_refused_motion(chunk, unit, view, tool, commands, refusal, sink)
}

fn draw_refused<A: Allocator, W: Sink>(
    chunk: &mut Chunk,
    unit: &Unit,
    view: View,
    machine: &Machine<A>,
    commands: &[Command],
    refusal: &Option<RefusedMotion>,
    sink: &mut W,
) -> Result<(), WriteFault>
    ensures drawn { Draws unit.now.micrometres (W.written sink.old)
        (W.written sink.new) chunk.old chunk.new result
        (refused view (file_of machine.now) commands.now refusal.now) }
    ensures counts { CountsFailure (W.failures sink.old) (W.failures sink.new) result }
{
    match refusal {
        None => Ok(()),
        Some(refusal) => {
            let tool = tool_before(machine, commands, refusal.command);
            draw_refusal(chunk, unit, view, machine, commands, refusal, &tool, sink)
        }
    }
}

fn refusal_row(refusal: &Option<RefusedMotion>) -> ArrayVec<Shape, 12>
    ensures value { result.items ≡ refusal_row refusal.now }
    ensures few { length result.items ≤ 1 }
{
    let mut shapes = ArrayVec::new();
    if let Some(refusal) = refusal {
        shapes.push(Shape::FaultLine(refusal.fault, refusal.command));
    }
    shapes
}

/// Returns the rows of the legend: one for each tool, with space for a thousand, and one for a
/// fault.
fn rows(tools: &[Option<Tool>]) -> u32
    ensures value { result ≡ rows tools.now }
    ensures few { result < 2000 }
{
    tools.len().min(1_000) as u32 + 1
}

// Adds the travel limits, or the part of them that the picture shows.
fn add_travel(
    shapes: &mut ArrayVec<Shape, 12>,
    view: View,
    area: &Rectangle,
    low: &Point3,
    high: &Point3,
)
    requires { length shapes.old.items ≤ 2 }
    ensures { shapes.new.items ≡ shapes.old.items ++ travel_in view area.now low.now high.now }
{
    if area.has_all_of(&view.rectangle(low, high)) {
        add_box(shapes, view, BoxKind::Travel, low, high);
        return;
    }
    shapes.push(Shape::Window(pane(area)));
    add_box(shapes, view, BoxKind::ThinTravel, low, high);
    shapes.push(Shape::WindowEnd);
}

fn opening<A: Allocator>(
    view: View,
    machine: &Machine<A>,
    area: &Rectangle,
    tools: &[Option<Tool>],
) -> ArrayVec<Shape, 12>
    ensures { result.items ≡ opening view (file_of machine.now) area.now tools.now }
{
    let mut shapes = ArrayVec::new();
    shapes.push(Shape::Begin(sheet_of(area, rows(tools))));
    shapes.push(Shape::Lines);
    add_travel(&mut shapes, view, area, &machine.low, &machine.high);
    shapes
}

fn draw_opening<A: Allocator, W: Sink>(
    chunk: &mut Chunk,
    view: View,
    machine: &Machine<A>,
    area: &Rectangle,
    tools: &[Option<Tool>],
    sink: &mut W,
) -> Result<(), WriteFault>
    ensures drawn { Draws (unit_of area.now) (W.written sink.old)
        (W.written sink.new) chunk.old chunk.new result
        (opening view (file_of machine.now) area.now tools.now) }
    ensures counts { CountsFailure (W.failures sink.old) (W.failures sink.new) result }
{
    let unit = unit_of(area);
    let shapes = opening(view, machine, area, tools);
    draw_all(chunk, &unit, shapes.as_slice(), sink)
}

// Adds a mark at a spot, if the picture shows the spot.
fn mark_in(shapes: &mut ArrayVec<Shape, 12>, area: &Rectangle, mark: Mark, spot: &Spot)
    requires { length shapes.old.items ≤ 7 }
    ensures marked { shapes.new.items ≡ shapes.old.items ++ marked_in area.now mark spot.now }
    ensures few { length shapes.new.items ≤ length shapes.old.items + 1 }
{
    if area.has(spot) {
        shapes.push(Shape::Mark(mark, *spot));
    }
}

fn places<A: Allocator>(
    view: View,
    machine: &Machine<A>,
    area: &Rectangle,
    labels: &[Placed],
) -> ArrayVec<Shape, 12>
    ensures { result.items ≡ places view (file_of machine.now) area.now labels.now }
{
    let mut shapes = ArrayVec::new();
    let start = Mark::Start(lines_at(labels, 1));
    mark_in(&mut shapes, area, start, &view.spot(&machine.start));
    let home = Mark::Home(lines_at(labels, 2));
    mark_in(&mut shapes, area, home, &view.spot(&machine.home28));
    let second_home = Mark::SecondHome(lines_at(labels, 3));
    mark_in(&mut shapes, area, second_home, &view.spot(&machine.home30));
    shapes.push(Shape::Mark(Mark::Axes(view), area.low));
    shapes
}

fn origin(view: View, area: &Rectangle, labels: &[Placed], work: &WorkOrigin) -> ArrayVec<Shape, 12>
    ensures { result.items ≡ origin view area.now labels.now work.now }
{
    let mut shapes = ArrayVec::new();
    if !work.is_at_zero() {
        let mark = Mark::Origin(work.system, work.is_moved(), lines_at(labels, 0));
        mark_in(&mut shapes, area, mark, &view.sees(&work.place()));
    }
    shapes
}

fn draw_marks<A: Allocator, W: Sink>(
    chunk: &mut Chunk,
    unit: &Unit,
    view: View,
    machine: &Machine<A>,
    area: &Rectangle,
    labels: &[Placed],
    work: &WorkOrigin,
    sink: &mut W,
) -> Result<(), WriteFault>
    ensures drawn { Draws unit.now.micrometres (W.written sink.old)
        (W.written sink.new) chunk.old chunk.new result
        (marked view (file_of machine.now) area.now labels.now work.now) }
    ensures counts { CountsFailure (W.failures sink.old) (W.failures sink.new) result }
{
    let shapes = places(view, machine, area, labels);
    match draw_all(chunk, unit, shapes.as_slice(), sink) {
        Ok(()) => {}
        Err(fault) => return Err(fault),
    }
    let last = origin(view, area, labels, work);
    draw_all(chunk, unit, last.as_slice(), sink)
}

fn draw_scale<W: Sink>(
    chunk: &mut Chunk,
    view: View,
    area: &Rectangle,
    sink: &mut W,
) -> Result<(), WriteFault>
    ensures drawn { Draws (unit_of area.now) (W.written sink.old)
        (W.written sink.new) chunk.old chunk.new result (scaled view area.now) }
    ensures counts { CountsFailure (W.failures sink.old) (W.failures sink.new) result }
{
    let unit = unit_of(area);
    let scale = scale_of(&unit);
    let shapes = [
        Shape::Scale(area.low, scale),
        Shape::ScaleLength(area.low, scale),
        Shape::ScaleNote(view, area.low),
        Shape::Legend(area.low),
    ];
    draw_all(chunk, &unit, &shapes, sink)
}

// Draws the legend below the picture.
fn draw_legend<W: Sink>(
    chunk: &mut Chunk,
    view: View,
    area: &Rectangle,
    tools: &[Option<Tool>],
    refusal: &Option<RefusedMotion>,
    sink: &mut W,
) -> Result<(), WriteFault>
    ensures drawn { Draws (unit_of area.now) (W.written sink.old)
        (W.written sink.new) chunk.old chunk.new result
        (scaled view area.now
        ++ (tool_rows 0 tools.now ++ (refusal_row refusal.now ++ drawn.End ∷ []))) }
    ensures counts { CountsFailure (W.failures sink.old) (W.failures sink.new) result }
{
    match draw_scale(chunk, view, area, sink) {
        Ok(()) => {}
        Err(fault) => return Err(fault),
    }
    let unit = unit_of(area);
    match draw_tools(chunk, &unit, tools, sink) {
        Ok(()) => {}
        Err(fault) => return Err(fault),
    }
    let mut last = refusal_row(refusal);
    last.push(Shape::End);
    draw_all(chunk, &unit, last.as_slice(), sink)
}

// Returns the labels of the fixtures, which follow the four of the marks.
fn after_marks(labels: &[Placed]) -> &[Placed]
    ensures { result.now ≡ drop 4 labels.now }
{
    &labels[labels.len().min(4)..]
}

fn draw_ground<A: Allocator, W: Sink>(
    chunk: &mut Chunk,
    view: View,
    machine: &Machine<A>,
    area: &Rectangle,
    tools: &[Option<Tool>],
    swept: &[Sweep],
    labels: &[Placed],
    sink: &mut W,
) -> Result<(), WriteFault>
    ensures drawn { Draws (unit_of area.now) (W.written sink.old)
        (W.written sink.new) chunk.old chunk.new result
        (ground view (file_of machine.now) area.now tools.now swept.now labels.now) }
    ensures counts { CountsFailure (W.failures sink.old) (W.failures sink.new) result }
{
    match draw_opening(chunk, view, machine, area, tools, sink) {
        Ok(()) => {}
        Err(fault) => return Err(fault),
    }
    let unit = unit_of(area);
    let labelled = after_marks(labels);
    let fixtures = machine.fixtures.as_slice();
    let margin = machine.margins.fixtures;
    match draw_fixtures(chunk, &unit, view, margin, labelled, fixtures, sink) {
        Ok(()) => {}
        Err(fault) => return Err(fault),
    }
    draw_swept(chunk, &unit, view, machine, tools, swept, sink)
}

fn draw_picture<A: Allocator, W: Sink>(
    chunk: &mut Chunk,
    view: View,
    machine: &Machine<A>,
    commands: &[Command],
    refusal: &Option<RefusedMotion>,
    area: &Rectangle,
    tools: &[Option<Tool>],
    swept: &[Sweep],
    labels: &[Placed],
    work: &WorkOrigin,
    sink: &mut W,
) -> Result<(), WriteFault>
    ensures drawn { Draws (unit_of area.now) (W.written sink.old)
        (W.written sink.new) chunk.old chunk.new result
        (picture_of view (file_of machine.now) commands.now refusal.now area.now tools.now
        swept.now labels.now work.now) }
    ensures counts { CountsFailure (W.failures sink.old) (W.failures sink.new) result }
{
    match draw_ground(chunk, view, machine, area, tools, swept, labels, sink) {
        Ok(()) => {}
        Err(fault) => return Err(fault),
    }
    let unit = unit_of(area);
    match draw_path(chunk, &unit, view, tools, commands, sink) {
        Ok(()) => {}
        Err(fault) => return Err(fault),
    }
    match draw_marks(chunk, &unit, view, machine, area, labels, work, sink) {
        Ok(()) => {}
        Err(fault) => return Err(fault),
    }
    match draw_refused(chunk, &unit, view, machine, commands, refusal, sink) {
        Ok(()) => {}
        Err(fault) => return Err(fault),
    }
    draw_legend(chunk, view, area, tools, refusal, sink)
}

fn write_picture<A: Allocator, W: Sink>(
    view: View,
    machine: &Machine<A>,
    commands: &[Command],
    refusal: &Option<RefusedMotion>,
    area: &Rectangle,
    tools: &[Option<Tool>],
    swept: &[Sweep],
    labels: &[Placed],
    work: &WorkOrigin,
    sink: &mut W,
) -> Result<(), WriteFault>
    ensures ok { OnOk result
        (Appends (W.written sink.old) (W.written sink.new)
        (shapes_text (unit_of area.now) (picture_of view (file_of machine.now) commands.now
        refusal.now area.now tools.now swept.now labels.now work.now))) }
    ensures fault { OnErr result
        (AppendsPrefix (W.written sink.old) (W.written sink.new)
        (shapes_text (unit_of area.now) (picture_of view (file_of machine.now) commands.now
        refusal.now area.now tools.now swept.now labels.now work.now))) }
    ensures counts { CountsFailure (W.failures sink.old) (W.failures sink.new) result }
{
    let mut chunk = Chunk::new();
    match draw_picture(
        &mut chunk, view, machine, commands, refusal, area, tools, swept, labels, work, sink,
    ) {
        Ok(()) => chunk.write_out(sink),
        Err(fault) => Err(fault),
    }
}

// Returns the boxes whose bodies are drawn. It fails where memory is refused.
fn shown_sweeps<A: Allocator, B: Allocator>(
    alloc: A,
    look: &Look,
    tools: &[Option<Tool>],
    commands: &[Command],
    motions: &Motions<B>,
) -> Result<Vec<Sweep, A>, AllocError>
    ensures { IfOk result
        (λ v. v.items ≡ shown_sweeps look.now tools.now commands.now motions.now) }
{
    if look.bodies {
        sweeps(alloc, look.view, tools, commands, motions)
    } else {
        Ok(Vec::new(alloc))
    }
}

/// Writes the picture of a program on a machine, as SVG 1.1 in millimetres, seen from one side:
/// travel, fixtures, if `look` says so the bodies of the tools over the boxes of a certificate's
/// motions, home and start, the work origin, the path of the mounted tool's tip, the refusal in
/// red, a scale and a legend. The picture has the whole travel, or, where the travel is more than
/// three times as wide or as high as the fixtures and the path, these alone. Labels of marks and
/// fixtures are moved down where they would overlap.
///
/// After a fault (900 for refused memory, when nothing is written; 902, and only where the sink
/// failed) a prefix of the text is written.
pub fn write_svg<A: Allocator + Copy, B: Allocator, W: Sink>(
    alloc: A,
    look: &Look,
    machine: &Machine<B>,
    commands: &[Command],
    motions: &Motions<B>,
    refusal: &Option<RefusedMotion>,
    work: &WorkOrigin,
    sink: &mut W,
) -> Result<(), DrawFault>
    ensures ok { OnOk result
        (Appends (W.written sink.old) (W.written sink.new)
        (picture_text look.now (file_of machine.now) commands.now motions.now refusal.now
        work.now)) }
    ensures fault { OnErr result
        (AppendsPrefix (W.written sink.old) (W.written sink.new)
        (picture_text look.now (file_of machine.now) commands.now motions.now refusal.now
        work.now)) }
    ensures memory { result ≡ Err DrawFault.Memory →
        Keeps (W.written sink.old) (W.written sink.new) }
    ensures counts { CountsUnlessMemory (W.failures sink.old) (W.failures sink.new) result }
{
    let Ok(tools) = used(alloc, commands) else {
        return Err(DrawFault::Memory);
    };
    let Ok(swept) = shown_sweeps(alloc, look, tools.as_slice(), commands, motions) else {
        return Err(DrawFault::Memory);
    };
    let area = frame(look, machine, commands);
    let unit = unit_of(&area);
    let Ok(labels) = labels(alloc, &unit, look.view, &area, machine, work) else {
        return Err(DrawFault::Memory);
    };
    match write_picture(
        look.view,
        machine,
        commands,
        refusal,
        &area,
        tools.as_slice(),
        swept.as_slice(),
        labels.as_slice(),
        work,
        sink,
    ) {
        Ok(()) => Ok(()),
        Err(_) => Err(DrawFault::Write),
    }
}
