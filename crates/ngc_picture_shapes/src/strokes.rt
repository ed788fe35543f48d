//! The path of the tip, motion by motion.
ghost use Rattle.std.specs.Prelude.{◌≡◌, ◌≤◌, ◌++◌, length, map};
ghost use Rattle.ngc_text.specs.Failures.{CountsFailure};
ghost use Rattle.ngc_commands.specs.Movement.{start_of};
ghost use Rattle.ngc_commands.specs.declared.movement.Way.TheVariants.{Line};
ghost use Rattle.ngc_picture_shapes.specs.declared.shape.Shape.TheVariants as drawn;
ghost use Rattle.ngc_picture_shapes.specs.Arcs.{corner_spots};
ghost use Rattle.ngc_picture_shapes.specs.Draws.{Draws};
ghost use Rattle.ngc_picture_shapes.specs.Helices.{curve, helix_points};
ghost use Rattle.ngc_picture_shapes.specs.Strokes.{lead, is_seen_clockwise, round, is_flat, line_to};
ghost use Rattle.ngc_picture_shapes.specs.Strokes.{is_seen_as_line};
ghost use Rattle.ngc_picture_shapes.specs.Strokes.{arc_course, course, stroke, strokes_of};

use crate::drawer::draw_all;
use crate::eye::Eye;
use crate::helix::{halfway_along, halvings, middle};
use crate::pen::{Pen, Run, ink_of};
use crate::shape::{Ink, Shape};
use crate::sheet::Unit;
use crate::spot::Spot;
use crate::view::{View, to_micrometres};
use arrayvec::ArrayVec;
use ngc_arc_geometry::Arc;
use ngc_commands::{Action, Way};
use ngc_fixed_length::{Point3, Turn};
use ngc_text::{Chunk, Sink, WriteFault};

/// Returns where the extreme points of an arc and its end are seen.
pub(crate) fn corner_spots(eye: &Eye, arc: &Arc) -> ArrayVec<Spot, 5>
    ensures { result.items ≡ corner_spots eye.now arc.now }
{
    let plane = arc.plane();
    let height = arc.start().height(plane);
    let mut spots = ArrayVec::new();
    for point in arc.extremes().as_slice() {
        spots.push(eye.spot(&point.at_height(plane, height)));
    }
    spots.push(eye.spot(&arc.end()));
    spots
}

fn is_seen_clockwise(view: View, turn: Turn) -> bool
    ensures { result ≡ is_seen_clockwise view turn }
{
    match (view, turn) {
        (View::Front, Turn::Clockwise) => false,
        (View::Front, Turn::Counterclockwise) => true,
        (_, Turn::Clockwise) => true,
        (_, Turn::Counterclockwise) => false,
    }
}

/// Returns the shapes that lead to the start of a motion.
fn lead(run: &Option<Run>, ink: Ink, from: Spot) -> ArrayVec<Shape, 2>
    ensures { result.items ≡ lead run.now ink from }
{
    let mut shapes = ArrayVec::new();
    if let Some(run) = run {
        if run.ink.is_same(&ink) && run.at.is_same(&from) {
            return shapes;
        }
        shapes.push(Shape::PathEnd);
    }
    shapes.push(Shape::Path(ink, from));
    shapes
}

fn is_flat(arc: &Arc) -> bool
    ensures { result ≡ is_flat arc.now }
{
    let plane = arc.plane();
    arc.start().height(plane) == arc.end().height(plane)
}

/// Returns whether an arc is seen as a line, in a view that doesn't face its plane.
fn is_seen_as_line(view: View, arc: &Arc) -> bool
    ensures { result ≡ is_seen_as_line view arc.now }
{
    match view {
        View::Iso => false,
        _ => is_flat(arc),
    }
}

/// Returns the shapes of an arc in quarters.
fn rounds(eye: &Eye, arc: &Arc) -> ArrayVec<Shape, 5>
    ensures { result.items ≡ map (round eye.now.view arc.now) (corner_spots eye.now arc.now) }
{
    let radius = to_micrometres(arc.outer_radius() as i64);
    let clockwise = is_seen_clockwise(eye.view, arc.turn());
    let mut shapes = ArrayVec::new();
    for spot in corner_spots(eye, arc).as_slice() {
        shapes.push(Shape::Round(radius, clockwise, *spot));
    }
    shapes
}

/// Returns the shapes of an arc seen from its side, which go to and fro.
fn corners(eye: &Eye, arc: &Arc) -> ArrayVec<Shape, 5>
    ensures { result.items ≡ map drawn.Line (corner_spots eye.now arc.now) }
{
    let mut shapes = ArrayVec::new();
    for spot in corner_spots(eye, arc).as_slice() {
        shapes.push(Shape::Line(*spot));
    }
    shapes
}

/// Draws an arc from one of its points to another, at most half a turn apart, halved `halvings`
/// times.
fn draw_curve<W: Sink>(
    chunk: &mut Chunk,
    unit: &Unit,
    eye: &Eye,
    arc: &Arc,
    halvings: u32,
    from: &Point3,
    to: &Point3,
    sink: &mut W,
) -> Result<(), WriteFault>
    ensures drawn { Draws unit.now.micrometres (W.written sink.old)
        (W.written sink.new) chunk.old chunk.new result
        (map (line_to eye.now) (curve halvings arc.now from.now to.now)) }
    ensures counts { CountsFailure (W.failures sink.old) (W.failures sink.new) result }
{
    if halvings == 0 {
        return draw_all(chunk, unit, &[Shape::Line(eye.spot(to))], sink);
    }
    let between = halfway_along(arc, from, to);
    match draw_curve(chunk, unit, eye, arc, halvings - 1, from, &between, sink) {
        Ok(()) => {}
        Err(fault) => return Err(fault),
    }
    draw_curve(chunk, unit, eye, arc, halvings - 1, &between, to, sink)
}

fn draw_helix<W: Sink>(
    chunk: &mut Chunk,
    unit: &Unit,
    eye: &Eye,
    arc: &Arc,
    sink: &mut W,
) -> Result<(), WriteFault>
    ensures drawn { Draws unit.now.micrometres (W.written sink.old)
        (W.written sink.new) chunk.old chunk.new result
        (map (line_to eye.now) (helix_points arc.now)) }
    ensures counts { CountsFailure (W.failures sink.old) (W.failures sink.new) result }
{
    let halvings = halvings(arc.outer_radius());
    let middle = middle(arc);
    match draw_curve(chunk, unit, eye, arc, halvings, &arc.start(), &middle, sink) {
        Ok(()) => {}
        Err(fault) => return Err(fault),
    }
    draw_curve(chunk, unit, eye, arc, halvings, &middle, &arc.end(), sink)
}

fn draw_arc<W: Sink>(
    chunk: &mut Chunk,
    unit: &Unit,
    eye: &Eye,
    arc: &Arc,
    sink: &mut W,
) -> Result<(), WriteFault>
    ensures drawn { Draws unit.now.micrometres (W.written sink.old)
        (W.written sink.new) chunk.old chunk.new result (arc_course eye.now arc.now) }
    ensures counts { CountsFailure (W.failures sink.old) (W.failures sink.new) result }
{
    if eye.view.faces(arc.plane()) {
        draw_all(chunk, unit, rounds(eye, arc).as_slice(), sink)
    } else if is_seen_as_line(eye.view, arc) {
        draw_all(chunk, unit, corners(eye, arc).as_slice(), sink)
    } else {
        draw_helix(chunk, unit, eye, arc, sink)
    }
}

/// Returns the line of a straight motion. A line within one spot is left out.
fn straight(eye: &Eye, start: &Point3, end: &Point3) -> ArrayVec<Shape, 2>
    ensures { result.items ≡ course eye.now (Line start.now end.now) }
{
    let to = eye.spot(end);
    let mut shapes = ArrayVec::new();
    if !eye.spot(start).is_same(&to) {
        shapes.push(Shape::Line(to));
    }
    shapes
}

fn draw_course<W: Sink>(
    chunk: &mut Chunk,
    unit: &Unit,
    eye: &Eye,
    way: &Way,
    sink: &mut W,
) -> Result<(), WriteFault>
    ensures drawn { Draws unit.now.micrometres (W.written sink.old)
        (W.written sink.new) chunk.old chunk.new result (course eye.now way.now) }
    ensures counts { CountsFailure (W.failures sink.old) (W.failures sink.new) result }
{
    match way {
        Way::Line { start, end } => {
            draw_all(chunk, unit, straight(eye, start, end).as_slice(), sink)
        }
        Way::Arc(arc) => draw_arc(chunk, unit, eye, arc, sink),
    }
}

/// Returns the point where the path of a motion begins.
pub fn start_of(way: &Way) -> Point3
    ensures { result ≡ start_of way.now }
{
    match way {
        Way::Line { start, .. } => *start,
        Way::Arc(arc) => arc.start(),
    }
}

/// Draws the path of a motion.
pub fn draw_stroke<W: Sink>(
    chunk: &mut Chunk,
    unit: &Unit,
    eye: &Eye,
    run: &Option<Run>,
    ink: Ink,
    way: &Way,
    sink: &mut W,
) -> Result<(), WriteFault>
    ensures drawn { Draws unit.now.micrometres (W.written sink.old)
        (W.written sink.new) chunk.old chunk.new result (stroke eye.now run.now ink way.now) }
    ensures counts { CountsFailure (W.failures sink.old) (W.failures sink.new) result }
{
    let lead = lead(run, ink, eye.spot(&start_of(way)));
    match draw_all(chunk, unit, lead.as_slice(), sink) {
        Ok(()) => {}
        Err(fault) => return Err(fault),
    }
    draw_course(chunk, unit, eye, way, sink)
}

/// Draws an action.
pub fn draw_action<W: Sink>(
    chunk: &mut Chunk,
    unit: &Unit,
    pen: &Pen,
    action: &Action,
    sink: &mut W,
) -> Result<(), WriteFault>
    ensures drawn { Draws unit.now.micrometres (W.written sink.old)
        (W.written sink.new) chunk.old chunk.new result (strokes_of pen.now action.now) }
    ensures counts { CountsFailure (W.failures sink.old) (W.failures sink.new) result }
{
    match action {
        Action::Move(motion) => draw_stroke(
            chunk,
            unit,
            &pen.eye,
            &pen.run,
            ink_of(pen.rank, &motion.pace),
            &motion.way,
            sink,
        ),
        _ => Ok(()),
    }
}
