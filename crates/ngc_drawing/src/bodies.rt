//! The bodies of tools over the boxes of a certificate.
ghost use Rattle.std.specs.Prelude.{◌≡◌, ◌≤◌, ◌++◌, length};
ghost use Rattle.ngc_text.specs.Failures.{CountsFailure};
ghost use Rattle.ngc_machine_files.specs.Machine.{file_of};
ghost use Rattle.ngc_collision.specs.Inside.{place_of};
ghost use Rattle.ngc_drawing.specs.Bodies.{tool_at, body, filled, bodies_lead, bodies_end, swept};
ghost use Rattle.ngc_drawing.specs.Bodies.{swept_from};
ghost use Rattle.ngc_picture_shapes.specs.Draws.{Draws};

use crate::sweep::Sweep;
use arrayvec::ArrayVec;
use ngc_collision::{Place, Solid};
use ngc_machine_files::{Machine, Tool};
use ngc_picture_shapes::{Shape, Unit, View, block, draw_all};
use ngc_text::{Chunk, Sink, WriteFault};
use std::alloc::Allocator;

fn tool_at(tools: &[Option<Tool>], rank: usize) -> Option<Tool>
    ensures { result ≡ tool_at tools.now rank }
{
    if rank < tools.len() {
        tools[rank]
    } else {
        None
    }
}

fn bodies_lead(run: &Option<usize>, rank: usize) -> ArrayVec<Shape, 12>
    ensures value { result.items ≡ bodies_lead run.now rank }
    ensures few { length result.items ≤ 2 }
{
    let mut shapes = ArrayVec::new();
    match run {
        None => shapes.push(Shape::Bodies),
        Some(other) if *other == rank => return shapes,
        Some(_) => shapes.push(Shape::PathEnd),
    }
    shapes.push(Shape::BodiesOf(rank));
    shapes
}

fn body(view: View, low: &Place, high: &Place) -> Shape
    ensures { result ≡ body view (place_of low.now) (place_of high.now) }
{
    match view {
        View::Iso => Shape::Silhouette(block(low, high)),
        _ => Shape::Body(view.around(low, high)),
    }
}

fn add_filled<A: Allocator>(
    shapes: &mut ArrayVec<Shape, 12>,
    view: View,
    machine: &Machine<A>,
    tools: &[Option<Tool>],
    sweep: &Sweep,
)
    requires { length shapes.old.items ≤ 2 }
    ensures { shapes.new.items ≡ shapes.old.items
        ++ filled view (file_of machine.now).step tools.now sweep.now }
{
    let tool = tool_at(tools, sweep.rank);
    for solid in Solid::swept(machine.step, tool, &sweep.bounds).as_slice() {
        shapes.push(body(view, &solid.low, &solid.high));
    }
}

fn swept<A: Allocator>(
    view: View,
    machine: &Machine<A>,
    tools: &[Option<Tool>],
    run: &Option<usize>,
    sweep: &Sweep,
) -> ArrayVec<Shape, 12>
    ensures { result.items ≡ swept view (file_of machine.now).step tools.now run.now sweep.now }
{
    let mut shapes = bodies_lead(run, sweep.rank);
    add_filled(&mut shapes, view, machine, tools, sweep);
    shapes
}

fn bodies_end(run: &Option<usize>) -> ArrayVec<Shape, 12>
    ensures { result.items ≡ bodies_end run.now }
{
    let mut shapes = ArrayVec::new();
    if let Some(_) = run {
        shapes.push(Shape::PathEnd);
        shapes.push(Shape::BodiesEnd);
    }
    shapes
}

/// Draws the bodies of tools over boxes.
pub(crate) fn draw_swept<A: Allocator, W: Sink>(
    chunk: &mut Chunk,
    unit: &Unit,
    view: View,
    machine: &Machine<A>,
    tools: &[Option<Tool>],
    sweeps: &[Sweep],
    sink: &mut W,
) -> Result<(), WriteFault>
    ensures drawn { Draws unit.now.micrometres (W.written sink.old)
        (W.written sink.new) chunk.old chunk.new result
        (swept_from view (file_of machine.now).step tools.now None sweeps.now) }
    ensures counts { CountsFailure (W.failures sink.old) (W.failures sink.new) result }
{
    let mut run = None;
    for sweep in sweeps {
        let shapes = swept(view, machine, tools, &run, sweep);
        match draw_all(chunk, unit, shapes.as_slice(), sink) {
            Ok(()) => {}
            Err(fault) => return Err(fault),
        }
        run = Some(sweep.rank);
    }
    let end = bodies_end(&run);
    draw_all(chunk, unit, end.as_slice(), sink)
}
