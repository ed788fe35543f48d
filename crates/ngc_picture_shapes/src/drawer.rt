//! How shapes are written.
ghost use Rattle.ngc_text.specs.Failures.{CountsFailure};
ghost use Rattle.ngc_text.specs.Collected.{HasSpaceForLine};
ghost use Rattle.ngc_certificate_text.specs.Collects.{Collects};
ghost use Rattle.ngc_picture_shapes.specs.Draws.{Draws};
ghost use Rattle.ngc_picture_shapes.specs.Spelling.{shape_text};

use crate::shape::Shape;
use crate::sheet::Unit;
use crate::spelling::add_shape;
use ngc_text::{Chunk, Sink, WriteFault};

/// Draws a shape, in a drawing of this unit.
fn draw<W: Sink>(
    chunk: &mut Chunk,
    unit: &Unit,
    shape: &Shape,
    sink: &mut W,
) -> Result<(), WriteFault>
    ensures text { Collects (W.written sink.old) (W.written sink.new) chunk.old chunk.new result
        (shape_text unit.now.micrometres shape.now) }
    ensures counts { CountsFailure (W.failures sink.old) (W.failures sink.new) result }
{
    match chunk.make_space(sink) {
        Ok(()) => {}
        Err(fault) => return Err(fault),
    }
    add_shape(chunk, unit.micrometres, shape);
    Ok(())
}

/// Draws shapes in order.
pub fn draw_all<W: Sink>(
    chunk: &mut Chunk,
    unit: &Unit,
    shapes: &[Shape],
    sink: &mut W,
) -> Result<(), WriteFault>
    ensures drawn { Draws unit.now.micrometres (W.written sink.old)
        (W.written sink.new) chunk.old chunk.new result shapes.now }
    ensures counts { CountsFailure (W.failures sink.old) (W.failures sink.new) result }
{
    for shape in shapes {
        match draw(chunk, unit, shape, sink) {
            Ok(()) => {}
            Err(fault) => return Err(fault),
        }
    }
    Ok(())
}
