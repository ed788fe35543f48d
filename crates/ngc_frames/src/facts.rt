//! A motion in the program's coordinates, as a fact of a JSON document.
ghost use Rattle.std.specs.Prelude.{◌≡◌, ◌+◌, ◌≤◌, ◌++◌, length};
ghost use Rattle.std.specs.Fmt.{signed_decimal};
ghost use Rattle.ngc_certificate_text.specs.Collects.{Collects};
ghost use Rattle.ngc_collision.specs.Inside.{place_of};
ghost use Rattle.ngc_text.specs.Collected.{CHUNK_SIZE, HasSpaceForLine};
ghost use Rattle.ngc_text.specs.Failures.{CountsFailure};
ghost use Rattle.ngc_frames.specs.Facts.{axis_offset_fact, ends_fact, line_fact, motion_fact};
ghost use Rattle.ngc_frames.specs.Facts.{offsets_fact, origin_fact, system_fact, tool_length_fact};
ghost use Rattle.ngc_frames.specs.Facts.{triple, unit_fact, unit_text, zero_fact};

use crate::in_force::FrameInForce;
use crate::place::as_place;
use crate::words::system_name;
use ngc_collision::Place;
use ngc_fixed_length::Units;
use ngc_text::{Chunk, Sink, WriteFault};

fn add_nanometres(chunk: &mut Chunk, nanometres: i64)
    requires { length chunk.old + 40 ≤ CHUNK_SIZE }
    ensures text { chunk.new ≡ chunk.old ++ signed_decimal nanometres }
    ensures short { length chunk.new ≤ length chunk.old + 40 }
{
    chunk.add_number(nanometres);
}

/// Adds a position as an array of three numbers, in nanometres.
#[tactic(auto, unfolding(crate::specs::Facts::triple))]
pub fn add_triple(chunk: &mut Chunk, place: &Place)
    requires { length chunk.old + 124 ≤ CHUNK_SIZE }
    ensures text { chunk.new ≡ chunk.old ++ triple (place_of place.now) }
    ensures short { length chunk.new ≤ length chunk.old + 124 }
{
    chunk.add_text(b"[");
    add_nanometres(chunk, place.x);
    chunk.add_text(b",");
    add_nanometres(chunk, place.y);
    chunk.add_text(b",");
    add_nanometres(chunk, place.z);
    chunk.add_text(b"]");
}

#[tactic(auto, unfolding(crate::specs::Facts::line_fact))]
fn add_line(chunk: &mut Chunk, line: u32)
    requires { length chunk.old + 50 ≤ CHUNK_SIZE }
    ensures text { chunk.new ≡ chunk.old ++ line_fact line }
    ensures short { length chunk.new ≤ length chunk.old + 50 }
{
    chunk.add_text(b",\"line\":");
    chunk.add_number(line);
    chunk.add_text(b"}");
}

#[tactic(auto, unfolding(crate::specs::Facts::unit_text))]
fn unit_name(unit: Units) -> &'static [u8]
    ensures text { result.now ≡ unit_text unit }
    ensures short { length result.now ≤ 4 }
{
    match unit {
        Units::Millimetres => b"mm",
        Units::Inches => b"inch",
    }
}

fn add_system(chunk: &mut Chunk, frame: &FrameInForce)
    requires { length chunk.old + 150 ≤ CHUNK_SIZE }
    ensures text { chunk.new ≡ chunk.old ++ system_fact frame.now }
    ensures short { length chunk.new ≤ length chunk.old + 150 }
{
    chunk.add_text(b",\n{\"fact\":\"coordinates\",\"system\":{\"code\":\"");
    chunk.add_text(system_name(frame.frame.system()));
    chunk.add_text(b"\"");
    add_line(chunk, frame.selection_line);
}

fn add_origin(chunk: &mut Chunk, frame: &FrameInForce)
    requires { length chunk.old + 220 ≤ CHUNK_SIZE }
    ensures text { chunk.new ≡ chunk.old ++ origin_fact frame.now }
    ensures short { length chunk.new ≤ length chunk.old + 220 }
{
    let origin = as_place(&frame.frame.selected_origin());
    chunk.add_text(b",\"origin\":{\"at\":");
    add_triple(chunk, &origin);
    add_line(chunk, frame.origin_line);
}

fn add_axis_offset(chunk: &mut Chunk, frame: &FrameInForce)
    requires { length chunk.old + 220 ≤ CHUNK_SIZE }
    ensures text { chunk.new ≡ chunk.old ++ axis_offset_fact frame.now }
    ensures short { length chunk.new ≤ length chunk.old + 220 }
{
    let offset = as_place(&frame.frame.frames.axis_offset);
    chunk.add_text(b",\"axis_offset\":{\"by\":");
    add_triple(chunk, &offset);
    add_line(chunk, frame.axis_offset_line);
}

fn add_tool_length(chunk: &mut Chunk, frame: &FrameInForce)
    requires { length chunk.old + 150 ≤ CHUNK_SIZE }
    ensures text { chunk.new ≡ chunk.old ++ tool_length_fact frame.now }
    ensures short { length chunk.new ≤ length chunk.old + 150 }
{
    chunk.add_text(b",\"tool_length_offset\":{\"by\":");
    add_nanometres(chunk, frame.frame.tool_length());
    add_line(chunk, frame.tool_length_line);
}

fn add_unit(chunk: &mut Chunk, frame: &FrameInForce)
    requires { length chunk.old + 100 ≤ CHUNK_SIZE }
    ensures text { chunk.new ≡ chunk.old ++ unit_fact frame.now }
    ensures short { length chunk.new ≤ length chunk.old + 100 }
{
    chunk.add_text(b",\"unit\":{\"name\":\"");
    chunk.add_text(unit_name(frame.frame.unit));
    chunk.add_text(b"\"");
    add_line(chunk, frame.unit_line);
}

#[tactic(auto, unfolding(crate::specs::Facts::ends_fact))]
fn add_ends(chunk: &mut Chunk, from: &Place, to: &Place)
    requires { HasSpaceForLine chunk.old }
    ensures { chunk.new ≡ chunk.old ++ ends_fact (place_of from.now) (place_of to.now) }
{
    chunk.add_text(b",\"from\":");
    add_triple(chunk, from);
    chunk.add_text(b",\"to\":");
    add_triple(chunk, to);
    chunk.add_text(b"}");
}

#[tactic(auto, unfolding(crate::specs::Facts::zero_fact))]
fn add_zero(chunk: &mut Chunk, frame: &FrameInForce)
    requires { HasSpaceForLine chunk.old }
    ensures { chunk.new ≡ chunk.old ++ zero_fact frame.now }
{
    add_system(chunk, frame);
    add_origin(chunk, frame);
}

#[tactic(auto, unfolding(crate::specs::Facts::offsets_fact))]
fn add_offsets(chunk: &mut Chunk, frame: &FrameInForce)
    requires { HasSpaceForLine chunk.old }
    ensures { chunk.new ≡ chunk.old ++ offsets_fact frame.now }
{
    add_axis_offset(chunk, frame);
    add_tool_length(chunk, frame);
    add_unit(chunk, frame);
}

/// Adds as a fact the start and the end of a motion in the program's coordinates. It adds which
/// coordinates these are, with the lines that set them: 0 for what is as at the start.
///
/// After a fault (902, only if the sink failed) a prefix of the text is written.
pub fn collect_motion_fact<W: Sink>(
    chunk: &mut Chunk,
    frame: &FrameInForce,
    from: &Place,
    to: &Place,
    sink: &mut W,
) -> Result<(), WriteFault>
    ensures text { Collects (W.written sink.old) (W.written sink.new) chunk.old chunk.new result
        (motion_fact frame.now (place_of from.now) (place_of to.now)) }
    ensures counts { CountsFailure (W.failures sink.old) (W.failures sink.new) result }
{
    match chunk.make_space(sink) {
        Ok(()) => add_zero(chunk, frame),
        Err(fault) => return Err(fault),
    }
    match chunk.make_space(sink) {
        Ok(()) => add_offsets(chunk, frame),
        Err(fault) => return Err(fault),
    }
    match chunk.make_space(sink) {
        Ok(()) => add_ends(chunk, from, to),
        Err(fault) => return Err(fault),
    }
    Ok(())
}
