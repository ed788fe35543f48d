//! A motion in the program's coordinates, in words and millimetres.
ghost use Rattle.std.specs.Prelude.{◌≡◌, ◌+◌, ◌≤◌, ◌++◌, codes, length};
ghost use Rattle.ngc_certificate_text.specs.Collects.{Collects};
ghost use Rattle.ngc_collision.specs.Inside.{place_of};
ghost use Rattle.ngc_text.specs.Collected.{CHUNK_SIZE, HasSpaceForLine};
ghost use Rattle.ngc_text.specs.Failures.{CountsFailure};
ghost use Rattle.ngc_text.specs.Millimetres.{mm_text};
ghost use Rattle.ngc_frames.specs.Words.{axis_offset_words, ends_words, goes_words};
ghost use Rattle.ngc_frames.specs.Words.{length_offset_words, lengths_words, line_if_set, line_text};
ghost use Rattle.ngc_frames.specs.Words.{motion_words, origin_at_start, origin_source};
ghost use Rattle.ngc_frames.specs.Words.{origin_words, place_text, system_text, system_words};
ghost use Rattle.ngc_frames.specs.Words.{tool_length_words, unit_words, zero_words};

use crate::in_force::FrameInForce;
use crate::place::as_place;
use ngc_collision::Place;
use ngc_fixed_length::{System, Units};
use ngc_text::{Chunk, Sink, WriteFault};

/// Returns the code that selects a coordinate system.
#[tactic(auto, unfolding(crate::specs::Words::system_text))]
pub fn system_name(system: System) -> &'static [u8]
    ensures text { result.now ≡ system_text system }
    ensures short { length result.now ≤ 5 }
{
    match system {
        System::First => b"G54",
        System::Second => b"G55",
        System::Third => b"G56",
        System::Fourth => b"G57",
        System::Fifth => b"G58",
        System::Sixth => b"G59",
        System::Seventh => b"G59.1",
        System::Eighth => b"G59.2",
        System::Ninth => b"G59.3",
    }
}

fn add_coordinate(chunk: &mut Chunk, coordinate: i64)
    requires { length chunk.old + 51 ≤ CHUNK_SIZE }
    ensures text { chunk.new ≡ chunk.old ++ mm_text coordinate }
    ensures short { length chunk.new ≤ length chunk.old + 51 }
{
    chunk.add_millimetres(i128::from(coordinate));
}

/// Adds a position in millimetres, with its axes.
#[tactic(auto, unfolding(crate::specs::Words::place_text))]
pub fn add_place(chunk: &mut Chunk, place: &Place)
    requires { length chunk.old + 163 ≤ CHUNK_SIZE }
    ensures text { chunk.new ≡ chunk.old ++ place_text (place_of place.now) }
    ensures short { length chunk.new ≤ length chunk.old + 163 }
{
    chunk.add_text(b"X ");
    add_coordinate(chunk, place.x);
    chunk.add_text(b", Y ");
    add_coordinate(chunk, place.y);
    chunk.add_text(b", Z ");
    add_coordinate(chunk, place.z);
}

#[tactic(auto, unfolding(crate::specs::Words::line_text))]
fn add_line(chunk: &mut Chunk, line: u32)
    requires { length chunk.old + 49 ≤ CHUNK_SIZE }
    ensures text { chunk.new ≡ chunk.old ++ line_text line }
    ensures short { length chunk.new ≤ length chunk.old + 49 }
{
    chunk.add_text(b" of line ");
    chunk.add_number(line);
}

#[tactic(auto, unfolding(crate::specs::Words::line_if_set))]
fn add_line_if_set(chunk: &mut Chunk, line: u32)
    requires { length chunk.old + 49 ≤ CHUNK_SIZE }
    ensures text { chunk.new ≡ chunk.old ++ line_if_set line }
    ensures short { length chunk.new ≤ length chunk.old + 49 }
{
    if line == 0 {
        chunk.add_text(b"");
    } else {
        add_line(chunk, line);
    }
}

fn add_origin_at_start(chunk: &mut Chunk, given: bool)
    requires { length chunk.old + 49 ≤ CHUNK_SIZE }
    ensures text { chunk.new ≡ chunk.old ++ origin_at_start given }
    ensures short { length chunk.new ≤ length chunk.old + 49 }
{
    if given {
        chunk.add_text(b" of --origin");
    } else {
        chunk.add_text(b" of the machine file");
    }
}

#[tactic(auto, unfolding(crate::specs::Words::origin_source))]
fn add_origin_source(chunk: &mut Chunk, given: bool, line: u32)
    requires { length chunk.old + 49 ≤ CHUNK_SIZE }
    ensures text { chunk.new ≡ chunk.old ++ origin_source given line }
    ensures short { length chunk.new ≤ length chunk.old + 49 }
{
    if line == 0 {
        add_origin_at_start(chunk, given);
    } else {
        add_line(chunk, line);
    }
}

fn add_system(chunk: &mut Chunk, frame: &FrameInForce)
    requires { length chunk.old + 60 ≤ CHUNK_SIZE }
    ensures text { chunk.new ≡ chunk.old ++ system_words frame.now }
    ensures short { length chunk.new ≤ length chunk.old + 60 }
{
    chunk.add_text(b"In ");
    chunk.add_text(system_name(frame.frame.system()));
    add_line_if_set(chunk, frame.selection_line);
}

fn add_ends(chunk: &mut Chunk, from: &Place, to: &Place)
    requires { length chunk.old + 350 ≤ CHUNK_SIZE }
    ensures text { chunk.new ≡ chunk.old ++ ends_words (place_of from.now) (place_of to.now) }
    ensures short { length chunk.new ≤ length chunk.old + 350 }
{
    chunk.add_text(b" it goes from ");
    add_place(chunk, from);
    chunk.add_text(b" to ");
    add_place(chunk, to);
}

fn add_origin(chunk: &mut Chunk, given: bool, frame: &FrameInForce)
    requires { length chunk.old + 250 ≤ CHUNK_SIZE }
    ensures text { chunk.new ≡ chunk.old ++ origin_words given frame.now }
    ensures short { length chunk.new ≤ length chunk.old + 250 }
{
    let origin = as_place(&frame.frame.selected_origin());
    chunk.add_text(b".\nThe origin is ");
    add_place(chunk, &origin);
    add_origin_source(chunk, given, frame.origin_line);
}

fn add_axis_offset(chunk: &mut Chunk, frame: &FrameInForce)
    requires { length chunk.old + 250 ≤ CHUNK_SIZE }
    ensures text { chunk.new ≡ chunk.old ++ axis_offset_words frame.now }
    ensures short { length chunk.new ≤ length chunk.old + 250 }
{
    if frame.axis_offset_line == 0 {
        chunk.add_text(b"");
    } else {
        let offset = as_place(&frame.frame.frames.axis_offset);
        chunk.add_text(b", the axis offset ");
        add_place(chunk, &offset);
        add_line(chunk, frame.axis_offset_line);
    }
}

fn add_length_offset(chunk: &mut Chunk, frame: &FrameInForce)
    requires { length chunk.old + 150 ≤ CHUNK_SIZE }
    ensures text { chunk.new ≡ chunk.old ++ length_offset_words frame.now }
    ensures short { length chunk.new ≤ length chunk.old + 150 }
{
    chunk.add_text(b", the tool length offset ");
    add_coordinate(chunk, frame.frame.tool_length());
    add_line(chunk, frame.tool_length_line);
}

fn add_tool_length(chunk: &mut Chunk, frame: &FrameInForce)
    requires { length chunk.old + 150 ≤ CHUNK_SIZE }
    ensures text { chunk.new ≡ chunk.old ++ tool_length_words frame.now }
    ensures short { length chunk.new ≤ length chunk.old + 150 }
{
    if frame.tool_length_line == 0 {
        chunk.add_text(b", and there is no tool length offset");
    } else {
        add_length_offset(chunk, frame);
    }
}

fn add_unit(chunk: &mut Chunk, line: u32, unit: Units)
    requires { length chunk.old + 100 ≤ CHUNK_SIZE }
    ensures text { chunk.new ≡ chunk.old ++ unit_words line unit }
    ensures short { length chunk.new ≤ length chunk.old + 100 }
{
    match unit {
        Units::Millimetres => chunk.add_text(b""),
        Units::Inches => {
            chunk.add_text(b", and lengths are in inches since line ");
            chunk.add_number(line);
        }
    }
}

#[tactic(auto, unfolding(crate::specs::Words::goes_words))]
fn add_goes(chunk: &mut Chunk, frame: &FrameInForce, from: &Place, to: &Place)
    requires { HasSpaceForLine chunk.old }
    ensures { chunk.new ≡ chunk.old
        ++ goes_words frame.now (place_of from.now) (place_of to.now) }
{
    add_system(chunk, frame);
    add_ends(chunk, from, to);
}

#[tactic(auto, unfolding(crate::specs::Words::zero_words))]
fn add_zero(chunk: &mut Chunk, given: bool, frame: &FrameInForce)
    requires { HasSpaceForLine chunk.old }
    ensures { chunk.new ≡ chunk.old ++ zero_words given frame.now }
{
    add_origin(chunk, given, frame);
    add_axis_offset(chunk, frame);
}

#[tactic(auto, unfolding(crate::specs::Words::lengths_words))]
fn add_lengths(chunk: &mut Chunk, frame: &FrameInForce)
    requires { HasSpaceForLine chunk.old }
    ensures { chunk.new ≡ chunk.old ++ lengths_words frame.now }
{
    add_tool_length(chunk, frame);
    add_unit(chunk, frame.unit_line, frame.frame.unit);
    chunk.add_text(b".\n");
}

/// Adds in words the start and the end of a motion in the program's coordinates. It adds which
/// coordinates these are, with the lines that set them; `given` says whether an origin that no line
/// set is that of `--origin`.
///
/// After a fault (902, only if the sink failed) a prefix of the text is written.
pub fn collect_motion_words<W: Sink>(
    chunk: &mut Chunk,
    given: bool,
    frame: &FrameInForce,
    from: &Place,
    to: &Place,
    sink: &mut W,
) -> Result<(), WriteFault>
    ensures text { Collects (W.written sink.old) (W.written sink.new) chunk.old chunk.new result
        (motion_words given frame.now (place_of from.now) (place_of to.now)) }
    ensures counts { CountsFailure (W.failures sink.old) (W.failures sink.new) result }
{
    match chunk.make_space(sink) {
        Ok(()) => add_goes(chunk, frame, from, to),
        Err(fault) => return Err(fault),
    }
    match chunk.make_space(sink) {
        Ok(()) => add_zero(chunk, given, frame),
        Err(fault) => return Err(fault),
    }
    match chunk.make_space(sink) {
        Ok(()) => add_lengths(chunk, frame),
        Err(fault) => return Err(fault),
    }
    Ok(())
}
