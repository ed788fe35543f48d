//! The text of a machine file of version 3.
ghost use Rattle.std.specs.Prelude.{◌≡◌, OnOk, OnErr, unwrap_or};
ghost use Rattle.std.specs.Io.KnownBytes.{Appends};
ghost use Rattle.ngc_sentences.specs.Saying.{Says};
ghost use Rattle.ngc_text.specs.Failures.{CountsFailure};
ghost use Rattle.ngc_text.specs.Written.{AppendsPrefix};
ghost use Rattle.ngc_machine_writer.specs.File as spec;

use crate::axis::{AxisFigures, say_axis};
use crate::line::{
    coordinates, say_acceleration, say_number, say_place, say_some_place, say_speed,
};
use ngc_machine_maker::{
    Acceleration, End, Figures, Length, PerAxis, Speed, StoredPlaces, are_zero, say_offset_after,
    say_supplied,
};
use ngc_sentences::{Page, Part, say};
use ngc_text::{Sink, WriteFault};

#[tactic(auto, unfolding(crate::specs::File::heading))]
fn say_heading<W: Sink>(page: &mut Page, output: &mut W)
    ensures { Says (W.written output.old) (W.written output.new)
        (W.failures output.old) (W.failures output.new) page.old page.new (spec.heading) }
{
    say!(page, output; b"# Made by `ngc machine`. Each length, speed and acceleration has its unit. ngc computes the\n", b"# rates from them, to the safe side: change a figure, and look at `ngc show`.\n");
}

#[tactic(auto, unfolding(crate::specs::File::grbl_lines))]
fn say_grbl<W: Sink>(page: &mut Page, output: &mut W)
    ensures { Says (W.written output.old) (W.written output.new)
        (W.failures output.old) (W.failures output.new) page.old page.new (spec.grbl_lines) }
{
    say!(page, output; b"# `dialect`: programs are read as GRBL reads them. Without this key they must be in ngc's\n", b"# own language (docs/CAM.md).\n", b"dialect = \"grbl\"\n");
}

// Says the language of programs, if it isn't our own.
fn say_dialect<W: Sink>(grbl: bool, page: &mut Page, output: &mut W)
    ensures { Says (W.written output.old) (W.written output.new)
        (W.failures output.old) (W.failures output.new) page.old page.new
        (spec.dialect_lines grbl) }
{
    if grbl {
        say_grbl(page, output);
    }
}

fn say_ticks<W: Sink>(ticks: Option<u32>, page: &mut Page, output: &mut W)
    ensures { Says (W.written output.old) (W.written output.new)
        (W.failures output.old) (W.failures output.new) page.old page.new
        (spec.ticks_lines ticks) }
{
    if let Some(ticks) = ticks {
        say_number(b"ticks", ticks, page, output);
    }
}

#[tactic(auto, unfolding(crate::specs::File::corner_comment))]
fn say_corner_comment<W: Sink>(page: &mut Page, output: &mut W)
    ensures { Says (W.written output.old) (W.written output.new)
        (W.failures output.old) (W.failures output.new) page.old page.new (spec.corner_comment) }
{
    say!(page, output; b"# `corner`: motions may meet at this speed at any angle. Without the key it is what the axis\n", b"# with the least acceleration reaches in 5 ms, and at least 2 mm/s.\n");
}

#[tactic(auto, unfolding(crate::specs::File::jump_comment))]
fn say_jump_comment<W: Sink>(page: &mut Page, output: &mut W)
    ensures { Says (W.written output.old) (W.written output.new)
        (W.failures output.old) (W.failures output.new) page.old page.new (spec.jump_comment) }
{
    say!(page, output; b"# `jump`: an axis may gain or lose this speed at once where motions meet. At the machine\n", b"# start with half of it, raise it until you hear lost steps, and keep two thirds.\n");
}

fn jump_of(figures: &Figures) -> Speed
    ensures { result ≡ unwrap_or figures.now.jump figures.now.corner }
{
    match figures.jump {
        Some(jump) => jump,
        None => figures.corner,
    }
}

// Says the speeds at which two motions may meet.
#[tactic(auto, unfolding(crate::specs::File::joint_lines))]
fn say_joints<W: Sink>(figures: &Figures, page: &mut Page, output: &mut W)
    ensures { Says (W.written output.old) (W.written output.new)
        (W.failures output.old) (W.failures output.new) page.old page.new
        (spec.joint_lines figures.now) }
{
    let jump = jump_of(figures);
    say_corner_comment(page, output);
    say_speed(b"corner", figures.corner, page, output);
    say_jump_comment(page, output);
    say_speed(b"jump", jump, page, output);
}

#[tactic(auto, unfolding(crate::specs::File::ring_comment))]
fn say_ring_comment<W: Sink>(page: &mut Page, output: &mut W)
    ensures { Says (W.written output.old) (W.written output.new)
        (W.failures output.old) (W.failures output.new) page.old page.new (spec.ring_comment) }
{
    say!(page, output; b"# `ring`: the controller looks ahead over this many. If short lines are slow, try 1024.\n");
}

#[tactic(auto, unfolding(crate::specs::File::arc_feed_comment))]
fn say_arc_feed_comment<W: Sink>(page: &mut Page, output: &mut W)
    ensures { Says (W.written output.old) (W.written output.new)
        (W.failures output.old) (W.failures output.new) page.old page.new (spec.arc_feed_comment) }
{
    say!(page, output; b"# `arc_feed`: if arcs run roughly, try 0 here, with half of `turn`, which is by default the\n", b"# acceleration of each axis. Then they are slower.\n");
}

fn arc_feed_of(by_place: bool) -> u32
    ensures { result ≡ spec.arc_feed_of by_place }
{
    if by_place { 2 } else { 0 }
}

fn say_turn<W: Sink>(arcs: Option<Acceleration>, page: &mut Page, output: &mut W)
    ensures { Says (W.written output.old) (W.written output.new)
        (W.failures output.old) (W.failures output.new) page.old page.new
        (spec.turn_lines arcs) }
{
    if let Some(arcs) = arcs {
        say_acceleration(b"turn", arcs, page, output);
    }
}

// Says how far the controller looks ahead, and how arcs run.
#[tactic(auto, unfolding(crate::specs::File::path_lines))]
fn say_path<W: Sink>(figures: &Figures, page: &mut Page, output: &mut W)
    ensures { Says (W.written output.old) (W.written output.new)
        (W.failures output.old) (W.failures output.new) page.old page.new
        (spec.path_lines figures.now) }
{
    let arc_feed = arc_feed_of(figures.arc_feed);
    say_ring_comment(page, output);
    say_number(b"ring", figures.ring, page, output);
    say_arc_feed_comment(page, output);
    say_number(b"arc_feed", arc_feed, page, output);
    say_turn(figures.arcs, page, output);
}

// Returns a home position: that of an option, or that of the dump.
fn home_of(
    zero: &PerAxis<End>,
    option: &Option<PerAxis<Length>>,
    stored: &Option<PerAxis<i64>>,
) -> Option<PerAxis<i64>>
    ensures { result ≡ spec.home_of zero.now option.now stored.now }
{
    match option {
        Some(option) => Some(coordinates(zero, option)),
        None => *stored,
    }
}

#[tactic(auto, unfolding(crate::specs::File::place_lines))]
fn say_places<W: Sink>(figures: &Figures, page: &mut Page, output: &mut W)
    ensures { Says (W.written output.old) (W.written output.new)
        (W.failures output.old) (W.failures output.new) page.old page.new
        (spec.place_lines figures.now) }
{
    let places = &figures.dump.places;
    let start = coordinates(&figures.zero, &figures.start);
    let home28 = home_of(&figures.zero, &figures.home28, &places.g28);
    let home30 = home_of(&figures.zero, &figures.home30, &places.g30);
    say_place(b"start", &start, page, output);
    say_some_place(b"home28", &home28, page, output);
    say_some_place(b"home30", &home30, page, output);
}

#[tactic(auto, unfolding(crate::specs::File::stored_origins))]
fn say_stored<W: Sink>(places: &StoredPlaces, page: &mut Page, output: &mut W)
    ensures { Says (W.written output.old) (W.written output.new)
        (W.failures output.old) (W.failures output.new) page.old page.new
        (spec.stored_origins places.now) }
{
    say!(page, output; b"\n[origin]\n");
    say_some_place(b"G54", &places.g54, page, output);
    say_some_place(b"G55", &places.g55, page, output);
    say_some_place(b"G56", &places.g56, page, output);
    say_some_place(b"G57", &places.g57, page, output);
    say_some_place(b"G58", &places.g58, page, output);
    say_some_place(b"G59", &places.g59, page, output);
}

// Says the origins that a controller with GRBL has stored, if one isn't zero.
fn say_origins<W: Sink>(places: &StoredPlaces, page: &mut Page, output: &mut W)
    ensures { Says (W.written output.old) (W.written output.new)
        (W.failures output.old) (W.failures output.new) page.old page.new
        (spec.origin_lines places.now) }
{
    if !are_zero(places) {
        say_stored(places, page, output);
    }
}

#[tactic(auto, unfolding(crate::specs::File::axes_lines))]
fn say_axes<W: Sink>(figures: &Figures, page: &mut Page, output: &mut W)
    ensures { Says (W.written output.old) (W.written output.new)
        (W.failures output.old) (W.failures output.new) page.old page.new
        (spec.axes_lines figures.now) }
{
    let (x, y, z) = (
        AxisFigures::of_x(figures),
        AxisFigures::of_y(figures),
        AxisFigures::of_z(figures),
    );
    say_axis(b"x", &x, page, output);
    say_axis(b"y", &y, page, output);
    say_axis(b"z", &z, page, output);
}

fn say_file<W: Sink>(figures: &Figures, page: &mut Page, output: &mut W)
    ensures { Says (W.written output.old) (W.written output.new)
        (W.failures output.old) (W.failures output.new) page.old page.new
        (spec.written_text figures.now) }
{
    say_heading(page, output);
    say_supplied(&figures.dump.supplied, page, output);
    say_offset_after(b"# ", &figures.dump.places, page, output);
    say!(page, output; b"\nversion = 3\n");
    say_dialect(figures.grbl, page, output);
    say_ticks(figures.ticks, page, output);
    say_joints(figures, page, output);
    say_path(figures, page, output);
    say_places(figures, page, output);
    say_axes(figures, page, output);
    say_origins(&figures.dump.places, page, output);
}

/// Writes a machine file of version 3 with these figures. After a fault a prefix of it is written, and
/// the sink has counted the failure.
pub fn write_written_file<W: Sink>(figures: &Figures, sink: &mut W) -> Result<(), WriteFault>
    ensures ok { OnOk result
        (Appends (W.written sink.old) (W.written sink.new) (spec.written_text figures.now)) }
    ensures fault { OnErr result (AppendsPrefix (W.written sink.old) (W.written sink.new)
        (spec.written_text figures.now)) }
    ensures counts { CountsFailure (W.failures sink.old) (W.failures sink.new) result }
{
    let mut page = Page::new();
    say_file(figures, &mut page, sink);
    page.finish(sink)
}
