ghost use Rattle.std.specs.Prelude.{◌≡◌, ◌+◌, ◌≤◌, ◌++◌, length, OnOk, OnErr};
ghost use Rattle.std.specs.Io.KnownBytes.{Appends};
ghost use Rattle.ngc_text.specs.Failures.{CountsFailure};
ghost use Rattle.ngc_fixed_length.specs.Length.{IsStep};
ghost use Rattle.ngc_text.specs.Written.{AppendsPrefix};
ghost use Rattle.ngc_text.specs.Collected.{CHUNK_SIZE, HasSpaceForLine};
ghost use Rattle.ngc_commands.specs.Movement.{end_of};
ghost use Rattle.ngc_listing.specs.Listing.{end_text, feed_text, turn_text, plane_text, arc_text};
ghost use Rattle.ngc_listing.specs.Listing.{spindle_text, coolant_text, number_of_tool};
ghost use Rattle.ngc_listing.specs.Listing.{switch_text, way_text, pace_text, act_text};
ghost use Rattle.ngc_listing.specs.Listing.{listing_line, listing};

use ngc_arc_geometry::Arc;
use ngc_commands::{Action, Command, CoolantState, Feed, Motion, Pace, SpindleState, Way};
use ngc_fixed_length::{Nm, Plane, Point3, Turn};
use ngc_machine_files::Tool;
use ngc_text::{Chunk, Sink, WriteFault};

fn add_end(chunk: &mut Chunk, step: Nm, end: &Point3)
    requires room { length chunk.old + 250 ≤ CHUNK_SIZE }
    requires step { IsStep step }
    ensures text { chunk.new ≡ chunk.old ++ end_text step end.now }
    ensures short { length chunk.new ≤ length chunk.old + 250 }
{
    let point = end.to_grid(step);
    chunk.add_three(end.x.nanometres(), end.y.nanometres(), end.z.nanometres());
    chunk.add_text(b" grid ");
    chunk.add_three(point.x, point.y, point.z);
}

fn add_feed(chunk: &mut Chunk, feed: &Feed)
    requires { length chunk.old + 50 ≤ CHUNK_SIZE }
    ensures text { chunk.new ≡ chunk.old ++ feed_text feed.now }
    ensures short { length chunk.new ≤ length chunk.old + 49 }
{
    match feed {
        Feed::PerMinute(nanometres) => {
            chunk.add_text(b" permin ");
            chunk.add_number(*nanometres);
        }
        Feed::Inverse(millionths) => {
            chunk.add_text(b" inverse ");
            chunk.add_number(*millionths);
        }
    }
}

fn turn_word(turn: Turn) -> &'static [u8]
    ensures text { result.now ≡ turn_text turn }
    ensures short { length result.now ≤ 3 }
{
    match turn {
        Turn::Clockwise => b"cw",
        Turn::Counterclockwise => b"ccw",
    }
}

fn plane_word(plane: Plane) -> &'static [u8]
    ensures text { result.now ≡ plane_text plane }
    ensures short { length result.now ≤ 2 }
{
    match plane {
        Plane::XY => b"xy",
        Plane::ZX => b"zx",
        Plane::YZ => b"yz",
    }
}

fn add_arc(chunk: &mut Chunk, arc: &Arc)
    requires { length chunk.old + 100 ≤ CHUNK_SIZE }
    ensures text { chunk.new ≡ chunk.old ++ arc_text arc.now }
    ensures short { length chunk.new ≤ length chunk.old + 90 }
{
    let centre = arc.centre();
    chunk.add_text(turn_word(arc.turn()));
    chunk.add_text(b" ");
    chunk.add_text(plane_word(arc.plane()));
    chunk.add_text(b" ");
    chunk.add_number(centre.u.nanometres());
    chunk.add_text(b" ");
    chunk.add_number(centre.v.nanometres());
}

fn add_spindle(chunk: &mut Chunk, state: &SpindleState)
    requires { length chunk.old + 60 ≤ CHUNK_SIZE }
    ensures text { chunk.new ≡ chunk.old ++ spindle_text state.now }
    ensures short { length chunk.new ≤ length chunk.old + 44 }
{
    match state {
        SpindleState::Off => chunk.add_text(b"off"),
        SpindleState::Turning(turn, speed) => {
            chunk.add_text(turn_word(*turn));
            chunk.add_text(b" ");
            chunk.add_number(*speed);
        }
    }
}

fn coolant_word(state: CoolantState) -> &'static [u8]
    ensures text { result.now ≡ coolant_text state }
    ensures short { length result.now ≤ 5 }
{
    match state {
        CoolantState::Off => b"off",
        CoolantState::Mist => b"mist",
        CoolantState::Flood => b"flood",
        CoolantState::Both => b"both",
    }
}

fn tool_number(tool: &Option<Tool>) -> u32
    ensures { result ≡ number_of_tool tool.now }
{
    match tool {
        None => 0,
        Some(tool) => tool.number,
    }
}

fn switch_word(on: bool) -> &'static [u8]
    ensures text { result.now ≡ switch_text on }
    ensures short { length result.now ≤ 3 }
{
    if on { b"on" } else { b"off" }
}

// Adds the text before the end of a motion.
fn add_way(chunk: &mut Chunk, way: &Way, pace: &Pace)
    requires { length chunk.old + 110 ≤ CHUNK_SIZE }
    ensures text { chunk.new ≡ chunk.old ++ way_text way.now pace.now }
    ensures short { length chunk.new ≤ length chunk.old + 100 }
{
    match (way, pace) {
        (Way::Line { .. }, Pace::Rapid) => chunk.add_text(b" traverse "),
        (Way::Line { .. }, Pace::Feed(_)) => chunk.add_text(b" feed "),
        (Way::Arc(arc), _) => {
            chunk.add_text(b" arc ");
            add_arc(chunk, arc);
            chunk.add_text(b" to ");
        }
    }
}

// Adds the text after the end of a motion.
fn add_pace(chunk: &mut Chunk, pace: &Pace)
    requires { length chunk.old + 50 ≤ CHUNK_SIZE }
    ensures text { chunk.new ≡ chunk.old ++ pace_text pace.now }
    ensures short { length chunk.new ≤ length chunk.old + 49 }
{
    match pace {
        Pace::Rapid => {}
        Pace::Feed(feed) => add_feed(chunk, feed),
    }
}

fn add_motion(chunk: &mut Chunk, step: Nm, motion: &Motion)
    requires room { length chunk.old + 420 ≤ CHUNK_SIZE }
    requires step { IsStep step }
    ensures text { chunk.new ≡ chunk.old
        ++ (way_text motion.now.way motion.now.pace ++ end_text step (end_of motion.now.way)
        ++ pace_text motion.now.pace) }
    ensures short { length chunk.new ≤ length chunk.old + 410 }
{
    add_way(chunk, &motion.way, &motion.pace);
    add_end(chunk, step, &motion.way.end());
    add_pace(chunk, &motion.pace);
}

// Adds the text of a command's action.
fn add_act(chunk: &mut Chunk, step: Nm, action: &Action)
    requires room { length chunk.old + 420 ≤ CHUNK_SIZE }
    requires step { IsStep step }
    ensures text { chunk.new ≡ chunk.old ++ act_text step action.now }
    ensures short { length chunk.new ≤ length chunk.old + 410 }
{
    match action {
        Action::Move(motion) => add_motion(chunk, step, motion),
        Action::Dwell(millionths) => {
            chunk.add_text(b" dwell ");
            chunk.add_number(*millionths);
        }
        Action::Mount(tool) => {
            chunk.add_text(b" tool ");
            chunk.add_number(tool_number(tool));
        }
        Action::Spindle(state) => {
            chunk.add_text(b" spindle ");
            add_spindle(chunk, state);
        }
        Action::Coolant(state) => {
            chunk.add_text(b" coolant ");
            chunk.add_text(coolant_word(*state));
        }
        Action::Override(on) => {
            chunk.add_text(b" override ");
            chunk.add_text(switch_word(*on));
        }
        Action::Stop => chunk.add_text(b" stop"),
        Action::OptionalStop => chunk.add_text(b" optional stop"),
        Action::End => chunk.add_text(b" end"),
    }
}

fn add_line(chunk: &mut Chunk, step: Nm, index: usize, command: &Command)
    requires room { HasSpaceForLine chunk.old }
    requires step { IsStep step }
    ensures { chunk.new ≡ chunk.old ++ listing_line step index command.now }
{
    chunk.add_number(index);
    chunk.add_text(b" ");
    chunk.add_number(command.line);
    add_act(chunk, step, &command.action);
    chunk.add_text(b"\n");
}

/// Writes the listing of commands: a line for each, with its index from 0, its line in the program,
/// and the ideal end in nanometres with its grid point in steps of 500 to 50,000 nm.
///
/// After a fault (902, only if the sink failed) a prefix of the listing is written.
pub fn write_list<W: Sink>(commands: &[Command], step: Nm, sink: &mut W) -> Result<(), WriteFault>
    requires { IsStep step }
    ensures ok { OnOk result
        (Appends (W.written sink.old) (W.written sink.new) (listing step commands.now)) }
    ensures fault { OnErr result
        (AppendsPrefix (W.written sink.old) (W.written sink.new) (listing step commands.now)) }
    ensures counts { CountsFailure (W.failures sink.old) (W.failures sink.new) result }
{
    let mut chunk = Chunk::new();
    for (index, command) in commands.iter().enumerate() {
        match chunk.make_space(sink) {
            Ok(()) => {}
            Err(fault) => return Err(fault),
        }
        add_line(&mut chunk, step, index, command);
    }
    chunk.write_out(sink)
}
