//! The motion that a report is about, in the program's coordinates.
ghost use Rattle.std.specs.Prelude.{◌≡◌};
ghost use Rattle.ngc_certificate_text.specs.Collects.{Collects};
ghost use Rattle.ngc_collision.specs.Inside.{place_of};
ghost use Rattle.ngc_commands.specs.Movement.{start_of};
ghost use Rattle.ngc_text.specs.Failures.{CountsFailure};
ghost use Rattle.ngc_program_report.specs.Coordinates.{coordinates_text, motion_text, refused_path};
ghost use Rattle.ngc_program_report.specs.Coordinates.{way_of};
ghost use Rattle.ngc_program_report.specs.Writing.{Writes};

use ngc_collision::Place;
use ngc_commands::{Action, Command, Way};
use ngc_fixed_length::Point3;
use ngc_frames::{FrameInForce, collect_motion_fact, collect_motion_words, program_point};
use ngc_origins::Origins;
use ngc_report::Form;
use ngc_text::{Chunk, Sink, WriteFault};

fn start_of(way: &Way) -> Point3
    ensures { result ≡ start_of way.now }
{
    match way {
        Way::Line { start, .. } => *start,
        Way::Arc(arc) => arc.start(),
    }
}

fn way_of(action: &Action) -> Option<Way>
    ensures { result ≡ way_of action.now }
{
    match action {
        Action::Move(motion) => Some(motion.way),
        _ => None,
    }
}

/// Returns the path of the reported command, or `None` if it isn't a motion.
pub(crate) fn refused_path(commands: &[Command], told: Option<usize>) -> Option<Way>
    ensures { result ≡ refused_path commands.now told }
{
    match told {
        None => None,
        Some(command) => match commands.get(command) {
            None => None,
            Some(command) => way_of(&command.action),
        },
    }
}

#[tactic(auto, unfolding(crate::specs::Coordinates::motion_text))]
fn collect_motion<W: Sink>(
    chunk: &mut Chunk,
    form: Form,
    given: bool,
    frame: &FrameInForce,
    from: &Place,
    to: &Place,
    output: &mut W,
) -> Result<(), WriteFault>
    ensures text { Collects (W.written output.old) (W.written output.new) chunk.old chunk.new result
        (motion_text form given frame.now (place_of from.now) (place_of to.now)) }
    ensures counts { CountsFailure (W.failures output.old) (W.failures output.new) result }
{
    match form {
        Form::Words => collect_motion_words(chunk, given, frame, from, to, output),
        Form::Json => collect_motion_fact(chunk, frame, from, to, output),
    }
}

/// Adds where a path begins and ends in the program's coordinates, and which coordinates these are.
/// Without a path, nothing is added.
#[tactic(auto, unfolding(crate::specs::Coordinates::coordinates_text))]
pub(crate) fn collect_coordinates<W: Sink>(
    chunk: &mut Chunk,
    form: Form,
    origins: &Origins,
    frame: &FrameInForce,
    way: &Option<Way>,
    output: &mut W,
) -> Result<(), WriteFault>
    ensures text { Collects (W.written output.old) (W.written output.new) chunk.old chunk.new result
        (coordinates_text form origins.now frame.now way.now) }
    ensures counts { CountsFailure (W.failures output.old) (W.failures output.new) result }
{
    match way {
        None => Ok(()),
        Some(way) => {
            let from = program_point(&start_of(way), &frame.frame);
            let to = program_point(&way.end(), &frame.frame);
            let given = origins.replaces(frame.frame.system());
            collect_motion(chunk, form, given, frame, &from, &to, output)
        }
    }
}

/// Writes where a path begins and ends in the program's coordinates, and which coordinates these
/// are. Without a path, nothing is written.
pub(crate) fn write_coordinates<W: Sink>(
    form: Form,
    origins: &Origins,
    frame: &FrameInForce,
    way: &Option<Way>,
    output: &mut W,
) -> Result<(), WriteFault>
    ensures { Writes (W.written output.old) (W.written output.new) (W.failures output.old)
        (W.failures output.new) result (coordinates_text form origins.now frame.now way.now) }
{
    let mut chunk = Chunk::new();
    match collect_coordinates(&mut chunk, form, origins, frame, way, output) {
        Ok(()) => chunk.write_out(output),
        Err(fault) => Err(fault),
    }
}
