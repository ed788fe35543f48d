//! The holes that a program drills.
ghost use Rattle.std.specs.Prelude.{◌≡◌};
ghost use Rattle.ngc_text.specs.Failures.{CountsFailure};
ghost use Rattle.ngc_commands.specs.Movement.{start_of};
ghost use Rattle.ngc_picture_shapes.specs.Draws.{Draws};
ghost use Rattle.ngc_drawing.specs.Holes.{is_upright, is_feed, goes_down, begun, deepened, plunged};
ghost use Rattle.ngc_drawing.specs.Holes.{drilled, hole, ended, holes_from, holes};

use arrayvec::ArrayVec;
use ngc_commands::{Action, Command, Motion, Pace, Way};
use ngc_fixed_length::Point3;
use ngc_picture_shapes::{Eye, Mark, Shape, Unit, View, draw_all, start_of};
use ngc_text::{Chunk, Sink, WriteFault};

/// The lowest point of the spindle nose that feeds have gone straight down to since the axes last
/// moved aside, and whether they are above it now.
#[derive(Clone, Copy)]
pub(crate) struct Plunge {
    pub bottom: Point3,
    pub is_out: bool,
}

/// The state between two commands: where the tip of the mounted tool is seen, and the plunge, if
/// there is one.
#[derive(Clone, Copy)]
pub(crate) struct Drilling {
    pub eye: Eye,
    pub plunge: Option<Plunge>,
}

/// Returns whether a motion's path goes straight up or down.
fn is_upright(way: &Way) -> bool
    ensures { result ≡ is_upright way.now }
{
    match way {
        Way::Line { start, end } => start.x == end.x && start.y == end.y,
        Way::Arc(_) => false,
    }
}

fn is_feed(pace: &Pace) -> bool
    ensures { result ≡ is_feed pace.now }
{
    match pace {
        Pace::Rapid => false,
        Pace::Feed(_) => true,
    }
}

fn goes_down(motion: &Motion) -> bool
    ensures { result ≡ goes_down motion.now }
{
    is_feed(&motion.pace) && motion.way.end().z.nanometres() < start_of(&motion.way).z.nanometres()
}

impl Plunge {
    /// Returns the plunge that a motion straight up or down begins.
    fn begun(motion: &Motion) -> Option<Plunge>
        ensures { result ≡ begun motion.now }
    {
        if goes_down(motion) {
            Some(Plunge {
                bottom: motion.way.end(),
                is_out: false,
            })
        } else {
            None
        }
    }

    /// Returns the plunge after one more motion straight up or down.
    fn deepened(&self, motion: &Motion) -> Plunge
        ensures { result ≡ deepened motion.now self.now }
    {
        let end = motion.way.end();
        if goes_down(motion) && end.z.nanometres() < self.bottom.z.nanometres() {
            return Plunge {
                bottom: end,
                is_out: false,
            };
        }
        Plunge {
            bottom: self.bottom,
            is_out: self.bottom.z.nanometres() < end.z.nanometres(),
        }
    }
}

fn plunged(motion: &Motion, plunge: &Option<Plunge>) -> Option<Plunge>
    ensures { result ≡ plunged motion.now plunge.now }
{
    match plunge {
        None => Plunge::begun(motion),
        Some(plunge) => Some(plunge.deepened(motion)),
    }
}

fn hole(eye: &Eye, plunge: &Option<Plunge>) -> ArrayVec<Shape, 2>
    ensures { result.items ≡ hole eye.now plunge.now }
{
    let mut shapes = ArrayVec::new();
    if let Some(plunge) = plunge {
        if plunge.is_out {
            shapes.push(Shape::Mark(Mark::Hole, eye.spot(&plunge.bottom)));
        }
    }
    shapes
}

impl Drilling {
    /// Returns the state after an action.
    fn after(&self, action: &Action) -> Drilling
        ensures { result ≡ drilled self.now action.now }
    {
        match action {
            Action::Move(motion) => Drilling {
                eye: self.eye,
                plunge: if is_upright(&motion.way) {
                    plunged(motion, &self.plunge)
                } else {
                    None
                },
            },
            Action::Mount(tool) => Drilling {
                eye: Eye::of(self.eye.view, tool),
                plunge: None,
            },
            _ => *self,
        }
    }

    /// Returns the mark of the hole that an action ends.
    fn ended(&self, action: &Action) -> ArrayVec<Shape, 2>
        ensures { result.items ≡ ended self.now action.now }
    {
        match action {
            Action::Move(motion) if is_upright(&motion.way) => ArrayVec::new(),
            Action::Move(_) | Action::Mount(_) => hole(&self.eye, &self.plunge),
            _ => ArrayVec::new(),
        }
    }
}

/// Draws a mark for each hole that is drilled.
pub(crate) fn draw_holes<W: Sink>(
    chunk: &mut Chunk,
    unit: &Unit,
    view: View,
    commands: &[Command],
    sink: &mut W,
) -> Result<(), WriteFault>
    ensures drawn { Draws unit.now.micrometres (W.written sink.old)
        (W.written sink.new) chunk.old chunk.new result (holes view commands.now) }
    ensures counts { CountsFailure (W.failures sink.old) (W.failures sink.new) result }
{
    let mut drilling = Drilling {
        eye: Eye::of(view, &None),
        plunge: None,
    };
    for command in commands {
        let ended = drilling.ended(&command.action);
        match draw_all(chunk, unit, ended.as_slice(), sink) {
            Ok(()) => {}
            Err(fault) => return Err(fault),
        }
        drilling = drilling.after(&command.action);
    }
    let last = hole(&drilling.eye, &drilling.plunge);
    draw_all(chunk, unit, last.as_slice(), sink)
}
