use crate::clearing::Clearing;
use crate::margins::Axis;
use crate::nearest::Nearest;
use crate::scene::{Obstacle, Scene};
use crate::travel::AxisSpace;
use crate::uses::ToolUse;
use crate::warnings::Warning;
use ngc_machine_files::Name;

/// The extent of a program along an axis, in nanometres, and the margins there.
#[derive(Clone, Copy)]
pub struct Along {
    pub axis: Axis,
    pub low: i64,
    pub high: i64,
    pub room: AxisSpace,
}

/// A line of a report.
#[derive(Clone, Copy)]
pub enum Line {
    /// Every position is inside the travel and clear of every fixture. On the motions of the
    /// warning, if there is one, no tool is mounted, so that only the spindle nose was tested. The
    /// flag says whether the machine file describes a fixture.
    Fits(Option<Warning>, bool),
    /// A motion, a tool change or the start isn't clear.
    Refused,
    /// The extent along an axis.
    Along(Along),
    /// The use of a tool.
    Use(ToolUse),
    /// The nearest fixture, with its name.
    Near(Option<Nearest>, Name),
    /// The start, which is refused.
    Start(Scene),
    /// The command that is refused, by its index from 0.
    Command(usize, Scene),
    /// The obstacle.
    InTheWay(Option<Obstacle>),
    /// How far the command must move to be clear of the obstacle, if there is one.
    Clear(Option<Clearing>),
    /// A warning about a program that passes.
    Warned(Warning),
}
