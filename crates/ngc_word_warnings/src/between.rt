ghost use Rattle.std.specs.Prelude.{◌≡◌, None};
ghost use Rattle.ngc_word_warnings.specs.Slips.{step_of_kind};
ghost use Rattle.ngc_word_warnings.specs.declared.slip.Kind.{Kind};

use crate::offset::Offset;
use crate::slip::LineSlips;
use ngc_commands::Reached;

/// The state between two lines of a program.
#[derive(Clone, Copy)]
pub struct Between {
    /// The number of commands in the lines before.
    pub count: usize,
    /// The tool and the position after these commands.
    pub reached: Reached,
    /// The length offset in force.
    pub offset: Offset,
}

/// The mistakes in a line, and the state after it.
#[derive(Clone, Copy)]
pub struct Step {
    pub slips: LineSlips,
    pub between: Between,
}

impl Step {
    /// Returns the step of a line that isn't executed.
    pub(crate) fn nothing(before: &Between) -> Step
        ensures slips { (kind : Kind) →
            step_of_kind kind result ≡ record { slip = None; between = before.now } }
        ensures between { result.between ≡ before.now }
    {
        let slips = LineSlips {
            unmounted: None,
            other_offset: None,
            no_offset: None,
            stale_offset: None,
            part_home: None,
        };
        Step {
            slips,
            between: *before,
        }
    }
}
