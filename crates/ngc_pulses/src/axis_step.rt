ghost use Rattle.std.specs.Prelude.{◌≡◌, ◌-ℤ◌};
ghost use Rattle.ngc_pulses.specs.Dumping.{step_between};
ghost use Rattle.ngc_pulses.specs.Vcd.{axis_step, directions_after, steps_of};

use ngc_fixed_length::StepPos;

/// The effect of a tick on an axis.
#[derive(Clone, Copy)]
pub(crate) struct AxisStep {
    /// Whether it moves a step.
    pub(crate) steps: bool,
    /// Whether its direction changes.
    pub(crate) turns: bool,
    /// Whether its direction is up.
    pub(crate) up: bool,
}

/// The axes whose directions are up.
#[derive(Clone, Copy, Drop)]
pub(crate) struct Directions {
    pub(crate) x: bool,
    pub(crate) y: bool,
    pub(crate) z: bool,
}

/// The effect of a tick on the axes.
#[derive(Clone, Copy)]
pub(crate) struct Steps {
    pub(crate) x: AxisStep,
    pub(crate) y: AxisStep,
    pub(crate) z: AxisStep,
}

impl AxisStep {
    // Returns the effect of moving from a coordinate to another, with the direction that was set
    // before.
    fn between(from: i32, to: i32, up: bool) -> AxisStep
        ensures { result ≡ axis_step up (to -ℤ from) }
    {
        if to > from {
            AxisStep {
                steps: true,
                turns: !up,
                up: true,
            }
        } else if to < from {
            AxisStep {
                steps: true,
                turns: up,
                up: false,
            }
        } else {
            AxisStep {
                steps: false,
                turns: false,
                up,
            }
        }
    }
}

impl Steps {
    /// Returns the effect of moving from a position to another, with the directions that were set
    /// before.
    pub(crate) fn between(from: &StepPos, to: &StepPos, directions: &Directions) -> Steps
        ensures { result ≡ steps_of directions.now (step_between from.now to.now) }
    {
        Steps {
            x: AxisStep::between(from.x, to.x, directions.x),
            y: AxisStep::between(from.y, to.y, directions.y),
            z: AxisStep::between(from.z, to.z, directions.z),
        }
    }

    /// Returns the directions that are set afterwards.
    pub(crate) fn directions(&self) -> Directions
        ensures { result ≡ directions_after self.now }
    {
        Directions {
            x: self.x.up,
            y: self.y.up,
            z: self.z.up,
        }
    }
}
