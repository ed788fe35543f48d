//! The execution of each effect.
ghost use Rattle.std.specs.Prelude.{◌≡◌};
ghost use Rattle.ngc_canonical.specs.Interpreter.{setup_of, state_of, Becomes};
ghost use Rattle.ngc_canonical.specs.Perform.{with_motion, stop as stopped, perform as performed};
ghost use Rattle.ngc_canonical.specs.Perform.{run as run_through};

use crate::state::{Interpreter, LineRefusal};
use ngc_commands::Action;
use ngc_machine_files::{Machine, Tools};
use ngc_modal_state::{Effect, MotionMode, Stopping};
use std::alloc::Allocator;

impl<A: Allocator + Copy> Interpreter<A> {
    // Sets the motion mode. A code that is not a cycle ends the series of cycles.
    fn set_motion(&mut self, motion: MotionMode)
        ensures { state_of self.new ≡ with_motion motion (state_of self.old) }
    {
        self.modes.motion = motion;
        if !matches!(motion, MotionMode::Cycle(_)) {
            self.series = None;
        }
    }

    fn stop(&mut self, stopping: Stopping) -> Result<(), LineRefusal>
        ensures { Becomes result (state_of self.new) (stopped stopping (state_of self.old)) }
    {
        match stopping {
            Stopping::Stop => self.emit(Action::Stop),
            Stopping::OptionalStop => self.emit(Action::OptionalStop),
            Stopping::End => match self.emit(Action::End) {
                Ok(()) => {
                    self.ended = true;
                    Ok(())
                }
                Err(refusal) => Err(refusal),
            },
        }
    }

    // Inlined, since the result is large and is matched at once.
    #[inline(always)]
    fn perform(
        &mut self,
        machine: &Machine<A>,
        tools: &Tools<A>,
        effect: &Effect,
    ) -> Result<(), LineRefusal>
        ensures { Becomes result (state_of self.new)
            (performed (setup_of machine.now tools.now) effect.now (state_of self.old)) }
    {
        match effect {
            Effect::FeedMode(mode) => self.modes.feed_mode = *mode,
            Effect::Feed { value, units } => self.feed = value.nanometres(*units).unsigned_abs(),
            Effect::Speed(value) => return self.set_speed(*value),
            Effect::SelectTool(number) => self.selected = *number,
            Effect::ChangeTool => return self.change_tool(tools),
            Effect::Spindle(code) => return self.set_spindle(*code),
            Effect::Coolant(code) => return self.set_coolant(*code),
            Effect::Override(on) => return self.emit(Action::Override(*on)),
            Effect::Dwell(value) => {
                let millionths = value.millionths().unsigned_abs();
                return self.emit(Action::Dwell(millionths));
            }
            Effect::Plane(plane) => self.set_plane(*plane),
            Effect::Units(units) => self.modes.units = *units,
            Effect::CutterCompensationOff => {}
            Effect::ToolLength(h) => return self.set_length(tools, *h),
            Effect::System(system) => self.select(*system),
            Effect::Path(path) => self.modes.path = *path,
            Effect::Distance(distance) => self.modes.distance = *distance,
            Effect::Return(mode) => self.modes.return_mode = *mode,
            Effect::GoHome { home, axes } => return self.go_home(machine, *home, axes),
            Effect::SetOrigin { system, axes } => return self.set_origin(*system, axes),
            Effect::SetOffset(words) => return self.set_offset(words),
            Effect::ClearOffset => self.clear_offset(),
            Effect::SuspendOffset => self.suspend_offset(),
            Effect::RestoreOffset => self.restore_offset(),
            Effect::Motion(motion) => self.set_motion(*motion),
            Effect::Traverse { machine, axes } => return self.traverse(*machine, axes),
            Effect::Straight {
                machine,
                axes,
                inverse,
            } => return self.straight(*machine, axes, *inverse),
            Effect::Cycle { hole, axes, words } => return self.cycle(*hole, axes, words),
            Effect::Arc {
                turn,
                axes,
                words,
                inverse,
            } => return self.arc(*turn, axes, words, *inverse),
            Effect::Stopping(stopping) => return self.stop(*stopping),
        }
        Ok(())
    }

    /// Performs effects in order.
    #[inline(never)]
    pub(crate) fn run(
        &mut self,
        machine: &Machine<A>,
        tools: &Tools<A>,
        effects: &[Effect],
    ) -> Result<(), LineRefusal>
        ensures { Becomes result (state_of self.new)
            (run_through (setup_of machine.now tools.now) effects.now (state_of self.old)) }
    {
        for effect in effects {
            match self.perform(machine, tools, effect) {
                Ok(()) => {}
                Err(refusal) => return Err(refusal),
            }
        }
        Ok(())
    }
}
