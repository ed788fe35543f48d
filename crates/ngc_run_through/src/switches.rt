//! What the commands of a program switch.
ghost use Rattle.std.specs.Prelude.{◌≡◌, IfErr, IfOk};
ghost use Rattle.ngc_run_through.specs.Switching.{AreSwitches, switch_by, switch_in, switches};

use crate::report::RunFault;
use crate::trace::Form;
use ngc_commands::{Action, Command, CoolantState, SpindleState};
use ngc_events::Ending;
use ngc_pulses::Switch;
use std::alloc::Allocator;

/// What each command of a program switches when it ends.
#[derive(Clone, Copy, Drop)]
pub struct Switches<'s> {
    /// One switch for each command, or none where the form doesn't write them.
    pub list: &'s [Switch],
}

fn switch_by(action: &Action) -> Switch
    ensures { result ≡ switch_by action.now }
{
    match action {
        Action::Spindle(SpindleState::Turning(_, _)) => Switch::Spindle(true),
        Action::Spindle(SpindleState::Off) | Action::Mount(_) => Switch::Spindle(false),
        Action::Coolant(CoolantState::Off) => Switch::Coolant(false),
        Action::Coolant(_) => Switch::Coolant(true),
        Action::End => Switch::AllOff,
        Action::Move(_)
        | Action::Dwell(_)
        | Action::Override(_)
        | Action::Stop
        | Action::OptionalStop => Switch::Nothing,
    }
}

fn switches_of<A: Allocator + Copy>(
    alloc: A,
    commands: &[Command],
) -> Result<Vec<Switch, A>, RunFault>
    ensures are { IfOk result (λ list. list.items ≡ switches commands.now) }
    ensures memory { IfErr result (λ fault. fault ≡ RunFault.Memory) }
{
    let mut list = Vec::new(alloc);
    for command in commands {
        match list.push(switch_by(&command.action)) {
            Ok(()) => {}
            Err(_) => return Err(RunFault::Memory),
        }
    }
    Ok(list)
}

/// Returns what the commands switch, if the form writes that. Too little memory is the only fault.
pub fn switches_for<A: Allocator + Copy>(
    alloc: A,
    form: Form,
    commands: &[Command],
) -> Result<Vec<Switch, A>, RunFault>
    ensures are { IfOk result (λ list. AreSwitches form commands.now list.items) }
    ensures memory { IfErr result (λ fault. fault ≡ RunFault.Memory) }
{
    match form {
        Form::Log | Form::Times | Form::Pulses => Ok(Vec::new(alloc)),
        Form::Samples(_) => switches_of(alloc, commands),
    }
}

impl<'s> Switches<'s> {
    /// Returns what is switched in a tick in which a command has this ending, or none ends.
    pub(crate) fn by(&self, ending: &Option<Ending>) -> Switch
        ensures { result ≡ switch_in self.now.list.now ending.now }
    {
        match ending {
            Some(Ending::Done(command)) => match self.list.get(*command as usize) {
                Some(switch) => *switch,
                None => Switch::Nothing,
            },
            Some(Ending::Stopped(_)) | None => Switch::Nothing,
            Some(Ending::End) => Switch::AllOff,
        }
    }
}
