//! The end of actions without travel, and their effects.
ghost use Rattle.std.specs.Prelude.{◌≡◌, ◌≤◌, ◌+◌, ◌-◌, suc, nat_lt, true, Option};
ghost use Rattle.ngc_machine_model.specs.State.{Job, State};
ghost use Rattle.ngc_machine_model.specs.Step.{ticks_of, ending};
ghost use Rattle.ngc_controller.specs.Fields.{DWELL_LIMIT, panel_after, tool_after};

use crate::panel::Panel;
use ngc_commands::Action;
use ngc_events::Ending;
use ngc_machine_files::Tool;

/// Returns whether an action takes more than `dwelt + 1` ticks.
pub fn dwells_on(action: &Action, dwelt: u128, ticks_per_second: u32) -> bool
    requires { dwelt ≤ DWELL_LIMIT }
    ensures value { (job : Job) → job.machine.ticks_per_second ≡ ticks_per_second →
        result ≡ nat_lt (suc dwelt) (ticks_of job action.now) }
    ensures brief { result ≡ true → dwelt + 1 ≤ DWELL_LIMIT }
{
    match action {
        // In millionths of a tick.
        Action::Dwell(millionths) => {
            (dwelt + 1) * 1_000_000 < u128::from(*millionths) * u128::from(ticks_per_second)
        }
        _ => false,
    }
}

/// Returns how many ticks an action still dwells after `dwelt` ticks, before the one in which it
/// ends.
pub fn dwell_left(action: &Action, dwelt: u128, ticks_per_second: u32) -> u128
    requires { dwelt ≤ DWELL_LIMIT }
    ensures value { (job : Job) → job.machine.ticks_per_second ≡ ticks_per_second →
        result ≡ ticks_of job action.now - suc dwelt }
    ensures brief { dwelt + result ≤ DWELL_LIMIT }
{
    match action {
        // In millionths of a tick.
        Action::Dwell(millionths) => {
            let whole = u128::from(*millionths) * u128::from(ticks_per_second);
            (whole.saturating_sub(1) / 1_000_000).saturating_sub(dwelt)
        }
        _ => 0,
    }
}

/// Returns how a command with an action ends, from its index and the panel's stop switch.
pub fn ending_of(action: &Action, index: u32, stop_switch: bool) -> Ending
    ensures { (s : State) → s.done ≡ index → s.stop_switch ≡ stop_switch →
        result ≡ ending action.now s }
{
    match action {
        Action::Stop => Ending::Stopped(index),
        Action::OptionalStop => {
            if stop_switch {
                Ending::Stopped(index)
            } else {
                Ending::Done(index)
            }
        }
        Action::End => Ending::End,
        _ => Ending::Done(index),
    }
}

/// Returns the panel after an action.
pub fn panel_after(action: &Action, panel: Panel) -> Panel
    ensures { result ≡ panel_after action.now panel }
{
    match action {
        Action::Override(on) => Panel {
            overrides: *on,
            ..panel
        },
        Action::Stop => Panel {
            stopped: true,
            ..panel
        },
        Action::OptionalStop => Panel {
            stopped: panel.stop_switch,
            ..panel
        },
        _ => panel,
    }
}

/// Returns the tool that is mounted after an action.
pub fn tool_after(action: &Action, mounted: Option<Tool>) -> Option<Tool>
    ensures { result ≡ tool_after action.now mounted }
{
    match action {
        Action::Mount(tool) => *tool,
        _ => mounted,
    }
}
