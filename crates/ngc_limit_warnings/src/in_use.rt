//! The state between two commands, as far as the limits of tools need it.
ghost use Rattle.std.specs.Prelude.{◌≡◌};
ghost use Rattle.ngc_limit_warnings.specs.Uses.{beginning, limits_with, next};

use ngc_commands::{Action, SpindleState};
use ngc_file_figures::{ToolLimits, limits_of};
use ngc_machine_files::Tool;

/// The state between two commands.
#[derive(Clone, Copy)]
pub struct InUse {
    /// What the table says of the mounted tool besides its body.
    pub limits: Option<ToolLimits>,
    pub spindle: SpindleState,
}

fn limits_with(table: &[ToolLimits], tool: &Option<Tool>) -> Option<ToolLimits>
    ensures { result ≡ limits_with table.now tool.now }
{
    match tool {
        Some(tool) => limits_of(tool.number, table),
        None => None,
    }
}

impl InUse {
    /// Returns the state before the first command: no tool is mounted.
    pub(crate) fn at_start() -> InUse
        ensures { result ≡ beginning }
    {
        InUse {
            limits: None,
            spindle: SpindleState::Off,
        }
    }

    /// Returns the state after an action.
    pub(crate) fn after(&self, table: &[ToolLimits], action: &Action) -> InUse
        ensures { result ≡ next table.now self.now action.now }
    {
        match action {
            Action::Mount(tool) => InUse {
                limits: limits_with(table, tool),
                spindle: SpindleState::Off,
            },
            Action::Spindle(spindle) => InUse {
                spindle: *spindle,
                ..*self
            },
            _ => *self,
        }
    }
}
