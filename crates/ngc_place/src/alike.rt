//! Whether parts of two commands are the same.
ghost use Rattle.std.specs.Prelude.{◌≡◌, ◌≢◌, true, false};
ghost use Rattle.ngc_commands.specs.declared.command.Action.TheVariants as actions;

use ngc_arc_geometry::Arc;
use ngc_commands::{Action, CoolantState, SpindleState};
use ngc_machine_files::{Name, Part, Tool};

pub(crate) fn same_arc(a: &Arc, b: &Arc) -> bool
    ensures yes { result ≡ true → a.now ≡ b.now }
    ensures no { result ≡ false → a.now ≢ b.now }
{
    a == b
}

fn same_name(a: &Name, b: &Name) -> bool
    ensures yes { result ≡ true → a.now ≡ b.now }
    ensures no { result ≡ false → a.now ≢ b.now }
{
    a.as_bytes() == b.as_bytes()
}

fn same_part(a: &Part, b: &Part) -> bool
    ensures yes { result ≡ true → a.now ≡ b.now }
    ensures no { result ≡ false → a.now ≢ b.now }
{
    a.length.nanometres() == b.length.nanometres() && a.radius.nanometres() == b.radius.nanometres()
}

fn same_parts(a: &[Part], b: &[Part]) -> bool
    ensures yes { result ≡ true → a.now ≡ b.now }
    ensures no { result ≡ false → a.now ≢ b.now }
{
    if a.len() != b.len() {
        return false;
    }
    for i in 0..a.len() {
        if !same_part(&a[i], &b[i]) {
            return false;
        }
    }
    true
}

fn same_tool(a: &Tool, b: &Tool) -> bool
    ensures yes { result ≡ true → a.now ≡ b.now }
    ensures no { result ≡ false → a.now ≢ b.now }
{
    a.number == b.number
        && a.offset.nanometres() == b.offset.nanometres()
        && a.bottom.nanometres() == b.bottom.nanometres()
        && same_parts(a.parts.as_slice(), b.parts.as_slice())
        && same_name(&a.name, &b.name)
}

fn same_mounted(a: &Option<Tool>, b: &Option<Tool>) -> bool
    ensures yes { result ≡ true → a.now ≡ b.now }
    ensures no { result ≡ false → a.now ≢ b.now }
{
    match a {
        None => b.is_none(),
        Some(a) => match b {
            None => false,
            Some(b) => same_tool(a, b),
        },
    }
}

/// Returns whether an action mounts this tool, or none.
pub(crate) fn mounts(tool: &Option<Tool>, action: &Action) -> bool
    ensures yes { result ≡ true → actions.Mount tool.now ≡ action.now }
    ensures no { result ≡ false → actions.Mount tool.now ≢ action.now }
{
    match action {
        Action::Mount(other) => same_mounted(tool, other),
        _ => false,
    }
}

fn same_spindle(a: &SpindleState, b: &SpindleState) -> bool
    ensures yes { result ≡ true → a.now ≡ b.now }
    ensures no { result ≡ false → a.now ≢ b.now }
{
    a == b
}

/// Returns whether an action sets the spindle to this state.
pub(crate) fn sets_spindle(state: &SpindleState, action: &Action) -> bool
    ensures yes { result ≡ true → actions.Spindle state.now ≡ action.now }
    ensures no { result ≡ false → actions.Spindle state.now ≢ action.now }
{
    match action {
        Action::Spindle(other) => same_spindle(state, other),
        _ => false,
    }
}

fn same_coolant(a: &CoolantState, b: &CoolantState) -> bool
    ensures yes { result ≡ true → a.now ≡ b.now }
    ensures no { result ≡ false → a.now ≢ b.now }
{
    a == b
}

/// Returns whether an action sets the coolants to this state.
pub(crate) fn sets_coolant(state: &CoolantState, action: &Action) -> bool
    ensures yes { result ≡ true → actions.Coolant state.now ≡ action.now }
    ensures no { result ≡ false → actions.Coolant state.now ≢ action.now }
{
    match action {
        Action::Coolant(other) => same_coolant(state, other),
        _ => false,
    }
}
