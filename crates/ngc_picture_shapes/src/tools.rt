ghost use Rattle.std.specs.Prelude.{◌≡◌, IfOk, length};
ghost use Rattle.ngc_picture_shapes.specs.Tools.{number_of, name_of, rank_of, with_tool, mounted, used_by, used};

use ngc_commands::{Action, Command};
use ngc_machine_files::{Name, Tool};
use std::alloc::{AllocError, Allocator};

/// Returns the number of a tool; no tool is 0.
pub fn number_of(tool: &Option<Tool>) -> u32
    ensures { result ≡ number_of tool.now }
{
    match tool {
        None => 0,
        Some(tool) => tool.number,
    }
}

/// Returns the name of a tool; no tool has none.
pub fn name_of(tool: &Option<Tool>) -> Name
    ensures { result ≡ name_of tool.now }
{
    match tool {
        None => Name::none(),
        Some(tool) => tool.name,
    }
}

/// Returns the index of the first tool with a number in a list, or the list's length.
pub fn rank_of(tools: &[Option<Tool>], number: u32) -> usize
    ensures { result ≡ rank_of tools.now number }
{
    for (i, tool) in tools.iter().enumerate() {
        if number_of(tool) == number {
            return i;
        }
    }
    tools.len()
}

/// Returns the tool that is mounted after an action.
pub(crate) fn mounted(tool: &Option<Tool>, action: &Action) -> Option<Tool>
    ensures { result ≡ mounted tool.now action.now }
{
    match action {
        Action::Mount(other) => *other,
        _ => *tool,
    }
}

fn add_tool<A: Allocator>(
    tools: &mut Vec<Option<Tool>, A>,
    tool: &Option<Tool>,
) -> Result<(), AllocError>
    ensures { IfOk result (λ _. tools.new.items ≡ with_tool tools.old.items tool.now) }
{
    if rank_of(tools.as_slice(), number_of(tool)) < tools.len() {
        return Ok(());
    }
    match tools.push(*tool) {
        Ok(()) => Ok(()),
        Err(_) => Err(AllocError),
    }
}

fn add_used<A: Allocator>(
    tools: &mut Vec<Option<Tool>, A>,
    tool: &Option<Tool>,
    action: &Action,
) -> Result<(), AllocError>
    ensures { IfOk result (λ _. tools.new.items ≡ used_by tools.old.items tool.now action.now) }
{
    match action {
        Action::Move(_) => add_tool(tools, tool),
        _ => Ok(()),
    }
}

/// Returns the tools that motions use, each once, in the order of their first motions. It fails
/// where memory is refused.
pub fn used<A: Allocator>(
    alloc: A,
    commands: &[Command],
) -> Result<Vec<Option<Tool>, A>, AllocError>
    ensures { IfOk result (λ v. v.items ≡ used commands.now) }
{
    let mut tools = Vec::new(alloc);
    let mut tool = None;
    for command in commands {
        match add_used(&mut tools, &tool, &command.action) {
            Ok(()) => {}
            Err(refused) => return Err(refused),
        }
        tool = mounted(&tool, &command.action);
    }
    Ok(tools)
}
