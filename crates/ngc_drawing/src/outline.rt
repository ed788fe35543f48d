//! The tool at the end of a motion that is refused.
ghost use Rattle.std.specs.Prelude.{◌≡◌, ◌≤◌, ◌++◌, length, drop};
ghost use Rattle.ngc_machine_files.specs.Machine.{file_of};
ghost use Rattle.ngc_drawing.specs.Pictures.{tool_before, tool_box, standing};
ghost use Rattle.ngc_drawing.specs.Pictures.{outline, first_outline};
ghost use Rattle.ngc_collision.specs.Inside.{place_of};

use arrayvec::ArrayVec;
use ngc_collision::{Place, Solid};
use ngc_commands::{Action, Command, Reached};
use ngc_fixed_length::{GridBox, Point3};
use ngc_machine_files::{Machine, Tool};
use ngc_picture_shapes::{BoxKind, Shape, View, block};
use std::alloc::Allocator;

/// Returns the tool that is mounted at a command.
pub(crate) fn tool_before<A: Allocator>(
    machine: &Machine<A>,
    commands: &[Command],
    command: usize,
) -> Option<Tool>
    ensures { result ≡ tool_before (file_of machine.now) commands.now command }
{
    let before = &commands[..command.min(commands.len())];
    Reached::at_start(machine).after_all(before).tool
}

fn tool_box(view: View, low: &Place, high: &Place) -> Shape
    ensures { result ≡ tool_box view (place_of low.now) (place_of high.now) }
{
    match view {
        View::Iso => Shape::FaultBlock(block(low, high)),
        _ => Shape::Outline(BoxKind::FaultTool, view.around(low, high)),
    }
}

// Adds the boxes that a tool fills at a place.
fn add_tool_outline<A: Allocator>(
    shapes: &mut ArrayVec<Shape, 12>,
    view: View,
    machine: &Machine<A>,
    tool: &Option<Tool>,
    place: &Point3,
)
    requires { length shapes.old.items ≤ 4 }
    ensures { shapes.new.items ≡ shapes.old.items
        ++ standing view (file_of machine.now).step tool.now place.now }
{
    let point = place.to_grid(machine.step);
    let bounds = GridBox::only(point);
    for solid in Solid::swept(machine.step, *tool, &bounds).as_slice() {
        shapes.push(tool_box(view, &solid.low, &solid.high));
    }
}

fn add_outline<A: Allocator>(
    shapes: &mut ArrayVec<Shape, 12>,
    view: View,
    machine: &Machine<A>,
    tool: &Option<Tool>,
    action: &Action,
)
    requires { length shapes.old.items ≤ 4 }
    ensures { shapes.new.items ≡ shapes.old.items
        ++ outline view (file_of machine.now).step tool.now action.now }
{
    if let Action::Move(motion) = action {
        add_tool_outline(shapes, view, machine, tool, &motion.way.end());
    }
}

fn add_first<A: Allocator>(
    shapes: &mut ArrayVec<Shape, 12>,
    view: View,
    machine: &Machine<A>,
    tool: &Option<Tool>,
    commands: &[Command],
)
    requires { length shapes.old.items ≤ 4 }
    ensures { shapes.new.items ≡ shapes.old.items
        ++ first_outline view (file_of machine.now).step tool.now commands.now }
{
    if let [command, ..] = commands {
        add_outline(shapes, view, machine, tool, &command.action);
    }
}

/// Adds the boxes that a tool fills at the end of a command, counted from 0, if it is a motion.
pub(crate) fn add_outline_at<A: Allocator>(
    shapes: &mut ArrayVec<Shape, 12>,
    view: View,
    machine: &Machine<A>,
    tool: &Option<Tool>,
    commands: &[Command],
    command: usize,
)
    requires { length shapes.old.items ≤ 4 }
    ensures { shapes.new.items ≡ shapes.old.items
        ++ first_outline view (file_of machine.now).step tool.now (drop command commands.now) }
{
    let rest = &commands[command.min(commands.len())..];
    add_first(shapes, view, machine, tool, rest);
}
