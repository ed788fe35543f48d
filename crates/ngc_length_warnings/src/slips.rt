//! The mistakes with length offsets in a program.
ghost use Rattle.std.specs.Prelude.{◌≡◌, ◌+◌, ◌≤◌, ◌<◌};
ghost use Rattle.ngc_machine_files.specs.Machine.{file_of};
ghost use Rattle.ngc_length_warnings.specs.Slips.{count_of, counted, is_apart, mounted_slip};
ghost use Rattle.ngc_length_warnings.specs.Slips.{paced_slip, slip_in, slips_of, tool_slip};

use crate::slip::{Found, Kind, Slip, Slips};
use ngc_commands::{Action, Command, Pace, Reached};
use ngc_fixed_length::Nm;
use ngc_frames::{FrameHistory, FrameWalk};
use ngc_machine_files::{Machine, Tool};
use std::alloc::Allocator;

/// The least difference of two offsets that counts, in nanometres.
const APART: u64 = 10;

fn is_apart(force: Nm, tool: &Tool) -> bool
    ensures { result ≡ is_apart force tool.now }
{
    (force.nanometres() - tool.offset.nanometres()).unsigned_abs() >= APART
}

fn tool_slip(kind: Kind, force: Nm, down: bool, tool: &Tool) -> Option<Slip>
    ensures { result ≡ tool_slip kind force down tool.now }
{
    if !is_apart(force, tool) {
        return None;
    }
    let (number, offset) = (tool.number, tool.offset.nanometres());
    let force = force.nanometres();
    match kind {
        Kind::Missing if down && force == 0 => Some(Slip::Missing {
            tool: number,
            offset,
        }),
        Kind::Other if force != 0 => Some(Slip::Other {
            tool: number,
            offset,
            force,
        }),
        _ => None,
    }
}

fn mounted_slip(kind: Kind, force: Nm, down: bool, tool: &Option<Tool>) -> Option<Slip>
    ensures { result ≡ mounted_slip kind force down tool.now }
{
    match tool {
        Some(tool) => tool_slip(kind, force, down, tool),
        None => None,
    }
}

fn paced_slip(kind: Kind, force: Nm, down: bool, tool: &Option<Tool>, pace: &Pace) -> Option<Slip>
    ensures { result ≡ paced_slip kind force down tool.now pace.now }
{
    match pace {
        Pace::Rapid => None,
        Pace::Feed(_) => mounted_slip(kind, force, down, tool),
    }
}

fn slip_in(kind: Kind, force: Nm, reached: &Reached, action: &Action) -> Option<Slip>
    ensures { result ≡ slip_in kind force reached.now action.now }
{
    match action {
        Action::Move(motion) => {
            let down = motion.way.end().z.nanometres() < reached.place.z.nanometres();
            paced_slip(kind, force, down, &reached.tool, &motion.pace)
        }
        _ => None,
    }
}

fn counted(found: Option<Slips>, line: u32, slip: Option<Slip>) -> Option<Slips>
    requires { count_of found < usize.MAX }
    ensures value { result ≡ counted found line slip }
    ensures few { count_of result ≤ count_of found + 1 }
{
    match (found, slip) {
        (found, None) => found,
        (None, Some(slip)) => Some(Slips {
            first: Found { line, slip },
            count: 1,
        }),
        (Some(slips), Some(_)) => Some(Slips {
            count: slips.count + 1,
            ..slips
        }),
    }
}

/// Returns the mistakes of a kind in a program's commands, where these are its frames, or `None` if it
/// has none.
pub fn slips_of<A: Allocator>(
    kind: Kind,
    machine: &Machine<A>,
    frames: &FrameHistory<A>,
    commands: &[Command],
) -> Option<Slips>
    ensures { result ≡ slips_of kind (file_of machine.now) frames.now.start
        frames.now.changes.items commands.now }
{
    let mut found = None;
    let mut walk = FrameWalk::start(frames);
    let mut reached = Reached::at_start(machine);
    let mut index = 0;
    let mut left = commands;
    while let Some((command, later)) = left.split_first() {
        let force = walk.in_force(frames, index).frame.frames.length;
        let slip = slip_in(kind, force, &reached, &command.action);
        found = counted(found, command.line, slip);
        reached = reached.after(&command.action);
        index += 1;
        left = later;
    }
    found
}
