//! The motions that stay where they are when the origin is shifted.
ghost use Rattle.std.specs.Prelude.{◌≡◌, ◌<◌, ◌^◌};
ghost use Rattle.ngc_place_report.specs.Staying as spec;

use crate::placement::Staying;
use ngc_commands::Action;
use ngc_place::Program;

fn one_more(before: Option<Staying>, line: u32) -> Option<Staying>
    requires { spec.motions_of before < 2 ^ 63 }
    ensures { result ≡ spec.one_more before line }
{
    match before {
        None => Some(Staying { motions: 1, line }),
        Some(staying) => Some(Staying {
            motions: staying.motions + 1,
            line: staying.line,
        }),
    }
}

fn counted(before: Option<Staying>, moves: bool, action: &Action, line: u32) -> Option<Staying>
    requires { spec.motions_of before < 2 ^ 63 }
    ensures { result ≡ spec.counted before moves action.now line }
{
    if moves {
        return before;
    }
    match action {
        Action::Move(_) => one_more(before, line),
        _ => before,
    }
}

/// Returns the motions whose ends stay, by the marks of their commands.
pub(crate) fn staying(program: &Program) -> Option<Staying>
    ensures { result ≡ spec.staying_of program.now }
{
    let (marks, commands) = (program.moving, program.commands);
    let mut found = None;
    for index in 0..marks.len().min(commands.len()) {
        let command = &commands[index];
        found = counted(found, marks[index], &command.action, command.line);
    }
    found
}
