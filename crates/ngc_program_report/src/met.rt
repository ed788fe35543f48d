//! The fixture that a command meets.
ghost use Rattle.std.specs.Prelude.{◌≡◌};
ghost use Rattle.ngc_machine_files.specs.Machine.{file_of};
ghost use Rattle.ngc_program_report.specs.Met.{fixture_of, met_at, met_by, met_first};

use ngc_certificate::{PieceFault, PieceRefusal, pieces_fault, place_fault, undivided};
use ngc_commands::{Action, Command, Reached};
use ngc_machine_files::Machine;
use std::alloc::Allocator;

// Returns the fixture for which a piece is refused.
fn fixture_of(refusal: Option<PieceRefusal>) -> Option<u32>
    ensures { result ≡ fixture_of refusal }
{
    match refusal {
        Some(
            PieceRefusal {
                fault: PieceFault::MeetsFixture(fixture),
                ..
            },
        ) => Some(fixture),
        _ => None,
    }
}

// Returns the fixture that an action meets: a tool change at the axes' position, a motion in one
// piece.
fn met_by<A: Allocator>(machine: &Machine<A>, reached: &Reached, action: &Action) -> Option<u32>
    ensures { result ≡ met_by (file_of machine.now) reached.now action.now }
{
    match action {
        Action::Move(motion) => fixture_of(pieces_fault(
            machine,
            reached.tool,
            &motion.way,
            &[undivided(machine.step, &motion.way)],
        )),
        Action::Mount(tool) => place_fault(machine, *tool, &reached.place.to_grid(machine.step)),
        _ => None,
    }
}

fn met_first<A: Allocator>(
    machine: &Machine<A>,
    reached: &Reached,
    commands: &[Command],
) -> Option<u32>
    ensures { result ≡ met_first (file_of machine.now) reached.now commands.now }
{
    match commands {
        [] => None,
        [command, ..] => met_by(machine, reached, &command.action),
    }
}

/// Returns the fixture that is met at the start, or by command `at`, counted from 0: by a tool
/// change at the axes' position, and by a motion in one piece.
pub fn met_at<A: Allocator>(machine: &Machine<A>, commands: &[Command], at: usize) -> Option<u32>
    ensures { result ≡ met_at (file_of machine.now) commands.now at }
{
    if let Some(fixture) = place_fault(machine, None, &machine.start.to_grid(machine.step)) {
        return Some(fixture);
    }
    let at = at.min(commands.len());
    let reached = Reached::at_start(machine).after_all(&commands[..at]);
    met_first(machine, &reached, &commands[at..])
}
