//! Where the tool is, beside the programmed path.
ghost use Rattle.std.specs.Prelude.{◌≡◌};
ghost use Rattle.ngc_dialect_path.specs.Paths as spec;

use ngc_compensation::Compensation;
use ngc_dialect_rules::Known;
use ngc_fixed_length::{Distance, Plane, Point3};
use ngc_modal_state::MotionMode;

/// Cutter compensation that is on.
#[derive(Clone, Copy)]
pub struct Beside {
    pub moves: Compensation,
    /// The program's distance mode. That of our own interpreter is older while a move is held.
    pub distance: Distance,
    /// The line of the program that has the held move.
    pub line: u32,
}

/// What cutter compensation leaves between the tool and the programmed place.
#[derive(Clone, Copy)]
pub enum Path {
    /// Compensation is on.
    On(Beside),
    /// Compensation has ended at this programmed place, and the move that leads the tool back hasn't
    /// followed.
    Left(Point3),
}

/// Returns whether a move is held, so that what the program says after it waits.
pub fn is_holding(path: &Option<Path>) -> bool
    ensures { result ≡ spec.is_holding path.now }
{
    match path {
        Some(Path::On(beside)) => beside.moves.held.is_some(),
        _ => false,
    }
}

/// Returns the programmed place, in machine coordinates.
pub fn left_at(plane: Plane, beside: &Beside) -> Point3
    ensures { result ≡ spec.left_at plane beside.now }
{
    beside.moves.place.at_height(plane, beside.moves.height)
}

/// Returns what a line is read by: what our own interpreter knows, but for the place and the distance
/// mode, which are the program's.
#[tactic(auto, unfolding(crate::specs::Paths::programmed))]
pub fn programmed(known: &Known, path: &Option<Path>) -> Known
    ensures { result ≡ spec.programmed known.now path.now }
{
    let mut known = *known;
    match path {
        None => {}
        Some(Path::On(beside)) => {
            known.place = left_at(known.modes.plane, beside);
            known.modes.distance = beside.distance;
        }
        Some(Path::Left(place)) => known.place = *place,
    }
    known
}

/// Returns the line of the program that has the held move, or 0.
pub fn held_line(path: &Option<Path>) -> u32
    ensures { result ≡ spec.held_line path.now }
{
    match path {
        Some(Path::On(beside)) => beside.line,
        _ => 0,
    }
}

/// Returns what our own interpreter knows where the tool is at a place, in a distance mode. The motion mode
/// is left open, so that each motion has its code.
pub(crate) fn known_at(known: &Known, place: &Point3, distance: Distance) -> Known
    ensures { result ≡ spec.known_at known.now place.now distance }
{
    let mut known = *known;
    known.place = *place;
    known.modes.distance = distance;
    known.modes.motion = MotionMode::Cancel;
    known
}

/// Returns the path in a line's distance mode.
pub(crate) fn in_distance(path: &Option<Path>, distance: Distance) -> Option<Path>
    ensures { result ≡ spec.in_distance path.now distance }
{
    match path {
        None => None,
        Some(Path::On(beside)) => Some(Path::On(Beside {
            distance,
            ..*beside
        })),
        Some(Path::Left(place)) => Some(Path::Left(*place)),
    }
}
