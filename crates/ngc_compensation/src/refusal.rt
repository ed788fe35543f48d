ghost use Rattle.std.specs.Prelude.{◌≡◌, Some, IfOk};
ghost use Rattle.ngc_compensation.specs.Refusals as spec;

use ngc_fixed_length::Point2;
use thiserror::Error;

/// The reasons why cutter compensation is refused.
#[derive(Clone, Copy, Debug, PartialEq, Eq, Error)]
pub enum Refusal {
    #[error("the entry move is not longer than the tool's radius")]
    EntryTooShort,
    #[error("no arc enters in the direction of the programmed one")]
    NoEntryArc,
    #[error("the arc is not larger than the tool")]
    ArcTooSmall,
    #[error("the tool's paths do not meet in an inside corner")]
    NoIntersection,
    #[error("the tool does not fit: a move would run backwards")]
    Backwards,
    #[error("a place over 4 metres, or a radius of 0 or over 0.1 metres")]
    TooFar,
    #[error("no cutter compensation in G19")]
    PlaneYz,
    #[error("cutter compensation is on already")]
    AlreadyOn,
}

impl Refusal {
    /// Returns the fault's number, which messages print.
    pub fn number(self) -> u16
        ensures { result ≡ spec.refusal_number self }
    {
        match self {
            Refusal::EntryTooShort
            | Refusal::NoEntryArc
            | Refusal::ArcTooSmall
            | Refusal::NoIntersection
            | Refusal::Backwards => 247,
            Refusal::TooFar => 101,
            Refusal::PlaneYz => 211,
            Refusal::AlreadyOn => 223,
        }
    }
}

/// Returns a point, or the refusal if there is none.
pub(crate) fn needed(refusal: Refusal, point: Option<Point2>) -> Result<Point2, Refusal>
    ensures value { result ≡ spec.needed refusal point }
    ensures some { IfOk result (λ p. point ≡ Some p) }
{
    match point {
        Some(point) => Ok(point),
        None => Err(refusal),
    }
}

/// Refuses if a test holds.
pub(crate) fn refuse_if(test: bool, refusal: Refusal) -> Result<(), Refusal>
    ensures { result ≡ spec.refuse_if test refusal }
{
    if test { Err(refusal) } else { Ok(()) }
}
