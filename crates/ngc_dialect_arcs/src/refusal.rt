ghost use Rattle.std.specs.Prelude.{◌≡◌};
ghost use Rattle.ngc_dialect_arcs.specs.Refusals as spec;

use ngc_fixed_length::Nm;

/// The reasons why an arc is refused.
#[derive(Clone, Copy, Debug, PartialEq, Eq)]
pub enum ArcRefusal {
    /// The arc has no centre.
    NoCentre,
    /// An absolute centre needs both offsets of the plane.
    OneOffset,
    /// R stands beside I, J or K.
    RadiusBesideOffsets,
    /// The arc has R, and ends where it begins.
    EndIsStart,
    /// There is an offset along the third axis.
    ThirdOffset,
    /// There is fewer than one turn.
    NoTurn,
    /// The arc has more than one turn.
    SeveralTurns,
    /// R is too small to reach from start to end.
    RadiusTooSmall,
    /// A radius is 0 or over 2 metres.
    RadiusOutOfRange,
    /// The radii differ by more than can be evened out.
    RadiiDiffer,
    /// A length is over 100 metres.
    TooFar,
}

impl ArcRefusal {
    /// Returns the fault's number, which messages print.
    pub fn number(self) -> u16
        ensures { result ≡ spec.refusal_number self }
    {
        match self {
            ArcRefusal::NoCentre | ArcRefusal::OneOffset => 242,
            ArcRefusal::RadiusTooSmall => 244,
            ArcRefusal::EndIsStart => 245,
            ArcRefusal::RadiusOutOfRange => 246,
            ArcRefusal::RadiiDiffer => 248,
            ArcRefusal::TooFar => 101,
            ArcRefusal::RadiusBesideOffsets
            | ArcRefusal::ThirdOffset
            | ArcRefusal::NoTurn
            | ArcRefusal::SeveralTurns => 211,
        }
    }
}

/// Returns a number of nanometres as a length, or refuses it over 100 metres.
pub(crate) fn length(nanometres: i128) -> Result<Nm, ArcRefusal>
    ensures { result ≡ spec.length nanometres }
{
    match Nm::from_nanometres(nanometres) {
        Ok(length) => Ok(length),
        Err(_) => Err(ArcRefusal::TooFar),
    }
}
