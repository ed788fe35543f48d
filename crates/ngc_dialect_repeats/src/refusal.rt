//! Why polar words, and arcs of several turns, are refused.
ghost use Rattle.std.specs.Prelude.{◌≡◌};
ghost use Rattle.ngc_dialect_repeats.specs.Refusals as spec;

use ngc_dialect_arcs::ArcRefusal;
use ngc_dialect_rules::Fault;

/// The reasons why polar words are refused, or an arc of several turns.
#[derive(Clone, Copy)]
pub enum PolarRefusal {
    /// `@` or `^` is on the line twice.
    Twice,
    /// X or Y is on the line.
    AxisBeside,
    /// A code is on the line that polar words can't be used with.
    CodeBeside,
    /// The plane isn't XY.
    OtherPlane,
    /// The tool is at the origin, which has no angle, and the words need it.
    AtOrigin,
    /// The distance is below 0.
    BelowZero,
    /// The point is over 100 metres away.
    TooFar,
    /// The arc of one turn is refused.
    Arc(ArcRefusal),
}

impl PolarRefusal {
    /// Returns the fault's number, which messages print.
    pub fn number(self) -> u16
        ensures { result ≡ spec.refusal_number self }
    {
        match self {
            PolarRefusal::TooFar => 101,
            PolarRefusal::Arc(refusal) => refusal.number(),
            _ => 211,
        }
    }
}

/// Why a line with polar words is refused: by the rules of codes, or by those of polar words.
#[derive(Clone, Copy)]
pub enum PolarFault {
    Rule(Fault),
    Polar(PolarRefusal),
}
