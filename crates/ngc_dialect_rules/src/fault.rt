//! Why a line isn't executed.
ghost use Rattle.std.specs.Prelude.{◌≡◌};
ghost use Rattle.ngc_dialect_rules.specs.Faults as spec;

use crate::code::Code;
use ngc_compensation::Refusal as CompensationRefusal;
use ngc_dialect_arcs::ArcRefusal;

/// What no dialect has here.
#[derive(Clone, Copy)]
pub enum LeftOut {
    Tapping,
    /// Boring on the way out of a hole.
    BackBoring,
    Threads,
    Probing,
    Splines,
    /// Rotation or scaling of the coordinates.
    Rotation,
    Polar,
    /// More coordinate systems than nine.
    MoreSystems,
    /// Feed per turn or constant surface speed.
    FeedPerTurn,
    /// Diameters of a lathe.
    Diameters,
    /// A second tool offset.
    SecondOffset,
    Compensation,
    /// An angle of the spindle.
    SpindleAngle,
    /// Outputs and inputs.
    Outputs,
    /// The number of the tool in the spindle.
    ToolInSpindle,
    /// Saved modes.
    ModeSaving,
    /// Subprograms.
    Calls,
    /// G73 by a distance back that a setting of the control decides.
    ChipBreaking,
    /// The tool table.
    ToolTable,
    /// Rotary and secondary axes, except at 0.
    MoreAxes,
}

/// The reasons why a line isn't executed.
#[derive(Clone, Copy)]
pub enum Cause {
    /// The dialect has no such code.
    UnknownCode,
    /// A code or a word that no dialect has here.
    LeftOut(LeftOut),
    /// A letter is on the line twice.
    LetterTwice,
    /// Two codes of one modal group.
    GroupTwice,
    /// More than four M codes.
    TooManyMCodes,
    /// More than 24 codes.
    TooManyCodes,
    /// Two codes of the line use axis words.
    AxesTwice,
    /// Axis words without a motion code.
    NoMotionCode,
    /// Axis words beside G80.
    AxesBesideEnd,
    /// A motion beside G43.1.
    MotionBesideLength,
    /// G43.1 with X or Y.
    LengthOnOtherAxis,
    /// G53 without G0 or G1.
    NotStraight,
    /// G53 in G91.
    MachinePlaceInG91,
    /// Nothing uses the word.
    NoUse,
    /// A value below 0.
    Negative,
    /// Not a whole number.
    NotWhole,
    /// A word is missing that the code needs.
    WordMissing,
    /// A length over 100 metres.
    LengthTooLarge,
    /// A motion at feed 0.
    FeedZero,
    /// G10 with a number that isn't a coordinate system.
    NoSuchSystem,
    /// G43 beside G10 L20, G28, G30, G52 or an arc: its offset isn't known yet.
    LengthBeside,
    /// The arc is refused.
    Arc(ArcRefusal),
    /// R is below the depth.
    RetractBelowDepth,
    /// The number of holes isn't from 1 to 9,999.
    HoleCount,
    /// A peck that isn't above 0.
    PeckNotAboveZero,
    /// A dwell below 0.
    NegativeDwell,
    /// The spindle does not turn.
    SpindleOff,
    /// A canned cycle in G93.
    CycleInInverseTime,
    /// A height or a hole over 100 metres away.
    CycleTooFar,
    /// Not while cutter compensation is on.
    WhileCompensating,
    /// Not between G40 and the straight move after it.
    WhileLeaving,
    /// Cutter compensation in G93.
    CompensationInInverseTime,
    /// The tool isn't in the tool table.
    NoSuchTool,
    /// Over 1,000 lines between two moves beside a path.
    TooManyKept,
    /// Cutter compensation is refused.
    Compensation(CompensationRefusal),
}

impl Cause {
    ghost use Rattle.ngc_dialect_rules.specs.Faults.{fault_number};

    /// Returns the fault's number, which messages print.
    pub fn number(self) -> u16
        ensures { result ≡ fault_number self }
    {
        match self {
            Cause::UnknownCode => 204,
            Cause::LeftOut(_) => 205,
            Cause::LengthTooLarge => 101,
            Cause::FeedZero => 252,
            Cause::Arc(refusal) => refusal.number(),
            Cause::CycleTooFar => 221,
            Cause::RetractBelowDepth => 231,
            Cause::HoleCount => 232,
            Cause::PeckNotAboveZero => 233,
            Cause::NegativeDwell => 234,
            Cause::SpindleOff => 235,
            Cause::CycleInInverseTime => 236,
            Cause::WhileCompensating | Cause::WhileLeaving => 223,
            Cause::NoSuchTool => 222,
            Cause::Compensation(refusal) => refusal.number(),
            _ => 211,
        }
    }
}

/// The word that a fault is about: by its code or by its letter, of which a line has one.
#[derive(Clone, Copy)]
pub enum About {
    Code(Code),
    /// A letter in upper case.
    Letter(u8),
}

/// A refusal of a line: why, and the word that it is about.
#[derive(Clone, Copy)]
pub struct Fault {
    pub cause: Cause,
    pub about: About,
}

/// Returns a fault about a code.
pub fn about_code(cause: Cause, code: Code) -> Fault
    ensures { result ≡ spec.about_code cause code }
{
    Fault {
        cause,
        about: About::Code(code),
    }
}

/// Returns a fault about a letter.
pub fn about_letter(cause: Cause, letter: u8) -> Fault
    ensures { result ≡ spec.about_letter cause letter }
{
    Fault {
        cause,
        about: About::Letter(letter),
    }
}
