//! Why the rules of a dialect refuse a line, in words.
ghost use Rattle.std.specs.Prelude.{◌≡◌};
ghost use Rattle.ngc_dialect_faults.specs.Rules.{arc_words, compensation_words, left_out_words};
ghost use Rattle.ngc_dialect_faults.specs.Rules.{polar_words, rule_end, rule_words};

use ngc_compensation::Refusal as CompensationRefusal;
use ngc_dialect_arcs::ArcRefusal;
use ngc_dialect_repeats::PolarRefusal;
use ngc_dialect_rules::{Cause as RuleCause, LeftOut};

fn left_out_words(left_out: LeftOut) -> &'static [u8]
    ensures { result.now ≡ left_out_words left_out }
{
    match left_out {
        LeftOut::Tapping => b"tapping",
        LeftOut::BackBoring => b"boring on the way out of a hole",
        LeftOut::Threads => b"threads",
        LeftOut::Probing => b"probing",
        LeftOut::Splines => b"splines",
        LeftOut::Rotation => b"rotation or scaling of the coordinates",
        LeftOut::Polar => b"polar coordinates",
        LeftOut::MoreSystems => b"more coordinate systems than nine",
        LeftOut::FeedPerTurn => b"feed per turn or constant surface speed",
        LeftOut::Diameters => b"diameters of a lathe",
        LeftOut::SecondOffset => b"a second tool offset",
        LeftOut::Compensation => b"cutter compensation",
        LeftOut::SpindleAngle => b"an angle of the spindle",
        LeftOut::Outputs => b"outputs and inputs",
        LeftOut::ToolInSpindle => b"the number of the tool in the spindle",
        LeftOut::ModeSaving => b"saved modes beside other words or in this dialect",
        LeftOut::Calls => b"subprograms",
        LeftOut::ChipBreaking => { b"G73 by a distance back that a setting of the control decides" }
        LeftOut::ToolTable => b"the tool table",
        LeftOut::MoreAxes => b"rotary and secondary axes, except at 0",
    }
}

fn arc_words(refusal: ArcRefusal) -> &'static [u8]
    ensures { result.now ≡ arc_words refusal }
{
    match refusal {
        ArcRefusal::NoCentre => b"an arc without its centre",
        ArcRefusal::OneOffset => b"an absolute centre needs both offsets of the plane",
        ArcRefusal::RadiusBesideOffsets => b"R beside I, J or K",
        ArcRefusal::EndIsStart => b"an arc with R that ends where it begins",
        ArcRefusal::ThirdOffset => b"an offset along the third axis",
        ArcRefusal::NoTurn => b"fewer than one turn",
        ArcRefusal::SeveralTurns => b"an arc of more than one turn: not supported",
        ArcRefusal::RadiusTooSmall => b"R is too small to reach from start to end",
        ArcRefusal::RadiusOutOfRange => b"a radius of 0 or over 2 metres",
        ArcRefusal::RadiiDiffer => b"the radii differ by more than can be evened out",
        ArcRefusal::TooFar => b"a length over 100 metres",
    }
}

fn compensation_words(refusal: CompensationRefusal) -> &'static [u8]
    ensures { result.now ≡ compensation_words refusal }
{
    match refusal {
        CompensationRefusal::EntryTooShort =>
            b"the entry move is not longer than the tool's radius",
        CompensationRefusal::NoEntryArc => b"no arc enters in the direction of the programmed one",
        CompensationRefusal::ArcTooSmall => b"the arc is not larger than the tool",
        CompensationRefusal::NoIntersection => b"the tool's paths do not meet in an inside corner",
        CompensationRefusal::Backwards => b"the tool does not fit: a move would run backwards",
        CompensationRefusal::TooFar =>
            b"a place over 4 metres, or a radius of 0 or over 0.1 metres",
        CompensationRefusal::PlaneYz => b"no cutter compensation in G19",
        CompensationRefusal::AlreadyOn => b"cutter compensation is on already",
    }
}

pub(crate) fn polar_words(refusal: PolarRefusal) -> &'static [u8]
    ensures { result.now ≡ polar_words refusal }
{
    match refusal {
        PolarRefusal::Twice => b"@ or ^ is on the line twice",
        PolarRefusal::AxisBeside => b"X or Y beside @ or ^",
        PolarRefusal::CodeBeside => b"@ and ^ beside a code that they can't be used with",
        PolarRefusal::OtherPlane => b"@ and ^ need the plane XY",
        PolarRefusal::AtOrigin => b"@ and ^ at the origin, which has no angle",
        PolarRefusal::BelowZero => b"@ leads to a distance below 0",
        PolarRefusal::TooFar => b"@ and ^ lead over 100 metres away",
        PolarRefusal::Arc(refusal) => arc_words(refusal),
    }
}

pub(crate) fn rule_words(cause: RuleCause) -> &'static [u8]
    ensures { result.now ≡ rule_words cause }
{
    match cause {
        RuleCause::UnknownCode => b"the dialect has no such code",
        RuleCause::LeftOut(left_out) => left_out_words(left_out),
        RuleCause::LetterTwice => b"a letter is on the line twice",
        RuleCause::GroupTwice => b"two codes of one modal group",
        RuleCause::TooManyMCodes => b"more than four M codes",
        RuleCause::TooManyCodes => b"more than 24 codes",
        RuleCause::AxesTwice => b"two codes of the line use axis words",
        RuleCause::NoMotionCode => b"axis words without a motion code",
        RuleCause::AxesBesideEnd => b"axis words beside G80",
        RuleCause::MotionBesideLength => b"a motion beside G43.1",
        RuleCause::LengthOnOtherAxis => b"G43.1 with X or Y",
        RuleCause::NotStraight => b"G53 without G0 or G1",
        RuleCause::MachinePlaceInG91 => b"G53 in G91",
        RuleCause::NoUse => b"nothing uses the word",
        RuleCause::Negative => b"a value below 0",
        RuleCause::NotWhole => b"not a whole number",
        RuleCause::WordMissing => b"a word is missing that the code needs",
        RuleCause::LengthTooLarge => b"a length over 100 metres",
        RuleCause::FeedZero => b"a motion at feed 0",
        RuleCause::NoSuchSystem => b"G10 with a number that isn't a coordinate system",
        RuleCause::LengthBeside => b"G43 beside G10 L20, G28, G30, G52 or an arc",
        RuleCause::Arc(refusal) => arc_words(refusal),
        RuleCause::RetractBelowDepth => b"R is below the depth",
        RuleCause::HoleCount => b"the number of holes isn't from 1 to 9,999",
        RuleCause::PeckNotAboveZero => b"a peck that isn't above 0",
        RuleCause::NegativeDwell => b"a dwell below 0",
        RuleCause::SpindleOff => b"the spindle does not turn",
        RuleCause::CycleInInverseTime => b"a canned cycle in G93",
        RuleCause::CycleTooFar => b"a height or a hole over 100 metres away",
        RuleCause::WhileCompensating => b"not while cutter compensation is on",
        RuleCause::WhileLeaving => b"not between G40 and the straight move after it",
        RuleCause::CompensationInInverseTime => b"cutter compensation in G93",
        RuleCause::NoSuchTool => b"the tool isn't in the tool table",
        RuleCause::TooManyKept => b"over 1,000 lines between two moves beside a path",
        RuleCause::Compensation(refusal) => compensation_words(refusal),
    }
}

pub(crate) fn rule_end(cause: RuleCause) -> &'static [u8]
    ensures { result.now ≡ rule_end cause }
{
    match cause {
        RuleCause::LeftOut(_) => b": not supported",
        _ => b"",
    }
}
