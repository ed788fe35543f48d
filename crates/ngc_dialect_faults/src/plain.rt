//! Why a plain line that a line became is refused, in words.
ghost use Rattle.std.specs.Prelude.{◌≡◌};
ghost use Rattle.ngc_dialect_faults.specs.Plain.{cycle_words, eval_words, frame_words, modal_words};
ghost use Rattle.ngc_dialect_faults.specs.Plain.{number_words, plain_arc_words, plain_words};

use ngc_arc_geometry::ArcFault;
use ngc_canned_cycles::CycleFault;
use ngc_canonical::Fault as PlainFault;
use ngc_fixed_length::NumberFault;
use ngc_modal_state::ModalFault;
use ngc_offsets::FrameFault;
use ngc_parameters::EvalFault;

fn number_words(fault: NumberFault) -> &'static [u8]
    ensures { result.now ≡ number_words fault }
{
    match fault {
        NumberFault::TooLarge => b"the number is too large",
        NumberFault::DivisionByZero => b"division by zero",
    }
}

fn eval_words(fault: EvalFault) -> &'static [u8]
    ensures { result.now ≡ eval_words fault }
{
    match fault {
        EvalFault::Number(fault) => number_words(fault),
        EvalFault::IndexNotWhole => b"parameter index is not a whole number",
        EvalFault::IndexOutOfRange => b"parameter index is not from 1 to 5160",
        EvalFault::TooDeep => b"brackets and # nested more than 16 deep",
        EvalFault::Memory => b"out of memory",
    }
}

fn modal_words(fault: ModalFault) -> &'static [u8]
    ensures { result.now ≡ modal_words fault }
{
    match fault {
        ModalFault::GroupTwice => b"two codes of one modal group",
        ModalFault::TooManyMWords => b"more than four M words",
        ModalFault::LetterRepeated => b"a letter that may stand once is repeated",
        ModalFault::UnknownCode { .. } => b"the code is unknown",
        ModalFault::LeftOut => b"the code or letter is left out of our language",
        ModalFault::ClaimedTwice => b"two codes on the line use the same word",
        ModalFault::WithoutUse(_) => b"no code on the line uses a word",
        ModalFault::WordMissing(_) => b"a word that a code on the line needs is missing",
        ModalFault::OutOfRange => b"a word's value is out of its range",
        ModalFault::WithoutStraightMotion => b"G53 stands without G0 or G1 in force",
    }
}

fn frame_words(fault: FrameFault) -> &'static [u8]
    ensures { result.now ≡ frame_words fault }
{
    match fault {
        FrameFault::BeyondRange { .. } => b"the coordinate or offset is beyond its range",
        FrameFault::NoSuchTool => b"the tool table has no such tool",
    }
}

fn cycle_words(fault: CycleFault) -> &'static [u8]
    ensures { result.now ≡ cycle_words fault }
{
    match fault {
        CycleFault::RetractBelowBottom => b"R is below the bottom of the hole",
        CycleFault::BadRepeats => b"L is not a whole number from 1 to 9999",
        CycleFault::BadPeck => b"Q is not above 0, or takes more than 10000 pecks",
        CycleFault::NegativeDwell => b"P is below 0",
        CycleFault::SpindleNotTurning => b"the spindle does not turn",
        CycleFault::InverseTime => b"a canned cycle in inverse time feed mode",
        CycleFault::Memory => b"out of memory",
    }
}

fn plain_arc_words(fault: ArcFault) -> &'static [u8]
    ensures { result.now ≡ plain_arc_words fault }
{
    match fault {
        ArcFault::NoAxisWord => b"an arc needs an axis word of its plane",
        ArcFault::NoOffset => b"an arc needs an offset of its plane or a radius",
        ArcFault::RadiiDiffer { .. } => b"the radii at start and end differ",
        ArcFault::RadiusTooSmall => b"the radius is too small for the way from start to end",
        ArcFault::EndIsStart => b"in radius format the end must differ from the start",
        ArcFault::RadiusOutOfRange => b"the radius is out of range",
    }
}

pub(crate) fn plain_words(fault: PlainFault) -> &'static [u8]
    ensures { result.now ≡ plain_words fault }
{
    match fault {
        PlainFault::Value(fault) => eval_words(fault),
        PlainFault::Modal(fault) => modal_words(fault),
        PlainFault::Length(fault) => number_words(fault),
        PlainFault::Frame(fault) => frame_words(fault),
        PlainFault::CycleBeyondRange(_) => b"a coordinate of the canned cycle is beyond its range",
        PlainFault::NoSuchTool(_) => b"the tool table has no tool ",
        PlainFault::Cycle(fault) => cycle_words(fault),
        PlainFault::Arc(fault) => plain_arc_words(fault),
        PlainFault::FeedZero => b"the feed is zero",
        PlainFault::NoEnd => b"the program has no end",
        PlainFault::TooManyCommands => b"the program has too many commands",
    }
}
