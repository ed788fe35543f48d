ghost use Rattle.std.specs.Prelude.{◌≡◌, IfSome, Ok};
ghost use Rattle.ngc_modal_state.specs.declared.code.Code.TheVariants as codes;
ghost use Rattle.ngc_modal_state.specs.Codes.{tenths as tenths_of, g_code as g_code_of};
ghost use Rattle.ngc_modal_state.specs.Codes.{m_code as m_code_of, motion_codes, once_codes};
ghost use Rattle.ngc_modal_state.specs.Codes.{mode_codes, g_codes, m_codes};
ghost use Rattle.ngc_modal_state.specs.Tables.{at_number};

use crate::code::{
    Code, Coolant, CycleCode, LengthCode, MotionMode, NonModal, PathControl, Spindle, Stopping,
};
use crate::fault::ModalFault;
use ngc_fixed_length::{Distance, FeedMode, Plane, RetractMode, System, Turn, Units, Value};
use ngc_line_reader::Letter;

// Returns a value in tenths, if it is a whole number of them.
fn tenths(value: Value) -> Option<u64>
    ensures { result ≡ tenths_of value }
{
    let millionths = value.millionths();
    if millionths < 0 || millionths.unsigned_abs() % 100_000 != 0 {
        None
    } else {
        Some(millionths.unsigned_abs() / 100_000)
    }
}

#[tactic(auto, unfolding(crate::specs::Codes::motion_codes))]
// Returns the motion code of a G word in tenths.
fn motion_code(tenths: u64) -> Option<Code>
    ensures { result ≡ at_number tenths motion_codes }
{
    let motion = match tenths {
        0 => MotionMode::Traverse,
        10 => MotionMode::Straight,
        20 => MotionMode::Arc(Turn::Clockwise),
        30 => MotionMode::Arc(Turn::Counterclockwise),
        800 => MotionMode::Cancel,
        810 => MotionMode::Cycle(CycleCode::Drill),
        820 => MotionMode::Cycle(CycleCode::DrillWithDwell),
        830 => MotionMode::Cycle(CycleCode::Peck),
        850 => MotionMode::Cycle(CycleCode::Bore),
        860 => MotionMode::Cycle(CycleCode::BoreWithStop),
        890 => MotionMode::Cycle(CycleCode::BoreWithDwell),
        _ => return None,
    };
    Some(Code::Motion(motion))
}

#[tactic(auto, unfolding(crate::specs::Codes::mode_codes))]
// Returns the code of a G word in tenths that sets another mode.
fn mode_code(tenths: u64) -> Option<Code>
    ensures { result ≡ at_number tenths mode_codes }
{
    let code = match tenths {
        170 => Code::Plane(Plane::XY),
        180 => Code::Plane(Plane::ZX),
        190 => Code::Plane(Plane::YZ),
        900 => Code::Distance(Distance::Absolute),
        910 => Code::Distance(Distance::Incremental),
        930 => Code::FeedMode(FeedMode::InverseTime),
        940 => Code::FeedMode(FeedMode::PerMinute),
        200 => Code::Units(Units::Inches),
        210 => Code::Units(Units::Millimetres),
        400 => Code::CutterCompensationOff,
        430 => Code::ToolLength(LengthCode::Apply),
        490 => Code::ToolLength(LengthCode::Cancel),
        980 => Code::Return(RetractMode::Series),
        990 => Code::Return(RetractMode::Retract),
        540 => Code::System(System::First),
        550 => Code::System(System::Second),
        560 => Code::System(System::Third),
        570 => Code::System(System::Fourth),
        580 => Code::System(System::Fifth),
        590 => Code::System(System::Sixth),
        591 => Code::System(System::Seventh),
        592 => Code::System(System::Eighth),
        593 => Code::System(System::Ninth),
        610 => Code::Path(PathControl::ExactPath),
        611 => Code::Path(PathControl::ExactStop),
        640 => Code::Path(PathControl::Continuous),
        _ => return None,
    };
    Some(code)
}

#[tactic(auto, unfolding(crate::specs::Codes::once_codes))]
// Returns the nonmodal code of a G word in tenths.
fn once_code(tenths: u64) -> Option<Code>
    ensures { result ≡ at_number tenths once_codes }
{
    let once = match tenths {
        40 => NonModal::Dwell,
        100 => NonModal::SetOrigin,
        280 => NonModal::Home28,
        300 => NonModal::Home30,
        530 => NonModal::MachinePlace,
        920 => NonModal::SetOffset,
        921 => NonModal::ClearOffset,
        922 => NonModal::SuspendOffset,
        923 => NonModal::RestoreOffset,
        _ => return None,
    };
    Some(Code::NonModal(once))
}

// Returns the code of a G word in tenths.
#[tactic(auto, using(crate::proofs::TableLaws::found_in_turn))]
fn g_code_at(tenths: u64) -> Option<Code>
    ensures { result ≡ at_number tenths g_codes }
{
    match motion_code(tenths) {
        Some(code) => Some(code),
        None => match mode_code(tenths) {
            Some(code) => Some(code),
            None => once_code(tenths),
        },
    }
}

/// Returns the code of a G word. It distinguishes codes that the language leaves out by name from
/// unknown ones.
#[tactic(auto, unfolding(crate::specs::Codes::g_code))]
pub(crate) fn g_code(value: Value) -> Result<Code, ModalFault>
    ensures { result ≡ g_code_of value }
{
    let unknown = ModalFault::UnknownCode {
        letter: Letter::G,
        millionths: value.millionths(),
    };
    match tenths(value) {
        Some(382 | 410 | 420 | 840 | 870 | 880) => Err(ModalFault::LeftOut),
        Some(tenths) => g_code_at(tenths).ok_or(unknown),
        None => Err(unknown),
    }
}

/// Returns the motion code of a G word, if it is one of the four of most lines: they need no
/// look-up.
#[tactic(auto, unfolding(crate::specs::Codes::g_code, crate::specs::Codes::motion_codes))]
pub(crate) fn common_motion(value: Value) -> Option<MotionMode>
    ensures { IfSome result (λ motion. g_code_of value ≡ Ok (codes.Motion motion)) }
{
    match value.millionths() {
        0 => Some(MotionMode::Traverse),
        1_000_000 => Some(MotionMode::Straight),
        2_000_000 => Some(MotionMode::Arc(Turn::Clockwise)),
        3_000_000 => Some(MotionMode::Arc(Turn::Counterclockwise)),
        _ => None,
    }
}

#[tactic(auto, unfolding(crate::specs::Codes::m_codes))]
// Returns the code of an M word in tenths.
fn m_code_at(tenths: u64) -> Option<Code>
    ensures { result ≡ at_number tenths m_codes }
{
    let code = match tenths {
        0 | 600 => Code::Stopping(Stopping::Stop),
        10 => Code::Stopping(Stopping::OptionalStop),
        20 | 300 => Code::Stopping(Stopping::End),
        60 => Code::ChangeTool,
        30 => Code::Spindle(Spindle::Start(Turn::Clockwise)),
        40 => Code::Spindle(Spindle::Start(Turn::Counterclockwise)),
        50 => Code::Spindle(Spindle::Stop),
        70 => Code::Coolant(Coolant::Mist),
        80 => Code::Coolant(Coolant::Flood),
        90 => Code::Coolant(Coolant::Off),
        480 => Code::Override(true),
        490 => Code::Override(false),
        _ => return None,
    };
    Some(code)
}

#[tactic(auto, unfolding(crate::specs::Codes::m_code))]
/// Returns the code of an M word.
pub(crate) fn m_code(value: Value) -> Result<Code, ModalFault>
    ensures { result ≡ m_code_of value }
{
    let unknown = ModalFault::UnknownCode {
        letter: Letter::M,
        millionths: value.millionths(),
    };
    match tenths(value) {
        Some(tenths) => m_code_at(tenths).ok_or(unknown),
        None => Err(unknown),
    }
}
