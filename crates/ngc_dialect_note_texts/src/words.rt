//! What notes say, and the remark after it.
ghost use Rattle.std.specs.Prelude.{◌≡◌};
ghost use Rattle.ngc_dialect_note_texts.specs.Words as spec;

use ngc_dialect_notes::{Class, Kind};

pub(crate) fn class_text(class: Class) -> &'static [u8]
    ensures { result.now ≡ spec.class_text class }
{
    match class {
        Class::Exact => b"exact",
        Class::Told => b"told",
        Class::Chosen => b"chosen",
        Class::Bound => b"bound",
    }
}

/// Returns what is noted.
#[tactic(auto, unfolding(crate::specs::Words::kind_text))]
pub(crate) fn kind_text(kind: Kind) -> &'static [u8]
    ensures { result.now ≡ spec.kind_text kind }
{
    match kind {
        Kind::Switch => b"M50 to M53 left out",
        Kind::LookAhead => b"G5.1 and G187 left out",
        Kind::IdleCode => b"codes left out that set what always holds here",
        Kind::PathTolerance => b"P and Q of G64 left out",
        Kind::LoneMachinePlace => b"G53 without X, Y and Z left out",
        Kind::LoneCycle => b"canned cycles without X, Y and Z",
        Kind::OldUnits => b"G70 and G71",
        Kind::ToolCentre => b"G43.4",
        Kind::LengthWithoutH => b"G43 without H",
        Kind::ToolChange => b"M6 for Grbl",
        Kind::MachinePlaceInG91 => b"G53 in G91",
        Kind::HomeAxes => b"G28 or G30 with one or two axes",
        Kind::MotionApart => b"motion codes beside another code that takes X, Y and Z",
        Kind::OriginAdded => b"G10 L2 in G91",
        Kind::SystemInForce => b"G10 with P0 or without P",
        Kind::LocalOffset => b"G52",
        Kind::FeedUnits => b"F beside a change of the units",
        Kind::KeptFeed => b"G94 after G93 without F",
        Kind::Milliseconds => b"dwells whose P has no point",
        Kind::BesideDwell => b"words left out beside X or U of G4",
        Kind::IdleD => b"D left out",
        Kind::IdleE => b"E left out",
        Kind::IdleH => b"H left out",
        Kind::IdleI => b"I left out",
        Kind::IdleJ => b"J left out",
        Kind::IdleK => b"K left out",
        Kind::IdleL => b"L left out",
        Kind::IdleP => b"P left out",
        Kind::IdleQ => b"Q left out",
        Kind::IdleR => b"R left out",
        Kind::IdleZero => b"words with the value 0 left out",
        Kind::IdleAxis => b"A, B, C, U, V or W left out",
        Kind::ThirdOffset => b"I, J or K along the third axis of an arc left out",
        Kind::NoPoint => b"numbers without a point",
        Kind::FirstTraverse => b"motions before the first motion code",
        Kind::FullCircle => b"arcs without an axis word of their plane",
        Kind::CentreMode => b"I, J and K before G90.1 or G91.1",
        Kind::CycleInGrbl => b"canned cycles for Grbl",
        Kind::StartRetract => b"canned cycles before G98 or G99",
        Kind::NoDwell => b"G82, G86 or G89 without P",
        Kind::PeckClearance => b"G83",
        Kind::ChipBreaking => b"G73",
        Kind::KeptWords => b"canned cycles that take words of another one",
        Kind::HoleCount => b"K or L of canned cycles",
        Kind::Homing => b"$H left out",
        Kind::DeleteLevel => b"/2 to /9",
        Kind::FirstTool => b"a tool mounted before the first line",
        Kind::ProgramEnd => b"a program without M2 and M30",
        Kind::PolarWords => b"@ and ^",
        Kind::SeveralTurns => b"arcs of several turns",
        Kind::CutterRadius => b"cutter compensation",
        Kind::MovedCentre => b"arcs whose radii differ",
    }
}

/// Returns what execution does.
#[tactic(auto, unfolding(crate::specs::Words::remark_text))]
pub(crate) fn remark_text(kind: Kind) -> &'static [u8]
    ensures { result.now ≡ spec.remark_text kind }
{
    match kind {
        Kind::Switch => b"the overrides stay as they are",
        Kind::LookAhead => b"they change no path here",
        Kind::IdleCode => b"such as G15, G50 and G69",
        Kind::PathTolerance => b"no corner is rounded here, so any tolerance is kept",
        Kind::LoneMachinePlace => b"nothing moves",
        Kind::LoneCycle => b"they make no hole, and their words aren't kept",
        Kind::OldUnits => b"they are executed as G20 and G21",
        Kind::ToolCentre => b"it is executed as G43, since there are no rotary axes",
        Kind::LengthWithoutH => b"it takes the length of the mounted tool",
        Kind::ToolChange => b"Grbl 1.1 changes no tools; here the tool is mounted",
        Kind::MachinePlaceInG91 => b"X, Y and Z are machine coordinates",
        Kind::HomeAxes => b"only these axes go home",
        Kind::MotionApart => b"they only set the motion mode",
        Kind::OriginAdded => b"its values are added to the origin",
        Kind::SystemInForce => b"it sets the coordinate system in force",
        Kind::LocalOffset => b"it replaces the offset of G92",
        Kind::FeedUnits => b"F is in the new units",
        Kind::KeptFeed => b"the feed from before G93 is in force again",
        Kind::Milliseconds => b"P is in milliseconds",
        Kind::BesideDwell => b"the time is P, or X without P, or U without both",
        Kind::IdleD => b"nothing on its line uses it",
        Kind::IdleE => b"nothing on its line uses it",
        Kind::IdleH => b"nothing on its line uses it",
        Kind::IdleI => b"nothing on its line uses it",
        Kind::IdleJ => b"nothing on its line uses it",
        Kind::IdleK => b"nothing on its line uses it",
        Kind::IdleL => b"nothing on its line uses it",
        Kind::IdleP => b"nothing on its line uses it",
        Kind::IdleQ => b"nothing on its line uses it",
        Kind::IdleR => b"nothing on its line uses it",
        Kind::IdleZero => b"nothing on their lines uses them",
        Kind::IdleAxis => b"these axes stay at 0",
        Kind::ThirdOffset => b"the centre is in the plane of the arc",
        Kind::NoPoint => b"lengths are in millimetres or inches, and X and U of G4 in seconds",
        Kind::FirstTraverse => b"they are executed as G0",
        Kind::FullCircle => b"each is a full circle",
        Kind::CentreMode => b"they lead from the start of the arc to its centre",
        Kind::CycleInGrbl => b"Grbl 1.1 has none; here they move as in LinuxCNC",
        Kind::StartRetract => b"the tool clears holes to the initial level",
        Kind::NoDwell => b"they don't wait",
        Kind::PeckClearance =>
            b"after a peck the tool goes back down to 0.254 mm above the depth reached",
        Kind::ChipBreaking => b"after a peck the tool goes up by 0.254 mm",
        Kind::KeptWords => b"R, the depth, P and Q are kept when the code changes",
        Kind::HoleCount => b"the number of holes is K, or L without K",
        Kind::Homing => b"the axes don't go home",
        Kind::DeleteLevel => b"each is executed as /",
        Kind::FirstTool => b"it is the only tool of the tool table",
        Kind::ProgramEnd => b"it ends after its last line, as by M2",
        Kind::PolarWords => b"X and Y are rounded to the nanometre",
        Kind::SeveralTurns => b"heights between turns are rounded to the nanometre",
        Kind::CutterRadius =>
            b"the path is that of the radius in the tool table, or of half of D of G41.1 and G42.1",
        Kind::MovedCentre => b"the centre is moved by at most 0.025 mm along each axis",
    }
}
