//! The modes that M70 and M73 save.
ghost use Rattle.std.specs.Prelude.{◌≡◌};
ghost use Rattle.ngc_dialect_saved.specs.Modes as spec;

use crate::switches::Switches;
use ngc_dialect_rules::{Code, Known};
use ngc_fixed_length::{Distance, FeedMode, Nm, Plane, RetractMode, System, Turn, Units, Value};
use ngc_modal_state::PathControl;

/// Modes, each as the code that sets it, with feed and speed. Neither the motion mode nor a position
/// is among them.
#[derive(Clone, Copy)]
pub struct SavedModes {
    pub units: Code,
    pub plane: Code,
    pub distance: Code,
    pub feed_mode: Code,
    pub system: Code,
    /// G43 if a tool length is in force, G49 if not.
    pub length: Code,
    pub retract: Code,
    pub centres: Code,
    pub path: Code,
    /// G92.3 if an offset is in force, G92.2 if not.
    pub offset: Code,
    pub spindle: Code,
    pub overrides: Code,
    pub mist: bool,
    pub flood: bool,
    /// F as it was written, or 0.
    pub feed: Value,
    pub speed: Value,
}

fn units_code(units: Units) -> Code
    ensures { result ≡ spec.units_code units }
{
    match units {
        Units::Inches => Code::G(200),
        Units::Millimetres => Code::G(210),
    }
}

fn plane_code(plane: Plane) -> Code
    ensures { result ≡ spec.plane_code plane }
{
    match plane {
        Plane::XY => Code::G(170),
        Plane::ZX => Code::G(180),
        Plane::YZ => Code::G(190),
    }
}

fn distance_code(distance: Distance) -> Code
    ensures { result ≡ spec.distance_code distance }
{
    match distance {
        Distance::Absolute => Code::G(900),
        Distance::Incremental => Code::G(910),
    }
}

fn feed_mode_code(mode: FeedMode) -> Code
    ensures { result ≡ spec.feed_mode_code mode }
{
    match mode {
        FeedMode::InverseTime => Code::G(930),
        FeedMode::PerMinute => Code::G(940),
    }
}

fn system_code(system: System) -> Code
    ensures { result ≡ spec.system_code system }
{
    match system {
        System::First => Code::G(540),
        System::Second => Code::G(550),
        System::Third => Code::G(560),
        System::Fourth => Code::G(570),
        System::Fifth => Code::G(580),
        System::Sixth => Code::G(590),
        System::Seventh => Code::G(591),
        System::Eighth => Code::G(592),
        System::Ninth => Code::G(593),
    }
}

fn is_zero(length: Nm) -> bool
    ensures { result ≡ spec.is_no_length length }
{
    length.nanometres() == 0
}

// Returns G43 if a tool length is in force: our own language's, or that of G43.1.
fn length_code(own: Nm, given: Nm) -> Code
    ensures { result ≡ spec.length_code own given }
{
    if is_zero(own) && is_zero(given) {
        Code::G(490)
    } else {
        Code::G(430)
    }
}

fn retract_code(retract: RetractMode) -> Code
    ensures { result ≡ spec.retract_code retract }
{
    match retract {
        RetractMode::Series => Code::G(980),
        RetractMode::Retract => Code::G(990),
    }
}

fn centres_code(are_absolute: bool) -> Code
    ensures { result ≡ spec.centres_code are_absolute }
{
    if are_absolute {
        Code::G(901)
    } else {
        Code::G(911)
    }
}

fn path_code(path: PathControl) -> Code
    ensures { result ≡ spec.path_code path }
{
    match path {
        PathControl::ExactPath => Code::G(610),
        PathControl::ExactStop => Code::G(611),
        PathControl::Continuous => Code::G(640),
    }
}

fn offset_code(is_on: bool) -> Code
    ensures { result ≡ spec.offset_code is_on }
{
    if is_on { Code::G(923) } else { Code::G(922) }
}

fn spindle_code(spindle: Option<Turn>) -> Code
    ensures { result ≡ spec.spindle_code spindle }
{
    match spindle {
        Some(Turn::Clockwise) => Code::M(3),
        Some(Turn::Counterclockwise) => Code::M(4),
        None => Code::M(5),
    }
}

fn overrides_code(are_on: bool) -> Code
    ensures { result ≡ spec.overrides_code are_on }
{
    if are_on { Code::M(48) } else { Code::M(49) }
}

fn feed_or_zero(feed: Option<Value>) -> Value
    ensures { result ≡ spec.feed_or_zero feed }
{
    match feed {
        Some(feed) => feed,
        None => Value::zero(),
    }
}

/// Returns the modes in force, by what the rules know and what was switched.
pub fn modes_now(known: &Known, switches: &Switches) -> SavedModes
    ensures { result ≡ spec.modes_now known.now switches.now }
{
    SavedModes {
        units: units_code(known.modes.units),
        plane: plane_code(known.modes.plane),
        distance: distance_code(known.modes.distance),
        feed_mode: feed_mode_code(known.modes.feed_mode),
        system: system_code(known.frames.active),
        length: length_code(known.frames.length, known.front.length),
        retract: retract_code(known.front.retract),
        centres: centres_code(known.front.absolute_centres),
        path: path_code(known.modes.path),
        offset: offset_code(switches.offset),
        spindle: spindle_code(known.front.spindle),
        overrides: overrides_code(switches.overrides),
        mist: switches.mist,
        flood: switches.flood,
        feed: feed_or_zero(known.front.feed),
        speed: switches.speed,
    }
}
