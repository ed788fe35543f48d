//! What a line changes of the modes, or has in force.
ghost use Rattle.std.specs.Prelude.{◌≡◌};
ghost use Rattle.ngc_dialect_notes.specs.InForce as spec;

use ngc_dialect_rules::{Code, code_in, codes, is_among};
use ngc_fixed_length::{Distance, FeedMode, Plane, Units};

fn units_on(before: Units, line: &[Code]) -> Units
    ensures { result ≡ spec.units_on before line.now }
{
    match code_in(&codes::UNITS, line) {
        None => before,
        Some(code) => {
            if is_among(&codes::INCHES, code) {
                Units::Inches
            } else {
                Units::Millimetres
            }
        }
    }
}

pub(crate) fn changes_units(before: Units, line: &[Code]) -> bool
    ensures { result ≡ spec.changes_units before line.now }
{
    match before {
        Units::Millimetres => matches!(units_on(before, line), Units::Inches),
        Units::Inches => matches!(units_on(before, line), Units::Millimetres),
    }
}

pub(crate) fn is_incremental(before: Distance, line: &[Code]) -> bool
    ensures { result ≡ spec.is_incremental before line.now }
{
    match code_in(&codes::DISTANCES, line) {
        None => matches!(before, Distance::Incremental),
        Some(code) => is_among(&codes::INCREMENTAL, code),
    }
}

pub(crate) fn is_per_minute(before: FeedMode, line: &[Code]) -> bool
    ensures { result ≡ spec.is_per_minute before line.now }
{
    match code_in(&codes::FEED_MODES, line) {
        None => matches!(before, FeedMode::PerMinute),
        Some(code) => !is_among(&codes::INVERSE_TIME, code),
    }
}

/// Returns whether a line has G94 after G93.
pub(crate) fn ends_inverse_time(before: FeedMode, line: &[Code]) -> bool
    ensures { result ≡ spec.ends_inverse_time before line.now }
{
    match before {
        FeedMode::PerMinute => false,
        FeedMode::InverseTime => is_per_minute(before, line),
    }
}

pub(crate) fn plane_on(before: Plane, line: &[Code]) -> Plane
    ensures { result ≡ spec.plane_on before line.now }
{
    match code_in(&codes::PLANES, line) {
        None => before,
        Some(code) => {
            if is_among(&codes::PLANE_ZX, code) {
                Plane::ZX
            } else if is_among(&codes::PLANE_YZ, code) {
                Plane::YZ
            } else {
                Plane::XY
            }
        }
    }
}

pub(crate) fn u_letter(plane: Plane) -> u8
    ensures { result ≡ spec.u_letter plane }
{
    match plane {
        Plane::XY => b'X',
        Plane::ZX => b'Z',
        Plane::YZ => b'Y',
    }
}

pub(crate) fn v_letter(plane: Plane) -> u8
    ensures { result ≡ spec.v_letter plane }
{
    match plane {
        Plane::XY => b'Y',
        Plane::ZX => b'X',
        Plane::YZ => b'Z',
    }
}

/// Returns the letter of a plane's third axis.
pub(crate) fn depth_letter(plane: Plane) -> u8
    ensures { result ≡ spec.depth_letter plane }
{
    match plane {
        Plane::XY => b'Z',
        Plane::ZX => b'Y',
        Plane::YZ => b'X',
    }
}

/// Returns the letter of an arc's offset along the third axis.
pub(crate) fn third_offset(plane: Plane) -> u8
    ensures { result ≡ spec.third_offset plane }
{
    match plane {
        Plane::XY => b'K',
        Plane::ZX => b'J',
        Plane::YZ => b'I',
    }
}
