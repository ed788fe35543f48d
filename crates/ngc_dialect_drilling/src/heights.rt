//! Heights and places of a cycle, in machine coordinates.
ghost use Rattle.std.specs.Prelude.{◌≡◌, ◌≤◌, ◌-ℤ◌, ◌+ℤ◌, unsigned_abs};
ghost use Rattle.ngc_dialect_drilling.specs.Heights as spec;

use crate::places::{depth_axis, depth_letter, whole_shift};
use ngc_dialect_numbers::Number;
use ngc_dialect_rules::{Cause, Fault, Known, about_letter, length_in, limited};
use ngc_fixed_length::{Distance, Nm, Units, rounded_quotient};

// Returns a number of nanometres in a unit, in units of 10^-12.
fn in_unit(units: Units, nanometres: i128) -> i128
    requires { unsigned_abs nanometres ≤ 1000000000000 }
    ensures { result ≡ spec.in_unit units nanometres }
{
    match units {
        Units::Millimetres => rounded_quotient(nanometres * 1_000_000_000_000, 1_000_000),
        Units::Inches => rounded_quotient(nanometres * 1_000_000_000_000, 25_400_000),
    }
}

fn number_of(letter: u8, trillionths: i128) -> Result<Number, Fault>
    ensures { result ≡ spec.number_of letter trillionths }
{
    match Number::from_trillionths(trillionths) {
        Ok(number) => Ok(number),
        Err(_) => Err(about_letter(Cause::LengthTooLarge, letter)),
    }
}

// Returns the height where the tool is, in coordinates of the program.
fn programmed_height(known: &Known) -> i128
    ensures value { result ≡ spec.programmed_height known.now }
    ensures bound { unsigned_abs result ≤ 1000000000000 }
{
    let plane = known.modes.plane;
    let shift = whole_shift(known, depth_axis(plane));
    i128::from(known.place.height(plane).nanometres()) - shift
}

// Returns a number of nanometres in a unit, as a number of the program.
fn number_in(units: Units, letter: u8, nanometres: i128) -> Result<Number, Fault>
    requires { unsigned_abs nanometres ≤ 1000000000000 }
    ensures { result ≡ spec.number_of letter (spec.in_unit units nanometres) }
{
    let trillionths = in_unit(units, nanometres);
    number_of(letter, trillionths)
}

/// Returns the height where the tool is, in units of the program.
pub(crate) fn level_here(known: &Known) -> Result<Number, Fault>
    ensures { result ≡ spec.level_here known.now }
{
    let height = programmed_height(known);
    number_in(known.modes.units, depth_letter(known.modes.plane), height)
}

/// Returns a length that is added to a machine coordinate.
pub(crate) fn added(letter: u8, base: i128, length: Nm) -> Result<Nm, Fault>
    requires { unsigned_abs base ≤ 1000000000000 }
    ensures { result ≡ spec.added letter base length }
{
    limited(letter, base + i128::from(length.nanometres()))
}

/// Returns the machine height of a number of the program.
pub(crate) fn machine_height(known: &Known, letter: u8, number: Number) -> Result<Nm, Fault>
    ensures { result ≡ spec.machine_height known.now letter number }
{
    let length = length_in(known.modes.units, letter, number)?;
    let base = whole_shift(known, depth_axis(known.modes.plane));
    added(letter, base, length)
}

/// Returns a height of a cycle: a machine height in G90, a distance in G91.
pub(crate) fn cycle_height(known: &Known, letter: u8, number: Number) -> Result<Nm, Fault>
    ensures { result ≡ spec.cycle_height known.now letter number }
{
    match known.modes.distance {
        Distance::Absolute => machine_height(known, letter, number),
        Distance::Incremental => length_in(known.modes.units, letter, number),
    }
}
