//! Where compensation begins.
ghost use Rattle.std.specs.Prelude.{◌≡◌};
ghost use Rattle.ngc_machine_files.specs.Tools.{tools_of};
ghost use Rattle.ngc_dialect_path.specs.Beginning as spec;

use crate::line::{PathLine, Start, Width};
use crate::path::{Beside, Path};
use crate::refusing::refused;
use crate::tables::LEFT;
use ngc_compensation::{Compensation, Side};
use ngc_dialect_rules::{Cause, Code, Fault, Known, about_letter, is_among};
use ngc_fixed_length::{Nm, Value, rounded_quotient};
use ngc_machine_files::Tools;
use std::alloc::Allocator;

fn side_of(code: Code) -> Side
    ensures { result ≡ spec.side_of code }
{
    if is_among(&LEFT, code) {
        Side::Left
    } else {
        Side::Right
    }
}

// Returns half of a diameter, rounded to the nearest nanometre.
fn half(diameter: Nm) -> Nm
    ensures { result ≡ spec.half diameter }
{
    match Nm::from_nanometres(rounded_quotient(i128::from(diameter.nanometres()), 2)) {
        Ok(radius) => radius,
        Err(_) => Nm::zero(),
    }
}

fn number_of(value: Value) -> u32
    ensures { result ≡ spec.number_of value }
{
    (value.millionths().unsigned_abs() / 1_000_000) as u32
}

/// Returns the radius by which compensation begins: half of a diameter, or the radius of a tool's lowest
/// part. Refuses a tool that isn't in the tool table (222).
pub fn radius_of<A: Allocator>(tools: &Tools<A>, start: &Start) -> Result<Nm, Fault>
    ensures { result ≡ spec.radius_of (tools_of tools.now) start.now }
{
    match start.width {
        Width::Diameter(diameter) => Ok(half(diameter)),
        Width::Tool(number) => match tools.find(number_of(number)) {
            Some(tool) => Ok(tool.parts.as_slice()[0].radius.length()),
            None => Err(about_letter(Cause::NoSuchTool, b'D')),
        },
    }
}

/// Returns the path after compensation begins, by what the line is read by after its modes. A radius of 0
/// begins none.
pub fn begun(
    known: &Known,
    path: &Option<Path>,
    line: &PathLine,
    start: &Start,
    radius: Nm,
) -> Result<Option<Path>, Fault>
    ensures { result ≡ spec.begun known.now path.now line.now start.now radius }
{
    let plane = known.modes.plane;
    match Compensation::start(
        path.is_some(),
        plane,
        side_of(start.code),
        radius,
        &known.place.in_plane(plane),
        known.place.height(plane),
    ) {
        Ok(None) => Ok(None),
        Ok(Some(moves)) => Ok(Some(Path::On(Beside {
            moves,
            distance: line.force.distance,
            line: 0,
        }))),
        Err(refusal) => Err(refused(start.code, refusal)),
    }
}
