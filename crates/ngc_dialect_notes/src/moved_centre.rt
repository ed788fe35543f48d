//! Whether the centre of an arc is moved so that its radii agree.
ghost use Rattle.std.specs.Prelude.{◌≡◌, ◌≤◌, ◌-ℤ◌, unsigned_abs};
ghost use Rattle.ngc_dialect_notes.specs.MovedCentres as spec;

use ngc_dialect_arcs::ArcLine;
use ngc_dialect_parameters::Word;
use ngc_dialect_rules::{Code, Fault, Known, arc_line, codes, force_of, is_among, offsets_of};
use ngc_fixed_length::Nm;
use ngc_offsets::AxisLengths;

fn difference(to: Nm, from: Nm) -> i64
    ensures value { result ≡ to -ℤ from }
    ensures bound { unsigned_abs result ≤ 200000000000 }
{
    to.nanometres() - from.nanometres()
}

// Returns whether I, J or K of a line is executed as it is given.
fn is_kept(is_absolute: bool, start: Nm, given: Option<Nm>, executed: Option<Nm>) -> bool
    ensures { result ≡ spec.is_kept is_absolute start given executed }
{
    match (given, executed) {
        (None, executed) => executed.is_none(),
        (Some(_), None) => true,
        (Some(given), Some(executed)) => {
            if is_absolute {
                executed.nanometres() == difference(given, start)
            } else {
                executed.nanometres() == given.nanometres()
            }
        }
    }
}

fn are_kept(arc: &ArcLine, executed: &AxisLengths) -> bool
    ensures { result ≡ spec.are_kept arc.now executed.now }
{
    let (is_absolute, start, given) = (arc.absolute_centre, arc.start, arc.offsets);
    is_kept(is_absolute, start.x, given.x, executed.x)
        && is_kept(is_absolute, start.y, given.y, executed.y)
        && is_kept(is_absolute, start.z, given.z, executed.z)
}

#[tactic(auto, unfolding(crate::specs::MovedCentres::is_moved))]
fn is_moved(known: &Known, line: &[Code], words: &[Word], code: Code) -> Result<bool, Fault>
    ensures { result ≡ spec.is_moved known.now line.now words.now code }
{
    let force = force_of(known, line, words, None)?;
    let arc = arc_line(known, line, words, &force, code)?;
    let executed = offsets_of(force.units, code, &arc)?;
    Ok(arc.radius.is_none() && !are_kept(&arc, &executed))
}

/// Returns whether a motion is an arc whose centre is moved.
pub(crate) fn has_moved_centre(known: &Known, line: &[Code], words: &[Word], code: Code) -> bool
    ensures { result ≡ spec.has_moved_centre known.now line.now words.now code }
{
    if !is_among(&codes::ARCS, code) {
        return false;
    }
    match is_moved(known, line, words, code) {
        Ok(moved) => moved,
        Err(_) => false,
    }
}
