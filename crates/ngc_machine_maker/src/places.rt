//! The travel, and the places at which all axes stop.
ghost use Rattle.std.specs.Prelude.{◌≡◌, ◌*◌, ◌≤◌, ◌≤ℤ◌, pos, IfOk, unsigned_abs};
ghost use Rattle.ngc_machine_maker.specs.Places.{length_in, travel_of, travels_of};
ghost use Rattle.ngc_machine_maker.specs.Places.{stop_of, stops_of, stops_by, coordinate};
ghost use Rattle.ngc_machine_maker.specs.Places.{low_of, high_of, place_of, lows_of, highs_of};
ghost use Rattle.ngc_machine_maker.specs.Ranges.{IsScale, IsTravel, AreTravels, IsStop, AreStops};
ghost use Rattle.ngc_machine_maker.specs.Safe.{IsNoFarther, AreNoFarther};

use crate::figures::{Axis, End, Length, PerAxis};
use crate::refusal::{FigureRefusal, Stop};
use crate::scale::Scale;

// Returns the number of whole steps within a length.
fn steps_within(scale: &Scale, length: Length) -> u32
    requires { IsScale scale.now }
    ensures value { result ≡ length_in scale.now length }
    ensures within { result * scale.now.step ≤ length.nanometres }
    ensures safe { IsNoFarther scale.now result length }
{
    scale.steps_in(u128::from(length.nanometres), 1) as u32
}

fn travel_of(scale: &Scale, far: bool, length: Length, axis: Axis) -> Result<u32, FigureRefusal>
    requires { IsScale scale.now }
    ensures value { result ≡ travel_of scale.now far length axis }
    ensures range { IfOk result (IsTravel scale.now) }
    ensures safe { IfOk result (λ steps. IsNoFarther scale.now steps length) }
{
    let steps = steps_within(scale, length);
    let limit = if far { 3_999_000_000 } else { 1_000_000_000 };
    if steps == 0 || length.nanometres > limit {
        return Err(if far {
            FigureRefusal::FarTravel(axis)
        } else {
            FigureRefusal::Travel(axis)
        });
    }
    Ok(steps)
}

/// Returns the travel of each axis in steps.
pub(crate) fn travels_of(
    scale: &Scale,
    far: bool,
    travel: &PerAxis<Length>,
) -> Result<PerAxis<u32>, FigureRefusal>
    requires { IsScale scale.now }
    ensures value { result ≡ travels_of scale.now far travel.now }
    ensures range { IfOk result (AreTravels scale.now) }
    ensures safe { IfOk result (λ steps. AreNoFarther scale.now steps travel.now) }
{
    let x = travel_of(scale, far, travel.x, Axis::X)?;
    let y = travel_of(scale, far, travel.y, Axis::Y)?;
    let z = travel_of(scale, far, travel.z, Axis::Z)?;
    Ok(PerAxis { x, y, z })
}

fn stop_of(
    scale: &Scale,
    travel: u32,
    within: Length,
    stop: Length,
    refusal: FigureRefusal,
) -> Result<u32, FigureRefusal>
    requires { IsScale scale.now }
    ensures value { result ≡ stop_of scale.now travel within stop refusal }
    ensures range { IfOk result (IsStop travel) }
{
    if stop.nanometres > within.nanometres {
        return Err(refusal);
    }
    Ok((stop.nanometres / scale.step).min(travel))
}

/// Returns the distance of a place from the zero of each axis, in steps.
pub(crate) fn stops_of(
    scale: &Scale,
    travel: &PerAxis<u32>,
    within: &PerAxis<Length>,
    stops: &PerAxis<Length>,
    stop: Stop,
) -> Result<PerAxis<u32>, FigureRefusal>
    requires { IsScale scale.now }
    ensures value { result ≡ stops_of scale.now travel.now within.now stop stops.now }
    ensures range { IfOk result (AreStops travel.now) }
{
    let x = stop_of(
        scale,
        travel.x,
        within.x,
        stops.x,
        FigureRefusal::Outside(stop, Axis::X),
    )?;
    let y = stop_of(
        scale,
        travel.y,
        within.y,
        stops.y,
        FigureRefusal::Outside(stop, Axis::Y),
    )?;
    let z = stop_of(
        scale,
        travel.z,
        within.z,
        stops.z,
        FigureRefusal::Outside(stop, Axis::Z),
    )?;
    Ok(PerAxis { x, y, z })
}

/// Returns a home position in steps: the start, unless a place is specified.
pub(crate) fn stops_by(
    scale: &Scale,
    travel: &PerAxis<u32>,
    within: &PerAxis<Length>,
    start: &PerAxis<u32>,
    stops: &Option<PerAxis<Length>>,
    stop: Stop,
) -> Result<PerAxis<u32>, FigureRefusal>
    requires scale { IsScale scale.now }
    requires start { AreStops travel.now start.now }
    ensures value { result ≡ stops_by scale.now travel.now within.now stop start.now stops.now }
    ensures range { IfOk result (AreStops travel.now) }
{
    match stops {
        None => Ok(*start),
        Some(stops) => stops_of(scale, travel, within, stops, stop),
    }
}

// Returns the coordinate of a place `steps` steps from zero, into the travel.
fn coordinate(scale: &Scale, zero: End, steps: u32) -> i64
    requires scale { IsScale scale.now }
    requires few { steps * scale.now.step ≤ 3999000000 }
    ensures value { result ≡ coordinate scale.now zero steps }
    ensures range { unsigned_abs result ≤ 3999000000 }
{
    let distance = i64::from(steps) * i64::from(scale.step);
    match zero {
        End::Low => distance,
        End::High => -distance,
    }
}

fn low_of(scale: &Scale, zero: End, travel: u32) -> i64
    requires scale { IsScale scale.now }
    requires few { travel * scale.now.step ≤ 3999000000 }
    ensures value { result ≡ low_of scale.now zero travel }
{
    match zero {
        End::Low => 0,
        End::High => coordinate(scale, zero, travel),
    }
}

fn high_of(scale: &Scale, zero: End, travel: u32) -> i64
    requires scale { IsScale scale.now }
    requires few { travel * scale.now.step ≤ 3999000000 }
    ensures value { result ≡ high_of scale.now zero travel }
{
    match zero {
        End::Low => coordinate(scale, zero, travel),
        End::High => 0,
    }
}

/// Returns the least coordinates of the travel, in nanometres.
pub(crate) fn lows_of(scale: &Scale, zero: &PerAxis<End>, travel: &PerAxis<u32>) -> PerAxis<i64>
    requires scale { IsScale scale.now }
    requires travel { AreTravels scale.now travel.now }
    ensures { result ≡ lows_of scale.now zero.now travel.now }
{
    PerAxis {
        x: low_of(scale, zero.x, travel.x),
        y: low_of(scale, zero.y, travel.y),
        z: low_of(scale, zero.z, travel.z),
    }
}

/// Returns the greatest coordinates of the travel, in nanometres.
pub(crate) fn highs_of(scale: &Scale, zero: &PerAxis<End>, travel: &PerAxis<u32>) -> PerAxis<i64>
    requires scale { IsScale scale.now }
    requires travel { AreTravels scale.now travel.now }
    ensures { result ≡ highs_of scale.now zero.now travel.now }
{
    PerAxis {
        x: high_of(scale, zero.x, travel.x),
        y: high_of(scale, zero.y, travel.y),
        z: high_of(scale, zero.z, travel.z),
    }
}

/// Returns the coordinates of a place `stops` steps from zero, in nanometres.
#[tactic(auto, using(crate::proofs::PlaceLaws::stop_within))]
pub(crate) fn place_of(
    scale: &Scale,
    zero: &PerAxis<End>,
    travel: &PerAxis<u32>,
    stops: &PerAxis<u32>,
) -> PerAxis<i64>
    requires scale { IsScale scale.now }
    requires travel { AreTravels scale.now travel.now }
    requires stops { AreStops travel.now stops.now }
    ensures { result ≡ place_of scale.now zero.now stops.now }
{
    PerAxis {
        x: coordinate(scale, zero.x, stops.x),
        y: coordinate(scale, zero.y, stops.y),
        z: coordinate(scale, zero.z, stops.z),
    }
}
