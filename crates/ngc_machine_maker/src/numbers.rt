//! The numbers of a machine file.
ghost use Rattle.std.specs.Prelude.{◌≡◌, IfOk};
ghost use Rattle.ngc_machine_maker.specs.Numbers.{numbers_of, placed, numbers_by, ring_of};
ghost use Rattle.ngc_machine_maker.specs.Ranges.{IsScale, AreAllRates, AreTravels, AreStops, IsRing};
ghost use Rattle.ngc_machine_maker.specs.InFile.{AreInFile, ArePlacesInFile, AreStepsWithin};
ghost use Rattle.ngc_machine_maker.specs.Asked.{IsWithinRequest, scale_in};
ghost use Rattle.ngc_machine_maker.specs.Safe.{AreNoFarther};

use crate::figures::{Figures, PerAxis};
use crate::places::{highs_of, lows_of, place_of, stops_by, stops_of, travels_of};
use crate::rates::rates_of;
use crate::refusal::{FigureRefusal, Stop};
use crate::scale::Scale;

/// The numbers of a machine file, with the names of its keys. Lengths are in nanometres, and rates
/// in millionths of a step per tick.
#[derive(Clone, Copy)]
pub struct MachineNumbers {
    pub step: u32,
    pub ticks_per_second: u32,
    pub max_rate: u32,
    pub change: u32,
    /// The change of each axis by itself, which is no key; `change` is the least of them.
    pub changes: PerAxis<u32>,
    pub corner: u32,
    pub turn: u64,
    /// The turn of each axis by itself, which is no key; `turn` is the least of them.
    pub turns: PerAxis<u64>,
    pub axis_rate: PerAxis<u32>,
    pub jump: u32,
    pub ring: u32,
    /// Whether the file has this key, with the value 2.
    pub arc_feed: bool,
    pub low: PerAxis<i64>,
    pub high: PerAxis<i64>,
    pub start: PerAxis<i64>,
    pub home28: PerAxis<i64>,
    pub home30: PerAxis<i64>,
}

/// The travel and the stops, in steps from the zero of each axis.
#[derive(Clone, Copy)]
pub(crate) struct Steps {
    pub travel: PerAxis<u32>,
    pub start: PerAxis<u32>,
    pub home28: PerAxis<u32>,
    pub home30: PerAxis<u32>,
}

fn steps_of(scale: &Scale, figures: &Figures) -> Result<Steps, FigureRefusal>
    requires { IsScale scale.now }
    ensures value { result ≡ placed scale.now figures.now }
    ensures range { IfOk result (AreStepsWithin scale.now) }
    ensures safe { IfOk result (λ steps. AreNoFarther scale.now steps.travel figures.now.travel) }
{
    let within = &figures.travel;
    let travel = travels_of(scale, figures.far, within)?;
    let start = stops_of(scale, &travel, within, &figures.start, Stop::Start)?;
    let home28 = stops_by(
        scale,
        &travel,
        within,
        &start,
        &figures.home28,
        Stop::Home28,
    )?;
    let home30 = stops_by(
        scale,
        &travel,
        within,
        &start,
        &figures.home30,
        Stop::Home30,
    )?;
    Ok(Steps {
        travel,
        start,
        home28,
        home30,
    })
}

fn ring_of(ring: u32) -> Result<u32, FigureRefusal>
    ensures value { result ≡ ring_of ring }
    ensures range { IfOk result IsRing }
{
    if ring < 16 || ring > 1_024 {
        return Err(FigureRefusal::Ring);
    }
    Ok(ring)
}

/// Returns the numbers of a machine file for some figures, or the first refusal. The file's step is
/// the motor's to the nearest nanometre. Rates, accelerations and the travel are rounded down, so
/// that none exceeds the figures, either with the file's step or with the motor's.
pub fn numbers_of(figures: &Figures) -> Result<MachineNumbers, FigureRefusal>
    ensures value { result ≡ numbers_of figures.now }
    ensures range { IfOk result AreInFile }
    ensures safe { IfOk result (λ numbers. IsWithinRequest numbers figures.now) }
    ensures scale { IfOk result (λ numbers. IsScale (scale_in numbers figures.now)) }
{
    let scale = Scale::of(figures.scale)?;
    let rates = rates_of(&scale, figures)?;
    let steps = steps_of(&scale, figures)?;
    let ring = ring_of(figures.ring)?;
    let zero = &figures.zero;
    Ok(MachineNumbers {
        step: scale.step,
        ticks_per_second: rates.ticks,
        max_rate: rates.max_rate,
        change: rates.change,
        changes: rates.changes,
        corner: rates.corner,
        turn: rates.turn,
        turns: rates.turns,
        axis_rate: rates.axis_rate,
        jump: rates.jump,
        ring,
        arc_feed: figures.arc_feed,
        low: lows_of(&scale, zero, &steps.travel),
        high: highs_of(&scale, zero, &steps.travel),
        start: place_of(&scale, zero, &steps.travel, &steps.start),
        home28: place_of(&scale, zero, &steps.travel, &steps.home28),
        home30: place_of(&scale, zero, &steps.travel, &steps.home30),
    })
}
