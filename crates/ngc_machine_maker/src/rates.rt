//! Speeds and accelerations in steps.
ghost use Rattle.std.specs.Prelude.{◌≡◌, ◌+◌, ◌*◌, ◌/◌, ◌<◌, ◌≤◌, ◌^◌, min, max, IfOk};
ghost use Rattle.ngc_machine_maker.specs.Formulas.{rate_of, change_of, turn_of, axis_rate};
ghost use Rattle.ngc_machine_maker.specs.Formulas.{each_rate, least};
ghost use Rattle.ngc_machine_maker.specs.Formulas.{chosen_ticks, ticks_of, corner_of, jump_of, jump_speed};
ghost use Rattle.ngc_machine_maker.specs.Formulas.{limited_change, each_change};
ghost use Rattle.ngc_machine_maker.specs.Formulas.{limited_turn, arcs_by, each_turn};
ghost use Rattle.ngc_machine_maker.specs.Formulas.{diagonal_turns};
ghost use Rattle.ngc_machine_maker.specs.Formulas.{rates_of};
ghost use Rattle.ngc_machine_maker.specs.Ranges.{IsScale, IsRate, AreRates, IsTurn, AreTurns, AreAllRates};
ghost use Rattle.ngc_machine_maker.specs.Safe.{IsNoMore, IsNoFaster, IsNoGreaterAcceleration, IsNoHarderOnArcs};
ghost use Rattle.ngc_machine_maker.specs.Safe.{AreNoFaster, IsFollowedBy, AreFollowedBy, AreTurnedBy, AreSafe};

use crate::figures::{Acceleration, Axis, Figures, PerAxis, Speed};
use crate::refusal::FigureRefusal;
use crate::scale::Scale;

const GREATEST_RATE: u128 = 1_000_000;

const GREATEST_TURN: u128 = 1_000_000_000_000;

// In nanometres per second squared.
const GREATEST_ON_ARCS: u64 = 4_400_000_000_000;

/// The rates of a machine file, in millionths of a step per tick.
#[derive(Clone, Copy)]
pub(crate) struct Rates {
    pub ticks: u32,
    pub axis_rate: PerAxis<u32>,
    pub max_rate: u32,
    pub change: u32,
    pub changes: PerAxis<u32>,
    pub corner: u32,
    pub turn: u64,
    pub turns: PerAxis<u64>,
    pub jump: u32,
}

/// Returns the least of three accelerations, in nanometres per second squared.
pub(crate) fn least(accelerations: &PerAxis<Acceleration>) -> u64
    ensures { result ≡ least accelerations.now }
{
    accelerations
        .x
        .nanometres_a_second_squared
        .min(accelerations.y.nanometres_a_second_squared)
        .min(accelerations.z.nanometres_a_second_squared)
}

// Returns about two ticks for each step of the fastest axis, in whole thousands.
fn chosen_ticks(scale: &Scale, feed: &PerAxis<Speed>) -> u32
    requires { IsScale scale.now }
    ensures value { result ≡ chosen_ticks scale.now feed.now }
    ensures range { IsRate result }
{
    let fastest = feed
        .x
        .nanometres_a_minute
        .max(feed.y.nanometres_a_minute)
        .max(feed.z.nanometres_a_minute);
    let steps = u128::from(fastest) * u128::from(scale.steps);
    let thousands = steps / (30_000 * u128::from(scale.per)) + 1;
    (1_000 * thousands).clamp(10_000, 1_000_000) as u32
}

fn ticks_of(scale: &Scale, figures: &Figures) -> Result<u32, FigureRefusal>
    requires { IsScale scale.now }
    ensures value { result ≡ ticks_of scale.now figures.now }
    ensures range { IfOk result IsRate }
{
    match figures.ticks {
        None => Ok(chosen_ticks(scale, &figures.feed)),
        Some(ticks) if ticks < 1 || ticks > 1_000_000 => Err(FigureRefusal::Ticks),
        Some(ticks) => Ok(ticks),
    }
}

fn rate_of(scale: &Scale, ticks: u32, speed: Speed) -> u128
    requires scale { IsScale scale.now }
    requires ticks { IsRate ticks }
    ensures value { result ≡ rate_of scale.now ticks speed }
    ensures safe { IsNoFaster scale.now ticks result speed }
{
    let amount = u128::from(speed.nanometres_a_minute) * 1_000_000;
    scale.steps_in(amount, 60 * u128::from(ticks))
}

fn change_of(scale: &Scale, ticks: u32, acceleration: u64) -> u128
    requires scale { IsScale scale.now }
    requires ticks { IsRate ticks }
    ensures value { result ≡ change_of scale.now ticks acceleration }
    ensures safe { IsNoGreaterAcceleration scale.now ticks result acceleration }
{
    let amount = u128::from(acceleration) * 1_000_000;
    scale.steps_in(amount, u128::from(ticks) * u128::from(ticks))
}

/// Returns the acceleration towards the centre where an arc runs diagonally, in turns. `by_place`
/// tells whether the turn holds at every place.
pub(crate) fn diagonal_turns(by_place: bool) -> u128
    ensures value { result ≡ diagonal_turns by_place }
    ensures least { 1 ≤ result }
    ensures greatest { result ≤ 2 }
{
    if by_place { 1 } else { 2 }
}

fn turn_of(by_place: bool, scale: &Scale, ticks: u32, acceleration: u64) -> u128
    requires scale { IsScale scale.now }
    requires ticks { IsRate ticks }
    requires acceleration { acceleration ≤ 4400000000000 }
    ensures value { result ≡ turn_of by_place scale.now ticks acceleration }
    ensures safe { IsNoHarderOnArcs by_place scale.now ticks result acceleration }
{
    let amount = u128::from(acceleration) * 1_000_000_000_000;
    let turns = diagonal_turns(by_place);
    scale.steps_in(amount, turns * (u128::from(ticks) * u128::from(ticks)))
}

fn axis_rate(scale: &Scale, ticks: u32, speed: Speed, axis: Axis) -> Result<u32, FigureRefusal>
    requires scale { IsScale scale.now }
    requires ticks { IsRate ticks }
    ensures value { result ≡ axis_rate scale.now ticks speed axis }
    ensures range { IfOk result IsRate }
    ensures safe { IfOk result (λ rate. IsNoFaster scale.now ticks rate speed) }
{
    let rate = rate_of(scale, ticks, speed);
    if rate == 0 {
        return Err(FigureRefusal::SlowFeed(axis));
    }
    if rate > GREATEST_RATE {
        return Err(FigureRefusal::FastFeed(axis));
    }
    Ok(rate as u32)
}

fn axis_rates(
    scale: &Scale,
    ticks: u32,
    feed: &PerAxis<Speed>,
) -> Result<PerAxis<u32>, FigureRefusal>
    requires scale { IsScale scale.now }
    requires ticks { IsRate ticks }
    ensures value { result ≡ each_rate scale.now ticks feed.now }
    ensures range { IfOk result AreRates }
    ensures safe { IfOk result (λ rates. AreNoFaster scale.now ticks rates feed.now) }
{
    let x = axis_rate(scale, ticks, feed.x, Axis::X)?;
    let y = axis_rate(scale, ticks, feed.y, Axis::Y)?;
    let z = axis_rate(scale, ticks, feed.z, Axis::Z)?;
    Ok(PerAxis { x, y, z })
}

fn corner_of(scale: &Scale, ticks: u32, most: u32, speed: Speed) -> Result<u32, FigureRefusal>
    requires scale { IsScale scale.now }
    requires ticks { IsRate ticks }
    requires most { IsRate most }
    ensures value { result ≡ corner_of scale.now ticks most speed }
    ensures range { IfOk result IsRate }
    ensures safe { IfOk result (λ rate. IsNoFaster scale.now ticks rate speed) }
{
    let rate = rate_of(scale, ticks, speed).min(u128::from(most));
    if rate == 0 {
        return Err(FigureRefusal::SlowCorner);
    }
    Ok(rate as u32)
}

// Returns the rate of the jump: that of the corner, unless a speed is requested.
fn jump_of(scale: &Scale, ticks: u32, corner: u32, figures: &Figures) -> u32
    requires scale { IsScale scale.now }
    requires ticks { IsRate ticks }
    requires corner { IsRate corner }
    requires safe { IsNoFaster scale.now ticks corner figures.now.corner }
    ensures value { result ≡ jump_of scale.now ticks corner figures.now.jump }
    ensures range { result ≤ 1000000 }
    ensures safe { IsNoFaster scale.now ticks result (jump_speed figures.now) }
{
    match figures.jump {
        None => corner,
        Some(speed) => rate_of(scale, ticks, speed).min(GREATEST_RATE) as u32,
    }
}

// Returns a change that an axis can follow, at most a step per tick in each tick.
fn limited_change(
    scale: &Scale,
    ticks: u32,
    acceleration: Acceleration,
) -> Result<u32, FigureRefusal>
    requires scale { IsScale scale.now }
    requires ticks { IsRate ticks }
    ensures value { result ≡ limited_change scale.now ticks acceleration }
    ensures range { IfOk result IsRate }
    ensures safe { IfOk result (λ change. IsFollowedBy scale.now ticks change acceleration) }
{
    let change = change_of(scale, ticks, acceleration.nanometres_a_second_squared).min(
        GREATEST_RATE,
    );
    if change == 0 {
        return Err(FigureRefusal::LowAcceleration);
    }
    Ok(change as u32)
}

fn changes_of(
    scale: &Scale,
    ticks: u32,
    accelerations: &PerAxis<Acceleration>,
) -> Result<PerAxis<u32>, FigureRefusal>
    requires scale { IsScale scale.now }
    requires ticks { IsRate ticks }
    ensures value { result ≡ each_change scale.now ticks accelerations.now }
    ensures range { IfOk result AreRates }
    ensures safe { IfOk result (λ changes. AreFollowedBy scale.now ticks changes accelerations.now) }
{
    let x = limited_change(scale, ticks, accelerations.x)?;
    let y = limited_change(scale, ticks, accelerations.y)?;
    let z = limited_change(scale, ticks, accelerations.z)?;
    Ok(PerAxis { x, y, z })
}

fn limited_turn(
    by_place: bool,
    scale: &Scale,
    ticks: u32,
    acceleration: u64,
) -> Result<u64, FigureRefusal>
    requires scale { IsScale scale.now }
    requires ticks { IsRate ticks }
    ensures value { result ≡ limited_turn by_place scale.now ticks acceleration }
    ensures range { IfOk result IsTurn }
    ensures safe { IfOk result (λ turn.
        IsNoHarderOnArcs by_place scale.now ticks turn acceleration) }
{
    let acceleration = acceleration.min(GREATEST_ON_ARCS);
    let turn = turn_of(by_place, scale, ticks, acceleration).min(GREATEST_TURN);
    if turn == 0 {
        return Err(FigureRefusal::LowArcs);
    }
    Ok(turn as u64)
}

// Returns the turn for the requested acceleration towards the centre of an arc, or for another one
// if none is requested.
fn turn_by(
    scale: &Scale,
    ticks: u32,
    otherwise: u64,
    figures: &Figures,
) -> Result<u64, FigureRefusal>
    requires scale { IsScale scale.now }
    requires ticks { IsRate ticks }
    ensures value { result ≡ limited_turn figures.now.arc_feed scale.now ticks
        (arcs_by otherwise figures.now.arcs) }
    ensures range { IfOk result IsTurn }
    ensures safe { IfOk result (λ turn.
        IsNoHarderOnArcs figures.now.arc_feed scale.now ticks turn
        (arcs_by otherwise figures.now.arcs)) }
{
    let acceleration = match figures.arcs {
        Some(acceleration) => acceleration.nanometres_a_second_squared,
        None => otherwise,
    };
    limited_turn(figures.arc_feed, scale, ticks, acceleration)
}

fn turns_of(scale: &Scale, ticks: u32, figures: &Figures) -> Result<PerAxis<u64>, FigureRefusal>
    requires scale { IsScale scale.now }
    requires ticks { IsRate ticks }
    ensures value { result ≡ each_turn scale.now ticks figures.now }
    ensures range { IfOk result AreTurns }
    ensures safe { IfOk result (λ turns. AreTurnedBy scale.now ticks turns figures.now) }
{
    let own = &figures.acceleration;
    let x = turn_by(scale, ticks, own.x.nanometres_a_second_squared, figures)?;
    let y = turn_by(scale, ticks, own.y.nanometres_a_second_squared, figures)?;
    let z = turn_by(scale, ticks, own.z.nanometres_a_second_squared, figures)?;
    Ok(PerAxis { x, y, z })
}

/// Returns the rates of some figures, or the first that is refused.
pub(crate) fn rates_of(scale: &Scale, figures: &Figures) -> Result<Rates, FigureRefusal>
    requires { IsScale scale.now }
    ensures value { result ≡ rates_of scale.now figures.now }
    ensures range { IfOk result AreAllRates }
    ensures safe { IfOk result (λ rates. AreSafe scale.now rates figures.now) }
{
    let ticks = ticks_of(scale, figures)?;
    let axis_rate = axis_rates(scale, ticks, &figures.feed)?;
    let max_rate = axis_rate.x.max(axis_rate.y).max(axis_rate.z);
    let corner = corner_of(scale, ticks, max_rate, figures.corner)?;
    let changes = changes_of(scale, ticks, &figures.acceleration)?;
    let change = changes.x.min(changes.y).min(changes.z);
    let turn = turn_by(scale, ticks, least(&figures.acceleration), figures)?;
    let turns = turns_of(scale, ticks, figures)?;
    Ok(Rates {
        ticks,
        axis_rate,
        max_rate,
        change,
        changes,
        corner,
        turn,
        turns,
        jump: jump_of(scale, ticks, corner, figures),
    })
}
