//! Figures from the texts of options.
ghost use Rattle.std.specs.Prelude.{◌≡◌};
ghost use Rattle.ngc_machine_maker.specs.declared.refusal.Field.TheVariants as fields;
ghost use Rattle.ngc_machine_maker.specs.Decimals.{number_in as spec_number_in, numbers_in as spec_numbers_in};
ghost use Rattle.ngc_machine_maker.specs.Options as spec;

use crate::decimal::{number_in, numbers_in};
use crate::figures::{
    Acceleration, Dump, End, Figures, Length, PerAxis, Ratio, Speed, StepsPerMillimetre,
};
use crate::motors::{finest, motors_of};
use crate::rates::least;
use crate::refusal::{Field, FigureRefusal};

/// The texts of the required options, and of the frame.
#[derive(Clone, Copy)]
pub struct Options<'a> {
    /// Steps per millimetre, as `800` or `188.976` for all axes, or as `100,100,400`.
    pub steps_per_mm: &'a [u8],
    /// The travel of X, Y and Z in millimetres, as `300,180,45`.
    pub travel: &'a [u8],
    /// The greatest speeds of X, Y and Z in millimetres per minute.
    pub feed: &'a [u8],
    /// The accelerations of X, Y and Z in millimetres per second squared.
    pub acceleration: &'a [u8],
    /// `low` or `high`: the end of each travel at which zero is. `None`: low on X and Y, high on Z.
    pub frame: Option<&'a [u8]>,
}

pub(crate) fn length_of(nanometres: u32) -> Length
    ensures { result ≡ spec.length_of nanometres }
{
    Length { nanometres }
}

fn speed_of(micrometres_a_minute: u32) -> Speed
    ensures { result ≡ spec.speed_of micrometres_a_minute }
{
    Speed {
        nanometres_a_minute: 1_000 * u64::from(micrometres_a_minute),
    }
}

pub(crate) fn acceleration_of(micrometres_a_second_squared: u32) -> Acceleration
    ensures { result ≡ spec.acceleration_of micrometres_a_second_squared }
{
    Acceleration {
        nanometres_a_second_squared: 1_000 * u64::from(micrometres_a_second_squared),
    }
}

pub(crate) fn lengths(numbers: &PerAxis<u32>) -> PerAxis<Length>
    ensures { result ≡ spec.each_of spec.length_of numbers.now }
{
    PerAxis {
        x: length_of(numbers.x),
        y: length_of(numbers.y),
        z: length_of(numbers.z),
    }
}

pub(crate) fn speeds(numbers: &PerAxis<u32>) -> PerAxis<Speed>
    ensures { result ≡ spec.each_of spec.speed_of numbers.now }
{
    PerAxis {
        x: speed_of(numbers.x),
        y: speed_of(numbers.y),
        z: speed_of(numbers.z),
    }
}

pub(crate) fn accelerations(numbers: &PerAxis<u32>) -> PerAxis<Acceleration>
    ensures { result ≡ spec.each_of spec.acceleration_of numbers.now }
{
    PerAxis {
        x: acceleration_of(numbers.x),
        y: acceleration_of(numbers.y),
        z: acceleration_of(numbers.z),
    }
}

// Returns one number for all axes, or three numbers.
fn all_or_each(text: &[u8]) -> Option<PerAxis<u32>>
    ensures { result ≡ spec.all_or_each (spec_number_in 6 text.now) (spec_numbers_in 6 text.now) }
{
    match number_in(text, 6) {
        Some(number) => Some(PerAxis {
            x: number,
            y: number,
            z: number,
        }),
        None => numbers_in(text, 6),
    }
}

fn motors_in(text: &[u8]) -> Result<PerAxis<StepsPerMillimetre>, FigureRefusal>
    ensures { result ≡ spec.motors_in text.now }
{
    match all_or_each(text) {
        None => Err(FigureRefusal::Unread(Field::Steps)),
        Some(numbers) => Ok(motors_of(&numbers)),
    }
}

fn lengths_in(field: Field, text: &[u8]) -> Result<PerAxis<Length>, FigureRefusal>
    ensures { result ≡ spec.lengths_in field text.now }
{
    match numbers_in(text, 6) {
        None => Err(FigureRefusal::Unread(field)),
        Some(numbers) => Ok(lengths(&numbers)),
    }
}

fn speeds_in(field: Field, text: &[u8]) -> Result<PerAxis<Speed>, FigureRefusal>
    ensures { result ≡ spec.speeds_in field text.now }
{
    match numbers_in(text, 3) {
        None => Err(FigureRefusal::Unread(field)),
        Some(numbers) => Ok(speeds(&numbers)),
    }
}

fn accelerations_in(field: Field, text: &[u8]) -> Result<PerAxis<Acceleration>, FigureRefusal>
    ensures { result ≡ spec.accelerations_in field text.now }
{
    match numbers_in(text, 3) {
        None => Err(FigureRefusal::Unread(field)),
        Some(numbers) => Ok(accelerations(&numbers)),
    }
}

pub(crate) fn all_at(end: End) -> PerAxis<End>
    ensures { result ≡ spec.same_for_all end }
{
    PerAxis {
        x: end,
        y: end,
        z: end,
    }
}

fn frame_in(text: &[u8]) -> Result<PerAxis<End>, FigureRefusal>
    ensures { result ≡ spec.frame_in text.now }
{
    if text == b"low".as_slice() {
        return Ok(all_at(End::Low));
    }
    if text == b"high".as_slice() {
        return Ok(all_at(End::High));
    }
    Err(FigureRefusal::Unread(Field::Frame))
}

fn frame_by(text: Option<&[u8]>) -> Result<PerAxis<End>, FigureRefusal>
    ensures { result ≡ spec.frame_by text.entry }
{
    match text {
        None => Ok(PerAxis {
            x: End::Low,
            y: End::Low,
            z: End::High,
        }),
        Some(text) => frame_in(text),
    }
}

// Returns the speed that the axis with the least acceleration reaches in 5 ms, and at least 2 mm/s,
// in whole thousandths of a millimetre per minute.
fn usual_corner(accelerations: &PerAxis<Acceleration>) -> Speed
    ensures { result ≡ spec.usual_corner accelerations.now }
{
    let reached = u128::from(least(accelerations)) * 5 * 60 / 1_000_000;
    Speed {
        nanometres_a_minute: 1_000 * (reached.max(120_000) as u64),
    }
}

/// Returns the figures of a machine that starts at zero. It has the usual corner speed, the same
/// jump, a ring of 256 commands, and arcs that run at their feed and their turn at every place. Its
/// programs are in our own language.
pub(crate) fn figures_by(
    motors: PerAxis<StepsPerMillimetre>,
    travel: PerAxis<Length>,
    feed: PerAxis<Speed>,
    acceleration: PerAxis<Acceleration>,
    zero: PerAxis<End>,
) -> Figures
    ensures { result ≡ spec.figures_by motors travel feed acceleration zero }
{
    Figures {
        scale: Ratio::of(finest(&motors)),
        motors,
        travel,
        feed,
        acceleration,
        corner: usual_corner(&acceleration),
        jump: None,
        arcs: None,
        ticks: None,
        ring: 256,
        arc_feed: true,
        far: true,
        grbl: false,
        zero,
        start: PerAxis {
            x: length_of(0),
            y: length_of(0),
            z: length_of(0),
        },
        home28: None,
        home30: None,
        dump: Dump::none(),
    }
}

impl Figures {
    /// Returns the figures in these options, or the first option that can't be read.
    pub fn from_options(options: &Options<'_>) -> Result<Figures, FigureRefusal>
        ensures { result ≡ spec.figures_of options.now }
    {
        let motors = motors_in(options.steps_per_mm)?;
        let travel = lengths_in(Field::Travel, options.travel)?;
        let feed = speeds_in(Field::Feed, options.feed)?;
        let acceleration = accelerations_in(Field::Acceleration, options.acceleration)?;
        let zero = frame_by(options.frame)?;
        Ok(figures_by(motors, travel, feed, acceleration, zero))
    }
}
