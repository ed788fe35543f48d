//! The optional settings of a machine, besides its figures.
ghost use Rattle.std.specs.Prelude.{◌≡◌};
ghost use Rattle.ngc_machine_maker.specs.Choices as spec;
ghost use Rattle.ngc_machine_maker.specs.Options.{second_speed_in};

use crate::decimal::{begins, number_in, split_three, without_first};
use crate::figures::{Acceleration, End, Figures, Length, PerAxis, Speed};
use crate::motors::checked_motors;
use crate::options::acceleration_of;
use crate::refusal::{Field, FigureRefusal, Stop};

/// The texts of the optional options.
#[derive(Clone, Copy)]
pub struct Choices<'a> {
    /// The speed that an axis may take up at once, in millimetres per second. `None`: what the axis
    /// with the least acceleration reaches in 5 ms, and at least 2.
    pub corner: Option<&'a [u8]>,
    /// The greatest change of an axis' speed where two motions meet, in millimetres per second.
    /// `None`: the corner speed. With 0 only the corner speed counts.
    pub jump: Option<&'a [u8]>,
    /// The greatest acceleration towards the centre of an arc, in millimetres per second squared.
    /// `None`: the least of the axes' accelerations.
    pub arcs: Option<&'a [u8]>,
    /// Ticks per second. `None`: about two for each step of the fastest axis.
    pub ticks: Option<&'a [u8]>,
    /// The greatest number of loaded commands that are not done, 16 to 1,024. `None`: 256.
    pub ring: Option<&'a [u8]>,
    /// Whether arcs run at their feed at every place. They do so by default.
    pub arc_feed: bool,
    /// Whether the file has rates, of version 2, which are in one step for all axes.
    pub rates: bool,
    /// The coordinates of the start in millimetres, as `0,0,-1`.
    pub start: Option<&'a [u8]>,
    /// The coordinates of the place to which `G28` goes. `None`: the start.
    pub home28: Option<&'a [u8]>,
    /// The coordinates of the place to which `G30` goes. `None`: the start.
    pub home30: Option<&'a [u8]>,
}

fn second_speed_in(field: Field, text: &[u8]) -> Result<Speed, FigureRefusal>
    ensures { result ≡ second_speed_in field text.now }
{
    match number_in(text, 3) {
        Some(number) if number <= 71_582_788 => Ok(Speed {
            nanometres_a_minute: 60_000 * u64::from(number),
        }),
        _ => Err(FigureRefusal::Unread(field)),
    }
}

fn corner_by(otherwise: Speed, text: Option<&[u8]>) -> Result<Speed, FigureRefusal>
    ensures { result ≡ spec.corner_by otherwise text.entry }
{
    match text {
        None => Ok(otherwise),
        Some(text) => second_speed_in(Field::Corner, text),
    }
}

fn jump_by(otherwise: Option<Speed>, text: Option<&[u8]>) -> Result<Option<Speed>, FigureRefusal>
    ensures { result ≡ spec.jump_by otherwise text.entry }
{
    match text {
        None => Ok(otherwise),
        Some(text) => {
            let speed = second_speed_in(Field::Jump, text)?;
            Ok(Some(speed))
        }
    }
}

fn arcs_in(text: &[u8]) -> Result<Option<Acceleration>, FigureRefusal>
    ensures { result ≡ spec.arcs_in text.now }
{
    match number_in(text, 3) {
        None => Err(FigureRefusal::Unread(Field::Arcs)),
        Some(number) => Ok(Some(acceleration_of(number))),
    }
}

fn arcs_by(
    otherwise: Option<Acceleration>,
    text: Option<&[u8]>,
) -> Result<Option<Acceleration>, FigureRefusal>
    ensures { result ≡ spec.arcs_by otherwise text.entry }
{
    match text {
        None => Ok(otherwise),
        Some(text) => arcs_in(text),
    }
}

fn ticks_in(text: &[u8]) -> Result<Option<u32>, FigureRefusal>
    ensures { result ≡ spec.ticks_in text.now }
{
    match number_in(text, 0) {
        None => Err(FigureRefusal::Unread(Field::Ticks)),
        Some(ticks) => Ok(Some(ticks)),
    }
}

fn ticks_by(otherwise: Option<u32>, text: Option<&[u8]>) -> Result<Option<u32>, FigureRefusal>
    ensures { result ≡ spec.ticks_by otherwise text.entry }
{
    match text {
        None => Ok(otherwise),
        Some(text) => ticks_in(text),
    }
}

fn ring_in(text: &[u8]) -> Result<u32, FigureRefusal>
    ensures { result ≡ spec.ring_in text.now }
{
    match number_in(text, 0) {
        None => Err(FigureRefusal::Unread(Field::Ring)),
        Some(ring) => Ok(ring),
    }
}

fn ring_by(otherwise: u32, text: Option<&[u8]>) -> Result<u32, FigureRefusal>
    ensures { result ≡ spec.ring_by otherwise text.entry }
{
    match text {
        None => Ok(otherwise),
        Some(text) => ring_in(text),
    }
}

fn zero_in(text: &[u8]) -> Option<u32>
    ensures { result ≡ spec.zero_in text.now }
{
    match number_in(text, 6) {
        Some(0) => Some(0),
        _ => None,
    }
}

// Returns the distance of a coordinate from zero, into the travel.
fn distance_in(zero: End, text: &[u8]) -> Option<u32>
    ensures { result ≡ spec.distance_in zero text.now }
{
    match zero {
        End::Low => number_in(text, 6),
        End::High => {
            if begins(b'-', text) {
                number_in(without_first(text), 6)
            } else {
                zero_in(text)
            }
        }
    }
}

fn distances_in(zero: &PerAxis<End>, text: &[u8]) -> Option<PerAxis<u32>>
    ensures { result ≡ spec.distances_in zero.now text.now }
{
    let (x, y, z) = split_three(text);
    match (
        distance_in(zero.x, x),
        distance_in(zero.y, y),
        distance_in(zero.z, z),
    ) {
        (Some(x), Some(y), Some(z)) => Some(PerAxis { x, y, z }),
        _ => None,
    }
}

fn place_in(zero: &PerAxis<End>, stop: Stop, text: &[u8]) -> Result<PerAxis<Length>, FigureRefusal>
    ensures { result ≡ spec.place_in zero.now stop text.now }
{
    match distances_in(zero, text) {
        None => Err(FigureRefusal::Unread(Field::Stop(stop))),
        Some(distances) => Ok(PerAxis {
            x: Length {
                nanometres: distances.x,
            },
            y: Length {
                nanometres: distances.y,
            },
            z: Length {
                nanometres: distances.z,
            },
        }),
    }
}

fn start_by(
    zero: &PerAxis<End>,
    otherwise: PerAxis<Length>,
    text: Option<&[u8]>,
) -> Result<PerAxis<Length>, FigureRefusal>
    ensures { result ≡ spec.start_by zero.now otherwise text.entry }
{
    match text {
        None => Ok(otherwise),
        Some(text) => place_in(zero, Stop::Start, text),
    }
}

fn home_by(
    zero: &PerAxis<End>,
    stop: Stop,
    otherwise: Option<PerAxis<Length>>,
    text: Option<&[u8]>,
) -> Result<Option<PerAxis<Length>>, FigureRefusal>
    ensures { result ≡ spec.home_by zero.now stop otherwise text.entry }
{
    match text {
        None => Ok(otherwise),
        Some(text) => {
            let place = place_in(zero, stop, text)?;
            Ok(Some(place))
        }
    }
}

impl Figures {
    /// Returns the figures with these choices, or the first choice that can't be read. It refuses
    /// motors whose step is out of range, and with rates motors whose steps differ.
    pub fn with_choices(&self, choices: &Choices<'_>) -> Result<Figures, FigureRefusal>
        ensures { result ≡ spec.chosen self.now choices.now }
    {
        let corner = corner_by(self.corner, choices.corner)?;
        let jump = jump_by(self.jump, choices.jump)?;
        let arcs = arcs_by(self.arcs, choices.arcs)?;
        let ticks = ticks_by(self.ticks, choices.ticks)?;
        let ring = ring_by(self.ring, choices.ring)?;
        let start = start_by(&self.zero, self.start, choices.start)?;
        let home28 = home_by(&self.zero, Stop::Home28, self.home28, choices.home28)?;
        let home30 = home_by(&self.zero, Stop::Home30, self.home30, choices.home30)?;
        let motors = checked_motors(choices.rates, &self.motors)?;
        Ok(Figures {
            scale: self.scale,
            motors,
            travel: self.travel,
            feed: self.feed,
            acceleration: self.acceleration,
            corner,
            jump,
            arcs,
            ticks,
            ring,
            arc_feed: self.arc_feed || choices.arc_feed,
            far: self.far && !choices.rates,
            grbl: self.grbl,
            zero: self.zero,
            start,
            home28,
            home30,
            dump: self.dump,
        })
    }
}
