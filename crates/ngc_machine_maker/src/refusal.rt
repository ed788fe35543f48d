//! The reasons why figures are refused.

use crate::figures::{Axis, PerAxis, StepsPerMillimetre};

/// A place at which all axes stop.
#[derive(Clone, Copy)]
pub enum Stop {
    Start,
    Home28,
    Home30,
}

/// An option.
#[derive(Clone, Copy)]
pub enum Field {
    Steps,
    Travel,
    Feed,
    Acceleration,
    Frame,
    Corner,
    Jump,
    Arcs,
    Ticks,
    Ring,
    Stop(Stop),
}

/// A place that a controller with GRBL stores.
#[derive(Clone, Copy)]
pub enum Stored {
    G54,
    G55,
    G56,
    G57,
    G58,
    G59,
    G28,
    G30,
    G92,
}

/// The reasons why no machine file is made of some figures.
#[derive(Clone, Copy)]
pub enum FigureRefusal {
    /// The text of an option can't be read.
    Unread(Field),
    /// A motor's step is not from 500 to 50,000 nm, or its ratio is over more than 2^40 nm.
    Step,
    /// The ticks per second are not from 1 to 1,000,000.
    Ticks,
    /// The ring is not from 16 to 1,024 commands.
    Ring,
    /// The axis moves less than a millionth of a step per tick.
    SlowFeed(Axis),
    /// The axis moves more than a step per tick.
    FastFeed(Axis),
    /// The corner speed is less than a millionth of a step per tick.
    SlowCorner,
    /// The acceleration is less than a millionth of a step per tick in each tick.
    LowAcceleration,
    /// The acceleration on arcs rounds to nothing.
    LowArcs,
    /// The travel is shorter than a step, or longer than 1,000 mm, in a file with rates.
    Travel(Axis),
    /// The travel is shorter than a step, or longer than 3,999 mm.
    FarTravel(Axis),
    /// The place is outside the travel.
    Outside(Stop, Axis),
    /// The setting with this number is missing.
    Missing(u32),
    /// The value of the setting with this number, on the line with that number, is no number.
    Setting(u32, usize),
    /// The value of the setting with this number, on the line with that number, is below zero.
    Negative(u32, usize),
    /// The value of the setting with this number, on the line with that number, is a number with too
    /// many digits.
    Digits(u32, usize),
    /// The place on the line with this number can't be read, or is farther than 4,000 mm from zero.
    FarPlace(Stored, usize),
    /// The place on the line with this number can't be read, or is farther than 1,000 mm from zero, in
    /// a file with rates.
    Place(Stored, usize),
    /// The motors' steps differ from axis to axis, and rates are in one step for all axes.
    UnequalSteps(PerAxis<StepsPerMillimetre>),
}
