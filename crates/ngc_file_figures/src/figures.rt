//! The figures of a machine file, and of both files.
ghost use Rattle.std.specs.Prelude.{◌≡◌, min};
ghost use Rattle.ngc_file_figures.specs.Files as spec;

use crate::limits::ToolLimits;
use std::alloc::Global;

/// A figure of each axis.
#[derive(Clone, Copy)]
pub struct AxisFigures {
    pub x: u64,
    pub y: u64,
    pub z: u64,
}

/// The figures of a machine file of version 3, as they are written. `None` is a key that the file
/// doesn't have.
#[derive(Clone, Copy)]
pub struct MachineFigures {
    /// The greatest speeds, in nanometres per minute.
    pub speeds: AxisFigures,
    /// The accelerations, in nanometres per second squared.
    pub accelerations: AxisFigures,
    /// The greatest speed where the direction changes, in nanometres per minute.
    pub corner: Option<u64>,
    /// The greatest change of an axis' speed where two motions meet, in nanometres per minute.
    pub jump: Option<u64>,
    /// The greatest acceleration towards the centre of an arc, in nanometres per second squared.
    pub turn: Option<u64>,
}

/// What a machine file and a tool table say besides the machine and its tools.
#[derive(Clone, Copy)]
pub struct FileFigures<'a> {
    /// `None` unless the machine file has version 3.
    pub machine: Option<MachineFigures>,
    /// One for each tool, in the table's order, if the table has version 3; otherwise none.
    pub tools: &'a [ToolLimits],
}

/// Returns the greatest speed of each axis.
pub fn speeds_of(figures: &Option<MachineFigures>) -> Option<AxisFigures>
    ensures { result ≡ spec.speeds_of figures.now }
{
    match figures {
        Some(figures) => Some(figures.speeds),
        None => None,
    }
}

fn lesser(a: u64, b: u64) -> u64
    ensures { result ≡ min a b }
{
    if a <= b { a } else { b }
}

fn least(figures: &AxisFigures) -> u64
    ensures { result ≡ spec.least figures.now }
{
    lesser(lesser(figures.x, figures.y), figures.z)
}

/// Returns the least of the axes' accelerations.
pub fn acceleration_of(figures: &Option<MachineFigures>) -> Option<u64>
    ensures { result ≡ spec.acceleration_of figures.now }
{
    match figures {
        Some(figures) => Some(least(&figures.accelerations)),
        None => None,
    }
}

/// Returns the greatest speed where the direction changes.
pub fn corner_of(figures: &Option<MachineFigures>) -> Option<u64>
    ensures { result ≡ spec.corner_of figures.now }
{
    match figures {
        Some(figures) => figures.corner,
        None => None,
    }
}

/// Returns the greatest change of an axis' speed where two motions meet.
pub fn jump_of(figures: &Option<MachineFigures>) -> Option<u64>
    ensures { result ≡ spec.jump_of figures.now }
{
    match figures {
        Some(figures) => figures.jump,
        None => None,
    }
}

/// Returns the greatest acceleration towards the centre of an arc.
pub fn turn_of(figures: &Option<MachineFigures>) -> Option<u64>
    ensures { result ≡ spec.turn_of figures.now }
{
    match figures {
        Some(figures) => figures.turn,
        None => None,
    }
}

/// What a machine file and a tool table say besides the machine and its tools, with a list of its own.
#[derive(Drop)]
pub struct StoredFigures {
    /// `None` unless the machine file has version 3.
    pub machine: Option<MachineFigures>,
    /// One for each tool, in the table's order, if the table has version 3; otherwise none.
    pub tools: Vec<ToolLimits>,
}

impl StoredFigures {
    /// Returns the figures of files that aren't of version 3. It allocates nothing.
    pub fn none(alloc: Global) -> StoredFigures
        ensures { spec.stored result ≡ spec.no_figures }
    {
        StoredFigures {
            machine: None,
            tools: Vec::new(alloc),
        }
    }

    /// Returns the figures.
    pub fn borrowed(&self) -> FileFigures<'_>
        ensures { spec.values_of result ≡ spec.stored self.now }
    {
        FileFigures {
            machine: self.machine,
            tools: self.tools.as_slice(),
        }
    }
}
