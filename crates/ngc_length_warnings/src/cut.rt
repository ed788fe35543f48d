use ngc_fixed_length::System;
use ngc_machine_files::Name;

/// The boxes of a machine that may count from the origin of a coordinate system.
#[derive(Clone, Copy)]
pub enum Boxes {
    Fixtures,
    /// The block of material.
    Block,
}

/// A motion that cuts with no tool length offset in force, though its tool reaches below the spindle
/// nose.
#[derive(Clone, Copy)]
pub struct BareCut {
    /// The number of the line in the file, from 1.
    pub line: u32,
    /// The number of the tool.
    pub tool: u32,
    /// How far the tool reaches below the spindle nose, in nanometres, above 0.
    pub reach: u64,
    /// The coordinate system of the motion.
    pub system: System,
}

/// The first of the fixtures that count from a coordinate system.
#[derive(Clone, Copy)]
pub(crate) struct FirstFixture {
    /// Its number, from 0.
    pub(crate) number: usize,
    pub(crate) name: Name,
    /// How many fixtures after it count from there too.
    pub(crate) more: usize,
}
