//! What is written in a job file. `None` is a key that the file doesn't have.

use ngc_dialect_names::Dialect;
use ngc_machine_figures::{BoxSheet, FileRefusal, Length, StockSheet, System};
use ngc_machine_files::{Name, Rapids};
use ngc_quantities::Place;

/// The files that a job file names, as it writes them.
#[derive(Clone, Copy)]
pub struct JobPaths<'a> {
    pub machine: Option<&'a str>,
    pub tools: Option<&'a str>,
}

/// A box that is in the way in one job, such as a clamp.
#[derive(Clone, Copy)]
pub struct JobFixture {
    pub name: Option<Name>,
    /// The coordinate system of the corners. `None` is the machine's own.
    pub system: Option<System>,
    pub corners: BoxSheet,
}

/// What is written before the fixtures, without the files.
#[derive(Clone, Copy)]
pub struct JobHead {
    pub dialect: Option<Dialect>,
    pub margin: Option<Length>,
    pub travel_margin: Option<Length>,
    /// The ways of traverses.
    pub rapids: Option<Rapids>,
    /// The origins of G54 to G59.3, in nanometres.
    pub origins: [Option<Place>; 9],
    pub stock: Option<StockSheet>,
}

/// What is written in a job file.
#[derive(Drop)]
pub struct JobSheet<'a> {
    pub paths: JobPaths<'a>,
    pub head: JobHead,
    /// At most 16, in the file's order.
    pub fixtures: Vec<JobFixture>,
}

/// Why there is no sheet of a job file.
#[derive(Clone, Copy)]
pub enum JobFault {
    /// Memory was refused.
    Memory,
    /// The file has a mistake.
    Refused(FileRefusal),
}
