//! A machine file from the figures that a shop has. Each number is rounded to the safe side.
#![tactic(auto)]

mod choices;
mod decimal;
mod dump_lines;
mod figures;
mod file;
mod grbl;
mod line;
mod motors;
mod numbers;
mod options;
mod places;
mod rates;
mod refusal;
mod scale;
mod sentences;
mod shop_units;
mod stored;

pub use choices::Choices;
pub use decimal::{number_in, split_three};
pub use dump_lines::{are_zero, say_offset_after, say_supplied};
pub use figures::{
    Acceleration, Axis, Dump, End, Figures, Length, PerAxis, Ratio, Speed, StepsPerMillimetre,
    StoredPlaces, Supplied,
};
pub use file::{write_machine_file, write_notes};
pub use grbl::read_grbl;
pub use numbers::{MachineNumbers, numbers_of};
pub use options::Options;
pub use refusal::{Field, FigureRefusal, Stop, Stored};
pub use sentences::write_refusal;
