//! Text input and output: sources and sinks that count their failures, whole files up to a limit,
//! output in large pieces, decimal numbers, millimetres, and lines as a terminal shows them.
#![tactic(auto)]

mod chunk;
mod decimal;
mod device;
mod input_fault;
mod millimetres;
mod reading;
mod shown;
mod writing;

pub use chunk::Chunk;
pub use decimal::decimal_in;
pub use device::{Device, DeviceFault, Sink, Source};
pub use input_fault::InputFault;
pub use reading::{PULL_SIZE, read_whole};
pub use shown::shown_bytes;
pub use writing::{WriteFault, write_all};
