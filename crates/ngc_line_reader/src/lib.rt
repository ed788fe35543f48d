//! Reads the text of RS274/NGC part programs (NISTIR 6556), line by line. `Program::read` pulls the
//! text from a source; a `ProgramReader` accepts it in pieces of any size.
#![tactic(auto)]

mod fault;
pub mod laws;
mod letter;
mod line;
mod number;
mod program;
mod real;
mod text;
mod token;
mod word;

pub use fault::{FaultKind, LineFault};
pub use letter::Letter;
pub use line::reading::read_line;
pub use line::{Line, LineView, RawSetting, RawWord};
pub use program::{Program, ProgramReader, ReadFault};
pub use token::{Operator, Symbol, Token};
pub use word::Word;
