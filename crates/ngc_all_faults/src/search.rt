//! The search for all faults of a text.
ghost use Rattle.std.specs.Prelude.{◌≡◌, IfOk, Some, None};
ghost use Rattle.ngc_canonical.specs.Interpreter.{setup_of};
ghost use Rattle.ngc_all_faults.specs.Faults.{AreFaults, IsFirst};

use crate::emptied::emptied;
use crate::text_fault::TextFault;
use ngc_canonical::{ProgramFault, interpret};
use ngc_line_reader::{Program, ReadFault};
use ngc_machine_files::{Machine, Tools};
use ngc_text::Device;
use std::alloc::Allocator;
use thiserror::Error;

/// The greatest number of faults that the search returns.
pub const MOST_FAULTS: usize = 100;

/// Too little memory for the program or for the faults.
#[derive(Clone, Copy, Debug, Error)]
#[error("out of memory")]
pub struct OutOfMemory;

// Returns the first fault of a text: why it can't be read, or else why the program is refused.
fn first_fault<A: Allocator + Copy>(
    alloc: A,
    text: &[u8],
    machine: &Machine<A>,
    tools: &Tools<A>,
    block_delete: bool,
) -> Result<Option<TextFault>, OutOfMemory>
    ensures { IfOk result
        (IsFirst (setup_of machine.now tools.now) block_delete text.now) }
{
    let mut source = Device::new(text);
    let program = match Program::read(alloc, &mut source) {
        Ok(program) => program,
        Err(ReadFault::Memory | ReadFault::Device) => return Err(OutOfMemory),
        Err(fault) => return Ok(Some(TextFault::Unread(fault))),
    };
    match interpret(alloc, &program, machine, tools, block_delete) {
        Ok(_commands) => Ok(None),
        Err(ProgramFault::At { line, fault }) => Ok(Some(TextFault::Refused { line, fault })),
        Err(ProgramFault::Memory) => Err(OutOfMemory),
    }
}

/// Returns the faults of a text on a machine with its tools, at a setting of block delete: the
/// first, then the first of the text in which that line is empty, and so on. There are at most
/// `MOST_FAULTS`, and none if the program has a meaning. First come the lines that can't be read,
/// by their numbers, then those that are refused. A fault of no line is the last.
///
/// It reads and executes the program once for each fault.
pub fn faults_of<A: Allocator + Copy>(
    alloc: A,
    text: &[u8],
    machine: &Machine<A>,
    tools: &Tools<A>,
    block_delete: bool,
) -> Result<Vec<TextFault, A>, OutOfMemory>
    ensures { IfOk result (λ v. AreFaults (setup_of machine.now tools.now) block_delete MOST_FAULTS
        (Some text.now) v.items) }
{
    let mut found = Vec::new(alloc);
    let mut rest = Vec::new(alloc);
    match rest.extend_from_slice(text) {
        Ok(()) => {}
        Err(_) => return Err(OutOfMemory),
    }
    for round in 0..MOST_FAULTS {
        let fault = match first_fault(alloc, rest.as_slice(), machine, tools, block_delete) {
            Ok(Some(fault)) => fault,
            Ok(None) => return Ok(found),
            Err(fault) => return Err(fault),
        };
        match found.push(fault) {
            Ok(()) => {}
            Err(_) => return Err(OutOfMemory),
        }
        let line = match fault.line() {
            Some(line) => line,
            None => return Ok(found),
        };
        rest = match emptied(alloc, line, rest.as_slice()) {
            Ok(rest) => rest,
            Err(_) => return Err(OutOfMemory),
        };
    }
    Ok(found)
}
