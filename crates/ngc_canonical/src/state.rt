//! The state between two effects of a program.
ghost use Rattle.std.proofs.Props.{props};
ghost use Rattle.std.specs.Prelude.{◌≤◌, unsigned_abs, IfSome};
ghost use Rattle.ngc_offsets.specs.Ranges.{MACHINE_LIMIT, IsMachinePlace};

use crate::fault::Fault;
use ngc_commands::{Command, CoolantState};
use ngc_fixed_length::{Nm, Point3, Turn, Value};
use ngc_modal_state::Modes;
use ngc_offsets::Frames;
use ngc_parameters::Store;
use std::alloc::Allocator;

/// Why a line isn't executed: its fault, or lack of memory.
#[derive(Clone, Copy)]
pub enum LineRefusal {
    Breaks(Fault),
    Memory,
}

/// R, the bottom, P and Q of a canned cycle, for lines that leave them out.
#[derive(Clone, Copy)]
pub struct Kept {
    pub retract: Nm,
    pub bottom: Nm,
    /// In seconds.
    pub dwell: Value,
    pub peck: Nm,
}

/// Executes a program line by line: the state between two lines, and the commands so far.
#[derive(Drop)]
pub struct Interpreter<A: Allocator> {
    pub(crate) line: u32,
    pub(crate) modes: Modes,
    pub(crate) frames: Frames,
    pub(crate) store: Store<A>,
    pub(crate) place: Point3,
    /// In nanometres a minute.
    pub(crate) feed: u64,
    /// In millionths of a turn a minute.
    pub(crate) speed: u64,
    pub(crate) spindle: Option<Turn>,
    pub(crate) coolant: CoolantState,
    pub(crate) selected: u32,
    pub(crate) kept: Kept,
    /// The machine's height before the series of canned cycles, if one is in progress.
    pub(crate) series: Option<Nm>,
    pub(crate) commands: Vec<Command, A>,
    pub(crate) ended: bool,
    pub(crate) alloc: A,
    ghost place_in_range: { IsMachinePlace place },
    ghost series_in_range: { IfSome series (λ h. unsigned_abs h ≤ MACHINE_LIMIT) } by { Prim.hlevel props },
}
