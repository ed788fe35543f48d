use crate::run_time::RunTime;
use std::alloc::Allocator;
use std::marker::Model;

/// The time of a program on a machine: the whole run, and the ticks of each part. The first part
/// ends with the first change of the tool. Each later one begins there and ends with the next
/// change, or with the program.
#[derive(Drop)]
pub(crate) struct ProgramTime<A: Allocator> {
    pub(crate) whole: RunTime,
    pub(crate) parts: Vec<u128, A>,
}

impl<A: Allocator> Model for ProgramTime<A> {
    ghost use Rattle.ngc_program_report.specs.Times.{ProgramTimeData};

    ghost Value = { ProgramTimeData };

    ghost view = { λ t. record { whole = t.whole; parts = t.parts.items } };

    ghost invariant = { λ t. Unit {0} };
}
