//! The result of an accepted check.
ghost use Rattle.std.specs.Prelude.{◌≡◌};
ghost use Rattle.ngc_machine_files.specs.Machine.{file_of};
ghost use Rattle.ngc_machine_files.specs.Tools.{tools_of};
ghost use Rattle.ngc_checker.specs.Accepted.{commands_at, IsAccepted};
ghost use Rattle.ngc_checker.specs.Held.{accepted_of};

use ngc_commands::Command;
use ngc_job::Job;
use ngc_machine_files::{Machine, Tools};
use std::alloc::Allocator;
use std::marker::Model;

/// A program that was accepted on a machine with its tools: its commands at both settings of block
/// delete, and its own copies of machine and tools. There is a certificate that is valid for them:
/// `check`, `check_job`, `check_source`, `check_job_source` and `CheckReader` find out whether one is,
/// and a caller of `new` has proved it.
#[derive(Drop)]
pub struct Accepted<A: Allocator> {
    job: Job<A>,
}

impl<A: Allocator> Model for Accepted<A> {
    ghost use Rattle.ngc_checker.specs.Accepted.{AcceptedData, IsAccepted};
    ghost use Rattle.ngc_checker.specs.Held.{accepted_of};

    ghost Value = { AcceptedData };

    ghost view = { λ a. accepted_of a.job };

    ghost invariant = { λ a. IsAccepted (accepted_of a.job) };
}

impl<A: Allocator> Accepted<A> {
    /// Returns a job as accepted for which a certificate is valid at both settings of block delete.
    /// Nothing is tested: the `requires` says it.
    pub fn new(job: Job<A>) -> Accepted<A>
        requires { IsAccepted (accepted_of job) }
        ensures { result ≡ accepted_of job }
    {
        Accepted { job }
    }

    /// Returns the commands at a setting of block delete, in order of execution.
    pub fn commands(&self, block_delete: bool) -> &[Command]
        ensures { result.now ≡ commands_at block_delete self.now }
    {
        if block_delete {
            self.job.commands(true)
        } else {
            self.job.commands(false)
        }
    }

    /// Returns the machine.
    pub fn machine(&self) -> &Machine<A>
        ensures value { file_of result.now ≡ self.now.machine }
        // This holds for every accepted program.
        ensures accepted { IsAccepted self.now }
    {
        self.job.machine()
    }

    /// Returns the tools.
    pub fn tools(&self) -> &Tools<A>
        ensures { tools_of result.now ≡ self.now.tools }
    {
        self.job.tools()
    }
}
