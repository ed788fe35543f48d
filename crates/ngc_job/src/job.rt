ghost use Rattle.std.specs.Prelude.{◌≡◌, List, is_some, option_map};
ghost use Rattle.ngc_line_reader.specs.Grammar.{Reading};
ghost use Rattle.ngc_line_reader.specs.ProgramText.{AreReadings};
ghost use Rattle.ngc_line_reader.specs.ProgramView.{text_in};
ghost use Rattle.ngc_machine_files.specs.Machine.{file_of};
ghost use Rattle.ngc_machine_files.specs.Tools.{tools_of};
ghost use Rattle.ngc_canonical.specs.Interpreter.{setup_of};
ghost use Rattle.ngc_canonical.specs.Meaning.{parsed_program};
ghost use Rattle.ngc_job.specs.Job.{JobResultIs, IsJob, commands_in};

use ngc_canonical::{ProgramFault, has_deleted_lines, interpret};
use ngc_certificate_text::Setting;
use ngc_commands::Command;
use ngc_line_reader::Program;
use ngc_machine_files::{Machine, Tools};
use std::alloc::Allocator;
use std::marker::Model;
use thiserror::Error;

/// The reason why a program has no job: its fault, or lack of memory, and the setting of block
/// delete.
#[derive(Clone, Copy, Debug, Error)]
#[error("the program is refused: {fault}")]
pub struct JobFault {
    /// The setting at which it is refused: `On` only if it isn't refused at `Off`.
    pub setting: Setting,
    pub fault: ProgramFault,
}

/// A program that is ready to run on a machine: the machine, its tools, and the commands at both
/// settings of block delete. They are stored twice only if a line begins with `/`.
#[derive(Drop)]
pub struct Job<A: Allocator> {
    machine: Machine<A>,
    tools: Tools<A>,
    off: Vec<Command, A>,
    on: Option<Vec<Command, A>>,
}

impl<A: Allocator> Model for Job<A> {
    ghost use Rattle.std.specs.Prelude.{option_map};
    ghost use Rattle.ngc_machine_files.specs.Machine.{file_of};
    ghost use Rattle.ngc_machine_files.specs.Tools.{tools_of};
    ghost use Rattle.ngc_job.specs.Job.{JobData, IsJob};

    ghost Value = { JobData };

    ghost view = { λ j. record {
      machine = file_of j.machine;
      tools = tools_of j.tools;
      off = j.off.items;
      on = option_map (λ v. v.items) j.on;
    } };

    ghost invariant = { λ j. IsJob (record {
      machine = file_of j.machine;
      tools = tools_of j.tools;
      off = j.off.items;
      on = option_map (λ v. v.items) j.on;
    }) };
}

impl<A: Allocator> Job<A> {
    /// Executes a program on a machine with its tools: with block delete off, and then, if a line
    /// begins with `/`, with block delete on. It returns the first fault: a refusal of the program
    /// (101, 102, 120, 131 to 133, 201 to 252), or lack of memory (900). It then drops machine and
    /// tools.
    pub fn new(
        alloc: A,
        program: &Program<A>,
        machine: Machine<A>,
        tools: Tools<A>,
    ) -> Result<Job<A>, JobFault>
    where
        A: Copy,
        // This holds for all readings of the lines: each line has exactly one.
        ensures { (rs : List Reading) → AreReadings (text_in program.now).lines rs →
            JobResultIs (λ j. j) (parsed_program (text_in program.now) rs) (setup_of machine tools)
            result }
    {
        let off = match interpret(alloc, program, &machine, &tools, false) {
            Ok(commands) => commands,
            Err(fault) => {
                return Err(JobFault {
                    setting: Setting::Off,
                    fault,
                });
            }
        };
        let on = if has_deleted_lines(program) {
            match interpret(alloc, program, &machine, &tools, true) {
                Ok(commands) => Some(commands),
                Err(fault) => {
                    return Err(JobFault {
                        setting: Setting::On,
                        fault,
                    });
                }
            }
        } else {
            None
        };
        Ok(Job {
            machine,
            tools,
            off,
            on,
        })
    }

    /// Returns the job of commands that were made for this machine with these tools: those with
    /// block delete off, and those with block delete on if a line begins with `/`.
    pub fn from_commands(
        machine: Machine<A>,
        tools: Tools<A>,
        off: Vec<Command, A>,
        on: Option<Vec<Command, A>>,
    ) -> Job<A>
        requires { IsJob (record {
          machine = file_of machine;
          tools = tools_of tools;
          off = off.items;
          on = option_map (λ v. v.items) on;
        }) }
        ensures { result ≡ record {
          machine = file_of machine;
          tools = tools_of tools;
          off = off.items;
          on = option_map (λ v. v.items) on;
        } }
    {
        Job {
            machine,
            tools,
            off,
            on,
        }
    }

    /// Returns the commands at a setting of block delete, in order of execution.
    pub fn commands(&self, block_delete: bool) -> &[Command]
        ensures { result.now ≡ commands_in block_delete self.now }
    {
        match &self.on {
            Some(on) if block_delete => on.as_slice(),
            _ => self.off.as_slice(),
        }
    }

    /// Returns whether a line of the program begins with `/`. If none does, the commands are the
    /// same at both settings of block delete.
    pub fn has_deleted_lines(&self) -> bool
        ensures { result ≡ is_some self.now.on }
    {
        self.on.is_some()
    }

    /// Returns the machine.
    pub fn machine(&self) -> &Machine<A>
        ensures value { file_of result.now ≡ self.now.machine }
        // This holds for every job.
        ensures job { IsJob self.now }
    {
        &self.machine
    }

    /// Returns the tools.
    pub fn tools(&self) -> &Tools<A>
        ensures { tools_of result.now ≡ self.now.tools }
    {
        &self.tools
    }
}
