ghost use Rattle.ngc.specs.Host.{failures_of};

use ngc_line_reader::ReadFault;
use ngc_simulator::Files;
use ngc_text::{Device, DeviceFault, Source};
use std::fs::File;
use std::io::Stdin;

/// A named file, or standard input.
#[derive(Drop)]
pub enum HostSource {
    Input(Device<Stdin>),
    Named(Device<File>),
}

impl Source for HostSource {
    ghost use Rattle.std.specs.Prelude.{None};

    ghost remaining = { λ _. None };

    ghost failures = { failures_of };

    fn pull(&mut self, buf: &mut [u8]) -> Result<usize, DeviceFault> {
        match self {
            HostSource::Input(input) => input.pull(buf),
            HostSource::Named(file) => file.pull(buf),
        }
    }
}

/// The files of the machine that the program runs on.
#[derive(Drop)]
pub struct HostFiles<'a> {
    rt: &'a HostRuntime,
    failures: u64,
    asked: String,
}

impl<'a> HostFiles<'a> {
    /// Returns the files of this computer, with no failure yet.
    pub fn new(rt: &'a HostRuntime) -> HostFiles<'a> {
        HostFiles {
            rt,
            failures: 0,
            asked: String::new(rt.alloc()),
        }
    }

    /// Returns the name of the file that was asked for last. It is empty where memory was refused for it.
    pub fn asked(&self) -> &str {
        self.asked.as_str()
    }
}

// Returns a copy of a file's name, or an empty text where memory is refused.
fn name_of(rt: &HostRuntime, name: Option<&str>) -> String {
    let alloc = rt.alloc();
    let name = name.unwrap_or("standard input");
    name.to_string(alloc).unwrap_or(String::new(alloc))
}

impl Files for HostFiles<'_> {
    ghost use Rattle.std.specs.Prelude.{None};

    type R = HostSource;

    ghost failures = { λ f. f.failures };

    ghost bytes = { λ _ _. None };

    fn source(&mut self, name: Option<&str>) -> Result<HostSource, ReadFault> {
        self.asked = name_of(self.rt, name);
        let Some(name) = name else {
            return Ok(HostSource::Input(Device::new(self.rt.stdin())));
        };
        match File::open(self.rt, name) {
            Ok(file) => Ok(HostSource::Named(Device::new(file))),
            Err(_) => {
                self.failures = self.failures.saturating_add(1);
                Err(ReadFault::Device)
            }
        }
    }
}
