ghost use Rattle.std.specs.Prelude.{◌≡◌, []};
ghost use Rattle.ngc_page.specs.Files.{bytes_of, job_bytes_of};

use ngc_line_reader::ReadFault;
use ngc_simulator::Files;
use ngc_text::{DeviceFault, Source};
use std::io::Read;

/// The remaining bytes of a file. Reading them never fails.
#[derive(Drop)]
pub struct PassedSource<'a> {
    rest: &'a [u8],
}

impl Source for PassedSource<'_> {
    ghost use Rattle.std.specs.Prelude.{Some};

    ghost remaining = { λ s. Some s.rest.now };

    ghost failures = { λ _. 0 };

    fn pull(&mut self, buf: &mut [u8]) -> Result<usize, DeviceFault> {
        match self.rest.read(buf) {
            Ok(count) => Ok(count),
            Err(_) => unreachable!(),
        }
    }
}

/// The files of a call, in memory. Any other file and standard input are empty, so each file can be
/// opened.
#[derive(Drop)]
pub struct PassedFiles<'a> {
    pub program: &'a [u8],
    pub machine: &'a [u8],
    pub tools: &'a [u8],
    pub certificate: &'a [u8],
}

impl PassedFiles<'_> {
    /// Returns empty files, for a command that reads none.
    pub fn none() -> PassedFiles<'static>
        ensures program { result.program.now ≡ [] }
        ensures machine { result.machine.now ≡ [] }
        ensures tools { result.tools.now ≡ [] }
        ensures certificate { result.certificate.now ≡ [] }
    {
        PassedFiles {
            program: b"",
            machine: b"",
            tools: b"",
            certificate: b"",
        }
    }
}

impl<'a> Files for PassedFiles<'a> {
    type R = PassedSource<'a>;

    ghost failures = { λ _. 0 };

    ghost bytes = { bytes_of };

    fn source(&mut self, name: Option<&str>) -> Result<PassedSource<'a>, ReadFault> {
        let rest = match name {
            Some("program") => self.program,
            Some("machine") => self.machine,
            Some("tools") => self.tools,
            Some("certificate") => self.certificate,
            _ => b"",
        };
        Ok(PassedSource { rest })
    }
}

/// A job file in memory. Any other file and standard input are empty, so each file can be opened.
#[derive(Drop)]
pub struct PassedJob<'a> {
    pub name: &'a str,
    pub job: &'a [u8],
}

impl<'a> Files for PassedJob<'a> {
    type R = PassedSource<'a>;

    ghost failures = { λ _. 0 };

    ghost bytes = { job_bytes_of };

    fn source(&mut self, name: Option<&str>) -> Result<PassedSource<'a>, ReadFault> {
        match name {
            Some(name) if name == self.name => Ok(PassedSource { rest: self.job }),
            _ => Ok(PassedSource { rest: b"" }),
        }
    }
}
