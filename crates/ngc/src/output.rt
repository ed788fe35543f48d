use ngc_text::{DeviceFault, Sink};
use std::io::{self, Stdout, Write};

/// Standard output. It remembers whether its reader went away, as `head` does after its lines.
#[derive(Drop)]
pub struct Output {
    stdout: Stdout,
    failures: u64,
    is_closed: bool,
}

impl Output {
    /// Returns an output that has written nothing.
    pub fn new(stdout: Stdout) -> Output {
        Output {
            stdout,
            failures: 0,
            is_closed: false,
        }
    }

    /// Returns whether a write was refused because nobody reads any more.
    pub fn is_closed(&self) -> bool {
        self.is_closed
    }
}

impl Sink for Output {
    ghost use Rattle.std.specs.Prelude.{None};

    ghost written = { λ _. None };

    ghost failures = { λ o. o.failures };

    fn push(&mut self, buf: &[u8]) -> Result<usize, DeviceFault> {
        match self.stdout.write(buf) {
            Ok(count) if count > 0 || buf.is_empty() => return Ok(count),
            Ok(_) => {}
            Err(fault) => self.is_closed = fault.kind() == io::ErrorKind::BrokenPipe,
        }
        self.failures = self.failures.saturating_add(1);
        Err(DeviceFault)
    }
}
