use ngc_text::{DeviceFault, Sink};
use std::alloc::Global;

/// A sink that accepts bytes for a number of calls, and fails at each later one.
#[derive(Drop)]
pub struct FailingSink {
    /// The bytes accepted so far.
    pub taken: Vec<u8>,
    most: usize,
    calls_left: usize,
    /// The number of pushes that failed so far.
    pub failures: u64,
}

impl FailingSink {
    /// Returns a sink that accepts at most `most` bytes per call, but at least one, for
    /// `calls_left` calls. A push of no bytes does not count as a call, and never fails. If memory
    /// for the accepted bytes is refused, it fails earlier.
    pub fn new(alloc: Global, calls_left: usize, most: usize) -> FailingSink {
        FailingSink {
            taken: Vec::new(alloc),
            most,
            calls_left,
            failures: 0,
        }
    }
}

impl Sink for FailingSink {
    ghost use Rattle.std.specs.Prelude.{None};

    ghost written = { λ _. None };

    ghost failures = { λ s. s.failures };

    fn push(&mut self, buf: &[u8]) -> Result<usize, DeviceFault> {
        if buf.is_empty() {
            return Ok(0);
        }
        let count = buf.len().min(self.most).max(1);
        if self.calls_left == 0 || self.taken.extend_from_slice(&buf[..count]).is_err() {
            self.failures = self.failures.saturating_add(1);
            return Err(DeviceFault);
        }
        self.calls_left -= 1;
        Ok(count)
    }
}
