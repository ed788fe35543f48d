ghost use Rattle.std.specs.Prelude.{◌≡◌, ◌<◌, ◌≤◌, ℕ, List, length, IfOk, Option};
ghost use Rattle.std.specs.Io.KnownBytes.{ReadConsumes, WriteAppends};
ghost use Rattle.ngc_text.specs.Device.{inner_of, failures_of};
ghost use Rattle.ngc_text.specs.Failures.{CountsFailure};

use std::io::{Read, Write};

/// A device returned a fault, or accepted none of some bytes.
#[derive(Clone, Copy)]
pub struct DeviceFault;

/// A source of bytes.
pub trait Source {
    // The remaining bytes, if they are known.
    ghost remaining: { Self → Option (List ℕ) };

    // How many pulls have returned a fault so far.
    ghost failures: { Self → ℕ };

    /// Fills a prefix of `buf` and returns its length. If `buf` is not empty, 0 bytes mean the end.
    fn pull(&mut self, buf: &mut [u8]) -> Result<usize, DeviceFault>
        ensures bound { IfOk result (λ n. n ≤ length buf.new) }
        ensures bytes { ReadConsumes (remaining self.old) (remaining self.new) result buf.new }
        ensures counts { CountsFailure (failures self.old) (failures self.new) result };
}

/// A sink that accepts bytes.
pub trait Sink {
    // The bytes accepted so far, if they are known.
    ghost written: { Self → Option (List ℕ) };

    // How many pushes have returned a fault so far.
    ghost failures: { Self → ℕ };

    /// Accepts a prefix of `buf` and returns its length: at least one byte if there are any.
    fn push(&mut self, buf: &[u8]) -> Result<usize, DeviceFault>
        ensures bound { IfOk result (λ n. n ≤ length buf.now) }
        ensures takes { IfOk result (λ n. 0 < length buf.now → 0 < n) }
        ensures bytes { WriteAppends (written self.old) (written self.new) result buf.now }
        ensures counts { CountsFailure (failures self.old) (failures self.new) result };
}

/// A reader or writer of std, with its count of failures.
#[derive(Drop)]
pub struct Device<T> {
    inner: T,
    failures: u64,
}

impl<T> Device<T> {
    /// Returns the device round a source or a sink, with no failure yet.
    pub fn new(inner: T) -> Device<T>
        ensures inner { inner_of result ≡ inner }
        ensures failures { failures_of result ≡ 0 }
    {
        Device { inner, failures: 0 }
    }

    /// Returns the source or the sink.
    pub fn into_inner(self) -> T
        ensures { result ≡ inner_of self }
    {
        let Device { inner, failures: _ } = self;
        inner
    }
}

impl<T: Read> Source for Device<T> {
    ghost remaining = { λ d. T.remaining (inner_of d) };

    ghost failures = { failures_of };

    fn pull(&mut self, buf: &mut [u8]) -> Result<usize, DeviceFault> {
        match self.inner.read(buf) {
            Ok(count) => Ok(count),
            Err(_) => {
                self.failures = self.failures.saturating_add(1);
                Err(DeviceFault)
            }
        }
    }
}

impl<T: Write> Sink for Device<T> {
    ghost written = { λ d. T.contents (inner_of d) };

    ghost failures = { failures_of };

    fn push(&mut self, buf: &[u8]) -> Result<usize, DeviceFault> {
        match self.inner.write(buf) {
            Ok(count) if count > 0 || buf.is_empty() => Ok(count),
            _ => {
                self.failures = self.failures.saturating_add(1);
                Err(DeviceFault)
            }
        }
    }
}
