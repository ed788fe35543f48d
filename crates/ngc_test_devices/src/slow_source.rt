use ngc_text::{DeviceFault, Source};

/// A source that returns a text slowly, and fails in place of one of its bytes or of its end.
#[derive(Drop)]
pub struct SlowSource<'a> {
    rest: &'a [u8],
    most: usize,
    failing: usize,
    /// The number of pulls that failed so far.
    pub failures: u64,
}

impl<'a> SlowSource<'a> {
    /// Returns a source of `text`, at most `most` bytes per pull. It fails in place of the byte at
    /// `failing`, and at each later pull. If `failing` is the text's length it fails in place of
    /// the end, and if it is greater it never fails.
    pub fn new(text: &'a [u8], most: usize, failing: usize) -> SlowSource<'a> {
        SlowSource {
            rest: text,
            most,
            failing,
            failures: 0,
        }
    }
}

impl Source for SlowSource<'_> {
    ghost use Rattle.std.specs.Prelude.{None};

    ghost remaining = { λ _. None };

    ghost failures = { λ s. s.failures };

    fn pull(&mut self, buf: &mut [u8]) -> Result<usize, DeviceFault> {
        if self.failing == 0 {
            self.failures = self.failures.saturating_add(1);
            return Err(DeviceFault);
        }
        let count = self
            .rest
            .len()
            .min(buf.len())
            .min(self.most)
            .min(self.failing);
        let (now, later) = self.rest.split_at(count);
        buf[..count].copy_from_slice(now);
        self.rest = later;
        self.failing -= count;
        Ok(count)
    }
}
