use ngc_text::{DeviceFault, Source};

/// A source of a text, and then of the same byte without end. It fills each buffer, and never
/// fails.
#[derive(Drop)]
pub struct EndlessSource<'a> {
    text: &'a [u8],
    byte: u8,
    /// The number of pulls so far.
    pub pulls: u64,
    /// The number of bytes returned so far.
    pub given: u64,
}

impl<'a> EndlessSource<'a> {
    /// Returns a source of `text`, and then of `byte` without end.
    pub fn new(text: &'a [u8], byte: u8) -> EndlessSource<'a> {
        EndlessSource {
            text,
            byte,
            pulls: 0,
            given: 0,
        }
    }
}

impl Source for EndlessSource<'_> {
    ghost use Rattle.std.specs.Prelude.{None};

    ghost remaining = { λ _. None };

    ghost failures = { λ _. 0 };

    fn pull(&mut self, buf: &mut [u8]) -> Result<usize, DeviceFault> {
        self.pulls = self.pulls.saturating_add(1);
        self.given = self.given.saturating_add(buf.len() as u64);
        buf.fill(self.byte);
        let count = self.text.len().min(buf.len());
        let (now, later) = self.text.split_at(count);
        buf[..count].copy_from_slice(now);
        self.text = later;
        Ok(buf.len())
    }
}
