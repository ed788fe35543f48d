ghost use Rattle.std.specs.Prelude.{◌≡◌, ◌<◌, []};
ghost use Rattle.arrayvec.specs.ArrayVec.{array_vec_len};
ghost use Rattle.ngc_page.specs.declared.lines.TheConstants.{LINES_LIMIT};

use arrayvec::ArrayVec;
use ngc_text::{DeviceFault, Sink};

/// The number of bytes of standard error that are stored. Bytes after them are lost.
pub const LINES_LIMIT: usize = 65_536;

/// Standard error, in memory that exists from the beginning, so that there is space for a fault's
/// line even after memory has run out.
#[derive(Drop)]
pub struct Lines {
    pub taken: ArrayVec<u8, LINES_LIMIT>,
    pub failures: u64,
    ghost is_full: { 0 < failures → array_vec_len taken ≡ LINES_LIMIT },
}

impl Lines {
    /// Returns no lines.
    pub fn new() -> Lines
        ensures taken { result.taken.items ≡ [] }
        ensures failures { result.failures ≡ 0 }
    {
        Lines {
            taken: ArrayVec::new(),
            failures: 0,
        }
    }
}

impl Sink for Lines {
    ghost use Rattle.std.specs.Prelude.{Some};

    ghost written = { λ l. Some l.taken.items };

    ghost failures = { λ l. l.failures };

    fn push(&mut self, buf: &[u8]) -> Result<usize, DeviceFault> {
        let count = buf.len().min(self.taken.remaining_capacity());
        if count == 0 && !buf.is_empty() {
            self.failures = self.failures.saturating_add(1);
            return Err(DeviceFault);
        }
        match self.taken.try_extend_from_slice(&buf[..count]) {
            Ok(()) => Ok(count),
            Err(_) => unreachable!(),
        }
    }
}
