ghost use Rattle.std.specs.Prelude.{◌≡◌, ◌+◌, ◌<◌, ◌≤◌, length, IfOk, IfSome, OnOk, vec_len};
ghost use Rattle.std.specs.Io.KnownBytes.{IsAtEnd};
ghost use Rattle.ngc_text.specs.Input.{ConsumesAtMost, FailsByDevice};

use crate::Source;
use crate::input_fault::InputFault;
use std::alloc::Allocator;

/// The number of bytes that one pull requests from a source.
pub const PULL_SIZE: usize = 16_384;

/// Returns all remaining bytes of a source, if they are at most `limit`.
pub fn read_whole<A: Allocator, R: Source>(
    alloc: A,
    source: &mut R,
    limit: usize,
) -> Result<Vec<u8, A>, InputFault>
    // All bytes up to the end of the source, if they are known.
    ensures whole { IfOk result (λ v. IfSome (R.remaining source.old) (λ bytes. v.items ≡ bytes)) }
    ensures end { OnOk result (IsAtEnd (R.remaining source.new)) }
    ensures within { IfOk result (λ v. vec_len v ≤ limit) }
    // Only a source with more bytes is too long.
    ensures long { result ≡ Err InputFault.TooLong →
        IfSome (R.remaining source.old) (λ bytes. limit < length bytes) }
    // The source failed if and only if the result says so.
    ensures device { FailsByDevice (R.failures source.old) (R.failures source.new) result }
    // In every case the source lost at most the limit and a chunk.
    ensures taken { ConsumesAtMost (R.remaining source.old) (R.remaining source.new)
        (limit + PULL_SIZE) }
{
    let mut bytes = Vec::new(alloc);
    let mut chunk = [0u8; PULL_SIZE];
    loop {
        let count = match source.pull(&mut chunk) {
            Ok(count) => count,
            Err(_) => return Err(InputFault::Device),
        };
        if count == 0 {
            return Ok(bytes);
        }
        if count > limit - bytes.len() {
            return Err(InputFault::TooLong);
        }
        if bytes.extend_from_slice(&chunk[..count]).is_err() {
            return Err(InputFault::Memory);
        }
    }
}
