//! The stream of a picture's data.
ghost use Rattle.std.specs.Prelude.{◌≡◌, ◌<◌, ◌≤◌, ◌++◌, ◌∷◌, [], List, ℕ, length, IfOk, OnOk, OnErr, codes};
ghost use Rattle.std.specs.Int.{w32, to_be_bytes};
ghost use Rattle.std.specs.Io.KnownBytes.{Appends};
ghost use Rattle.ngc_text.specs.Failures.{CountsFailure};
ghost use Rattle.ngc_text.specs.Written.{AppendsPrefix};
ghost use Rattle.ngc_map_picture.specs.Checks.{adler};
ghost use Rattle.ngc_map_picture.specs.Blocks.{SIZE, block, chunk, full_blocks, begun};
ghost use Rattle.ngc_map_picture.specs.Streams.{AreSums, AddsData};

use crate::chunk::{write_block, write_chunk};
use crate::sums::Sums;
use arrayvec::ArrayVec;
use ngc_text::{Sink, WriteFault};

const BLOCK_SIZE: usize = 16_000;

/// A stream of data: the bytes after the last block that is written, and the sums of all data.
#[derive(Drop)]
pub(crate) struct Stream {
    pub(crate) waiting: ArrayVec<u8, BLOCK_SIZE>,
    pub(crate) sums: Sums,
}

/// Writes what a stream begins with. After a fault a prefix of it is written.
pub(crate) fn begin<W: Sink>(sink: &mut W) -> Result<Stream, WriteFault>
    ensures ok { OnOk result (Appends (W.written sink.old) (W.written sink.new) begun) }
    ensures empty { IfOk result (λ s. s.waiting.items ≡ []) }
    ensures sums { IfOk result (λ s. AreSums s.sums []) }
    ensures fault { OnErr result (AppendsPrefix (W.written sink.old) (W.written sink.new) begun) }
    ensures counts { CountsFailure (W.failures sink.old) (W.failures sink.new) result }
{
    match write_chunk(b"IDAT", b"", &[120, 1], sink) {
        Ok(()) => Ok(Stream {
            waiting: ArrayVec::new(),
            sums: Sums::new(),
        }),
        Err(fault) => Err(fault),
    }
}

/// Adds a byte, and writes the block that is full with it.
///
/// After a fault a prefix of that block is written.
pub(crate) fn add<W: Sink>(stream: &mut Stream, byte: u8, sink: &mut W) -> Result<(), WriteFault>
    requires { length stream.old.waiting.items < SIZE }
    ensures ok { OnOk result
        (AddsData (W.written sink.old) (W.written sink.new) stream.old stream.new (byte ∷ [])) }
    ensures fault { OnErr result
        (AppendsPrefix (W.written sink.old) (W.written sink.new)
        (full_blocks (stream.old.waiting.items ++ byte ∷ []))) }
    ensures counts { CountsFailure (W.failures sink.old) (W.failures sink.new) result }
{
    stream.sums.add(byte);
    stream.waiting.push(byte);
    if stream.waiting.len() < BLOCK_SIZE {
        return Ok(());
    }
    match write_block(0, stream.waiting.as_slice(), sink) {
        Ok(()) => {
            stream.waiting.clear();
            Ok(())
        }
        Err(fault) => Err(fault),
    }
}

/// Writes the waiting bytes as the last block, and the checksum. After a fault a prefix of them is
/// written.
pub(crate) fn finish<W: Sink>(stream: &Stream, sink: &mut W) -> Result<(), WriteFault>
    requires { length stream.now.waiting.items < SIZE }
    ensures ok { OnOk result ((bytes : List ℕ) → AreSums stream.now.sums bytes
        → Appends (W.written sink.old) (W.written sink.new)
        (block 1 stream.now.waiting.items ++ chunk (codes "IDAT") (to_be_bytes w32 (adler bytes)))) }
    ensures fault { OnErr result ((bytes : List ℕ) → AreSums stream.now.sums bytes
        → AppendsPrefix (W.written sink.old) (W.written sink.new)
        (block 1 stream.now.waiting.items ++ chunk (codes "IDAT") (to_be_bytes w32 (adler bytes)))) }
    ensures counts { CountsFailure (W.failures sink.old) (W.failures sink.new) result }
{
    let checksum = stream.sums.value().to_be_bytes();
    match write_block(1, stream.waiting.as_slice(), sink) {
        Ok(()) => write_chunk(b"IDAT", b"", &checksum, sink),
        Err(fault) => Err(fault),
    }
}
