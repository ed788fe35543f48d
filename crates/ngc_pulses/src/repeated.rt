ghost use Rattle.std.specs.Prelude.{◌≡◌, ◌≤◌, ◌++◌, min, replicate, OnOk, OnErr};
ghost use Rattle.ngc_text.specs.Collected.{HasSpaceForLine, WritesPrefix};
ghost use Rattle.ngc_text.specs.Failures.{CountsFailure};
ghost use Rattle.ngc_text.specs.Written.{AppendsPrefix};

use ngc_text::{Chunk, Sink, WriteFault};

const PIECE: usize = 512;

// Returns the number of bytes of the next piece, with `left` remaining.
fn next_length(left: u128) -> usize
    ensures { result ≡ min left 512 }
{
    if left < 512 { left as usize } else { PIECE }
}

fn add_repeated(byte: u8, count: usize, chunk: &mut Chunk)
    requires room { HasSpaceForLine chunk.old }
    requires few { count ≤ 512 }
    ensures { chunk.new ≡ chunk.old ++ replicate count byte }
{
    let piece = [byte; PIECE];
    chunk.add_text(&piece[..count]);
}

/// Writes a byte `count` times, the last of them into the chunk, which then has space for a line.
/// After a fault a prefix is written, and the sink has counted the failure.
pub(crate) fn write_repeated<W: Sink>(
    byte: u8,
    count: u128,
    chunk: &mut Chunk,
    sink: &mut W,
) -> Result<(), WriteFault>
    ensures room { OnOk result (HasSpaceForLine chunk.new) }
    ensures text { OnOk result
        (WritesPrefix (W.written sink.old) (W.written sink.new) (chunk.old ++ replicate count byte)
        chunk.new) }
    ensures fault { OnErr result
        (AppendsPrefix (W.written sink.old) (W.written sink.new)
        (chunk.old ++ replicate count byte)) }
    ensures failures { CountsFailure (W.failures sink.old) (W.failures sink.new) result }
{
    let mut left = count;
    'pieces: while left > 0 {
        match chunk.make_space(sink) {
            Ok(()) => {}
            Err(fault) => return Err(fault),
        }
        let length = next_length(left);
        add_repeated(byte, length, chunk);
        left -= length as u128;
    }
    chunk.make_space(sink)
}
