//! The chunks of a PNG file.
ghost use Rattle.std.specs.Prelude.{◌≡◌, ◌+◌, ◌≤◌, ◌++◌, length, OnOk, OnErr};
ghost use Rattle.std.specs.Io.KnownBytes.{Appends};
ghost use Rattle.ngc_text.specs.Failures.{CountsFailure};
ghost use Rattle.ngc_text.specs.Written.{AppendsPrefix};
ghost use Rattle.ngc_map_picture.specs.Blocks.{chunk, block, block_head, SIZE};

use crate::check::crc;
use ngc_text::{Chunk, Sink, WriteFault};

/// Returns the text of a chunk of a kind, whose data is in two parts.
fn chunk_text(kind: &[u8], head: &[u8], body: &[u8]) -> Chunk
    requires kind { length kind.now ≤ 4 }
    requires size { length head.now + length body.now ≤ 16300 }
    ensures { result ≡ chunk kind.now (head.now ++ body.now) }
{
    let size = ((head.len() + body.len()) as u32).to_be_bytes();
    let check = crc(kind, head, body).to_be_bytes();
    let mut text = Chunk::new();
    text.add_text(&size);
    text.add_text(kind);
    text.add_text(head);
    text.add_text(body);
    text.add_text(&check);
    text
}

/// Writes a chunk of a kind, whose data is in two parts. After a fault a prefix of it is written.
pub(crate) fn write_chunk<W: Sink>(
    kind: &[u8],
    head: &[u8],
    body: &[u8],
    sink: &mut W,
) -> Result<(), WriteFault>
    requires kind { length kind.now ≤ 4 }
    requires size { length head.now + length body.now ≤ 16300 }
    ensures ok { OnOk result
        (Appends (W.written sink.old) (W.written sink.new) (chunk kind.now (head.now ++ body.now))) }
    ensures fault { OnErr result
        (AppendsPrefix (W.written sink.old) (W.written sink.new) (chunk kind.now (head.now ++ body.now))) }
    ensures counts { CountsFailure (W.failures sink.old) (W.failures sink.new) result }
{
    let mut text = chunk_text(kind, head, body);
    text.write_out(sink)
}

/// Returns what a stored block of `size` bytes begins with; `last` is 1 if it is the last block.
fn block_head(last: u8, size: u16) -> [u8; 5]
    ensures { result ≡ block_head last size }
{
    let [low, high] = size.to_le_bytes();
    let [low_complement, high_complement] = (65_535 - size).to_le_bytes();
    [last, low, high, low_complement, high_complement]
}

/// Writes a stored block as a chunk; `last` is 1 if it is the last block. After a fault a prefix of
/// it is written.
pub(crate) fn write_block<W: Sink>(last: u8, bytes: &[u8], sink: &mut W) -> Result<(), WriteFault>
    requires { length bytes.now ≤ SIZE }
    ensures ok { OnOk result
        (Appends (W.written sink.old) (W.written sink.new) (block last bytes.now)) }
    ensures fault { OnErr result
        (AppendsPrefix (W.written sink.old) (W.written sink.new) (block last bytes.now)) }
    ensures counts { CountsFailure (W.failures sink.old) (W.failures sink.new) result }
{
    let head = block_head(last, bytes.len() as u16);
    write_chunk(b"IDAT", &head, bytes, sink)
}
