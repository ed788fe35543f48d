//! The picture as a file.
ghost use Rattle.std.specs.Prelude.{◌≡◌, ◌<◌, ◌≤◌, ◌++◌, ◌∷◌, [], codes, length, OnOk, OnErr};
ghost use Rattle.std.specs.Io.KnownBytes.{Appends};
ghost use Rattle.ngc_text.specs.Failures.{CountsFailure};
ghost use Rattle.ngc_text.specs.Written.{AppendsPrefix};
ghost use Rattle.ngc_map_picture.specs.Blocks.{SIZE, chunk, ended, full_blocks, stream};
ghost use Rattle.ngc_map_picture.specs.Streams.{AddsData, AreSums};
ghost use Rattle.ngc_map_picture.specs.Png.{header, last_chunk, settings, signature};
ghost use Rattle.ngc_map_picture.specs.Maps.{IsRelief, width, height, palette, pixels, scanlines, map_picture};

use crate::chunk::write_chunk;
use crate::palette::palette;
use crate::relief::Relief;
use crate::stream::{Stream, add, begin, finish};
use ngc_text::{Sink, WriteFault, write_all};

/// Adds the pixels of a row. After a fault a prefix of the full blocks is written.
fn add_pixels<W: Sink>(
    relief: &Relief<'_>,
    y: u32,
    rows: &mut Stream,
    sink: &mut W,
) -> Result<(), WriteFault>
    requires relief { IsRelief relief.now }
    requires y { y < height relief.now }
    requires short { length rows.old.waiting.items < SIZE }
    ensures ok { OnOk result (AddsData (W.written sink.old) (W.written sink.new) rows.old rows.new
        (pixels relief.now y 0 (width relief.now))) }
    ensures fault { OnErr result (AppendsPrefix (W.written sink.old) (W.written sink.new)
        (full_blocks (rows.old.waiting.items ++ pixels relief.now y 0 (width relief.now)))) }
    ensures counts { CountsFailure (W.failures sink.old) (W.failures sink.new) result }
{
    for x in 0..relief.width() {
        let pixel = relief.pixel(x, y);
        match add(rows, pixel, sink) {
            Ok(()) => {}
            Err(fault) => return Err(fault),
        }
    }
    Ok(())
}

/// Adds a row of pixels after the byte of no filter. After a fault a prefix of the full blocks is
/// written.
fn add_row<W: Sink>(
    relief: &Relief<'_>,
    y: u32,
    rows: &mut Stream,
    sink: &mut W,
) -> Result<(), WriteFault>
    requires relief { IsRelief relief.now }
    requires y { y < height relief.now }
    requires short { length rows.old.waiting.items < SIZE }
    ensures ok { OnOk result (AddsData (W.written sink.old) (W.written sink.new) rows.old rows.new
        ((0 ∷ []) ++ pixels relief.now y 0 (width relief.now))) }
    ensures fault { OnErr result (AppendsPrefix (W.written sink.old) (W.written sink.new)
        (full_blocks (rows.old.waiting.items
        ++ ((0 ∷ []) ++ pixels relief.now y 0 (width relief.now))))) }
    ensures counts { CountsFailure (W.failures sink.old) (W.failures sink.new) result }
{
    match add(rows, 0, sink) {
        Ok(()) => add_pixels(relief, y, rows, sink),
        Err(fault) => Err(fault),
    }
}

/// Adds all rows of pixels. After a fault a prefix of the full blocks is written.
fn add_rows<W: Sink>(relief: &Relief<'_>, rows: &mut Stream, sink: &mut W) -> Result<(), WriteFault>
    requires relief { IsRelief relief.now }
    requires short { length rows.old.waiting.items < SIZE }
    ensures ok { OnOk result (AddsData (W.written sink.old) (W.written sink.new) rows.old rows.new
        (scanlines relief.now 0 (height relief.now))) }
    ensures fault { OnErr result (AppendsPrefix (W.written sink.old) (W.written sink.new)
        (full_blocks (rows.old.waiting.items ++ scanlines relief.now 0 (height relief.now)))) }
    ensures counts { CountsFailure (W.failures sink.old) (W.failures sink.new) result }
{
    for y in 0..relief.height() {
        match add_row(relief, y, rows, sink) {
            Ok(()) => {}
            Err(fault) => return Err(fault),
        }
    }
    Ok(())
}

/// Adds all rows of pixels to a stream without data, and ends it. After a fault a prefix of them is
/// written.
fn write_rows<W: Sink>(
    relief: &Relief<'_>,
    rows: &mut Stream,
    sink: &mut W,
) -> Result<(), WriteFault>
    requires relief { IsRelief relief.now }
    requires empty { rows.old.waiting.items ≡ [] }
    requires sums { AreSums rows.old.sums [] }
    ensures ok { OnOk result (Appends (W.written sink.old) (W.written sink.new)
        (ended (scanlines relief.now 0 (height relief.now)))) }
    ensures fault { OnErr result (AppendsPrefix (W.written sink.old) (W.written sink.new)
        (ended (scanlines relief.now 0 (height relief.now)))) }
    ensures counts { CountsFailure (W.failures sink.old) (W.failures sink.new) result }
{
    match add_rows(relief, rows, sink) {
        Ok(()) => finish(rows, sink),
        Err(fault) => Err(fault),
    }
}

/// Writes the stream of the rows of pixels. After a fault a prefix of it is written.
fn write_stream<W: Sink>(relief: &Relief<'_>, sink: &mut W) -> Result<(), WriteFault>
    requires { IsRelief relief.now }
    ensures ok { OnOk result (Appends (W.written sink.old) (W.written sink.new)
        (stream (scanlines relief.now 0 (height relief.now)))) }
    ensures fault { OnErr result (AppendsPrefix (W.written sink.old) (W.written sink.new)
        (stream (scanlines relief.now 0 (height relief.now)))) }
    ensures counts { CountsFailure (W.failures sink.old) (W.failures sink.new) result }
{
    match begin(sink) {
        Ok(mut rows) => write_rows(relief, &mut rows, sink),
        Err(fault) => Err(fault),
    }
}

/// Returns the data of the first chunk.
fn header(width: u32, height: u32) -> [u8; 13]
    ensures { result ≡ header width height }
{
    let [a, b, c, d] = width.to_be_bytes();
    let [e, f, g, h] = height.to_be_bytes();
    [a, b, c, d, e, f, g, h, 8, 3, 0, 0, 0]
}

/// Writes the chunk with the size. After a fault a prefix of it is written.
fn write_size<W: Sink>(width: u32, height: u32, sink: &mut W) -> Result<(), WriteFault>
    ensures ok { OnOk result (Appends (W.written sink.old) (W.written sink.new)
        (chunk (codes "IHDR") (header width height))) }
    ensures fault { OnErr result (AppendsPrefix (W.written sink.old) (W.written sink.new)
        (chunk (codes "IHDR") (header width height))) }
    ensures counts { CountsFailure (W.failures sink.old) (W.failures sink.new) result }
{
    let size = header(width, height);
    write_chunk(b"IHDR", b"", &size, sink)
}

/// Writes the chunk with the palette. After a fault a prefix of it is written.
fn write_palette<W: Sink>(sink: &mut W) -> Result<(), WriteFault>
    ensures ok { OnOk result (Appends (W.written sink.old) (W.written sink.new)
        (chunk (codes "PLTE") palette)) }
    ensures fault { OnErr result (AppendsPrefix (W.written sink.old) (W.written sink.new)
        (chunk (codes "PLTE") palette)) }
    ensures counts { CountsFailure (W.failures sink.old) (W.failures sink.new) result }
{
    let colours = palette();
    write_chunk(b"PLTE", b"", colours.as_slice(), sink)
}

/// Writes the chunks before the rows. After a fault a prefix of them is written.
fn write_settings<W: Sink>(width: u32, height: u32, sink: &mut W) -> Result<(), WriteFault>
    ensures ok { OnOk result (Appends (W.written sink.old) (W.written sink.new)
        (settings width height palette)) }
    ensures fault { OnErr result (AppendsPrefix (W.written sink.old) (W.written sink.new)
        (settings width height palette)) }
    ensures counts { CountsFailure (W.failures sink.old) (W.failures sink.new) result }
{
    match write_size(width, height, sink) {
        Ok(()) => write_palette(sink),
        Err(fault) => Err(fault),
    }
}

/// Writes what a picture begins with. After a fault a prefix of it is written.
fn write_front<W: Sink>(width: u32, height: u32, sink: &mut W) -> Result<(), WriteFault>
    ensures ok { OnOk result (Appends (W.written sink.old) (W.written sink.new)
        (signature ++ settings width height palette)) }
    ensures fault { OnErr result (AppendsPrefix (W.written sink.old) (W.written sink.new)
        (signature ++ settings width height palette)) }
    ensures counts { CountsFailure (W.failures sink.old) (W.failures sink.new) result }
{
    match write_all(sink, b"\x89PNG\r\n\x1a\n") {
        Ok(()) => write_settings(width, height, sink),
        Err(fault) => Err(fault),
    }
}

/// Writes the rows of pixels and the end of the file. After a fault a prefix of it is written.
fn write_rest<W: Sink>(relief: &Relief<'_>, sink: &mut W) -> Result<(), WriteFault>
    requires { IsRelief relief.now }
    ensures ok { OnOk result (Appends (W.written sink.old) (W.written sink.new)
        (stream (scanlines relief.now 0 (height relief.now)) ++ last_chunk)) }
    ensures fault { OnErr result (AppendsPrefix (W.written sink.old) (W.written sink.new)
        (stream (scanlines relief.now 0 (height relief.now)) ++ last_chunk)) }
    ensures counts { CountsFailure (W.failures sink.old) (W.failures sink.new) result }
{
    match write_stream(relief, sink) {
        Ok(()) => write_chunk(b"IEND", b"", b"", sink),
        Err(fault) => Err(fault),
    }
}

/// Writes the picture of a map of heights as a PNG file.
///
/// The top of the picture is the side of the greatest Y. A marked cell is red, one without material
/// dark blue, and one as high as the whole block blue; the others are grey, and the brighter the
/// higher.
///
/// After a fault (902, only if the sink failed) a prefix of the picture is written.
pub fn write_map<W: Sink>(relief: &Relief<'_>, sink: &mut W) -> Result<(), WriteFault>
    requires { IsRelief relief.now }
    ensures ok { OnOk result
        (Appends (W.written sink.old) (W.written sink.new) (map_picture relief.now)) }
    ensures fault { OnErr result
        (AppendsPrefix (W.written sink.old) (W.written sink.new) (map_picture relief.now)) }
    ensures counts { CountsFailure (W.failures sink.old) (W.failures sink.new) result }
{
    match write_front(relief.width(), relief.height(), sink) {
        Ok(()) => write_rest(relief, sink),
        Err(fault) => Err(fault),
    }
}
