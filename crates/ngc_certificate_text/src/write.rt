ghost use Rattle.std.specs.Prelude.{◌≡◌, ◌+◌, ◌<◌, ◌≤◌, ◌++◌, codes, decimal, flat_map, length};
ghost use Rattle.std.specs.Prelude.{OnOk, OnErr};
ghost use Rattle.std.specs.Io.KnownBytes.{Appends};
ghost use Rattle.ngc_text.specs.Failures.{CountsFailure};
ghost use Rattle.ngc_text.specs.Written.{AppendsPrefix};
ghost use Rattle.ngc_text.specs.Collected.{CHUNK_SIZE, HasSpaceForLine};
ghost use Rattle.ngc_certificate_text.specs.Certificate.{entry_at};
ghost use Rattle.ngc_certificate_text.specs.Collects.{Collects};
ghost use Rattle.ngc_certificate_text.specs.Contents.{form_of};
ghost use Rattle.ngc_certificate_text.specs.Spelling.{steps_text, cut_text, piece_line};
ghost use Rattle.ngc_certificate_text.specs.Spelling.{motion_line, entry_lines, setting_lines};
ghost use Rattle.ngc_certificate_text.specs.Spelling.{version_1_text};
ghost use Rattle.ngc_certificate_text.specs.Spelling.{indices_text, item_line, item_lines};
ghost use Rattle.ngc_certificate_text.specs.Spelling.{version_2_text, spelling};
ghost use Rattle.ngc_certificate_text.specs.Order.{items_in, IsWhole};
ghost use Rattle.ngc_certificate_text.specs.Places.{MayPass, entry_there, after_entry};

use crate::certificate::{Certificate, EntryKind};
use crate::expected::Indices;
use crate::motion_list::MotionList;
use crate::piece::{Cut, Piece};
use ngc_fixed_length::StepPos;
use ngc_text::{Chunk, Sink, WriteFault};
use std::alloc::Allocator;

fn add_steps(chunk: &mut Chunk, point: &StepPos)
    requires { length chunk.old + 123 ≤ CHUNK_SIZE }
    ensures text { chunk.new ≡ chunk.old ++ steps_text point.now }
    ensures short { length chunk.new ≤ length chunk.old + 123 }
{
    chunk.add_text(b" ");
    chunk.add_three(point.x, point.y, point.z);
}

fn add_cut(chunk: &mut Chunk, end: &Cut)
    requires { length chunk.old + 85 ≤ CHUNK_SIZE }
    ensures text { chunk.new ≡ chunk.old ++ cut_text end.now }
    ensures short { length chunk.new ≤ length chunk.old + 85 }
{
    match end {
        Cut::Part(part) => {
            chunk.add_text(b"line ");
            chunk.add_number(*part);
        }
        Cut::Place(place) => {
            chunk.add_text(b"arc ");
            chunk.add_number(place.u.nanometres());
            chunk.add_text(b" ");
            chunk.add_number(place.v.nanometres());
        }
    }
}

fn add_piece(chunk: &mut Chunk, piece: &Piece)
    requires { HasSpaceForLine chunk.old }
    ensures { chunk.new ≡ chunk.old ++ piece_line piece.now }
{
    add_cut(chunk, &piece.end);
    add_steps(chunk, &piece.bounds.low);
    add_steps(chunk, &piece.bounds.high);
    chunk.add_text(b"\n");
}

fn add_motion(chunk: &mut Chunk, index: u32, pieces: usize)
    requires { HasSpaceForLine chunk.old }
    ensures { chunk.new ≡ chunk.old ++ motion_line index pieces }
{
    chunk.add_text(b"motion ");
    chunk.add_number(index);
    chunk.add_text(b" ");
    chunk.add_number(pieces);
    chunk.add_text(b"\n");
}

fn add_setting(chunk: &mut Chunk, name: &[u8], motions: usize)
    requires room { HasSpaceForLine chunk.old }
    requires name { length name.now ≤ 3 }
    ensures { chunk.new ≡ chunk.old
        ++ (codes "setting " ++ name.now ++ codes " " ++ decimal motions ++ codes "\n") }
{
    chunk.add_text(b"setting ");
    chunk.add_text(name);
    chunk.add_text(b" ");
    chunk.add_number(motions);
    chunk.add_text(b"\n");
}

fn write_piece<W: Sink>(chunk: &mut Chunk, piece: &Piece, sink: &mut W) -> Result<(), WriteFault>
    ensures text { Collects (W.written sink.old) (W.written sink.new) chunk.old chunk.new result
        (piece_line piece.now) }
    ensures counts { CountsFailure (W.failures sink.old) (W.failures sink.new) result }
{
    match chunk.make_space(sink) {
        Ok(()) => {}
        Err(fault) => return Err(fault),
    }
    add_piece(chunk, piece);
    Ok(())
}

// Writes the lines of the pieces of motion `i`.
fn write_pieces<M: MotionList, W: Sink>(
    chunk: &mut Chunk,
    motions: &M,
    i: usize,
    sink: &mut W,
) -> Result<(), WriteFault>
    requires { i < length (M.entries motions.now) }
    ensures text { Collects (W.written sink.old) (W.written sink.new) chunk.old chunk.new result
        (flat_map piece_line (entry_at (M.entries motions.now) i).pieces) }
    ensures counts { CountsFailure (W.failures sink.old) (W.failures sink.new) result }
{
    for k in 0..motions.piece_count(i) {
        match write_piece(chunk, &motions.piece(i, k), sink) {
            Ok(()) => {}
            Err(fault) => return Err(fault),
        }
    }
    Ok(())
}

// Writes the lines of motion `i`.
fn write_motion<M: MotionList, W: Sink>(
    chunk: &mut Chunk,
    motions: &M,
    i: usize,
    sink: &mut W,
) -> Result<(), WriteFault>
    requires { i < length (M.entries motions.now) }
    ensures text { Collects (W.written sink.old) (W.written sink.new) chunk.old chunk.new result
        (entry_lines (entry_at (M.entries motions.now) i)) }
    ensures counts { CountsFailure (W.failures sink.old) (W.failures sink.new) result }
{
    match chunk.make_space(sink) {
        Ok(()) => {}
        Err(fault) => return Err(fault),
    }
    add_motion(chunk, motions.command_index(i), motions.piece_count(i));
    write_pieces(chunk, motions, i, sink)
}

fn write_motions<M: MotionList, W: Sink>(
    chunk: &mut Chunk,
    motions: &M,
    sink: &mut W,
) -> Result<(), WriteFault>
    ensures text { Collects (W.written sink.old) (W.written sink.new) chunk.old chunk.new result
        (flat_map entry_lines (M.entries motions.now)) }
    ensures counts { CountsFailure (W.failures sink.old) (W.failures sink.new) result }
{
    for i in 0..motions.count() {
        match write_motion(chunk, motions, i, sink) {
            Ok(()) => {}
            Err(fault) => return Err(fault),
        }
    }
    Ok(())
}

fn write_setting<M: MotionList, W: Sink>(
    chunk: &mut Chunk,
    name: &[u8],
    motions: &M,
    sink: &mut W,
) -> Result<(), WriteFault>
    requires { length name.now ≤ 3 }
    ensures text { Collects (W.written sink.old) (W.written sink.new) chunk.old chunk.new result
        (setting_lines name.now (M.entries motions.now)) }
    ensures counts { CountsFailure (W.failures sink.old) (W.failures sink.new) result }
{
    match chunk.make_space(sink) {
        Ok(()) => {}
        Err(fault) => return Err(fault),
    }
    add_setting(chunk, name, motions.count());
    write_motions(chunk, motions, sink)
}

fn write_settings<M: MotionList, W: Sink>(
    chunk: &mut Chunk,
    off: &M,
    on: &M,
    sink: &mut W,
) -> Result<(), WriteFault>
    requires { HasSpaceForLine chunk.old }
    ensures text { Collects (W.written sink.old) (W.written sink.new) chunk.old chunk.new result
        (version_1_text (record { off = M.entries off.now; on = M.entries on.now })) }
    ensures counts { CountsFailure (W.failures sink.old) (W.failures sink.new) result }
{
    chunk.add_text(b"ngc-certificate 1\n");
    match write_setting(chunk, b"off", off, sink) {
        Ok(()) => {}
        Err(fault) => return Err(fault),
    }
    match write_setting(chunk, b"on", on, sink) {
        Ok(()) => {}
        Err(fault) => return Err(fault),
    }
    match chunk.make_space(sink) {
        Ok(()) => {}
        Err(fault) => return Err(fault),
    }
    chunk.add_text(b"end\n");
    Ok(())
}

fn add_indices(chunk: &mut Chunk, indices: &Indices)
    requires { length chunk.old + 86 ≤ CHUNK_SIZE }
    ensures text { chunk.new ≡ chunk.old ++ indices_text indices.now }
    ensures short { length chunk.new ≤ length chunk.old + 86 }
{
    match indices {
        Indices::Both(off, on) => {
            chunk.add_text(b"both ");
            chunk.add_number(*off);
            chunk.add_text(b" ");
            chunk.add_number(*on);
        }
        Indices::Off(index) => {
            chunk.add_text(b"off ");
            chunk.add_number(*index);
        }
        Indices::On(index) => {
            chunk.add_text(b"on ");
            chunk.add_number(*index);
        }
    }
}

fn add_entry(chunk: &mut Chunk, indices: &Indices, pieces: usize)
    requires { HasSpaceForLine chunk.old }
    ensures { chunk.new ≡ chunk.old ++ item_line indices.now pieces }
{
    add_indices(chunk, indices);
    chunk.add_text(b" ");
    chunk.add_number(pieces);
    chunk.add_text(b"\n");
}

fn add_counts(chunk: &mut Chunk, off: usize, on: usize)
    requires { HasSpaceForLine chunk.old }
    ensures { chunk.new ≡ chunk.old
        ++ (codes "motions " ++ decimal off ++ codes " " ++ decimal on ++ codes "\n") }
{
    chunk.add_text(b"motions ");
    chunk.add_number(off);
    chunk.add_text(b" ");
    chunk.add_number(on);
    chunk.add_text(b"\n");
}

// Writes the lines of an entry with the pieces of motion `i`.
fn write_entry<M: MotionList, W: Sink>(
    chunk: &mut Chunk,
    indices: Indices,
    motions: &M,
    i: usize,
    sink: &mut W,
) -> Result<(), WriteFault>
    requires { i < length (M.entries motions.now) }
    ensures text { Collects (W.written sink.old) (W.written sink.new) chunk.old chunk.new result
        (item_lines (record {
          indices = indices;
          pieces = (entry_at (M.entries motions.now) i).pieces;
        })) }
    ensures counts { CountsFailure (W.failures sink.old) (W.failures sink.new) result }
{
    match chunk.make_space(sink) {
        Ok(()) => {}
        Err(fault) => return Err(fault),
    }
    add_entry(chunk, &indices, motions.piece_count(i));
    write_pieces(chunk, motions, i, sink)
}

/// A position among the motions of both settings: the number of motions of each that are passed.
#[derive(Clone, Copy)]
pub struct Passed {
    pub off: usize,
    pub on: usize,
}

// Returns the indices of the entry of a kind at a position, and the motion that has its pieces.
fn entry_there<'a, M: MotionList>(
    kind: EntryKind,
    off: &'a M,
    on: &'a M,
    passed: &Passed,
) -> (Indices, &'a M, usize)
    requires { MayPass kind passed.now (length (M.entries off.now)) (length (M.entries on.now)) }
    ensures inside { result.2 < length (M.entries result.1.now) }
    ensures is { record {
      indices = result.0;
      pieces = (entry_at (M.entries result.1.now) result.2).pieces;
    } ≡ entry_there kind (M.entries off.now) (M.entries on.now) passed.now }
{
    match kind {
        EntryKind::Both => {
            let off_index = off.command_index(passed.off);
            let on_index = on.command_index(passed.on);
            (Indices::Both(off_index, on_index), off, passed.off)
        }
        EntryKind::Off => (Indices::Off(off.command_index(passed.off)), off, passed.off),
        EntryKind::On => (Indices::On(on.command_index(passed.on)), on, passed.on),
    }
}

// Returns the position after it.
fn after_entry(kind: EntryKind, passed: Passed) -> Passed
    requires off { passed.off < usize.MAX }
    requires on { passed.on < usize.MAX }
    ensures { result ≡ after_entry kind passed }
{
    let Passed { off, on } = passed;
    match kind {
        EntryKind::Both => Passed {
            off: off + 1,
            on: on + 1,
        },
        EntryKind::Off => Passed { off: off + 1, on },
        EntryKind::On => Passed { off, on: on + 1 },
    }
}

fn write_entries<M: MotionList, W: Sink>(
    chunk: &mut Chunk,
    order: &[EntryKind],
    off: &M,
    on: &M,
    sink: &mut W,
) -> Result<(), WriteFault>
    requires { IsWhole order.now (M.entries off.now) (M.entries on.now) }
    ensures text { Collects (W.written sink.old) (W.written sink.new) chunk.old chunk.new result
        (flat_map item_lines (items_in order.now (M.entries off.now) (M.entries on.now))) }
    ensures counts { CountsFailure (W.failures sink.old) (W.failures sink.new) result }
{
    let mut passed = Passed { off: 0, on: 0 };
    for kind in order {
        let (indices, motions, i) = entry_there(*kind, off, on, &passed);
        match write_entry(chunk, indices, motions, i, sink) {
            Ok(()) => {}
            Err(fault) => return Err(fault),
        }
        passed = after_entry(*kind, passed);
    }
    Ok(())
}

fn write_counts<W: Sink>(
    chunk: &mut Chunk,
    off: usize,
    on: usize,
    sink: &mut W,
) -> Result<(), WriteFault>
    ensures text { Collects (W.written sink.old) (W.written sink.new) chunk.old chunk.new result
        (codes "motions " ++ decimal off ++ codes " " ++ decimal on ++ codes "\n") }
    ensures counts { CountsFailure (W.failures sink.old) (W.failures sink.new) result }
{
    match chunk.make_space(sink) {
        Ok(()) => {}
        Err(fault) => return Err(fault),
    }
    add_counts(chunk, off, on);
    Ok(())
}

fn write_whole<M: MotionList, W: Sink>(
    chunk: &mut Chunk,
    order: &[EntryKind],
    off: &M,
    on: &M,
    sink: &mut W,
) -> Result<(), WriteFault>
    requires room { HasSpaceForLine chunk.old }
    requires whole { IsWhole order.now (M.entries off.now) (M.entries on.now) }
    ensures text { Collects (W.written sink.old) (W.written sink.new) chunk.old chunk.new result
        (version_2_text (items_in order.now (M.entries off.now) (M.entries on.now))) }
    ensures counts { CountsFailure (W.failures sink.old) (W.failures sink.new) result }
{
    chunk.add_text(b"ngc-certificate 2\n");
    let off_count = off.count();
    let on_count = on.count();
    match write_counts(chunk, off_count, on_count, sink) {
        Ok(()) => {}
        Err(fault) => return Err(fault),
    }
    match write_entries(chunk, order, off, on, sink) {
        Ok(()) => {}
        Err(fault) => return Err(fault),
    }
    match chunk.make_space(sink) {
        Ok(()) => {}
        Err(fault) => return Err(fault),
    }
    chunk.add_text(b"end\n");
    Ok(())
}

/// Writes the motions of both settings as a certificate of version 1: `setting off` and
/// `setting on`, each with its motions in order.
///
/// After a fault (902, only if the sink failed) a prefix of the text is written.
pub fn write_parted<M: MotionList, W: Sink>(off: &M, on: &M, sink: &mut W) -> Result<(), WriteFault>
    ensures ok { OnOk result (Appends (W.written sink.old) (W.written sink.new)
        (version_1_text (record { off = M.entries off.now; on = M.entries on.now }))) }
    ensures fault { OnErr result (AppendsPrefix (W.written sink.old) (W.written sink.new)
        (version_1_text (record { off = M.entries off.now; on = M.entries on.now }))) }
    ensures counts { CountsFailure (W.failures sink.old) (W.failures sink.new) result }
{
    let mut chunk = Chunk::new();
    match write_settings(&mut chunk, off, on, sink) {
        Ok(()) => chunk.write_out(sink),
        Err(fault) => Err(fault),
    }
}

/// Writes the motions of both settings as a certificate of version 2: the entries in the order of
/// their kinds.
///
/// Each motion is one of an entry, and the two motions of an entry of both settings have the same
/// pieces. After a fault (902, only if the sink failed) a prefix of the text is written.
pub fn write_joined<M: MotionList, W: Sink>(
    order: &[EntryKind],
    off: &M,
    on: &M,
    sink: &mut W,
) -> Result<(), WriteFault>
    requires { IsWhole order.now (M.entries off.now) (M.entries on.now) }
    ensures ok { OnOk result (Appends (W.written sink.old) (W.written sink.new)
        (version_2_text (items_in order.now (M.entries off.now) (M.entries on.now)))) }
    ensures fault { OnErr result (AppendsPrefix (W.written sink.old) (W.written sink.new)
        (version_2_text (items_in order.now (M.entries off.now) (M.entries on.now)))) }
    ensures counts { CountsFailure (W.failures sink.old) (W.failures sink.new) result }
{
    let mut chunk = Chunk::new();
    match write_whole(&mut chunk, order, off, on, sink) {
        Ok(()) => chunk.write_out(sink),
        Err(stopped) => Err(stopped),
    }
}

impl<A: Allocator> Certificate<A> {
    /// Writes the certificate's text, in the version in which it was read or made: `setting off`
    /// and `setting on`, each with its motions in order, or the entries of both in their order.
    ///
    /// After a fault (902, only if the sink failed) a prefix of the text is written.
    pub fn write<W: Sink>(&self, sink: &mut W) -> Result<(), WriteFault>
        ensures ok { OnOk result
            (Appends (W.written sink.old) (W.written sink.new) (spelling (form_of self.now))) }
        ensures fault { OnErr result
            (AppendsPrefix (W.written sink.old) (W.written sink.new)
            (spelling (form_of self.now))) }
        ensures counts { CountsFailure (W.failures sink.old) (W.failures sink.new) result }
    {
        match &self.order {
            None => write_parted(&self.off, &self.on, sink),
            Some(order) => write_joined(order.as_slice(), &self.off, &self.on, sink),
        }
    }
}
