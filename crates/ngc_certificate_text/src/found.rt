ghost use Rattle.std.specs.Prelude.{◌≡◌, [], ◌∷◌, ◌++◌, OnOk, None};
ghost use Rattle.ngc_certificate_text.specs.Contents.{certificate_data, form_of};
ghost use Rattle.ngc_certificate_text.specs.Found.{HasSpaceFor, IsKept, add_item, with_line, read_so_far};
ghost use Rattle.ngc_certificate_text.specs.Found.{MayTake};
ghost use Rattle.ngc_certificate_text.specs.Joined.{IsItem, contents, form_by};

use crate::certificate::{Certificate, EntryKind};
use crate::expected::{BegunMotion, Indices};
use crate::line_content::{LineContent, Version};
use crate::motions::Motions;
use crate::piece::Piece;
use std::alloc::{AllocError, Allocator};

/// The part of a certificate that was read so far: the complete motions, and the pieces of one that
/// has begun.
#[derive(Drop)]
pub struct Found<A: Allocator> {
    version: Option<Version>,
    off: Motions<A>,
    on: Motions<A>,
    // The kinds of the entries in order.
    order: Vec<EntryKind, A>,
    pieces: Vec<Piece, A>,
}

fn push_kind<A: Allocator>(order: &mut Vec<EntryKind, A>, kind: EntryKind) -> Result<(), AllocError>
    ensures { OnOk result (order.new.items ≡ order.old.items ++ (kind ∷ [])) }
{
    match order.push(kind) {
        Ok(()) => Ok(()),
        Err(_) => Err(AllocError),
    }
}

impl<A: Allocator> Found<A> {
    /// Returns the state before the first line.
    pub(crate) fn new(alloc: A) -> Found<A>
    where
        A: Copy,
        ensures version { (read_so_far result).version ≡ None }
        ensures items { (read_so_far result).items ≡ [] }
        ensures kept { IsKept result }
    {
        Found {
            version: None,
            off: Motions::new(alloc),
            on: Motions::new(alloc),
            order: Vec::new(alloc),
            pieces: Vec::new(alloc),
        }
    }

    // Adds an entry with the pieces read so far.
    fn push_entry(&mut self, indices: Indices) -> Result<(), AllocError>
        requires kept { IsKept self.old }
        requires room { HasSpaceFor indices (read_so_far self.old).items }
        requires item { IsItem (record { indices = indices; pieces = self.old.pieces.items }) }
        ensures pushed { OnOk result
            ((read_so_far self.new).items ≡ add_item indices self.old.pieces.items
            (read_so_far self.old).items) }
        ensures kept { OnOk result (IsKept self.new) }
        ensures version { self.new.version ≡ self.old.version }
        ensures pieces { self.new.pieces ≡ self.old.pieces }
    {
        let pieces = self.pieces.as_slice();
        match indices {
            Indices::Both(off, on) => {
                self.off.push(off, pieces)?;
                self.on.push(on, pieces)?;
                push_kind(&mut self.order, EntryKind::Both)
            }
            Indices::Off(index) => {
                self.off.push(index, pieces)?;
                push_kind(&mut self.order, EntryKind::Off)
            }
            Indices::On(index) => {
                self.on.push(index, pieces)?;
                push_kind(&mut self.order, EntryKind::On)
            }
        }
    }

    // Adds a piece to the motion that has begun.
    fn add_piece(&mut self, begun: &BegunMotion, piece: Piece) -> Result<(), AllocError>
        requires may { MayTake (LineContent.Piece begun.now piece) (read_so_far self.old) }
        requires kept { IsKept self.old }
        ensures with_line { OnOk result
            (read_so_far self.new ≡ with_line (LineContent.Piece begun.now piece) (read_so_far self.old)) }
        ensures kept { OnOk result (IsKept self.new) }
    {
        match self.pieces.push(piece) {
            Ok(()) => {}
            Err(_) => return Err(AllocError),
        }
        if begun.pieces_left <= 1 {
            return self.push_entry(begun.indices);
        }
        Ok(())
    }

    /// Adds the content of one line.
    pub(crate) fn take(&mut self, line_content: &LineContent) -> Result<(), AllocError>
        requires may { MayTake line_content.now (read_so_far self.old) }
        requires kept { IsKept self.old }
        ensures with_line { OnOk result (read_so_far self.new ≡ with_line line_content.now (read_so_far self.old)) }
        ensures kept { OnOk result (IsKept self.new) }
    {
        match line_content {
            LineContent::Header(version) => {
                self.version = Some(*version);
                Ok(())
            }
            LineContent::Motion(_) => {
                self.pieces.clear();
                Ok(())
            }
            LineContent::Piece(begun, piece) => self.add_piece(begun, *piece),
            LineContent::Setting(_, _) | LineContent::Counts(_, _) | LineContent::End => Ok(()),
        }
    }

    /// Returns the certificate, after the last line.
    pub(crate) fn into_certificate(self) -> Certificate<A>
        requires { IsKept self }
        ensures form { form_of result ≡ form_by self.version (read_so_far self).items }
        ensures said { certificate_data result ≡ contents (form_of result) }
    {
        let Found {
            version,
            off,
            on,
            order,
            pieces: _,
        } = self;
        match version {
            Some(Version::Two) => Certificate {
                off,
                on,
                order: Some(order),
            },
            Some(Version::One) | None => Certificate::parted(off, on),
        }
    }
}
