//! Makes certificates of version 2 from certificates.
ghost use Rattle.std.specs.Prelude.{◌≡◌, ◌≢◌, ◌<◌, ◌≤◌, length, true, false, IfOk};
ghost use Rattle.ngc_certificate_text.specs.Certificate.{entry_at};
ghost use Rattle.ngc_certificate_text.specs.Contents.{certificate_data, form_of};
ghost use Rattle.ngc_certificate.specs.Common.{way_at, AreAlike, IsCommonBeginning, IsJoinedOf};

use crate::fault::MemoryFault;
use ngc_certificate_text::{Certificate, MotionList, Piece};
use ngc_commands::{Action, Command, Way};
use std::alloc::Allocator;

/// Returns the path of the command with this index, if it is a motion.
pub(crate) fn way_at(commands: &[Command], index: u32) -> Option<Way>
    ensures { result ≡ way_at commands.now index }
{
    match commands.get(index as usize) {
        Some(command) => match command.action {
            Action::Move(motion) => Some(motion.way),
            _ => None,
        },
        None => None,
    }
}

fn same_way(a: &Way, b: &Way) -> bool
    ensures yes { result ≡ true → a.now ≡ b.now }
    ensures no { result ≡ false → a.now ≢ b.now }
{
    a == b
}

pub(crate) fn same_pieces(a: &[Piece], b: &[Piece]) -> bool
    ensures yes { result ≡ true → a.now ≡ b.now }
    ensures no { result ≡ false → a.now ≢ b.now }
{
    a == b
}

fn same_piece(a: &Piece, b: &Piece) -> bool
    ensures yes { result ≡ true → a.now ≡ b.now }
    ensures no { result ≡ false → a.now ≢ b.now }
{
    same_pieces(&[*a], &[*b])
}

// Returns whether motion `i` has the same pieces in both lists.
fn same_cuts<M: MotionList>(off: &M, on: &M, i: usize) -> bool
    requires off_has { i < length (M.entries off.now) }
    requires on_has { i < length (M.entries on.now) }
    ensures yes { result ≡ true → (entry_at (M.entries off.now) i).pieces
        ≡ (entry_at (M.entries on.now) i).pieces }
    ensures no { result ≡ false → (entry_at (M.entries off.now) i).pieces
        ≢ (entry_at (M.entries on.now) i).pieces }
{
    let off_count = off.piece_count(i);
    let on_count = on.piece_count(i);
    if off_count != on_count {
        return false;
    }
    for k in 0..off_count {
        if !same_piece(&off.piece(i, k), &on.piece(i, k)) {
            return false;
        }
    }
    true
}

// Returns whether motion `i` is alike at both settings: the same path, in the same pieces.
fn are_alike<M: MotionList>(
    off: &[Command],
    on: &[Command],
    off_motions: &M,
    on_motions: &M,
    i: usize,
) -> bool
    requires off_has { i < length (M.entries off_motions.now) }
    requires on_has { i < length (M.entries on_motions.now) }
    ensures yes { result ≡ true → AreAlike off.now on.now
        (entry_at (M.entries off_motions.now) i) (entry_at (M.entries on_motions.now) i) }
    ensures no { result ≡ false → ¬ AreAlike off.now on.now
        (entry_at (M.entries off_motions.now) i) (entry_at (M.entries on_motions.now) i) }
{
    match (
        way_at(off, off_motions.command_index(i)),
        way_at(on, on_motions.command_index(i)),
    ) {
        (Some(off_way), Some(on_way)) => {
            same_way(&off_way, &on_way) && same_cuts(off_motions, on_motions, i)
        }
        _ => false,
    }
}

/// Returns the number of leading motions that are alike at both settings of block delete: with the
/// same path and the same pieces. The motions are those of the commands.
pub fn common_motions<M: MotionList>(
    off: &[Command],
    on: &[Command],
    off_motions: &M,
    on_motions: &M,
) -> usize
    ensures { IsCommonBeginning off.now on.now
        (record { off = M.entries off_motions.now; on = M.entries on_motions.now }) result }
{
    let fewer = off_motions.count().min(on_motions.count());
    for i in 0..fewer {
        if !are_alike(off, on, off_motions, on_motions, i) {
            return i;
        }
    }
    fewer
}

/// Returns a certificate of version 2 with the motions of this one, joined as long as the settings
/// are alike, or 900.
///
/// ```text
/// let certificate = make(alloc, off, on, &machine, 8)?;
/// let joined = join(alloc, certificate, off, on)?;
/// joined.write(&mut output)?;
/// ```
///
/// The certificate's motions are those of the commands with block delete off and on. From the first
/// one on, a motion of each setting is joined if both have the same path and the same pieces. The
/// path is the same if it is straight, or the same arc, from the same start to the same end. The
/// first pair that differs ends this: the remaining motions of `off` follow, and then those of
/// `on`. A motion that is none of the commands' is never joined.
pub fn join<A: Allocator>(
    alloc: A,
    certificate: Certificate<A>,
    off: &[Command],
    on: &[Command],
) -> Result<Certificate<A>, MemoryFault>
    ensures said { IfOk result (λ c. certificate_data c ≡ certificate_data certificate) }
    ensures form { IfOk result (λ c. IsJoinedOf off.now on.now (certificate_data certificate) (form_of c)) }
{
    let common = common_motions(off, on, &certificate.off, &certificate.on);
    match certificate.joined(alloc, common) {
        Ok(joined) => Ok(joined),
        Err(_) => Err(MemoryFault),
    }
}
