ghost use Rattle.std.specs.Prelude.{◌≡◌, ◌-◌, ◌≤◌, ◌++◌, List, Some, IfOk, replicate};
ghost use Rattle.std.specs.Option.{option_map};
ghost use Rattle.std.proofs.Props.{props};
ghost use Rattle.ngc_certificate_text.specs.declared.certificate.EntryKind.{EntryKind};
ghost use Rattle.ngc_certificate_text.specs.Certificate.{MOTION_LIMIT};
ghost use Rattle.ngc_certificate_text.specs.Joined.{IsJoined};
ghost use Rattle.ngc_certificate_text.specs.JoinedFirst.{joined_first, HaveSamePieces};
ghost use Rattle.ngc_certificate_text.specs.Order.{IsWhole, items_in};

use crate::motion_list::MotionList;
use crate::motions::Motions;
use crate::piece::Setting;
use std::alloc::{AllocError, Allocator};

/// The settings for which an entry of version 2 is a motion.
#[derive(Clone, Copy)]
pub enum EntryKind {
    Both,
    Off,
    On,
}

/// A certificate: the motions of a program at both settings of block delete, each with its pieces.
#[derive(Drop)]
pub struct Certificate<A: Allocator> {
    pub off: Motions<A>,
    pub on: Motions<A>,
    // The kinds of its entries in order, if it is of version 2.
    pub(crate) order: Option<Vec<EntryKind, A>>,
    // The entries are all these motions.
    ghost whole: { (kinds : List EntryKind) → option_map (λ k. k.items) order ≡ Some kinds →
        IsWhole kinds off on } by { Prim.hlevel props },
}

// Returns the kinds of the entries if the first `both` motions of each setting are joined. The
// settings have `off` and `on` motions.
fn kinds_of<A: Allocator>(
    alloc: A,
    both: usize,
    off: usize,
    on: usize,
) -> Result<Vec<EntryKind, A>, AllocError>
    requires off { both ≤ off }
    requires on { both ≤ on }
    requires off_limit { off ≤ MOTION_LIMIT }
    requires on_limit { on ≤ MOTION_LIMIT }
    ensures { IfOk result
        (λ kinds. kinds.items ≡ replicate both EntryKind.Both
        ++ replicate (off - both) EntryKind.Off ++ replicate (on - both) EntryKind.On) }
{
    let count = off + (on - both);
    let mut kinds = Vec::with_capacity(alloc, count)?;
    kinds.resize(both, EntryKind::Both)?;
    kinds.resize(off, EntryKind::Off)?;
    kinds.resize(count, EntryKind::On)?;
    Ok(kinds)
}

/// Returns the kinds of the entries of version 2 if the first `both` motions of each setting, which
/// must have the same pieces, are joined. The others are entries of one setting, those of `off`
/// first. The memory is from `alloc`.
pub fn first_joined<A: Allocator, M: MotionList>(
    alloc: A,
    both: usize,
    off: &M,
    on: &M,
) -> Result<Vec<EntryKind, A>, AllocError>
    requires { HaveSamePieces both (M.entries off.now) (M.entries on.now) }
    ensures whole { IfOk result
        (λ kinds. IsWhole kinds.items (M.entries off.now) (M.entries on.now)) }
    ensures items { IfOk result
        (λ kinds. items_in kinds.items (M.entries off.now) (M.entries on.now)
        ≡ joined_first both (M.entries off.now) (M.entries on.now)) }
    // They are in range, and none of `off` alone directly follows one of `on` alone.
    ensures entries { IsJoined (joined_first both (M.entries off.now) (M.entries on.now)) }
{
    let kinds = kinds_of(alloc, both, off.count(), on.count())?;
    Ok(kinds)
}

impl<A: Allocator> Certificate<A> {
    ghost use Rattle.ngc_certificate_text.specs.Certificate.{entries_at};
    ghost use Rattle.ngc_certificate_text.specs.Contents.{certificate_data, form_of};
    ghost use Rattle.ngc_certificate_text.specs.Joined.{Parted, Joined, contents};

    /// Returns a certificate of version 1.
    pub fn parted(off: Motions<A>, on: Motions<A>) -> Certificate<A>
        ensures said { certificate_data result ≡ record { off = off; on = on } }
        ensures form { form_of result ≡ Parted (record { off = off; on = on }) }
    {
        Certificate {
            off,
            on,
            order: None,
        }
    }

    /// Returns the same motions as a certificate of version 2. The first `both` motions of each
    /// setting, which must have the same pieces, are joined. The others are entries of one setting,
    /// those of `off` first. The memory is from `alloc`.
    pub fn joined(self, alloc: A, both: usize) -> Result<Certificate<A>, AllocError>
        requires { HaveSamePieces both (certificate_data self).off (certificate_data self).on }
        ensures said { IfOk result (λ c. certificate_data c ≡ certificate_data self) }
        ensures form { IfOk result
            (λ c. form_of c ≡ Joined (joined_first both (certificate_data self).off (certificate_data self).on)) }
        // Its entries are in range, and no entry of `off` alone directly follows one of `on` alone.
        ensures entries { IsJoined (joined_first both (certificate_data self).off (certificate_data self).on) }
    {
        let Certificate { off, on, order: _ } = self;
        let order = Some(first_joined(alloc, both, &off, &on)?);
        Ok(Certificate { off, on, order })
    }

    /// Returns the motions at a setting.
    pub fn motions(&self, setting: Setting) -> &Motions<A>
        ensures { result.now ≡ entries_at setting (certificate_data self.now) }
    {
        match setting {
            Setting::Off => &self.off,
            Setting::On => &self.on,
        }
    }
}
