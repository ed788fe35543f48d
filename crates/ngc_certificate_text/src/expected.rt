ghost use Rattle.std.specs.Prelude.{◌≡◌, nat_le, IsTrue};
ghost use Rattle.ngc_certificate_text.specs.Ahead.{next_setting, next_of_entries, next_of_motions};
ghost use Rattle.ngc_certificate_text.specs.Ahead.{motions_after, go_on, is_open};
ghost use Rattle.ngc_certificate_text.specs.EntryLines.{none_left, may_still_follow, remaining_after};
ghost use Rattle.ngc_certificate_text.specs.LineContent.{after_piece, after_content, after_version};

use crate::line_content::{LineContent, Version};
use crate::piece::Setting;

/// The index of a motion in its setting's list of commands, 0 to 999,999, or the indexes of one
/// motion of each setting.
#[derive(Clone, Copy)]
pub enum Indices {
    /// A motion of each setting with the same pieces: its index at `off`, and at `on`.
    Both(u32, u32),
    Off(u32),
    On(u32),
}

/// The remaining entries of version 2.
#[derive(Clone, Copy)]
pub struct RemainingEntries {
    /// The number of remaining motions of `off`.
    pub off: u32,
    /// The number of remaining motions of `on`.
    pub on: u32,
    /// Whether the last entry was a motion of `on` alone, so that one of `off` alone may not be
    /// next.
    pub after_on: bool,
}

/// The remaining motions.
#[derive(Clone, Copy)]
pub enum RemainingMotions {
    /// Version 1: a setting, and the number of its remaining motions.
    Parted(Setting, u32),
    /// Version 2: those of both settings.
    Joined(RemainingEntries),
}

/// A motion whose pieces are being read, or in version 2 one of each setting.
#[derive(Clone, Copy)]
pub struct BegunMotion {
    pub indices: Indices,
    /// The number of remaining pieces.
    pub pieces_left: u32,
    /// The motions after this one.
    pub afterwards: RemainingMotions,
}

/// The next line of a certificate.
#[derive(Clone, Copy)]
pub enum Expected {
    Header,
    Setting(Setting),
    /// The counts, in version 2.
    Counts,
    /// The line of a motion; these motions remain.
    Motion(RemainingMotions),
    Piece(BegunMotion),
    End,
    /// No line: the text has ended.
    Nothing,
}

fn afterwards(setting: Setting) -> Expected
    ensures { result ≡ next_setting setting }
{
    match setting {
        Setting::Off => Expected::Setting(Setting::On),
        Setting::On => Expected::End,
    }
}

fn entries(left: RemainingEntries) -> Expected
    ensures { result ≡ next_of_entries (none_left left) left }
{
    if left.off == 0 && left.on == 0 {
        Expected::End
    } else {
        Expected::Motion(RemainingMotions::Joined(left))
    }
}

// Returns the next line if these motions remain.
fn motions(left: RemainingMotions) -> Expected
    ensures { result ≡ next_of_motions left }
{
    match left {
        RemainingMotions::Parted(setting, 0) => afterwards(setting),
        RemainingMotions::Parted(_, _) => Expected::Motion(left),
        RemainingMotions::Joined(entries_left) => entries(entries_left),
    }
}

impl RemainingEntries {
    /// Returns whether a motion of each setting may be next.
    pub(crate) fn may_be_both(&self) -> bool
        ensures { result ≡ may_still_follow self.now (Indices.Both 0 0) }
    {
        self.off > 0 && self.on > 0
    }

    /// Returns whether a motion of `off` alone may be next.
    pub(crate) fn may_be_off(&self) -> bool
        ensures { result ≡ may_still_follow self.now (Indices.Off 0) }
    {
        self.off > 0 && !self.after_on
    }

    /// Returns whether a motion of `on` alone may be next.
    pub(crate) fn may_be_on(&self) -> bool
        ensures { result ≡ may_still_follow self.now (Indices.On 0) }
    {
        self.on > 0
    }

    // Returns whether some entry may be next.
    fn go_on(&self) -> bool
        ensures { result ≡ go_on (RemainingMotions.Joined self.now) }
    {
        !self.after_on || self.off == 0 || self.on > 0
    }

    // Returns the remaining entries after an entry.
    fn afterwards(self, indices: Indices) -> RemainingEntries
        ensures { result ≡ remaining_after self indices }
    {
        let RemainingEntries { off, on, .. } = self;
        match indices {
            Indices::Both(_, _) => RemainingEntries {
                off: off.saturating_sub(1),
                on: on.saturating_sub(1),
                after_on: false,
            },
            Indices::Off(_) => RemainingEntries {
                off: off.saturating_sub(1),
                on,
                after_on: false,
            },
            Indices::On(_) => RemainingEntries {
                off,
                on: on.saturating_sub(1),
                after_on: true,
            },
        }
    }
}

impl RemainingMotions {
    /// Returns the remaining motions after a motion, or after one of each setting.
    pub(crate) fn afterwards(self, indices: Indices) -> RemainingMotions
        ensures { result ≡ motions_after self indices }
    {
        match self {
            RemainingMotions::Parted(setting, left) => {
                RemainingMotions::Parted(setting, left.saturating_sub(1))
            }
            RemainingMotions::Joined(left) => RemainingMotions::Joined(left.afterwards(indices)),
        }
    }
}

// Returns the next line after a piece of a motion.
fn after_piece(begun: &BegunMotion) -> Expected
    ensures { result ≡ after_piece (nat_le begun.now.pieces_left 1) begun.now }
{
    if begun.pieces_left <= 1 {
        return motions(begun.afterwards);
    }
    Expected::Piece(BegunMotion {
        indices: begun.indices,
        pieces_left: begun.pieces_left - 1,
        afterwards: begun.afterwards,
    })
}

impl Version {
    // Returns the next line after the first one.
    fn second_line(self) -> Expected
        ensures { result ≡ after_version self }
    {
        match self {
            Version::One => Expected::Setting(Setting::Off),
            Version::Two => Expected::Counts,
        }
    }
}

impl Expected {
    /// Returns whether some line may be next. After an entry of the last motion of `on` alone, none
    /// may be next while motions of `off` remain: `off` may not follow it, and `both` needs one of
    /// each.
    pub(crate) fn is_open(&self) -> bool
        ensures { result ≡ is_open self.now }
    {
        match self {
            Expected::Motion(RemainingMotions::Joined(left)) => left.go_on(),
            _ => true,
        }
    }

    /// Returns the next line after a line.
    pub(crate) fn after_content(line_content: &LineContent) -> Expected
        ensures { result ≡ after_content line_content.now }
    {
        match line_content {
            LineContent::Header(version) => version.second_line(),
            LineContent::Setting(setting, count) => motions(RemainingMotions::Parted(
                *setting, *count,
            )),
            LineContent::Counts(off, on) => entries(RemainingEntries {
                off: *off,
                on: *on,
                after_on: false,
            }),
            LineContent::Motion(begun) => Expected::Piece(*begun),
            LineContent::Piece(begun, _) => after_piece(begun),
            LineContent::End => Expected::Nothing,
        }
    }
}
