//! The codes beside which a line isn't executed as lines of other words.
ghost use Rattle.std.specs.Prelude.{◌≡◌};
ghost use Rattle.ngc_dialect_repeats.specs.Barred as spec;

use ngc_dialect_rules::{Code, codes, has};

/// A group of codes.
#[derive(Clone, Copy)]
pub enum Group {
    /// Codes for their line alone.
    NonModal,
    /// The coordinate systems.
    Systems,
    /// Stops and ends.
    Stops,
    /// G43.1, whose axis word is the tool length.
    WordLength,
    /// All tool lengths.
    Lengths,
    /// The end of the motion mode.
    MotionEnd,
    /// The beginning of cutter compensation.
    Compensation,
    /// Path control.
    Paths,
    /// Codes that are left out with a note.
    Told,
}

/// A group of codes, and what is beside them.
#[derive(Clone, Copy)]
pub struct Barred {
    pub group: Group,
    /// Whether polar words are refused beside the codes.
    pub polar: bool,
    /// Whether turns aren't counted beside the codes.
    pub turns: bool,
}

/// The groups. Polar words become X and Y of the same line. An arc of several turns becomes several
/// lines, of which only the first has the codes: so more groups bar turns.
pub const BARRED: [Barred; 9] = [
    Barred {
        group: Group::NonModal,
        polar: true,
        turns: true,
    },
    Barred {
        group: Group::Systems,
        polar: true,
        turns: true,
    },
    Barred {
        group: Group::Stops,
        polar: true,
        turns: true,
    },
    Barred {
        group: Group::WordLength,
        polar: true,
        turns: true,
    },
    Barred {
        group: Group::Lengths,
        polar: false,
        turns: true,
    },
    Barred {
        group: Group::MotionEnd,
        polar: false,
        turns: true,
    },
    Barred {
        group: Group::Compensation,
        polar: false,
        turns: true,
    },
    Barred {
        group: Group::Paths,
        polar: false,
        turns: true,
    },
    Barred {
        group: Group::Told,
        polar: false,
        turns: true,
    },
];

fn codes_of(group: Group) -> &'static [Code]
    ensures { result.now ≡ spec.codes_of group }
{
    match group {
        Group::NonModal => &codes::NON_MODAL,
        Group::Systems => &codes::SYSTEMS,
        Group::Stops => &codes::STOPS,
        Group::WordLength => &codes::WORD_LENGTH,
        Group::Lengths => &codes::LENGTHS,
        Group::MotionEnd => &codes::MOTION_END,
        Group::Compensation => &codes::COMPENSATION,
        Group::Paths => &codes::PATHS,
        Group::Told => &codes::TOLD,
    }
}

fn has_group(group: Group, line: &[Code]) -> bool
    ensures { result ≡ spec.has_group group line.now }
{
    has(codes_of(group), line)
}

/// Returns whether a line has a code beside which polar words are refused.
pub(crate) fn bars_polar(line: &[Code]) -> bool
    ensures { result ≡ spec.bars_polar line.now }
{
    BARRED
        .iter()
        .any(|barred| barred.polar && has_group(barred.group, line))
}

/// Returns whether a line has a code beside which turns aren't counted.
pub(crate) fn bars_turns(line: &[Code]) -> bool
    ensures { result ≡ spec.bars_turns line.now }
{
    BARRED
        .iter()
        .any(|barred| barred.turns && has_group(barred.group, line))
}
