ghost use Rattle.std.specs.Prelude.{◌≡◌};

use ngc_line_reader::Letter;
use std::fmt;
use thiserror::Error;

/// A word that is missing, and that a code on the line, or in force, needs.
#[derive(Clone, Copy, PartialEq, Eq)]
pub enum MissingWord {
    /// X, Y or Z: one of them is enough.
    Axis,
    /// The word of this letter.
    Letter(Letter),
}

/// The reasons why a line's words are no block, 201 to 205, or a block has no effects, 206 to 210.
#[derive(Clone, Copy, PartialEq, Eq, Error)]
pub enum ModalFault {
    /// Fault 201.
    #[error("two codes of one modal group")]
    GroupTwice,
    /// Fault 202.
    #[error("more than four M words")]
    TooManyMWords,
    /// Fault 203.
    #[error("a letter that may stand once is repeated")]
    LetterRepeated,
    /// Fault 204: the word's letter, G or M, and its value in millionths. It is the first word from
    /// the left that doesn't fit.
    #[error("the {} code is unknown", spelled(*.letter))]
    UnknownCode { letter: Letter, millionths: i64 },
    /// Fault 205: A, B, C, D, G38.2, G41, G42, G84, G87, G88.
    #[error("the code or letter is left out of this language profile")]
    LeftOut,
    /// Fault 206.
    #[error("two codes on the line use the same word")]
    ClaimedTwice,
    /// Fault 207: the letter of a word that nothing uses. Of several it is the first of X, Y, Z, I,
    /// J, K, R, P, L, Q, H (our own).
    #[error("no code on the line uses the word {}", spelled(*.0))]
    WithoutUse(Letter),
    /// Fault 208: of several words the first of P of G4, L and P of G10, H of G43, an axis word, F
    /// in inverse time, and on a cycle's first line R, the bottom, P, Q (our own).
    #[error("{0}, which a code on the line needs, is missing")]
    WordMissing(MissingWord),
    /// Fault 209.
    #[error("a word's value is out of its range")]
    OutOfRange,
    /// Fault 210.
    #[error("G53 stands without G0 or G1 in force")]
    WithoutStraightMotion,
}

impl fmt::Display for MissingWord {
    fn fmt<W: fmt::Write>(&self, f: &mut fmt::Formatter<W>) -> fmt::Result {
        match self {
            MissingWord::Axis => write!(f, "an axis word"),
            MissingWord::Letter(letter) => write!(f, "the word {}", spelled(*letter)),
        }
    }
}

// Shows a letter as in the fault's text.
impl fmt::Debug for ModalFault {
    fn fmt<W: fmt::Write>(&self, f: &mut fmt::Formatter<W>) -> fmt::Result {
        write!(f, "{self}")
    }
}

impl ModalFault {
    ghost use Rattle.ngc_modal_state.specs.Faults.{number as number_of};

    /// Returns the fault's number.
    pub fn number(&self) -> u16
        ensures { result ≡ number_of self.now }
    {
        match self {
            ModalFault::GroupTwice => 201,
            ModalFault::TooManyMWords => 202,
            ModalFault::LetterRepeated => 203,
            ModalFault::UnknownCode { .. } => 204,
            ModalFault::LeftOut => 205,
            ModalFault::ClaimedTwice => 206,
            ModalFault::WithoutUse(_) => 207,
            ModalFault::WordMissing(_) => 208,
            ModalFault::OutOfRange => 209,
            ModalFault::WithoutStraightMotion => 210,
        }
    }
}

fn spelled(letter: Letter) -> &'static str {
    match letter {
        Letter::A => "A",
        Letter::B => "B",
        Letter::C => "C",
        Letter::D => "D",
        Letter::F => "F",
        Letter::G => "G",
        Letter::H => "H",
        Letter::I => "I",
        Letter::J => "J",
        Letter::K => "K",
        Letter::L => "L",
        Letter::M => "M",
        Letter::P => "P",
        Letter::Q => "Q",
        Letter::R => "R",
        Letter::S => "S",
        Letter::T => "T",
        Letter::X => "X",
        Letter::Y => "Y",
        Letter::Z => "Z",
    }
}
