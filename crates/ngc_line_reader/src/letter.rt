ghost use Rattle.std.specs.Prelude.{◌≡◌};
ghost use Rattle.ngc_line_reader.specs.Letter.{letter_of as letter_spelled};

/// A letter that begins a word. N begins a line number, and E, O, U, V and W begin nothing.
#[derive(Clone, Copy, PartialEq, Eq)]
pub enum Letter {
    A,
    B,
    C,
    D,
    F,
    G,
    H,
    I,
    J,
    K,
    L,
    M,
    P,
    Q,
    R,
    S,
    T,
    X,
    Y,
    Z,
}

impl Default for Letter {
    ghost use Rattle.ngc_line_reader.specs.declared.letter.Letter.TheVariants as letters;

    ghost is_default = { λ l. l ≡ letters.A };

    fn default() -> Letter {
        Letter::A
    }
}

// Returns the letter that a byte writes.
#[tactic(auto, unfolding(crate::specs::Letter::letter_of))]
#[inline]
pub(crate) fn letter_of(byte: u8) -> Option<Letter>
    ensures { result ≡ letter_spelled byte }
{
    match byte {
        b'A' => Some(Letter::A),
        b'B' => Some(Letter::B),
        b'C' => Some(Letter::C),
        b'D' => Some(Letter::D),
        b'F' => Some(Letter::F),
        b'G' => Some(Letter::G),
        b'H' => Some(Letter::H),
        b'I' => Some(Letter::I),
        b'J' => Some(Letter::J),
        b'K' => Some(Letter::K),
        b'L' => Some(Letter::L),
        b'M' => Some(Letter::M),
        b'P' => Some(Letter::P),
        b'Q' => Some(Letter::Q),
        b'R' => Some(Letter::R),
        b'S' => Some(Letter::S),
        b'T' => Some(Letter::T),
        b'X' => Some(Letter::X),
        b'Y' => Some(Letter::Y),
        b'Z' => Some(Letter::Z),
        _ => None,
    }
}
