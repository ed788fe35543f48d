//! The words of a move.

use ngc_compensation::{Motion, Move};
use ngc_fixed_length::{Nm, Point2, Turn};

/// The words in force: a code, a place, a centre, a radius.
#[derive(Clone, Copy)]
pub struct Words {
    pub code: i64,
    pub plane: i64,
    pub place: Point2,
    pub height: Nm,
    centre: Point2,
    pub radius: Nm,
}

impl Words {
    /// Returns words that are all 0, in G17.
    pub fn new() -> Words {
        let zero = Nm::zero();
        Words {
            code: 0,
            plane: 17,
            place: Point2 { u: zero, v: zero },
            height: zero,
            centre: Point2 { u: zero, v: zero },
            radius: zero,
        }
    }

    fn set_code(&mut self, code: i64) {
        match code {
            17..=19 => self.plane = code,
            _ => self.code = code,
        }
    }

    // Sets the length of a letter, or returns `None` if there is none.
    fn set(&mut self, letter: u8, number: i64) -> Option<()> {
        let length = Nm::from_nanometres(i128::from(number)).ok()?;
        match letter {
            b'G' => self.set_code(number),
            b'U' => self.place.u = length,
            b'V' => self.place.v = length,
            b'W' => self.height = length,
            b'I' => self.centre.u = length,
            b'J' => self.centre.v = length,
            b'R' => self.radius = length,
            _ => return None,
        }
        Some(())
    }

    /// Takes words that are separated by blanks, or returns `None` if one of them isn't a letter and
    /// a number.
    pub fn take(&mut self, words: &str) -> Option<()> {
        for word in words.split(' ') {
            let Some(letter) = word.as_bytes().first() else {
                continue;
            };
            let number = word.get(1..)?.parse::<i64>().ok()?;
            self.set(*letter, number)?;
        }
        Some(())
    }

    /// Returns the move, or `None` without the code of one.
    pub fn programmed(&self) -> Option<Move> {
        let motion = match self.code {
            0 => Motion::Traverse,
            1 => Motion::Feed,
            2 => Motion::Arc(Turn::Clockwise, self.centre),
            3 => Motion::Arc(Turn::Counterclockwise, self.centre),
            _ => return None,
        };
        Some(Move {
            motion,
            end: self.place,
            height: self.height,
        })
    }
}
