use crate::letter::Letter;
use ngc_fixed_length::Value;

/// A word's letter and value.
#[derive(Clone, Copy)]
pub struct Word {
    pub letter: Letter,
    pub value: Value,
}

impl Default for Word {
    ghost use Rattle.std.specs.Prelude.{◌≡◌, pos};
    ghost use Rattle.ngc_line_reader.specs.declared.letter.Letter.TheVariants as letters;

    ghost is_default = { λ w. w ≡ record { letter = letters.A; value = pos 0 } };

    fn default() -> Word {
        Word {
            letter: Letter::default(),
            value: Value::zero(),
        }
    }
}
