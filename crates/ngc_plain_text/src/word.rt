ghost use Rattle.std.specs.Prelude.{◌≡◌, ◌∷◌, []};
ghost use Rattle.ngc_line_reader.specs.Letter.{letter_byte};
ghost use Rattle.ngc_line_reader.specs.Words.{pair_of};
ghost use Rattle.ngc_sentences.specs.Saying.{Says};
ghost use Rattle.ngc_plain_text.specs.Text.{word_text};

use ngc_line_reader::{Letter, Word};
use ngc_sentences::{Page, Part, say};
use ngc_text::Sink;

/// Returns the text of a letter: its byte in upper case.
pub(crate) fn letter_text(letter: Letter) -> &'static [u8]
    ensures { result.now ≡ letter_byte letter ∷ [] }
{
    match letter {
        Letter::A => b"A",
        Letter::B => b"B",
        Letter::C => b"C",
        Letter::D => b"D",
        Letter::F => b"F",
        Letter::G => b"G",
        Letter::H => b"H",
        Letter::I => b"I",
        Letter::J => b"J",
        Letter::K => b"K",
        Letter::L => b"L",
        Letter::M => b"M",
        Letter::P => b"P",
        Letter::Q => b"Q",
        Letter::R => b"R",
        Letter::S => b"S",
        Letter::T => b"T",
        Letter::X => b"X",
        Letter::Y => b"Y",
        Letter::Z => b"Z",
    }
}

/// Says a word: its letter and its value.
pub(crate) fn say_word<W: Sink>(word: &Word, page: &mut Page, output: &mut W)
    ensures { Says (W.written output.old) (W.written output.new)
        (W.failures output.old) (W.failures output.new) page.old page.new
        (word_text (pair_of word.now)) }
{
    let millionths = word.value.millionths();
    say!(page, output; Part::Text(letter_text(word.letter)), Part::Length(millionths));
}
