ghost use Rattle.std.specs.Prelude.{◌≡◌, ◌∷◌, ◌++◌, [], codes, flat_map};
ghost use Rattle.ngc_line_reader.specs.Words.{pair_of, pairs_of};
ghost use Rattle.ngc_sentences.specs.Saying.{Says};
ghost use Rattle.ngc_plain_text.specs.Text.{next_word_text, line_text};

use crate::word::say_word;
use ngc_line_reader::Word;
use ngc_sentences::{Page, say};
use ngc_text::Sink;

// Says a word after a blank.
fn say_next_word<W: Sink>(word: &Word, page: &mut Page, output: &mut W)
    ensures { Says (W.written output.old) (W.written output.new)
        (W.failures output.old) (W.failures output.new) page.old page.new
        (next_word_text word.now) }
{
    say!(page, output; b" ");
    say_word(word, page, output);
}

// Says words, each after a blank.
fn say_next_words<W: Sink>(words: &[Word], page: &mut Page, output: &mut W)
    ensures { Says (W.written output.old) (W.written output.new)
        (W.failures output.old) (W.failures output.new) page.old page.new
        (flat_map next_word_text words.now) }
{
    for word in words {
        say_next_word(word, page, output);
    }
}

// Says words with a blank between each two.
fn say_words<W: Sink>(words: &[Word], page: &mut Page, output: &mut W)
    ensures { Says (W.written output.old) (W.written output.new)
        (W.failures output.old) (W.failures output.new) page.old page.new
        (line_text (pairs_of words.now)) }
{
    if let [first, rest @ ..] = words {
        say_word(first, page, output);
        say_next_words(rest, page, output);
    }
}

/// Says a plain line: its words with a blank between each two, and a line feed.
///
/// The line may have any number of words. `is_short` returns whether our own language reads it.
pub fn say_line<W: Sink>(words: &[Word], page: &mut Page, output: &mut W)
    ensures { Says (W.written output.old) (W.written output.new)
        (W.failures output.old) (W.failures output.new) page.old page.new
        (line_text (pairs_of words.now) ++ codes "\n") }
{
    say_words(words, page, output);
    say!(page, output; b"\n");
}
