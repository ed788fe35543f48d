//! Laws about the definitions alone.
ghost use Rattle.ngc_plain_text.specs.Laws.{WordsReadBack, LinesReadBack, TextsReadBack};

/// States that the text of a word is a line of our language with this word and no other.
pub fn words_read_back()
    ensures { WordsReadBack }
{}

/// States that the text of at most 64 words, if it has at most 256 bytes, is a line of our language
/// with these words in order.
pub fn lines_read_back()
    ensures { LinesReadBack }
{}

/// States that the text of at most 100,000 such lines is a text of our language with these lines.
pub fn texts_read_back()
    ensures { TextsReadBack }
{}
