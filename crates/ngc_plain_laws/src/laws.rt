//! Laws about the definitions alone.
ghost use Rattle.ngc_plain_laws.specs.Laws.{LinesDoWords, TextsHaveCommands, TextsLackEnd};
ghost use Rattle.ngc_plain_laws.specs.Laws.{TextsHaveFaults};

/// States that a line of our language that is the text of words does what the words do.
pub fn lines_do_words()
    ensures { LinesDoWords }
{}

/// States that the text of plain lines that end has their commands, at both settings of block
/// delete. The line numbers of these commands are those of the text.
pub fn texts_have_commands()
    ensures { TextsHaveCommands }
{}

/// States that the text of plain lines that don't end is refused for its missing end.
pub fn texts_lack_end()
    ensures { TextsLackEnd }
{}

/// States that the text of plain lines one of which is refused is refused with the same fault at
/// that line.
pub fn texts_have_faults()
    ensures { TextsHaveFaults }
{}
