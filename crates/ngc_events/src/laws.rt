//! Laws about the definitions alone.
ghost use Rattle.ngc_events.specs.Spelling.{IsOneWriting};

/// States that a text is read as events exactly if it is their text. So each list of events has
/// only one text.
pub fn one_writing()
    ensures { IsOneWriting }
{}
