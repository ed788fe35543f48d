//! What texts are read as they are.
ghost use Rattle.std.specs.Prelude.{◌≡◌, Bool, ℕ, List, false};
ghost use Rattle.ngc_saved_text.specs.Saved.{has_mark, has_return, read_text};

/// A text without a byte order mark at its beginning and without a carriage return before a line feed is read as
/// it is.
pub fn read_as_it_is()
    ensures { (in_lines : Bool) (text : List ℕ) → has_mark text ≡ false → has_return text ≡ false →
        read_text in_lines text ≡ text }
{}
