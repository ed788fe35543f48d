ghost use Rattle.std.specs.Prelude.{◌≡◌};
ghost use Rattle.ngc_dialect_flow.specs.Searches as spec;

use crate::mark::LineKind;
use ngc_dialect_reader::Keyword;

/// What lines the flow searches for.
#[derive(Clone, Copy)]
pub(crate) enum Search {
    Sub,
    /// A label alone, which begins a subprogram of M98.
    Program,
    LineNumber,
    EndSub,
    /// ELSEIF, ELSE, ENDIF or another IF.
    Branch,
    /// ENDIF or another IF.
    EndIf,
    EndWhile,
    /// WHILE or ENDWHILE.
    LoopEnd,
    EndRepeat,
    /// The end of one of Fanuc's loops.
    EndLoop,
}

impl Search {
    /// Returns the number of a search.
    pub(crate) fn code(self) -> u8
        ensures { result ≡ spec.code self }
    {
        match self {
            Search::Sub => 0,
            Search::Program => 1,
            Search::LineNumber => 2,
            Search::EndSub => 3,
            Search::Branch => 4,
            Search::EndIf => 5,
            Search::EndWhile => 6,
            Search::LoopEnd => 7,
            Search::EndRepeat => 8,
            Search::EndLoop => 9,
        }
    }
}

/// Returns the search that finds a line of this kind.
pub(crate) fn found_by(kind: LineKind) -> Option<Search>
    ensures { result ≡ spec.found_by kind }
{
    match kind {
        LineKind::Program => Some(Search::Program),
        LineKind::EndLoop => Some(Search::EndLoop),
        LineKind::Word(Keyword::Sub) => Some(Search::Sub),
        LineKind::Word(Keyword::EndSub) => Some(Search::EndSub),
        LineKind::Word(Keyword::If | Keyword::ElseIf | Keyword::Else | Keyword::EndIf) => {
            Some(Search::Branch)
        }
        LineKind::Word(Keyword::While | Keyword::EndWhile) => Some(Search::LoopEnd),
        LineKind::Word(Keyword::EndRepeat) => Some(Search::EndRepeat),
        _ => None,
    }
}

/// Returns a second search that finds a line of this kind.
pub(crate) fn also_found_by(kind: LineKind) -> Option<Search>
    ensures { result ≡ spec.also_found_by kind }
{
    match kind {
        LineKind::Word(Keyword::If | Keyword::EndIf) => Some(Search::EndIf),
        LineKind::Word(Keyword::EndWhile) => Some(Search::EndWhile),
        _ => None,
    }
}

/// Returns the search for the end of the block that a line begins or is in.
pub(crate) fn end_of(kind: LineKind) -> Option<Search>
    ensures { result ≡ spec.end_of kind }
{
    match kind {
        LineKind::Loop => Some(Search::EndLoop),
        LineKind::Word(Keyword::Sub) => Some(Search::EndSub),
        LineKind::Word(Keyword::If | Keyword::ElseIf | Keyword::Else) => Some(Search::EndIf),
        LineKind::Word(Keyword::While) => Some(Search::EndWhile),
        LineKind::Word(Keyword::Do | Keyword::Break | Keyword::Continue) => Some(Search::LoopEnd),
        LineKind::Word(Keyword::Repeat) => Some(Search::EndRepeat),
        _ => None,
    }
}

/// Returns the search for the line to which the flow goes if a condition doesn't hold.
pub(crate) fn branch_of(kind: LineKind) -> Option<Search>
    ensures { result ≡ spec.branch_of kind }
{
    match kind {
        LineKind::Word(Keyword::If | Keyword::ElseIf) => Some(Search::Branch),
        _ => None,
    }
}
