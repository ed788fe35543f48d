//! Laws about the definitions alone.
ghost use Rattle.ngc_dialect_execution.specs.Laws.{PlainLinesAreLawful, ListsAreInOrder, SameAtBoth};

/// States of the commands of plain lines, whatever they are: the motions are joined from the
/// machine's start point on, arcs have even radii, there are at most a million commands, and
/// nothing follows an end.
pub fn plain_lines_are_lawful()
    ensures { PlainLinesAreLawful }
{}

/// States that two lists of plain lines, joined, are executed in order.
pub fn lists_are_in_order()
    ensures { ListsAreInOrder }
{}

/// States that a text without lines that begin with `/` means the same at both settings of block
/// delete.
pub fn same_at_both()
    ensures { SameAtBoth }
{}
