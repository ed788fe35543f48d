ghost use Rattle.ngc_dialect_cycles.specs.Laws.{MovesAreSafe, EndsAtClear, FeedsGoDown};

/// States that no move of a cycle ends below the bottom of the hole, that a feed is straight up or
/// down, and that a traverse is so too or goes, not down, to the height to which holes clear or
/// above it.
pub fn moves_are_safe()
    ensures { MovesAreSafe }
{}

/// States that a line with a hole ends over its last hole, at the height to which holes clear.
pub fn ends_at_clear()
    ensures { EndsAtClear }
{}

/// States that no feed of G73, G81, G82 and G83 goes up.
pub fn feeds_go_down()
    ensures { FeedsGoDown }
{}
