//! Laws about the definitions only.
ghost use Rattle.ngc_margins.specs.Laws.{MarginIsKept, SafeWithSmaller, TravelMarginIsKept};

/// States what a margin is for. Where the tool's body is clear with a margin, it is clear without
/// one at each point in whole nanometres that differs by at most the margin on each axis, and so for
/// the travel limits. So a control that stays that near to a checked path strikes nothing.
pub fn margin_is_kept()
    ensures fixtures { MarginIsKept }
    ensures travel { TravelMarginIsKept }
{}

/// States that a box of positions over which the machine is safe with margins is safe with smaller
/// ones. So each piece of a certificate that was made with margins holds with smaller ones.
pub fn safe_with_smaller_margins()
    ensures { SafeWithSmaller }
{}
