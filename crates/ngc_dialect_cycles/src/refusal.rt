/// The reasons why a cycle is refused.
#[derive(Clone, Copy, Debug, PartialEq, Eq)]
pub enum CycleRefusal {
    /// R is below the bottom of the hole.
    RetractBelowBottom,
    /// Q is not above 0, or the distance back is below 0.
    BadPeck,
    /// P is below 0.
    NegativeDwell,
    /// G86 would stop a spindle that doesn't turn.
    SpindleNotTurning,
    /// A height or a place is over a hundred metres.
    TooFar,
}
