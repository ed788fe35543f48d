/// The result of a tick.
#[derive(Clone, Copy)]
pub struct Travel {
    /// The distance travelled, in millionths of a path step.
    pub rate: u64,
    /// Whether the tick reaches the end of a path step of the leg.
    pub due: bool,
    /// Whether the tick reaches the end of the leg.
    pub ended: bool,
}
