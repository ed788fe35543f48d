/// The form in which a live run is written.
#[derive(Clone, Copy)]
pub enum LiveForm {
    /// The log: the outcome of each event.
    Log,
    /// The log with ticks: each line begins with the number of ticks before its event.
    Times,
    /// The pulses as samples: two bytes for each tick, with the bits of a mask inverted.
    Samples(u8),
}
