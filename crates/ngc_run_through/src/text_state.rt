use ngc_pulses::PulseSamples;

/// The state of a live run's text while no event arrives, once all of it is written.
#[derive(Drop)]
pub enum TextState {
    /// The log: nothing is kept.
    Log,
    /// The log with ticks: the number of ticks so far.
    Times(u64),
    /// The samples.
    Samples(PulseSamples),
}
