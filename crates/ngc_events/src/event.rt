/// An event: an input of the controller from the panel, the loader or the pulse clock.
#[derive(Clone, Copy)]
pub enum Event {
    /// The loader puts the next command into the ring.
    Load,
    /// The pulse clock ticks once.
    Tick,
    /// The rate falls to 0, and no further motion is begun.
    Hold,
    /// A hold ends.
    Resume,
    /// The feed override, in percent. All values are allowed here; the controller refuses more than
    /// 200.
    Override(u8),
    /// The optional stop switch: on or off.
    StopSwitch(bool),
    /// A stop ends.
    Start,
}

/// An event, and how many times it occurs.
#[derive(Clone, Copy)]
pub struct EventLine {
    pub event: Event,
    /// 1 to 1,000,000 for ticks, 1 for every other event.
    pub times: u32,
}
