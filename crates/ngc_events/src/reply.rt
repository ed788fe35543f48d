use ngc_fixed_length::StepPos;

/// How a command ended: by itself, by stopping the machine, or with the program. Commands are
/// counted from 0.
#[derive(Clone, Copy)]
pub enum Ending {
    /// By itself: its index.
    Done(u32),
    /// By stopping the machine: its index.
    Stopped(u32),
    /// With the program.
    End,
}

/// The machine's reply to an event that it takes.
#[derive(Clone, Copy)]
pub enum Reply {
    /// The next command was loaded: its index, from 0.
    Loaded(u32),
    /// A tick: the position after a pulse in steps, if a pulse was emitted, and the ending of a
    /// command, if one ended.
    Ticked {
        position: Option<StepPos>,
        ending: Option<Ending>,
    },
    /// The machine is held from now on.
    Held,
    /// The machine is held no longer.
    Resumed,
    /// The feed override from now on, in percent.
    Overridden(u8),
    /// Whether the optional stop switch is on from now on.
    Switched(bool),
    /// The machine is stopped no longer.
    Started,
}
