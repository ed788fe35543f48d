//! The settings of the panel.
ghost use Rattle.std.specs.Prelude.{◌≡◌, true, false, if◌then◌else◌};
ghost use Rattle.ngc_controller.specs.Panel.{effective_at};

/// The switches of the panel, and whether the machine is stopped.
#[derive(Clone, Copy)]
pub struct Panel {
    /// The feed override in percent, 0 to 200.
    pub percent: u8,
    /// Whether the override is on.
    pub overrides: bool,
    /// Whether the machine is held: its rate falls to 0, and then nothing begins.
    pub held: bool,
    /// Whether a stop has stopped the machine, and no start has followed.
    pub stopped: bool,
    /// Whether an optional stop stops the machine.
    pub stop_switch: bool,
}

impl Panel {
    /// Returns the panel at the start of the machine.
    pub fn new() -> Panel
        ensures { result ≡ record {
          percent = 100;
          overrides = true;
          held = false;
          stopped = false;
          stop_switch = false;
        } }
    {
        Panel {
            percent: 100,
            overrides: true,
            held: false,
            stopped: false,
            stop_switch: false,
        }
    }

    /// Returns the effective percentage: 100 while overrides are off.
    pub fn effective(&self) -> u8
        ensures { result ≡ effective_at self.now }
    {
        if self.overrides { self.percent } else { 100 }
    }

    /// Returns the requested rate of a tick on a motion with this target: 0 while held.
    pub fn wish(&self, target: u64) -> u64
        ensures { result ≡ (if self.now.held then 0 else target) }
    {
        if self.held { 0 } else { target }
    }
}
