/// A motion in the ramp's units: millionths of a path step, and millionths of a path step per tick.
#[derive(Clone, Copy, Default)]
pub struct Leg {
    /// Its length: a whole number of path steps, at least one.
    pub millionths: u64,
    /// The greatest difference between the rates of two successive ticks on it, 1 to 1,000,000.
    pub change: u64,
    /// The greatest rate of a tick on it, 1 to 1,000,000.
    pub bound: u64,
    /// The greatest rate of its first tick, at least 1.
    pub entry: u64,
    /// The greatest rate of its last tick, at least 1.
    pub exit: u64,
    /// Whether the axes come from the leg before without a stop.
    pub joined: bool,
}

impl Leg {
    ghost use Rattle.std.specs.Prelude.{◌≡◌, ◌-◌, ◌%◌, ◌≤◌};
    ghost use Rattle.ngc_fixed_length.specs.Limits.{MILLION};
    ghost use Rattle.ngc_braking.specs.Leg.{tick_bound, travelled, is_due};

    /// Returns the greatest rate of the next tick, with `rest` of the leg remaining.
    pub fn tick_bound(&self, rest: u64) -> u64
        ensures { result ≡ tick_bound self.now rest }
    {
        if rest == self.millionths {
            self.bound.min(self.entry)
        } else {
            self.bound
        }
    }

    /// Returns whether the next `rate` millionths reach the end of a path step of the leg, with
    /// `rest` of it remaining.
    pub fn is_due(&self, rest: u64, rate: u64) -> bool
        requires { rest ≤ self.now.millionths }
        ensures { result ≡ is_due self.now rest rate }
    {
        let before = self.millionths - rest;
        before / 1_000_000 < (before + rate.min(rest)) / 1_000_000
    }

    /// Returns how many millionths can be travelled without reaching the end of a path step, with
    /// `rest` of the leg remaining.
    pub fn within_step(&self, rest: u64) -> u64
        requires { rest ≤ self.now.millionths }
        ensures { result ≡ MILLION - 1 - travelled self.now rest % MILLION }
    {
        999_999 - (self.millionths - rest) % 1_000_000
    }
}
