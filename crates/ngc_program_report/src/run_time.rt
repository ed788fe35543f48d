ghost use Rattle.std.specs.Prelude.{◌≤◌};

/// The time of a run: its ticks, and the machine's ticks per second.
#[derive(Clone, Copy)]
pub struct RunTime {
    pub ticks: u128,
    pub ticks_per_second: u32,
    ghost some_ticks: { 1 ≤ ticks_per_second },
}
