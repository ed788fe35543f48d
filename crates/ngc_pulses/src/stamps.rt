//! Changes of wires, each after its time.
ghost use Rattle.std.specs.Prelude.{◌≡◌, ◌+◌, ◌≤◌, ◌^◌, ◌++◌, ◌∷◌, [], length, true, false};
ghost use Rattle.ngc_machine_files.specs.Ranges.{IsRate};
ghost use Rattle.ngc_text.specs.Collected.{CHUNK_SIZE};
ghost use Rattle.ngc_pulses.specs.Dumping.{AddsChanges};
ghost use Rattle.ngc_pulses.specs.Vcd.{levels, level, stamp, tick_changes, time_of, turn, turns};

use crate::axis_step::{AxisStep, Steps};
use crate::wire::Wire;
use ngc_text::Chunk;

const NANOSECONDS: u128 = 1_000_000_000;

/// Returns the nanosecond in which a half tick begins, rounded down, or the greatest 64-bit number.
fn time_of(ticks_per_second: u32, half: u128) -> u64
    requires { IsRate ticks_per_second }
    ensures { result ≡ time_of ticks_per_second half }
{
    match u64::try_from(half) {
        Ok(half) => {
            let exact = u128::from(half) * NANOSECONDS / (2 * u128::from(ticks_per_second));
            u64::try_from(exact).unwrap_or(u64::MAX)
        }
        Err(_) => u64::MAX,
    }
}

/// The times of half ticks, and the half tick that was stamped last.
#[derive(Drop)]
pub(crate) struct Stamps {
    pub(crate) ticks_per_second: u32,
    pub(crate) last: u128,
    ghost rate: { IsRate ticks_per_second },
}

impl Stamps {
    /// Adds the time of a half tick.
    pub(crate) fn stamp(&self, half: u128, chunk: &mut Chunk)
        requires { length chunk.old + 50 ≤ CHUNK_SIZE }
        ensures text { chunk.new ≡ chunk.old ++ stamp self.now.ticks_per_second half }
        ensures short { length chunk.new ≤ length chunk.old + 42 }
    {
        chunk.add_text(b"#");
        chunk.add_number(time_of(self.ticks_per_second, half));
        chunk.add_text(b"\n");
    }

    fn change(&mut self, half: u128, wire: Wire, high: bool, chunk: &mut Chunk)
        requires { length chunk.old + 50 ≤ CHUNK_SIZE }
        ensures adds { AddsChanges self.old.ticks_per_second
            (record { half = half; wire = wire; high = high } ∷ []) self.old.last self.new.last
            chunk.old chunk.new }
        ensures rate { self.new.ticks_per_second ≡ self.old.ticks_per_second }
    {
        if half != self.last {
            self.stamp(half, chunk);
            self.last = half;
        }
        chunk.add_text(wire.change(high));
    }

    fn turn(&mut self, half: u128, wire: Wire, step: &AxisStep, chunk: &mut Chunk)
        requires { length chunk.old + 50 ≤ CHUNK_SIZE }
        ensures adds { AddsChanges self.old.ticks_per_second
            (turn half wire step.now) self.old.last self.new.last chunk.old chunk.new }
        ensures short { length chunk.new ≤ length chunk.old + 50 }
        ensures rate { self.new.ticks_per_second ≡ self.old.ticks_per_second }
    {
        if step.turns {
            self.change(half, wire, step.up, chunk);
        }
    }

    fn turns(&mut self, half: u128, steps: &Steps, chunk: &mut Chunk)
        requires { length chunk.old + 150 ≤ CHUNK_SIZE }
        ensures adds { AddsChanges self.old.ticks_per_second
            (turns half steps.now) self.old.last self.new.last chunk.old chunk.new }
        ensures short { length chunk.new ≤ length chunk.old + 150 }
        ensures rate { self.new.ticks_per_second ≡ self.old.ticks_per_second }
    {
        self.turn(half, Wire::XDirection, &steps.x, chunk);
        self.turn(half, Wire::YDirection, &steps.y, chunk);
        self.turn(half, Wire::ZDirection, &steps.z, chunk);
    }

    fn level(&mut self, half: u128, high: bool, wire: Wire, step: &AxisStep, chunk: &mut Chunk)
        requires { length chunk.old + 50 ≤ CHUNK_SIZE }
        ensures adds { AddsChanges self.old.ticks_per_second
            (level half high wire step.now) self.old.last self.new.last chunk.old chunk.new }
        ensures short { length chunk.new ≤ length chunk.old + 50 }
        ensures rate { self.new.ticks_per_second ≡ self.old.ticks_per_second }
    {
        if step.steps {
            self.change(half, wire, high, chunk);
        }
    }

    fn levels(&mut self, half: u128, high: bool, steps: &Steps, chunk: &mut Chunk)
        requires { length chunk.old + 150 ≤ CHUNK_SIZE }
        ensures adds { AddsChanges self.old.ticks_per_second
            (levels half high steps.now) self.old.last self.new.last chunk.old chunk.new }
        ensures short { length chunk.new ≤ length chunk.old + 150 }
        ensures rate { self.new.ticks_per_second ≡ self.old.ticks_per_second }
    {
        self.level(half, high, Wire::XStep, &steps.x, chunk);
        self.level(half, high, Wire::YStep, &steps.y, chunk);
        self.level(half, high, Wire::ZStep, &steps.z, chunk);
    }

    /// Adds the changes of the tick after `before` ticks.
    pub(crate) fn tick(&mut self, before: u128, steps: &Steps, chunk: &mut Chunk)
        requires few { before ≤ 2 ^ 126 }
        requires room { length chunk.old + 450 ≤ CHUNK_SIZE }
        ensures adds { AddsChanges self.old.ticks_per_second
            (tick_changes before steps.now) self.old.last self.new.last chunk.old chunk.new }
        ensures short { length chunk.new ≤ length chunk.old + 450 }
        ensures rate { self.new.ticks_per_second ≡ self.old.ticks_per_second }
    {
        let half = 2 * before;
        self.turns(half + 1, steps, chunk);
        self.levels(half + 2, true, steps, chunk);
        self.levels(half + 3, false, steps, chunk);
    }
}
