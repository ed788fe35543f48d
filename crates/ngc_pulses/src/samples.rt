//! The pulses of a run as bytes that hardware plays.
ghost use Rattle.std.specs.Prelude.{◌≡◌, ◌+◌, ◌≤◌, ◌^◌, ◌++◌, OnOk, OnErr};
ghost use Rattle.ngc_text.specs.Collected.{HasSpaceForLine, WritesPrefix};
ghost use Rattle.ngc_text.specs.Failures.{CountsFailure};
ghost use Rattle.ngc_text.specs.Written.{AppendsPrefix};
ghost use Rattle.ngc_pulses.specs.Samples.{bit, level_bits, levels_in, step_bits, switched};
ghost use Rattle.ngc_pulses.specs.Sampling.{after_sample, changed_by, changed_bytes};
ghost use Rattle.ngc_pulses.specs.Sampling.{first_samples, is_rest, rest_bytes};
ghost use Rattle.ngc_pulses.specs.Sampling.{rested, sample_text, settled, stays};

use crate::axis_step::{Directions, Steps};
use crate::repeated::write_repeated;
use ngc_fixed_length::StepPos;
use ngc_text::{Chunk, Sink, WriteFault};
use std::marker::Model;

/// What the command that ends in a tick switches.
#[derive(Clone, Copy)]
pub enum Switch {
    /// Neither the spindle nor the coolant.
    Nothing,
    /// The spindle, on or off.
    Spindle(bool),
    /// The coolant, on or off.
    Coolant(bool),
    /// The spindle and the coolant, off.
    AllOff,
}

/// The levels of the wires in a tick, except the steps.
#[derive(Clone, Copy, Drop)]
pub(crate) struct Levels {
    pub(crate) directions: Directions,
    pub(crate) spindle: bool,
    pub(crate) coolant: bool,
}

impl Switch {
    fn stays(self) -> bool
        ensures { result ≡ stays self }
    {
        match self {
            Switch::Nothing => true,
            Switch::Spindle(_) | Switch::Coolant(_) | Switch::AllOff => false,
        }
    }
}

// Returns whether a tick has no pulse, and nothing is switched in it.
fn is_rest(position: Option<StepPos>, switch: Switch) -> bool
    ensures { result ≡ is_rest (record { position = position; switch = switch }) }
{
    position.is_none() && switch.stays()
}

// Returns the value of a bit.
fn bit(value: u8, on: bool) -> u8
    ensures is { result ≡ bit value on }
    ensures small { result ≤ value }
{
    if on { value } else { 0 }
}

fn step_bits(steps: &Steps) -> u8
    ensures is { result ≡ step_bits steps.now }
    ensures small { result ≤ 21 }
{
    bit(1, steps.x.steps) + (bit(4, steps.y.steps) + bit(16, steps.z.steps))
}

impl Levels {
    fn bits(&self) -> u8
        ensures is { result ≡ level_bits self.now }
        ensures small { result ≤ 234 }
    {
        bit(2, self.directions.x)
            + (bit(8, self.directions.y)
                + (bit(32, self.directions.z) + (bit(64, self.spindle) + bit(128, self.coolant))))
    }

    fn switched(self, switch: Switch) -> Levels
        ensures { result ≡ switched self switch }
    {
        match switch {
            Switch::Nothing => self,
            Switch::Spindle(on) => Levels {
                spindle: on,
                ..self
            },
            Switch::Coolant(on) => Levels {
                coolant: on,
                ..self
            },
            Switch::AllOff => Levels {
                spindle: false,
                coolant: false,
                ..self
            },
        }
    }

    // Returns the levels in a tick with these steps, in which a command that ends switches this.
    fn in_tick(self, steps: &Steps, switch: Switch) -> Levels
        ensures { result ≡ levels_in self steps.now switch }
    {
        Levels {
            directions: steps.directions(),
            ..self.switched(switch)
        }
    }
}

/// The samples of a run's pulses, after some of its ticks: two bytes for each tick.
///
/// Bits 0, 2 and 4 are the steps of X, Y and Z, bits 1, 3 and 5 their directions, 1 for up, bit 6
/// is the spindle and bit 7 the coolant. The first byte of a tick has its steps low, the second has
/// those that are due high. Ticks that change nothing are counted, and written together.
#[derive(Drop)]
pub struct PulseSamples {
    inverted: u8,
    position: StepPos,
    levels: Levels,
    resting: u128,
}

impl Model for PulseSamples {
    ghost use Rattle.ngc_pulses.specs.Sampling.{SampleState};

    ghost Value = { SampleState };

    ghost view = { λ s. record {
      inverted = s.inverted;
      position = s.position;
      levels = s.levels;
      resting = s.resting;
    } };
}

impl PulseSamples {
    /// Returns the samples after no ticks, of a machine at rest at a position, in steps. Spindle
    /// and coolant are off. The bits of `inverted` are inverted in each byte.
    pub fn new(inverted: u8, position: StepPos) -> PulseSamples
        ensures { result ≡ first_samples inverted position }
    {
        PulseSamples {
            inverted,
            position,
            levels: Levels {
                directions: Directions {
                    x: false,
                    y: false,
                    z: false,
                },
                spindle: false,
                coolant: false,
            },
            resting: 0,
        }
    }

    /// Counts ticks that change nothing.
    pub fn rest(&mut self, count: u64)
        requires { self.old.resting + count ≤ 2 ^ 126 + 1 }
        ensures { self.new ≡ rested count self.old }
    {
        self.resting += u128::from(count);
    }

    /// Writes the bytes of a tick. Its pulse leads to a position, in steps, or it has none; a
    /// command that ends in it switches something or nothing. After a fault a prefix is written,
    /// and the sink has counted the failure.
    pub fn tick<W: Sink>(
        &mut self,
        position: Option<StepPos>,
        switch: Switch,
        chunk: &mut Chunk,
        sink: &mut W,
    ) -> Result<(), WriteFault>
        requires { self.old.resting ≤ 2 ^ 126 }
        ensures state { OnOk result
            (self.new ≡ after_sample self.old (record { position = position; switch = switch })) }
        ensures text { OnOk result
            (WritesPrefix (W.written sink.old) (W.written sink.new)
            (chunk.old ++ sample_text self.old (record { position = position; switch = switch }))
            chunk.new) }
        ensures fault { OnErr result
            (AppendsPrefix (W.written sink.old) (W.written sink.new)
            (chunk.old ++ sample_text self.old (record { position = position; switch = switch }))) }
        ensures failures { CountsFailure (W.failures sink.old) (W.failures sink.new) result }
    {
        if is_rest(position, switch) {
            self.rest(1);
            return Ok(());
        }
        match self.write_rests(chunk, sink) {
            Ok(()) => {}
            Err(fault) => return Err(fault),
        }
        self.change(position, switch, chunk);
        Ok(())
    }

    // Adds a tick with no uncounted rests before it.
    fn change(&mut self, position: Option<StepPos>, switch: Switch, chunk: &mut Chunk)
        requires room { HasSpaceForLine chunk.old }
        ensures state { self.new
            ≡ changed_by self.old (record { position = position; switch = switch }) }
        ensures text { chunk.new ≡ chunk.old
            ++ changed_bytes self.old (record { position = position; switch = switch }) }
    {
        let place = position.unwrap_or(self.position);
        let steps = Steps::between(&self.position, &place, &self.levels.directions);
        let levels = self.levels.in_tick(&steps, switch);
        let low = levels.bits();
        let high = low + step_bits(&steps);
        chunk.add_text(&[low ^ self.inverted, high ^ self.inverted]);
        self.position = place;
        self.levels = levels;
        self.resting = 0;
    }

    /// Returns the samples as they continue after the bytes of the ticks that changed nothing are
    /// written.
    pub fn settled(&self) -> PulseSamples
        ensures { result ≡ settled self.now }
    {
        PulseSamples {
            inverted: self.inverted,
            position: self.position,
            levels: self.levels,
            resting: 0,
        }
    }

    /// Writes the bytes of the counted ticks that changed nothing. Then there is space for a line.
    /// After a fault a prefix is written, and the sink has counted the failure.
    pub fn write_rests<W: Sink>(
        &mut self,
        chunk: &mut Chunk,
        sink: &mut W,
    ) -> Result<(), WriteFault>
        requires { self.old.resting ≤ 2 ^ 126 }
        ensures state { OnOk result (self.new ≡ record self.old { resting = 0 }) }
        ensures room { OnOk result (HasSpaceForLine chunk.new) }
        ensures text { OnOk result
            (WritesPrefix (W.written sink.old) (W.written sink.new)
            (chunk.old ++ rest_bytes self.old) chunk.new) }
        ensures fault { OnErr result
            (AppendsPrefix (W.written sink.old) (W.written sink.new)
            (chunk.old ++ rest_bytes self.old)) }
        ensures failures { CountsFailure (W.failures sink.old) (W.failures sink.new) result }
    {
        let low = self.levels.bits() ^ self.inverted;
        match write_repeated(low, 2 * self.resting, chunk, sink) {
            Ok(()) => {}
            Err(fault) => return Err(fault),
        }
        self.resting = 0;
        Ok(())
    }
}
