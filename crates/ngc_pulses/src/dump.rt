ghost use Rattle.std.specs.Prelude.{◌≡◌, ◌+◌, ◌≤◌, ◌^◌, ◌++◌, length};
ghost use Rattle.ngc_machine_files.specs.Ranges.{IsRate};
ghost use Rattle.ngc_text.specs.Collected.{CHUNK_SIZE, HasSpaceForLine};
ghost use Rattle.ngc_pulses.specs.Dumping.{after_tick, closing_text, first_state, tick_text};
ghost use Rattle.ngc_pulses.specs.Vcd.{header};

use crate::axis_step::{Directions, Steps};
use crate::stamps::Stamps;
use ngc_fixed_length::StepPos;
use ngc_text::Chunk;
use std::marker::Model;

const HEADER: &[u8] = b"$timescale 1 ns $end
$scope module ngc $end
$var wire 1 a x_step $end
$var wire 1 b x_direction $end
$var wire 1 c y_step $end
$var wire 1 d y_direction $end
$var wire 1 e z_step $end
$var wire 1 f z_direction $end
$upscope $end
$enddefinitions $end
#0
$dumpvars
0a
0b
0c
0d
0e
0f
$end
";

/// The value change dump of a run's pulses, after some of its ticks: a step and a direction of each
/// axis, high for up.
///
/// A tick sets the directions of the axes that step, if they change. Half a tick later it sets the
/// steps high, and half a tick later low again. Times are whole nanoseconds, each rounded down.
#[derive(Drop)]
pub struct PulseDump {
    stamps: Stamps,
    ticks: u128,
    position: StepPos,
    directions: Directions,
}

impl Model for PulseDump {
    ghost use Rattle.ngc_pulses.specs.Dumping.{DumpState};

    ghost Value = { DumpState };

    ghost view = { λ d. record {
      ticks_per_second = d.stamps.ticks_per_second;
      ticks = d.ticks;
      position = d.position;
      directions = d.directions;
      stamped = d.stamps.last;
    } };
}

impl PulseDump {
    /// Returns a dump after no ticks, of a machine at rest at a position, in steps. It ticks 1 to
    /// 1,000,000 times per second.
    pub fn new(ticks_per_second: u32, position: StepPos) -> PulseDump
        requires { IsRate ticks_per_second }
        ensures { result ≡ first_state ticks_per_second position }
    {
        PulseDump {
            stamps: Stamps {
                ticks_per_second,
                last: 0,
            },
            ticks: 0,
            position,
            directions: Directions {
                x: false,
                y: false,
                z: false,
            },
        }
    }

    /// Adds the header, for which there must be space.
    pub fn open(&self, chunk: &mut Chunk)
        requires { HasSpaceForLine chunk.old }
        ensures { chunk.new ≡ chunk.old ++ header }
    {
        chunk.add_text(HEADER);
    }

    /// Counts a tick without a pulse.
    pub fn rest(&mut self)
        requires { self.old.ticks ≤ 2 ^ 126 }
        ensures { self.new ≡ record self.old { ticks = self.old.ticks + 1 } }
    {
        self.ticks += 1;
    }

    /// Adds the changes of a tick whose pulse leads to a position, in steps.
    pub fn step_to(&mut self, position: StepPos, chunk: &mut Chunk)
        requires few { self.old.ticks ≤ 2 ^ 126 }
        requires room { HasSpaceForLine chunk.old }
        ensures state { self.new ≡ after_tick self.old (Some position) }
        ensures text { chunk.new ≡ chunk.old ++ tick_text self.old (Some position) }
    {
        let steps = Steps::between(&self.position, &position, &self.directions);
        let before = self.ticks;
        self.stamps.tick(before, &steps, chunk);
        self.ticks = before + 1;
        self.position = position;
        self.directions = steps.directions();
    }

    /// Adds the last time: that at which a next tick would set its steps.
    pub fn close(&self, chunk: &mut Chunk)
        requires few { self.now.ticks ≤ 2 ^ 126 }
        requires room { HasSpaceForLine chunk.old }
        ensures { chunk.new ≡ chunk.old ++ closing_text self.now }
    {
        self.stamps.stamp(2 * self.ticks + 2, chunk);
    }
}
