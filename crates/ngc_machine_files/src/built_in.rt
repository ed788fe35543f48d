ghost use Rattle.std.specs.Prelude.{◌≡◌};
ghost use Rattle.ngc_machine_files.specs.Machine.{file_of, built_in_machine as row_file};
ghost use Rattle.ngc_fixed_length.specs.Places.{zero_point as zero_place};

use crate::machine::{ArcFeed, AxisRates, Machine, Margins, Rapids};
use crate::numbers::length;
use ngc_fixed_length::Point3;
use ngc_motors::MotorSteps;
use std::alloc::Allocator;

fn zero_point() -> Point3
    ensures { result ≡ zero_place }
{
    Point3 {
        x: length(0),
        y: length(0),
        z: length(0),
    }
}

/// Returns the machine that is used without a machine file: travel of 300 mm by 300 mm by 100 mm
/// below zero, steps of 0.01 mm, and no fixture. It allocates nothing.
pub fn built_in_machine<A: Allocator>(alloc: A) -> Machine<A>
    ensures { file_of result ≡ row_file }
{
    let low = Point3 {
        x: length(0),
        y: length(0),
        z: length(-100_000_000),
    };
    let high = Point3 {
        x: length(300_000_000),
        y: length(300_000_000),
        z: length(0),
    };
    let axis_rates = AxisRates {
        x: 1_000_000,
        y: 1_000_000,
        z: 1_000_000,
    };
    Machine {
        step: length(10_000),
        motor_steps: MotorSteps::equal(10_000),
        ticks_per_second: 10_000,
        max_rate: 400_000,
        axis_rates,
        change: 1_000,
        corner: 50_000,
        jump: 0,
        turn: 1_000_000_000,
        own: None,
        ring: 16,
        arc_feed: ArcFeed::Off,
        changer: false,
        low,
        high,
        start: zero_point(),
        home28: zero_point(),
        home30: zero_point(),
        origins: [zero_point(); 9],
        fixtures: Vec::new(alloc),
        margins: Margins {
            fixtures: length(0),
            travel: length(0),
        },
        rapids: Rapids::Straight,
        dialect: None,
        stock: None,
    }
}
