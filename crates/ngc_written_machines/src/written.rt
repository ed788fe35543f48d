//! The figures of a machine file as they are written.
ghost use Rattle.std.specs.Prelude.{◌≡◌};
ghost use Rattle.ngc_written_machines.specs.Written as spec;

use ngc_file_figures::{AxisFigures, MachineFigures};
use ngc_machine_figures::{Acceleration, AxesSheet, HeadSheet, Speed};

fn speeds(axes: &AxesSheet) -> AxisFigures
    ensures { result ≡ spec.speeds axes.now }
{
    AxisFigures {
        x: axes.x.speed.nanometres_a_minute,
        y: axes.y.speed.nanometres_a_minute,
        z: axes.z.speed.nanometres_a_minute,
    }
}

fn accelerations(axes: &AxesSheet) -> AxisFigures
    ensures { result ≡ spec.accelerations axes.now }
{
    AxisFigures {
        x: axes.x.acceleration.nanometres_a_second_squared,
        y: axes.y.acceleration.nanometres_a_second_squared,
        z: axes.z.acceleration.nanometres_a_second_squared,
    }
}

fn speed(written: Option<Speed>) -> Option<u64>
    ensures { result ≡ spec.speed written }
{
    match written {
        None => None,
        Some(speed) => Some(speed.nanometres_a_minute),
    }
}

fn acceleration(written: Option<Acceleration>) -> Option<u64>
    ensures { result ≡ spec.acceleration written }
{
    match written {
        None => None,
        Some(acceleration) => Some(acceleration.nanometres_a_second_squared),
    }
}

/// Returns the figures of a machine file as they are written.
pub(crate) fn written_figures(head: &HeadSheet) -> MachineFigures
    ensures { result ≡ spec.written_figures head.now }
{
    MachineFigures {
        speeds: speeds(&head.axes),
        accelerations: accelerations(&head.axes),
        corner: speed(head.control.corner),
        jump: speed(head.control.jump),
        turn: acceleration(head.control.turn),
    }
}
