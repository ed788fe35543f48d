//! The figures of a machine of what is written in its file.
ghost use Rattle.std.specs.Prelude.{◌≡◌};
ghost use Rattle.ngc_written_machines.specs.Figures as spec;

use ngc_machine_figures::{
    Acceleration as WrittenAcceleration, AxesSheet, ControlSheet, HeadSheet, Speed as WrittenSpeed,
};
use ngc_machine_maker::{
    Acceleration, Dump, End, Figures, Length, PerAxis, Ratio, Speed, StepsPerMillimetre,
};
use ngc_quantities::Range;

// Returns the length of a range in nanometres: 0 if it ends below its beginning, and 2^32 - 1 if it
// is longer.
fn travel_length(range: Range) -> u32
    ensures { result ≡ spec.travel_length range }
{
    if range.high < range.low {
        return 0;
    }
    range.high.abs_diff(range.low).min(4_294_967_295) as u32
}

fn travels(axes: &AxesSheet) -> PerAxis<Length>
    ensures { result ≡ spec.travels axes.now }
{
    PerAxis {
        x: Length {
            nanometres: travel_length(axes.x.travel),
        },
        y: Length {
            nanometres: travel_length(axes.y.travel),
        },
        z: Length {
            nanometres: travel_length(axes.z.travel),
        },
    }
}

fn speed(written: WrittenSpeed) -> Speed
    ensures { result ≡ spec.speed written }
{
    Speed {
        nanometres_a_minute: written.nanometres_a_minute,
    }
}

fn feeds(axes: &AxesSheet) -> PerAxis<Speed>
    ensures { result ≡ spec.feeds axes.now }
{
    PerAxis {
        x: speed(axes.x.speed),
        y: speed(axes.y.speed),
        z: speed(axes.z.speed),
    }
}

fn acceleration(written: WrittenAcceleration) -> Acceleration
    ensures { result ≡ spec.acceleration written }
{
    Acceleration {
        nanometres_a_second_squared: written.nanometres_a_second_squared,
    }
}

fn accelerations(axes: &AxesSheet) -> PerAxis<Acceleration>
    ensures { result ≡ spec.accelerations axes.now }
{
    PerAxis {
        x: acceleration(axes.x.acceleration),
        y: acceleration(axes.y.acceleration),
        z: acceleration(axes.z.acceleration),
    }
}

// Returns the least of the accelerations.
fn least(axes: &AxesSheet) -> u64
    ensures { result ≡ spec.least axes.now }
{
    let x = axes.x.acceleration.nanometres_a_second_squared;
    let y = axes.y.acceleration.nanometres_a_second_squared;
    let z = axes.z.acceleration.nanometres_a_second_squared;
    x.min(y).min(z)
}

// Returns the speed that the axis with the least acceleration reaches in 5 ms, and at least 2 mm/s.
fn usual_corner(axes: &AxesSheet) -> Speed
    ensures { result ≡ spec.usual_corner axes.now }
{
    let reached = u128::from(least(axes)) * 3 / 10;
    Speed {
        nanometres_a_minute: (reached as u64).max(120_000_000),
    }
}

fn corner(control: &ControlSheet, axes: &AxesSheet) -> Speed
    ensures { result ≡ spec.corner control.now axes.now }
{
    match control.corner {
        None => usual_corner(axes),
        Some(written) => speed(written),
    }
}

fn jump(control: &ControlSheet) -> Option<Speed>
    ensures { result ≡ spec.jump control.now }
{
    match control.jump {
        None => None,
        Some(written) => Some(speed(written)),
    }
}

fn arcs(control: &ControlSheet) -> Option<Acceleration>
    ensures { result ≡ spec.arcs control.now }
{
    match control.turn {
        None => None,
        Some(written) => Some(acceleration(written)),
    }
}

fn ring(control: &ControlSheet) -> u32
    ensures { result ≡ spec.ring control.now }
{
    match control.ring {
        None => 256,
        Some(ring) => ring,
    }
}

// Returns whether the turn of arcs holds at every place.
fn turns_by_place(control: &ControlSheet) -> bool
    ensures { result ≡ spec.turns_by_place control.now }
{
    match control.arc_feed {
        None => true,
        Some(number) => number == 2,
    }
}

/// Returns the figures of a machine whose path has a grid of this step in nanometres. Only their rates
/// count: the motors have no steps, and the machine starts at the low end of each travel.
pub(crate) fn figures_of(head: &HeadSheet, grid: u32) -> Figures
    ensures { result ≡ spec.figures_of head.now grid }
{
    let start = Length { nanometres: 0 };
    let motor = StepsPerMillimetre { millionths: 0 };
    Figures {
        scale: Ratio {
            steps: 1,
            per: u64::from(grid),
        },
        motors: PerAxis {
            x: motor,
            y: motor,
            z: motor,
        },
        travel: travels(&head.axes),
        feed: feeds(&head.axes),
        acceleration: accelerations(&head.axes),
        corner: corner(&head.control, &head.axes),
        jump: jump(&head.control),
        arcs: arcs(&head.control),
        ticks: head.control.ticks,
        ring: ring(&head.control),
        arc_feed: turns_by_place(&head.control),
        far: true,
        grbl: false,
        zero: PerAxis {
            x: End::Low,
            y: End::Low,
            z: End::Low,
        },
        start: PerAxis {
            x: start,
            y: start,
            z: start,
        },
        home28: None,
        home30: None,
        dump: Dump::none(),
    }
}
