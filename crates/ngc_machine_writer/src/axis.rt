//! The table of an axis.
ghost use Rattle.std.specs.Prelude.{◌≡◌, ◌++◌, codes};
ghost use Rattle.ngc_sentences.specs.Saying.{Says};
ghost use Rattle.ngc_machine_writer.specs.Axes as spec;

use crate::line::{say_acceleration, say_quantity, say_speed};
use ngc_machine_maker::{Acceleration, End, Figures, Length, Speed, StepsPerMillimetre};
use ngc_sentences::{Page, Part, say};
use ngc_text::Sink;

/// The figures of an axis.
#[derive(Clone, Copy)]
pub(crate) struct AxisFigures {
    pub(crate) motor: StepsPerMillimetre,
    pub(crate) zero: End,
    pub(crate) travel: Length,
    pub(crate) feed: Speed,
    pub(crate) acceleration: Acceleration,
}

impl AxisFigures {
    pub(crate) fn of_x(figures: &Figures) -> AxisFigures
        ensures { result ≡ spec.x_of figures.now }
    {
        AxisFigures {
            motor: figures.motors.x,
            zero: figures.zero.x,
            travel: figures.travel.x,
            feed: figures.feed.x,
            acceleration: figures.acceleration.x,
        }
    }

    pub(crate) fn of_y(figures: &Figures) -> AxisFigures
        ensures { result ≡ spec.y_of figures.now }
    {
        AxisFigures {
            motor: figures.motors.y,
            zero: figures.zero.y,
            travel: figures.travel.y,
            feed: figures.feed.y,
            acceleration: figures.acceleration.y,
        }
    }

    pub(crate) fn of_z(figures: &Figures) -> AxisFigures
        ensures { result ≡ spec.z_of figures.now }
    {
        AxisFigures {
            motor: figures.motors.z,
            zero: figures.zero.z,
            travel: figures.travel.z,
            feed: figures.feed.z,
            acceleration: figures.acceleration.z,
        }
    }
}

fn say_travel<W: Sink>(zero: End, travel: Length, page: &mut Page, output: &mut W)
    ensures { Says (W.written output.old) (W.written output.new)
        (W.failures output.old) (W.failures output.new) page.old page.new
        (spec.travel_line zero travel) }
{
    let length = Part::Size(u128::from(travel.nanometres));
    match zero {
        End::Low => say!(page, output; b"travel = \"0 mm to ", length, b" mm\"\n"),
        End::High => say!(page, output; b"travel = \"-", length, b" mm to 0 mm\"\n"),
    }
}

// Says the table of an axis.
#[tactic(auto, unfolding(crate::specs::Axes::axis_lines))]
pub(crate) fn say_axis<W: Sink>(name: &[u8], axis: &AxisFigures, page: &mut Page, output: &mut W)
    ensures { Says (W.written output.old) (W.written output.new)
        (W.failures output.old) (W.failures output.new) page.old page.new
        (spec.axis_lines name.now axis.now) }
{
    say!(page, output; b"\n[axis.", Part::Text(name), b"]\n");
    say_quantity(
        b"motor",
        u64::from(axis.motor.millionths),
        b"steps/mm",
        page,
        output,
    );
    say_travel(axis.zero, axis.travel, page, output);
    say_speed(b"speed", axis.feed, page, output);
    say_acceleration(b"acceleration", axis.acceleration, page, output);
}
