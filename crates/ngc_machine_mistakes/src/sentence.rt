//! What is wrong with the figures of a machine file.
ghost use Rattle.std.specs.Prelude.{◌≡◌};
ghost use Rattle.ngc_sentences.specs.Saying.{Says};
ghost use Rattle.ngc_machine_mistakes.specs.Sentences as spec;

use ngc_machine_figures::AxisName;
use ngc_machine_files::FileFault;
use ngc_machine_maker::{Axis, FigureRefusal};
use ngc_motor_scale::ScaleRefusal;
use ngc_sentences::{Page, Part, say};
use ngc_text::Sink;
use ngc_written_machines::WrittenRefusal;

fn axis_text(axis: AxisName) -> &'static [u8]
    ensures { result.now ≡ spec.axis_text axis }
{
    match axis {
        AxisName::X => b"axis.x",
        AxisName::Y => b"axis.y",
        AxisName::Z => b"axis.z",
    }
}

fn motor_text(refusal: ScaleRefusal) -> &'static [u8]
    ensures { result.now ≡ spec.motor_text refusal }
{
    match refusal {
        ScaleRefusal::Short => b"the step is shorter than 500 nm",
        ScaleRefusal::Long => b"the step is longer than 50,000 nm",
        ScaleRefusal::Fine => b"the step has too many digits",
    }
}

// Returns the table of a figure's axis, where the figure has one.
fn figure_axis(refusal: FigureRefusal) -> &'static [u8]
    ensures { result.now ≡ spec.figure_axis refusal }
{
    match refusal {
        FigureRefusal::SlowFeed(Axis::X)
        | FigureRefusal::FastFeed(Axis::X)
        | FigureRefusal::FarTravel(Axis::X) => b"axis.x.",
        FigureRefusal::SlowFeed(Axis::Y)
        | FigureRefusal::FastFeed(Axis::Y)
        | FigureRefusal::FarTravel(Axis::Y) => b"axis.y.",
        FigureRefusal::SlowFeed(Axis::Z)
        | FigureRefusal::FastFeed(Axis::Z)
        | FigureRefusal::FarTravel(Axis::Z) => b"axis.z.",
        _ => b"",
    }
}

fn figure_text(refusal: FigureRefusal) -> &'static [u8]
    ensures { result.now ≡ spec.figure_text refusal }
{
    match refusal {
        FigureRefusal::SlowFeed(_) =>
            b"speed: the axis moves less than a millionth of a step per tick: write fewer ticks",
        FigureRefusal::FastFeed(_) =>
            b"speed: the axis moves more than a step per tick: write more ticks, or a lower speed",
        FigureRefusal::SlowCorner =>
            b"corner: the speed is less than a millionth of a step per tick: write fewer ticks",
        FigureRefusal::LowAcceleration =>
            b"axis: the least acceleration is too low for the ticks: write fewer ticks",
        FigureRefusal::LowArcs =>
            b"turn: the acceleration is too low for the ticks: write fewer ticks",
        FigureRefusal::FarTravel(_) =>
            b"travel: it is shorter than a step, or longer than 3,999 mm",
        _ => b"a figure can't be used",
    }
}

fn range_text(fault: FileFault) -> &'static [u8]
    ensures { result.now ≡ spec.range_text fault }
{
    match fault {
        FileFault::Travel =>
            b"start: it isn't inside the travel, or an end of the travel is farther than 3,999 mm from zero",
        FileFault::Places =>
            b"origin: an origin or a home position is farther than 4,000 mm from zero",
        FileFault::Fixtures =>
            b"fixture: a corner is farther than 4,000 mm from zero, or a side has no length",
        FileFault::Stock =>
            b"stock: a corner is farther than 1,000 mm from zero, or a side has no length",
        _ => b"a number is out of its range",
    }
}

// Says what is wrong with a figure. A key that can't be read is none.
#[tactic(auto, unfolding(crate::specs::Sentences::figures_text))]
pub(crate) fn say_figures<W: Sink>(refusal: WrittenRefusal, page: &mut Page, output: &mut W)
    ensures { Says (W.written output.old) (W.written output.new)
        (W.failures output.old) (W.failures output.new) page.old page.new
        (spec.figures_text refusal) }
{
    match refusal {
        WrittenRefusal::Sheet(_) => {}
        WrittenRefusal::Motor(axis, refusal) =>
            say!(page, output; Part::Text(axis_text(axis)), b".motor: ", Part::Text(motor_text(refusal))),
        WrittenRefusal::Figure(refusal) =>
            say!(page, output; Part::Text(figure_axis(refusal)), Part::Text(figure_text(refusal))),
        WrittenRefusal::Range(fault) => say!(page, output; Part::Text(range_text(fault))),
    }
}
