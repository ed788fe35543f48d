//! The time of a program, as a report states it.
ghost use Rattle.std.specs.Prelude.{◌≡◌};
ghost use Rattle.ngc_sentences.specs.Parts.{part_text};
ghost use Rattle.ngc_sentences.specs.Saying.{Says};
ghost use Rattle.ngc_program_report.specs.Texts.{takes_line};
ghost use Rattle.ngc_program_report.specs.Times.{seconds_text, time_text};

use crate::run_time::RunTime;
use ngc_report::Form;
use ngc_sentences::{Page, Part, say};
use ngc_text::Sink;

// Returns a time as hours, minutes and seconds.
pub(crate) fn clock_of(time: &RunTime) -> Part<'static>
    ensures { part_text result ≡ time_text time.now }
{
    let per_second = u128::from(time.ticks_per_second);
    Part::Clock(
        time.ticks / per_second,
        time.ticks % per_second * 1000 / per_second,
    )
}

// Returns a time as a number of seconds.
pub(crate) fn seconds_of(time: &RunTime) -> Part<'static>
    ensures { part_text result ≡ seconds_text time.now }
{
    let per_second = u128::from(time.ticks_per_second);
    Part::Seconds(
        time.ticks / per_second,
        time.ticks % per_second * 1000 / per_second,
    )
}

// Says the time of a program.
pub(crate) fn say_takes_line<W: Sink>(form: Form, time: &RunTime, page: &mut Page, output: &mut W)
    ensures { Says (W.written output.old) (W.written output.new)
        (W.failures output.old) (W.failures output.new) page.old page.new
        (takes_line form time.now) }
{
    match form {
        Form::Words =>
            say!(page, output; b"It takes ", Part::Number(time.ticks), b" ticks, ", clock_of(time), b" at ", Part::Number(u128::from(time.ticks_per_second)), b" ticks a second.\n"),
        Form::Json =>
            say!(page, output; b",\n{\"fact\":\"time\",\"ticks\":", Part::Number(time.ticks), b",\"ticks_per_second\":", Part::Number(u128::from(time.ticks_per_second)), b",\"seconds\":", seconds_of(time), b"}"),
    }
}
