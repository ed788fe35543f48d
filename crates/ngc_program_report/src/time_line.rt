//! The line on standard error about the time of a run.
ghost use Rattle.std.specs.Prelude.{◌≡◌, ◌+◌, ◌≤◌, ◌++◌, length};
ghost use Rattle.ngc_sentences.specs.Parts.{clock_text, three_digits, two_digits};
ghost use Rattle.ngc_text.specs.Collected.{CHUNK_SIZE};
ghost use Rattle.ngc_program_report.specs.Times.{time_line, time_text};

use crate::run_time::RunTime;
use ngc_text::Chunk;

fn add_two_digits(chunk: &mut Chunk, number: u128)
    requires { length chunk.old + 80 ≤ CHUNK_SIZE }
    ensures text { chunk.new ≡ chunk.old ++ two_digits number }
    ensures short { length chunk.new ≤ length chunk.old + 80 }
{
    chunk.add_number(number / 10);
    chunk.add_number(number % 10);
}

fn add_three_digits(chunk: &mut Chunk, number: u128)
    requires { length chunk.old + 120 ≤ CHUNK_SIZE }
    ensures text { chunk.new ≡ chunk.old ++ three_digits number }
    ensures short { length chunk.new ≤ length chunk.old + 120 }
{
    chunk.add_number(number / 100);
    add_two_digits(chunk, number % 100);
}

fn add_clock(chunk: &mut Chunk, seconds: u128)
    requires { length chunk.old + 210 ≤ CHUNK_SIZE }
    ensures text { chunk.new ≡ chunk.old ++ clock_text seconds }
    ensures short { length chunk.new ≤ length chunk.old + 202 }
{
    chunk.add_number(seconds / 3600);
    chunk.add_text(b":");
    add_two_digits(chunk, seconds / 60 % 60);
    chunk.add_text(b":");
    add_two_digits(chunk, seconds % 60);
}

fn add_time(chunk: &mut Chunk, time: &RunTime)
    requires { length chunk.old + 330 ≤ CHUNK_SIZE }
    ensures text { chunk.new ≡ chunk.old ++ time_text time.now }
    ensures short { length chunk.new ≤ length chunk.old + 323 }
{
    let per_second = u128::from(time.ticks_per_second);
    add_clock(chunk, time.ticks / per_second);
    chunk.add_text(b".");
    add_three_digits(chunk, time.ticks % per_second * 1000 / per_second);
}

/// Adds the line for a run's time on standard error: hours, minutes, seconds and thousandths of a
/// second, rounded down.
pub fn add_time_line(chunk: &mut Chunk, time: &RunTime)
    requires { length chunk.old + 500 ≤ CHUNK_SIZE }
    ensures { chunk.new ≡ chunk.old ++ time_line time.now }
{
    chunk.add_text(b"ngc: ticks ");
    chunk.add_number(time.ticks);
    chunk.add_text(b" time ");
    add_time(chunk, time);
    chunk.add_text(b"\n");
}
