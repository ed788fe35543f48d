ghost use Rattle.std.specs.Prelude.{◌≡◌, ◌+◌, ◌≤◌, ◌++◌, length};
ghost use Rattle.ngc_text.specs.Collected.{CHUNK_SIZE};
ghost use Rattle.ngc_sentences.specs.Parts.{two_digits, three_digits, clock_text};

use ngc_text::Chunk;

fn add_two_digits(chunk: &mut Chunk, number: u128)
    requires { length chunk.old + 80 ≤ CHUNK_SIZE }
    ensures text { chunk.new ≡ chunk.old ++ two_digits number }
    ensures short { length chunk.new ≤ length chunk.old + 80 }
{
    chunk.add_number(number / 10);
    chunk.add_number(number % 10);
}

pub(crate) fn add_three_digits(chunk: &mut Chunk, number: u128)
    requires { length chunk.old + 120 ≤ CHUNK_SIZE }
    ensures text { chunk.new ≡ chunk.old ++ three_digits number }
    ensures short { length chunk.new ≤ length chunk.old + 120 }
{
    chunk.add_number(number / 100);
    add_two_digits(chunk, number % 100);
}

pub(crate) fn add_clock(chunk: &mut Chunk, seconds: u128)
    requires { length chunk.old + 210 ≤ CHUNK_SIZE }
    ensures text { chunk.new ≡ chunk.old ++ clock_text seconds }
    ensures short { length chunk.new ≤ length chunk.old + 202 }
{
    chunk.add_number(seconds / 3600);
    chunk.add_text(b":");
    add_two_digits(chunk, seconds / 60 % 60);
    chunk.add_text(b":");
    add_two_digits(chunk, seconds % 60);
}
