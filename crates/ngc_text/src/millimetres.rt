ghost use Rattle.std.specs.Prelude.{◌≡◌, ◌+◌, ◌<◌, ◌≤◌, ◌++◌, length};
ghost use Rattle.ngc_text.specs.Collected.{CHUNK_SIZE};
ghost use Rattle.ngc_text.specs.Millimetres.{decimals, kept, number_text, size_text, sign_text};
ghost use Rattle.ngc_text.specs.Millimetres.{length_text, mm_text};

use crate::Chunk;

fn decimals(millionths: u32) -> [u8; 7]
    requires { millionths < 1000000 }
    ensures { result ≡ decimals millionths }
{
    [
        b'.',
        b'0' + (millionths / 100_000) as u8,
        b'0' + (millionths / 10_000 % 10) as u8,
        b'0' + (millionths / 1_000 % 10) as u8,
        b'0' + (millionths / 100 % 10) as u8,
        b'0' + (millionths / 10 % 10) as u8,
        b'0' + (millionths % 10) as u8,
    ]
}

fn kept(millionths: u32) -> usize
    ensures value { result ≡ kept millionths }
    ensures few { result ≤ 7 }
{
    if millionths == 0 {
        0
    } else if millionths % 100_000 == 0 {
        2
    } else if millionths % 10_000 == 0 {
        3
    } else if millionths % 1_000 == 0 {
        4
    } else if millionths % 100 == 0 {
        5
    } else if millionths % 10 == 0 {
        6
    } else {
        7
    }
}

impl Chunk {
    /// Adds a whole number and its millionths, with the decimals that they need. There are less
    /// than a million millionths. Space for 47 bytes must be free.
    #[tactic(auto, unfolding(crate::specs::Millimetres::number_text))]
    pub fn add_millionths(&mut self, whole: u128, millionths: u32)
        requires room { length self.old + 47 ≤ CHUNK_SIZE }
        requires part { millionths < 1000000 }
        ensures text { self.new ≡ self.old ++ number_text whole millionths }
        ensures short { length self.new ≤ length self.old + 47 }
    {
        self.add_number(whole);
        self.add_text(&decimals(millionths)[..kept(millionths)]);
    }

    /// Adds a size in nanometres as millimetres, exactly and without the unit. Space for 47 bytes
    /// must be free.
    pub fn add_size(&mut self, nanometres: u128)
        requires { length self.old + 47 ≤ CHUNK_SIZE }
        ensures text { self.new ≡ self.old ++ size_text nanometres }
        ensures short { length self.new ≤ length self.old + 47 }
    {
        self.add_millionths(nanometres / 1_000_000, (nanometres % 1_000_000) as u32);
    }

    /// Adds a minus sign if the number is below zero. Space for a byte must be free.
    pub fn add_sign(&mut self, number: i128)
        requires { length self.old + 1 ≤ CHUNK_SIZE }
        ensures text { self.new ≡ self.old ++ sign_text number }
        ensures short { length self.new ≤ length self.old + 1 }
    {
        self.add_text(if number < 0 { b"-" } else { b"" });
    }

    /// Adds a length in nanometres as millimetres, as `add_size` does, after a minus sign if it is
    /// below zero. Space for 48 bytes must be free.
    #[tactic(auto, unfolding(crate::specs::Millimetres::length_text))]
    pub fn add_length(&mut self, nanometres: i128)
        requires { length self.old + 48 ≤ CHUNK_SIZE }
        ensures text { self.new ≡ self.old ++ length_text nanometres }
        ensures short { length self.new ≤ length self.old + 48 }
    {
        self.add_sign(nanometres);
        self.add_size(nanometres.unsigned_abs());
    }

    /// Adds a length in nanometres as millimetres, and ` mm`. Space for 51 bytes must be free.
    #[tactic(auto, unfolding(crate::specs::Millimetres::mm_text))]
    pub fn add_millimetres(&mut self, nanometres: i128)
        requires { length self.old + 51 ≤ CHUNK_SIZE }
        ensures text { self.new ≡ self.old ++ mm_text nanometres }
        ensures short { length self.new ≤ length self.old + 51 }
    {
        self.add_length(nanometres);
        self.add_text(b" mm");
    }
}
