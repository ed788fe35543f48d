//! The Adler-32 checksum of data that comes byte by byte.

/// The two sums of some data, modulo 65521.
#[derive(Clone, Copy)]
pub(crate) struct Sums {
    low: u16,
    high: u16,
}

impl Sums {
    ghost use Rattle.std.specs.Prelude.{◌≡◌, List, ℕ, ◌++◌, ◌∷◌, []};
    ghost use Rattle.ngc_map_picture.specs.Checks.{adler};
    ghost use Rattle.ngc_map_picture.specs.Streams.{AreSums};

    /// Returns the sums of no data.
    pub(crate) fn new() -> Sums
        ensures { AreSums result [] }
    {
        Sums { low: 1, high: 0 }
    }

    /// Adds a byte.
    pub(crate) fn add(&mut self, byte: u8)
        ensures { (bytes : List ℕ) → AreSums self.old bytes → AreSums self.new (bytes ++ byte ∷ []) }
    {
        let low = (u32::from(self.low) + u32::from(byte)) % 65_521;
        let high = (u32::from(self.high) + low) % 65_521;
        self.low = low as u16;
        self.high = high as u16;
    }

    /// Returns the checksum.
    pub(crate) fn value(&self) -> u32
        ensures { (bytes : List ℕ) → AreSums self.now bytes → result ≡ adler bytes }
    {
        u32::from(self.high) * 65_536 + u32::from(self.low)
    }
}
