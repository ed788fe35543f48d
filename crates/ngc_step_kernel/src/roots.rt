ghost use Rattle.std.specs.Prelude.{◌≡◌, ℕ, ◌+◌, ◌*◌, ◌^◌, ◌<◌, ◌≤◌};

use ngc_fixed_length::root_ceil;

/// Computes all roots that the path round an arc needs, and counts them.
#[derive(Drop)]
pub(crate) struct Roots {
    pub taken: u64,
}

impl Roots {
    /// Returns the least whole number whose square is at least `x`.
    pub(crate) fn ceil(&mut self, x: u128) -> u64
        requires small { x ≤ 10 ^ 38 }
        requires few { self.old.taken < 16 }
        ensures square { x ≤ result * result }
        ensures least { (r : ℕ) → x ≤ r * r → result ≤ r }
        ensures counted { self.new.taken ≡ self.old.taken + 1 }
    {
        self.taken += 1;
        root_ceil(x)
    }
}
