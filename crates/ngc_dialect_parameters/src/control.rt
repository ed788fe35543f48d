ghost use Rattle.std.specs.Prelude.{◌≡◌, ℕ, ℤ, List, Option};

use ngc_dialect_numbers::Number;

/// The parameters whose values the control has, such as the current position. They depend on the
/// machine's state, which the caller has.
pub trait Control {
    /// The value of a parameter of the control by its number, if it has one.
    ghost number: { Self → ℕ → Option ℤ };

    /// The value of a parameter of the control by its name, if it has one.
    ghost name: { Self → List ℕ → Option ℤ };

    /// Returns the value of a parameter of the control by its number, or `None` if it has none.
    fn numbered(&self, index: usize) -> Option<Number>
        ensures { result ≡ number self.now index };

    /// Returns the value of a parameter of the control by its name in upper case, or `None` if it has
    /// none. Only names that begin with `_` are requested.
    fn named(&self, bytes: &[u8]) -> Option<Number>
        ensures { result ≡ name self.now bytes.now };
}
