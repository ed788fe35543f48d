ghost use Rattle.std.specs.Prelude.{◌≡◌, ◌≤◌, pos};

use ngc_fixed_length::Value;

/// A parameter's index, from 1 to 5160, and its new value.
#[derive(Clone, Copy)]
pub struct Change {
    pub index: usize,
    pub value: Value,
    ghost in_range: { index ≤ 5160 },
}

impl Default for Change {
    ghost is_default = { λ c. (c.index ≡ 0) × (c.value ≡ pos 0) };

    fn default() -> Change {
        Change {
            index: 0,
            value: Value::zero(),
        }
    }
}
