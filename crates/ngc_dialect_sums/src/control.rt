//! A control that knows some parameters.
ghost use Rattle.std.specs.Prelude.{◌≡◌, ◌≤◌, Some, unsigned_abs};

use ngc_dialect_numbers::Number;
use ngc_dialect_parameters::Control;

/// A machine whose tool is at X1.5, in millimetres and in coordinate system 1.
#[derive(Clone, Copy)]
pub struct Machine;

fn number(trillionths: i128) -> Option<Number>
    requires { unsigned_abs trillionths ≤ 1000000000000000000000 }
    ensures { result ≡ Some trillionths }
{
    match Number::from_trillionths(trillionths) {
        Ok(number) => Some(number),
        Err(_) => None,
    }
}

impl Control for Machine {
    ghost use Rattle.ngc_dialect_sums.specs.Machine.{machine_number, machine_name};

    ghost number = { λ _. machine_number };

    ghost name = { λ _. machine_name };

    fn numbered(&self, index: usize) -> Option<Number> {
        if index == 5041 || index == 5420 {
            number(1_500_000_000_000)
        } else if index == 5220 {
            number(1_000_000_000_000)
        } else {
            None
        }
    }

    fn named(&self, bytes: &[u8]) -> Option<Number> {
        if bytes == b"_X".as_slice() {
            number(1_500_000_000_000)
        } else if bytes == b"_METRIC".as_slice() {
            number(1_000_000_000_000)
        } else {
            None
        }
    }
}
