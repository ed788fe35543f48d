//! What the parameters become when a call ends.
ghost use Rattle.ngc_dialect_parameters.specs.Stored.{stored_in};
ghost use Rattle.ngc_dialect_parameters.specs.Storing.{Stores};
ghost use Rattle.ngc_dialect_flow.specs.Returning.{returned};

use crate::words::or_zero;
use ngc_dialect_numbers::Number;
use ngc_dialect_parameters::{Parameters, StoreFault};
use std::alloc::Allocator;

/// Ends a call that returns a value, or none: the names `_VALUE` and `_VALUE_RETURNED` say which, and
/// the parameters that belong to calls are those of the caller again. The only errors are too many
/// names and refused memory.
pub fn leave_with<A: Allocator + Copy>(
    parameters: &mut Parameters<A>,
    value: Option<Number>,
) -> Result<(), StoreFault>
    ensures { Stores result (stored_in parameters.new) (returned value (stored_in parameters.old)) }
{
    match parameters.set_named(b"_VALUE", or_zero(value)) {
        Ok(()) => {}
        Err(fault) => return Err(fault),
    }
    match parameters.set_named(b"_VALUE_RETURNED", Number::truth(value.is_some())) {
        Ok(()) => {}
        Err(fault) => return Err(fault),
    }
    parameters.leave();
    Ok(())
}
