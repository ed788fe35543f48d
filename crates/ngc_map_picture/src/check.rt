//! The cyclic redundancy check of a chunk.
//!
//! A register holds the first 32 coefficients of a polynomial, except the coefficients of the part of
//! the message that comes later, which are added as they come. Its lowest bit is the coefficient of
//! the highest power.
ghost use Rattle.std.specs.Prelude.{◌≡◌, ◌++◌, false, replicate, []};
ghost use Rattle.std.specs.Prelude.{◌∷◌};
ghost use Rattle.ngc_map_picture.specs.Checks.{bits, crc, message};
ghost use Rattle.ngc_map_picture.specs.Registers.{Divides};

// The coefficients of the generator, that of x^31 as the lowest bit.
const GENERATOR: u32 = 0xEDB8_8320;

/// Divides by one coefficient, after a coefficient of the message that is 0.
fn shifted(register: u32) -> u32
    ensures { Divides (false ∷ []) register result }
{
    if register % 2 == 1 {
        (register / 2) ^ GENERATOR
    } else {
        register / 2
    }
}

/// Divides by eight coefficients, those of a byte of the message.
fn with_byte(register: u32, byte: u8) -> u32
    ensures { Divides (bits 8 byte) register result }
{
    let mut left = register ^ u32::from(byte);
    for _ in 0..u8::BITS {
        left = shifted(left);
    }
    left
}

/// Divides by the coefficients of some bytes of the message.
fn with_bytes(register: u32, bytes: &[u8]) -> u32
    ensures { Divides (message bytes.now) register result }
{
    let mut left = register;
    for byte in bytes {
        left = with_byte(left, *byte);
    }
    left
}

/// Returns the check of a text in three parts.
pub(crate) fn crc(first: &[u8], second: &[u8], third: &[u8]) -> u32
    ensures { result ≡ crc (first.now ++ (second.now ++ third.now)) }
{
    let register = with_bytes(u32::MAX, first);
    let register = with_bytes(register, second);
    let register = with_bytes(register, third);
    !register
}
