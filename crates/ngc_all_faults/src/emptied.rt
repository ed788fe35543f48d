//! A text with a line that is emptied.
ghost use Rattle.std.specs.Prelude.{◌≡◌, ◌-◌, ◌==◌, ◌∷◌, [], IfOk, OnOk, ◌++◌, if◌then◌else◌};
ghost use Rattle.ngc_all_faults.specs.Emptied.{emptied, kept, left_after};

use std::alloc::{AllocError, Allocator};

// Returns the number of lines to the line to empty, after a byte. The number is 1 within that line.
fn left_after(left: u32, byte: u8) -> u32
    ensures { result ≡ left_after left byte }
{
    if byte == b'\n' {
        left.saturating_sub(1)
    } else {
        left
    }
}

fn is_kept(left: u32, byte: u8) -> bool
    ensures { result ≡ kept left byte }
{
    byte == b'\n' || left != 1
}

/// Returns a text without the bytes of the line with this number, from 1; its line feed stays.
pub(crate) fn emptied<A: Allocator>(
    alloc: A,
    line: u32,
    text: &[u8],
) -> Result<Vec<u8, A>, AllocError>
    ensures { IfOk result (λ v. v.items ≡ emptied line text.now) }
{
    let mut rest = Vec::new(alloc);
    let mut left = line;
    for byte in text {
        if is_kept(left, *byte) {
            rest.push(*byte)?;
        }
        left = left_after(left, *byte);
    }
    Ok(rest)
}
