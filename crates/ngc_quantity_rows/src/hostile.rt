//! Texts that no line of standard input can have.

use crate::shown::shown;
use std::io;

// Prints the result of a length, unless it is the expected one.
fn tell(rt: &HostRuntime, text: &[u8], expected: &str) -> io::Result<()> {
    match shown(rt.alloc(), "length", text, expected)? {
        Some(found) => println!(rt; "{expected}: {found}"),
        None => Ok(()),
    }
}

fn prefix(text: &[u8], most: usize) -> &[u8] {
    &text[..text.len().min(most)]
}

/// Prints the results of hostile texts that aren't the expected ones, and the number of texts.
pub(crate) fn hostile(rt: &HostRuntime) -> io::Result<()> {
    let mut digits = Vec::new(rt.alloc());
    for _ in 0..20_000_000 {
        digits.push(b'7')?;
    }
    let digits = digits.as_slice();
    tell(rt, b"5\0mm", "2: unknown unit of length, meant mm")?;
    tell(rt, b"\xff mm", "1: no number")?;
    tell(
        rt,
        b"5 m\xc2\xb5",
        "3: unknown unit of length, meant nothing",
    )?;
    tell(rt, b"5\nmm", "2: unknown unit of length, meant mm")?;
    tell(rt, b"", "1: no number")?;
    tell(rt, digits, "257: long text")?;
    tell(rt, prefix(digits, 256), "1: many digits")?;
    tell(rt, prefix(digits, 257), "257: long text")?;
    println!(rt; "8 hostile texts")
}
