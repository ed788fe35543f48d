//! Prints plain lines. A line of standard input has words, each a letter with its value in
//! millionths: `G1000000 X-1500000`. Its plain line is printed, and before it `long: ` if our own
//! language doesn't read it.
#![tactic(auto)]

mod words;

use ngc_plain_text::{is_short, say_line};
use ngc_sentences::{Page, say};
use ngc_text::{Device, Sink};
use std::io;
use words::words_of;

fn say_row<W: Sink>(row: &str, page: &mut Page, output: &mut W) {
    let Some(words) = words_of(row) else {
        say!(page, output; b"no words\n");
        return;
    };
    if !is_short(words.as_slice()) {
        say!(page, output; b"long: ");
    }
    say_line(words.as_slice(), page, output);
}

fn main(rt: HostRuntime) -> io::Result<()> {
    let mut page = Page::new();
    let mut output = Device::new(rt.stdout());
    for row in rt.lines(rt.alloc()) {
        let row = row?;
        say_row(row.as_str(), &mut page, &mut output);
    }
    match page.finish(&mut output) {
        Ok(()) => Ok(()),
        Err(_) => Err(io::ErrorKind::WriteZero.into()),
    }
}
