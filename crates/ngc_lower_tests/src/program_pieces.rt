//! Programs that are fed in pieces.
use crate::checks::{holds, same};
use linked_list_allocator::LocalHeap;
use ngc_line_reader::{FaultKind, LineFault, Program, ProgramReader, ReadFault};
use ngc_text::Device;
use std::alloc::Global;
use std::process::Abort;
use std::test::Fail;

// Files of each form, with numbers, comments and line ends to cut.
const TEXTS: &[&str] = &[
    "",
    "\n",
    "\n \n\t",
    "\n%\nG0 X1\n%\nno such (",
    "G0\n%\n%\n",
    "%\n\nX1..2\n",
    "G0 X0.03\r\nM2\r\n",
    "G0 X1\n\n(a)\nM2",
    "G0\r\nM2\r\n",
    "G0\nM2\n%\nbad (",
    "%",
    "%\n%",
    "%\n%\nno such (",
    "%\nM2\n",
    "%\nM2\n% (a)",
    "G0\nX1..2\nbad (",
    "G0\rX1\n",
    " %\t\r\nM2\n\t% ",
    " \n\t\r\n%\n%\n",
    "G0 X10 Y50\nG2 X10 Y50 I30 J0 F600\nM2\n",
    " \n%\r\nN10 G0 X-12.345 Y[6 - 7 / 8] (a comment)\n\n#12=345 ; 6 ( 7\n \t% \nbad (",
];

const SIZES: &[usize] = &[1, 2, 3, 255];

// Returns the result if the text after a fault is fed too.
fn read_pieces(alloc: Global, text: &[u8], size: usize) -> Result<Program<Global>, ReadFault> {
    let mut reader = ProgramReader::new(alloc);
    for piece in text.chunks(size.max(1)) {
        let _ = reader.feed(piece);
    }
    reader.finish()
}

fn are_same(one: &Program<Global>, other: &Program<Global>) -> bool {
    let mut same_lines = one.len() == other.len() && one.is_marked() == other.is_marked();
    for index in 0..one.len().min(other.len()) {
        same_lines = same_lines
            && one.number(index) == other.number(index)
            && one.bytes(index) == other.bytes(index);
    }
    same_lines
}

// Returns whether two readings have the same contents.
fn agree(
    one: &Result<Program<Global>, ReadFault>,
    other: &Result<Program<Global>, ReadFault>,
) -> bool {
    match (one, other) {
        (Ok(one), Ok(other)) => are_same(one, other),
        (Err(one), Err(other)) => one == other,
        _ => false,
    }
}

#[test]
fn pieces_change_nothing(rt: HostRuntime) {
    for text in TEXTS {
        let whole = Program::read(rt.alloc(), &mut Device::new(text.as_bytes()));
        for size in SIZES {
            let pieces = read_pieces(rt.alloc(), text.as_bytes(), *size);
            holds(&rt, &(*text, *size), agree(&whole, &pieces));
        }
    }
}

// Returns the number of bytes, fed one by one, after which a fault is returned, and its number.
fn first_fault(alloc: Global, text: &[u8]) -> Option<(usize, u16)> {
    let mut reader = ProgramReader::new(alloc);
    let mut fed = 0usize;
    for piece in text.chunks(1) {
        fed = fed.saturating_add(1);
        if let Err(fault) = reader.feed(piece) {
            return Some((fed, fault.number()));
        }
    }
    None
}

// Files with their beginning, the number of spaces after it, and their end.
const PROMPT: &[(&str, usize, &str, Option<(usize, u16)>)] = &[
    ("G0 X1\nX1..2\nM2\n", 0, "", Some((12, 113))),
    ("G0\n", 257, "\n", Some((260, 111))),
    ("G0", 254, "\nM2", None),
    ("%\nM2\nno such (", 0, "", None),
    ("%\nM2\n%\nno such (\n", 300, "\n", None),
    ("M2\n%\nno such (\n", 300, "\n", None),
];

#[test]
fn faults_are_reported_at_once(rt: HostRuntime) -> Result<(), Fail> {
    for (front, spaces, end, wanted) in PROMPT {
        let middle = " ".repeat(rt.alloc(), *spaces)?;
        let text = format!(in rt.alloc(); "{front}{middle}{end}")?;
        let found = first_fault(rt.alloc(), text.as_bytes());
        same(&rt, front, &found, wanted);
    }
    Ok(())
}

const FAULT: ReadFault = ReadFault::Line(
    2,
    LineFault {
        kind: FaultKind::BadNumber,
        column: 1,
    },
);

// The pieces that are fed in order, and their results.
const FED: &[(&str, Result<(), ReadFault>)] = &[
    ("", Ok(())),
    ("G0 X1\nX..", Ok(())),
    ("", Ok(())),
    ("2\nM2\n", Err(FAULT)),
    ("", Err(FAULT)),
    ("M2\n", Err(FAULT)),
];

#[test]
fn a_fault_stays(rt: HostRuntime) {
    let mut reader = ProgramReader::new(rt.alloc());
    for (piece, wanted) in FED {
        same(&rt, piece, &reader.feed(piece.as_bytes()), wanted);
    }
    same(&rt, &"the end", &reader.finish().err(), &Some(FAULT));
}

// Returns whether a heap has too little memory for a line. The fault is then returned again.
fn is_refused_in(rt: &impl Abort, heap: &LocalHeap) -> bool {
    let mut reader = ProgramReader::new(heap);
    let answer = reader.feed(b"G0 X1\n");
    same(rt, &"again", &reader.feed(b""), &answer);
    same(rt, &"the end", &reader.finish().err(), &answer.err());
    answer == Err(ReadFault::Memory)
}

// Heaps with their sizes, and whether that is too little.
const HEAPS: &[(usize, bool)] = &[(16, true), (4_096, false)];

#[test]
fn refused_memory_stays(rt: HostRuntime) -> Result<(), Fail> {
    for (size, wanted) in HEAPS {
        let heap = LocalHeap::new(rt.alloc(), *size)?;
        same(&rt, size, &is_refused_in(&rt, &heap), wanted);
    }
    Ok(())
}
