//! Certificates that arrive in pieces of any size, a few bytes at a time, or without end.
use crate::checks::same;
use ngc_certificate_text::{Certificate, CertificateFault, CertificateReader, Setting};
use ngc_checker::{CheckFault, CheckReadFault, CheckReader, check_source};
use ngc_line_reader::Program;
use ngc_machine_files::{Tools, built_in_machine};
use ngc_test_devices::{EndlessSource, SlowSource};
use ngc_text::Device;
use std::alloc::Global;
use std::test::Fail;

const PROGRAM: &[u8] = b"G0 X1 M2\n";

const SIZES: &[usize] = &[1, 2, 3, 255, 65_536];

// A certificate, the fault of its text, and the number of the check's fault.
const TEXTS: &[(&str, Option<CertificateFault>, u16)] = &[
    (
        "ngc-certificate 1\nsetting off 1\nmotion 0 2\nline 32768 0 0 0 51 0 0\nline 65536 49 0 0 100 0 0\n\
         setting on 1\nmotion 0 1\nline 65536 0 0 0 100 0 0\nend\n",
        None,
        0,
    ),
    (
        "ngc-certificate 2\nmotions 1 1\nboth 0 0 1\nline 65536 0 0 0 100 0 0\nend\n",
        None,
        0,
    ),
    (
        "ngc-certificate 2\nmotions 1 1\nboth 0 0 1\nline 65535 0 0 0 100 0 0\nend\n",
        None,
        313,
    ),
    (
        "ngc-certificate 1\nsetting off 0\nsetting on 0\nend \n",
        Some(CertificateFault::BadLine(4)),
        301,
    ),
    (
        "ngc-certificate 1\nsetting off 0\nsetting on 0\nend\nx",
        Some(CertificateFault::BadLine(5)),
        301,
    ),
    (
        "ngc-certificate 1\nsetting off 0",
        Some(CertificateFault::BadLine(2)),
        301,
    ),
    (
        "ngc-certificate 1\r\n",
        Some(CertificateFault::WrongHeader),
        302,
    ),
    (
        "ngc-certificate 1\nsetting off 1\nmotion 0 1\nline 65537 0 0 0 100 0 0\n",
        Some(CertificateFault::OutOfRange(4)),
        303,
    ),
];

fn number_of_text(fault: Option<CertificateFault>) -> u16 {
    match fault {
        Some(fault) => fault.number(),
        None => 0,
    }
}

fn number_of_check(fault: Option<CheckReadFault>) -> u16 {
    match fault {
        Some(fault) => fault.number(),
        None => 0,
    }
}

// The fault of a text, and the number of the check's fault.
type Faults = (Option<CertificateFault>, u16);

// Returns the faults if the text after a fault is fed too, and pieces of no bytes.
fn in_pieces(alloc: Global, text: &[u8], size: usize) -> Result<Faults, Fail> {
    let program = Program::read(alloc, &mut Device::new(PROGRAM))?;
    let machine = built_in_machine(alloc);
    let tools = Tools::empty(alloc);
    let mut judge = CheckReader::new(alloc, &program, &machine, &tools)?;
    let mut reader = CertificateReader::new(alloc);
    for piece in text.chunks(size.max(1)) {
        let _ = reader.feed(piece);
        let _ = reader.feed(b"");
        let _ = judge.feed(piece);
        let _ = judge.feed(b"");
    }
    Ok((reader.finish().err(), number_of_check(judge.finish().err())))
}

// Returns the same for a source that returns at most `most` bytes per pull.
fn from_source(alloc: Global, text: &[u8], most: usize) -> Result<Faults, Fail> {
    let program = Program::read(alloc, &mut Device::new(PROGRAM))?;
    let machine = built_in_machine(alloc);
    let tools = Tools::empty(alloc);
    let mut source = SlowSource::new(text, most, usize::MAX);
    let read = Certificate::read(alloc, &mut source).err();
    let mut source = SlowSource::new(text, most, usize::MAX);
    let checked = check_source(alloc, &program, &machine, &tools, &mut source).err();
    Ok((read, number_of_check(checked)))
}

#[test]
fn certificates_in_pieces(rt: HostRuntime) -> Result<(), Fail> {
    for (text, read, checked) in TEXTS {
        for size in SIZES {
            let found = in_pieces(rt.alloc(), text.as_bytes(), *size)?;
            same(&rt, &(text, size), &found, &(*read, *checked));
            let found = from_source(rt.alloc(), text.as_bytes(), *size)?;
            same(&rt, &(text, size), &found, &(*read, *checked));
        }
    }
    Ok(())
}

// The pieces that are fed, and the result of each.
const STAYING: &[(&str, Result<(), CertificateFault>)] = &[
    ("", Ok(())),
    ("ngc-certificate 1\nsetting off 1", Ok(())),
    ("", Ok(())),
    ("0\nmotion 0 1\nline 6", Ok(())),
    ("5537 0 0 0 0 0 0\n", Err(CertificateFault::OutOfRange(4))),
    ("", Err(CertificateFault::OutOfRange(4))),
    ("end\n", Err(CertificateFault::OutOfRange(4))),
];

#[test]
fn a_fault_of_a_certificate_stays(rt: HostRuntime) -> Result<(), Fail> {
    let program = Program::read(rt.alloc(), &mut Device::new(PROGRAM))?;
    let machine = built_in_machine(rt.alloc());
    let tools = Tools::empty(rt.alloc());
    let mut judge = CheckReader::new(rt.alloc(), &program, &machine, &tools)?;
    let mut reader = CertificateReader::new(rt.alloc());
    for (piece, wanted) in STAYING {
        same(&rt, piece, &reader.feed(piece.as_bytes()), wanted);
        same(&rt, piece, &judge.feed(piece.as_bytes()), wanted);
    }
    same(
        &rt,
        &"the end",
        &number_of_text(reader.finish().err()),
        &303,
    );
    same(
        &rt,
        &"the end",
        &number_of_check(judge.finish().err()),
        &303,
    );
    Ok(())
}

// A text, the byte that follows it without end, and the number of the fault: another file without
// end, then an endless line, then bytes after the end.
const ENDLESS: &[(&[u8], u8, u16)] = &[
    (b"", b'\n', 302),
    (b"ngc-certificate 1\nsetting off 1\n", b'7', 301),
    (
        b"ngc-certificate 1\nsetting off 0\nsetting on 0\nend\n",
        b'\n',
        301,
    ),
];

#[test]
fn no_more_is_pulled(rt: HostRuntime) {
    for (text, byte, number) in ENDLESS {
        let mut source = EndlessSource::new(text, *byte);
        let fault = Certificate::read(rt.alloc(), &mut source).err();
        same(&rt, number, &number_of_text(fault), number);
        same(&rt, number, &source.pulls, &1);
    }
}

#[test]
fn a_refusal_has_a_text(rt: HostRuntime) -> Result<(), Fail> {
    let fault = CheckFault::MotionsDiffer {
        setting: Setting::On,
        command: 0,
    };
    let text = format!(in rt.alloc(); "{fault}")?;
    let wanted = "program and certificate differ at command 0";
    same(&rt, &fault.number(), &text.as_str(), &wanted);
    Ok(())
}
