//! The small mill and its tools, and what the program does on them over any allocator.
use ngc_line_reader::Program;
use ngc_simulator::{
    Format, Machine, Tools, Writing, certify, check_program, judge, list, run_program,
};
use ngc_text::{Device, Sink};
use std::alloc::Allocator;

/// A certificate for a program without motions.
pub const NO_MOTIONS: &[u8] = b"ngc-certificate 1\nsetting off 0\nsetting on 0\nend\n";

/// A machine and its tools.
#[derive(Drop)]
pub struct Shop<A: Allocator> {
    pub machine: Machine<A>,
    pub tools: Tools<A>,
}

/// A command, with a certificate and events if it needs them.
#[derive(Clone, Copy, Debug)]
pub enum Job<'a> {
    List,
    Certify,
    Check(&'a [u8]),
    Run(&'a [u8], &'a [u8]),
}

/// `Ok`, or the number of a fault.
pub type End = Result<(), u16>;

impl Job<'_> {
    /// Runs the command with the text of a program.
    pub fn attempt<A: Allocator + Copy, W: Sink>(
        self,
        alloc: A,
        text: &str,
        shop: &Shop<A>,
        output: &mut W,
    ) -> End {
        match self {
            Job::List => list_text(alloc, text, shop, output),
            Job::Certify => certify_text(alloc, text, shop, output),
            Job::Check(certificate) => check_text(alloc, text, certificate, shop, output),
            Job::Run(certificate, events) => {
                run_text(alloc, text, certificate, events, shop, output)
            }
        }
    }
}

fn list_text<A: Allocator + Copy, W: Sink>(
    alloc: A,
    text: &str,
    shop: &Shop<A>,
    output: &mut W,
) -> End {
    let mut source = Device::new(text.as_bytes());
    let (machine, tools) = (&shop.machine, &shop.tools);
    list(alloc, &mut source, machine, tools, false, output).map_err(|fault| fault.number())
}

fn certify_text<A: Allocator + Copy, W: Sink>(
    alloc: A,
    text: &str,
    shop: &Shop<A>,
    output: &mut W,
) -> End {
    let mut source = Device::new(text.as_bytes());
    match (shop.machine.copy(alloc), shop.tools.copy(alloc)) {
        (Ok(machine), Ok(tools)) => {
            certify(alloc, &mut source, machine, tools, 8, Format::One, output).map_err(
                |fault| fault.number(),
            )
        }
        _ => Err(900),
    }
}

fn check_text<A: Allocator + Copy, W: Sink>(
    alloc: A,
    text: &str,
    certificate: &[u8],
    shop: &Shop<A>,
    output: &mut W,
) -> End {
    let program = Program::read(alloc, &mut Device::new(text.as_bytes())).map_err(
        |fault| fault.number(),
    )?;
    let mut source = Device::new(certificate);
    let (machine, tools) = (&shop.machine, &shop.tools);
    check_program(alloc, &program, machine, tools, &mut source, output).map_err(
        |fault| fault.number(),
    )
}

fn run_text<A: Allocator + Copy, W: Sink>(
    alloc: A,
    text: &str,
    certificate: &[u8],
    events: &[u8],
    shop: &Shop<A>,
    output: &mut W,
) -> End {
    let program = Program::read(alloc, &mut Device::new(text.as_bytes())).map_err(
        |fault| fault.number(),
    )?;
    let mut source = Device::new(certificate);
    let verdict = judge(alloc, &program, &shop.machine, &shop.tools, &mut source).map_err(
        |fault| fault.number(),
    )?;
    match run_program(alloc, verdict, events, false, Writing::Log, output) {
        Ok(_) => Ok(()),
        Err(fault) => Err(fault.number()),
    }
}
