//! Texts that no command prints: those of faults, which `ngc` reports by their numbers, and of a
//! mistake in a file without a mistake.
use crate::checks::same;
use ngc_command_line::UsageFault;
use ngc_fixed_length::NumberFault;
use ngc_line_reader::{FaultKind, Letter, LineFault, ReadFault};
use ngc_machine_files::FileFault;
use ngc_modal_state::{MissingWord, ModalFault};
use ngc_parameters::EvalFault;
use ngc_setup_sheet::{write_machine_mistake, write_tools_mistake};
use ngc_test_devices::{MACHINE, TOOLS};
use ngc_text::Device;
use std::alloc::Global;
use std::test::Fail;

const LONG: ReadFault = ReadFault::Line(
    7,
    LineFault {
        kind: FaultKind::LineTooLong,
        column: 257,
    },
);

const BADLY_WRITTEN: LineFault = LineFault {
    kind: FaultKind::BadNumber,
    column: 9,
};

const MODAL: &[(ModalFault, &str)] = &[
    (
        ModalFault::UnknownCode {
            letter: Letter::M,
            millionths: 99_000_000,
        },
        "the M code is unknown",
    ),
    (
        ModalFault::WithoutUse(Letter::K),
        "no code on the line uses the word K",
    ),
    (
        ModalFault::WordMissing(MissingWord::Axis),
        "an axis word, which a code on the line needs, is missing",
    ),
    (
        ModalFault::WordMissing(MissingWord::Letter(Letter::P)),
        "the word P, which a code on the line needs, is missing",
    ),
];

#[test]
fn texts_of_faults(rt: HostRuntime) -> Result<(), Fail> {
    for (row, (fault, wanted)) in MODAL.iter().enumerate() {
        let text = format!(in rt.alloc(); "{fault}")?;
        same(&rt, &row, &text.as_str(), wanted);
    }
    let division = EvalFault::Number(NumberFault::DivisionByZero);
    let text = format!(in rt.alloc();
        "{}; {}; {LONG}; {BADLY_WRITTEN}; {}; {division}; {}",
        UsageFault::Memory,
        FileFault::Step,
        ReadFault::NoEnd,
        EvalFault::TooDeep
    )?;
    same(
        &rt,
        &"the others",
        &text.as_str(),
        &"out of memory; the step length is out of range; line 7: line longer than 256 characters, column 257; \
          number missing or badly written, column 9; second percent line missing; division by zero; brackets and # nested more than 16 deep",
    );
    Ok(())
}

// Returns the text about mistakes in good files.
fn written(alloc: Global) -> Result<Vec<u8>, Fail> {
    let mut sink = Device::new(Vec::new(alloc));
    let machine = format!(in alloc; "{MACHINE}[[fixture]]\nlow = [0, 0, 0]\nhigh = [1, 1, 1]\n")?;
    write_machine_mistake(alloc, machine.as_bytes(), FileFault::Step, &mut sink)?;
    write_tools_mistake(alloc, TOOLS.as_bytes(), FileFault::Tools, &mut sink)?;
    Ok(sink.into_inner())
}

// A mistake that isn't there is reported by its number. A command does so if the file has changed
// between its two readings.
#[test]
fn mistakes_that_are_not_there(rt: HostRuntime) -> Result<(), Fail> {
    let found = written(rt.alloc())?;
    same(
        &rt,
        &"good files",
        &std::str::from_utf8(found.as_slice())?,
        &"The fault is 262.\nThe fault is 268.\n",
    );
    Ok(())
}
