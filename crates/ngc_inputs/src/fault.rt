//! Faults of the program in place of its output.
ghost use Rattle.std.specs.Prelude.{◌≡◌};
ghost use Rattle.ngc_inputs.specs.Faults.{answer_number, answer_status, check_status};
ghost use Rattle.ngc_inputs.specs.Faults.{events_status, file_status, make_status, of_picture};
ghost use Rattle.ngc_inputs.specs.Faults.{of_live, of_report, of_run, program_status, read_status, text_status};
ghost use Rattle.ngc_inputs.specs.declared.fault.AnswerFault.TheVariants as answers;

use ngc_canonical::ProgramFault;
use ngc_certificate::{MakeFault, Setting};
use ngc_certificate_text::CertificateFault;
use ngc_checker::CheckFault;
use ngc_drawing::DrawFault;
use ngc_events::EventsFault;
use ngc_line_reader::ReadFault;
use ngc_machine_files::FileFault;
use ngc_report::ReportFault;
use ngc_run_log::LiveFault;
use ngc_run_through::RunFault;
use ngc_text::{InputFault, WriteFault};
use thiserror::Error;

/// The reason why a command isn't done.
#[derive(Clone, Copy, Debug, PartialEq, Eq, Error)]
pub enum AnswerFault {
    /// The machine file is refused: 261 to 267, 269, 900.
    #[error("machine file: {0}")]
    Machine(FileFault),
    /// The tool table is refused: 261, 268, 269, 900.
    #[error("tool table: {0}")]
    Tools(FileFault),
    /// A machine file, tool table or events file isn't read, or a file isn't opened: 900, 901.
    #[error(transparent)]
    Input(InputFault),
    /// The program isn't read: 101, 111 to 119, 121, 122, 900, 901.
    #[error(transparent)]
    Read(ReadFault),
    /// The program is refused: 101, 102, 120, 131 to 133, 201 to 252, 900.
    #[error(transparent)]
    Program(ProgramFault),
    /// The program is refused at this setting of block delete, and so has no certificate: 311.
    #[error("the program is refused: {fault}")]
    Refused {
        setting: Setting,
        fault: ProgramFault,
    },
    /// No certificate is made: 304, 900.
    #[error(transparent)]
    Make(MakeFault),
    /// The certificate isn't read: 301 to 303, 900, 901.
    #[error(transparent)]
    Certificate(CertificateFault),
    /// The certificate isn't accepted: 311 to 319, 900.
    #[error(transparent)]
    Check(CheckFault),
    /// The events are refused: 711, 712, 900.
    #[error(transparent)]
    Events(EventsFault),
    /// Memory ran out for a run, a picture or help: 900.
    #[error("out of memory")]
    Memory,
    /// The output isn't written, or only a prefix of it: 902.
    #[error(transparent)]
    Write(WriteFault),
    /// No fault has the number: 721.
    #[error("no fault has this number")]
    UnknownFault,
    /// No command has the name: 722.
    #[error("no command has this name")]
    UnknownCommand,
    /// No view has the name: 723.
    #[error("no view has this name")]
    UnknownView,
    /// No control has the name: 724.
    #[error("no control has this name")]
    UnknownControl,
    /// Neither a dump of settings nor all figures are present, or both are: 726.
    #[error("no figures of a machine")]
    NoFigures,
    /// No form of a run's output has the name: 727.
    #[error("no form has this name")]
    UnknownForm,
    /// No coordinate system has the name: 728.
    #[error("no coordinate system has this name")]
    UnknownSystem,
    /// A number of cells is requested, and there is no block of material: 729.
    #[error("no material for the cells")]
    NoMaterial,
    /// A map is requested, and there is no block of material, or it or the end of a motion is more than
    /// two metres from the machine's zero: 730.
    #[error("no material for a map")]
    NoMap,
}

impl AnswerFault {
    /// Returns the fault's number.
    pub fn number(&self) -> u16
        ensures { result ≡ answer_number self.now }
    {
        match self {
            AnswerFault::Machine(fault) | AnswerFault::Tools(fault) => fault.number(),
            AnswerFault::Input(fault) => fault.number(),
            AnswerFault::Read(fault) => fault.number(),
            AnswerFault::Program(fault) => fault.number(),
            AnswerFault::Refused { .. } => 311,
            AnswerFault::Make(fault) => fault.number(),
            AnswerFault::Certificate(fault) => fault.number(),
            AnswerFault::Check(fault) => fault.number(),
            AnswerFault::Events(fault) => fault.number(),
            AnswerFault::Memory => 900,
            AnswerFault::Write(fault) => fault.number(),
            AnswerFault::UnknownFault => 721,
            AnswerFault::UnknownCommand => 722,
            AnswerFault::UnknownView => 723,
            AnswerFault::UnknownControl => 724,
            AnswerFault::NoFigures => 726,
            AnswerFault::UnknownForm => 727,
            AnswerFault::UnknownSystem => 728,
            AnswerFault::NoMaterial => 729,
            AnswerFault::NoMap => 730,
        }
    }

    /// Returns the exit status: 1 for input, output and memory, 3 for a file or a program that is
    /// refused, a name or number that isn't known, and cells or a map without material, 4 for a
    /// certificate that is refused or isn't made.
    pub fn status(&self) -> u8
        ensures { result ≡ answer_status self.now }
    {
        match self {
            AnswerFault::Machine(fault) | AnswerFault::Tools(fault) => status_of_file(fault),
            AnswerFault::Read(fault) => status_of_reading(fault),
            AnswerFault::Program(fault) => status_of_program(fault),
            AnswerFault::Refused { .. } => 3,
            AnswerFault::Make(fault) => status_of_making(fault),
            AnswerFault::Certificate(fault) => status_of_text(fault),
            AnswerFault::Check(fault) => status_of_check(fault),
            AnswerFault::Events(fault) => status_of_events(fault),
            AnswerFault::Input(_) | AnswerFault::Memory | AnswerFault::Write(_) => 1,
            AnswerFault::UnknownFault | AnswerFault::UnknownCommand | AnswerFault::UnknownView => 3,
            AnswerFault::UnknownControl
            | AnswerFault::NoFigures
            | AnswerFault::UnknownForm
            | AnswerFault::UnknownSystem
            | AnswerFault::NoMaterial
            | AnswerFault::NoMap => 3,
        }
    }
}

fn status_of_file(fault: &FileFault) -> u8
    ensures { result ≡ file_status fault.now }
{
    match fault {
        FileFault::Memory => 1,
        _ => 3,
    }
}

fn status_of_reading(fault: &ReadFault) -> u8
    ensures { result ≡ read_status fault.now }
{
    match fault {
        ReadFault::Line(..) | ReadFault::NoEnd | ReadFault::TooManyLines => 3,
        ReadFault::Memory | ReadFault::Device => 1,
    }
}

fn status_of_program(fault: &ProgramFault) -> u8
    ensures { result ≡ program_status fault.now }
{
    match fault {
        ProgramFault::At { .. } => 3,
        ProgramFault::Memory => 1,
    }
}

fn status_of_making(fault: &MakeFault) -> u8
    ensures { result ≡ make_status fault.now }
{
    match fault {
        MakeFault::NotCleared { .. } => 4,
        MakeFault::Memory => 1,
    }
}

fn status_of_text(fault: &CertificateFault) -> u8
    ensures { result ≡ text_status fault.now }
{
    match fault {
        CertificateFault::Memory | CertificateFault::ReadFailed => 1,
        CertificateFault::WrongHeader
        | CertificateFault::BadLine(_)
        | CertificateFault::OutOfRange(_) => 4,
    }
}

fn status_of_check(fault: &CheckFault) -> u8
    ensures { result ≡ check_status fault.now }
{
    match fault {
        CheckFault::Program { .. } => 3,
        CheckFault::MotionsDiffer { .. }
        | CheckFault::Divided { .. }
        | CheckFault::Start { .. }
        | CheckFault::Piece { .. }
        | CheckFault::ToolChange { .. } => 4,
        CheckFault::Memory => 1,
    }
}

fn status_of_events(fault: &EventsFault) -> u8
    ensures { result ≡ events_status fault.now }
{
    match fault {
        EventsFault::BadLine(_) | EventsFault::TooManyLines => 3,
        EventsFault::Memory => 1,
    }
}

impl From<InputFault> for AnswerFault {
    ghost from_gives = { λ fault answer. answer ≡ answers.Input fault };

    fn from(fault: InputFault) -> AnswerFault {
        AnswerFault::Input(fault)
    }
}

impl From<ReadFault> for AnswerFault {
    ghost from_gives = { λ fault answer. answer ≡ answers.Read fault };

    fn from(fault: ReadFault) -> AnswerFault {
        AnswerFault::Read(fault)
    }
}

impl From<ProgramFault> for AnswerFault {
    ghost from_gives = { λ fault answer. answer ≡ answers.Program fault };

    fn from(fault: ProgramFault) -> AnswerFault {
        AnswerFault::Program(fault)
    }
}

impl From<MakeFault> for AnswerFault {
    ghost from_gives = { λ fault answer. answer ≡ answers.Make fault };

    fn from(fault: MakeFault) -> AnswerFault {
        AnswerFault::Make(fault)
    }
}

impl From<CertificateFault> for AnswerFault {
    ghost from_gives = { λ fault answer. answer ≡ answers.Certificate fault };

    fn from(fault: CertificateFault) -> AnswerFault {
        AnswerFault::Certificate(fault)
    }
}

impl From<CheckFault> for AnswerFault {
    ghost from_gives = { λ fault answer. answer ≡ answers.Check fault };

    fn from(fault: CheckFault) -> AnswerFault {
        AnswerFault::Check(fault)
    }
}

impl From<EventsFault> for AnswerFault {
    ghost from_gives = { λ fault answer. answer ≡ answers.Events fault };

    fn from(fault: EventsFault) -> AnswerFault {
        AnswerFault::Events(fault)
    }
}

impl From<WriteFault> for AnswerFault {
    ghost from_gives = { λ fault answer. answer ≡ answers.Write fault };

    fn from(fault: WriteFault) -> AnswerFault {
        AnswerFault::Write(fault)
    }
}

impl From<RunFault> for AnswerFault {
    ghost from_gives = { λ fault answer. answer ≡ of_run fault };

    fn from(fault: RunFault) -> AnswerFault {
        match fault {
            RunFault::Memory => AnswerFault::Memory,
            RunFault::Write(fault) => AnswerFault::Write(fault),
        }
    }
}

impl From<LiveFault> for AnswerFault {
    ghost from_gives = { λ fault answer. answer ≡ of_live fault };

    fn from(fault: LiveFault) -> AnswerFault {
        match fault {
            LiveFault::Events(fault) => AnswerFault::Events(fault),
            LiveFault::Read => AnswerFault::Input(InputFault::Device),
            LiveFault::Write(fault) => AnswerFault::Write(fault),
        }
    }
}

impl From<ReportFault> for AnswerFault {
    ghost from_gives = { λ fault answer. answer ≡ of_report fault };

    fn from(fault: ReportFault) -> AnswerFault {
        match fault {
            ReportFault::Memory => AnswerFault::Make(MakeFault::Memory),
            ReportFault::Write(fault) => AnswerFault::Write(fault),
        }
    }
}

impl From<DrawFault> for AnswerFault {
    ghost from_gives = { λ fault answer. answer ≡ of_picture fault };

    fn from(fault: DrawFault) -> AnswerFault {
        match fault {
            DrawFault::Memory => AnswerFault::Memory,
            DrawFault::Write => AnswerFault::Write(WriteFault),
        }
    }
}
