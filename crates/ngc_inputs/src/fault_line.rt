//! The line that reports a fault on standard error.
ghost use Rattle.std.specs.Prelude.{◌≡◌, ◌+◌, ◌≤◌, ◌++◌, length, decimal, codes};
ghost use Rattle.ngc_text.specs.Collected.{CHUNK_SIZE};
ghost use Rattle.ngc_inputs.specs.Faults.{answer_place, check_place, command_place};
ghost use Rattle.ngc_inputs.specs.Faults.{events_place, fault_line, file_place, fixture_place};
ghost use Rattle.ngc_inputs.specs.Faults.{line_of_text, make_place, piece_place, program_place};
ghost use Rattle.ngc_inputs.specs.Faults.{read_place, refused_place, setting_place};

use crate::fault::AnswerFault;
use ngc_canonical::ProgramFault;
use ngc_certificate::{MakeFault, PieceFault, Setting};
use ngc_checker::CheckFault;
use ngc_events::EventsFault;
use ngc_line_reader::ReadFault;
use ngc_machine_files::FileFault;
use ngc_text::Chunk;

fn add_line_number(chunk: &mut Chunk, line: u32)
    requires { length chunk.old + 50 ≤ CHUNK_SIZE }
    ensures text { chunk.new ≡ chunk.old ++ codes " line " ++ decimal line }
    ensures short { length chunk.new ≤ length chunk.old + 46 }
{
    chunk.add_text(b" line ");
    chunk.add_number(line);
}

fn add_reading_place(chunk: &mut Chunk, fault: &ReadFault)
    requires { length chunk.old + 150 ≤ CHUNK_SIZE }
    ensures text { chunk.new ≡ chunk.old ++ read_place fault.now }
    ensures short { length chunk.new ≤ length chunk.old + 100 }
{
    if let ReadFault::Line(line, fault) = fault {
        add_line_number(chunk, *line);
        chunk.add_text(b" column ");
        chunk.add_number(fault.column);
    }
}

fn add_program_place(chunk: &mut Chunk, fault: &ProgramFault)
    requires { length chunk.old + 150 ≤ CHUNK_SIZE }
    ensures text { chunk.new ≡ chunk.old ++ program_place fault.now }
    ensures short { length chunk.new ≤ length chunk.old + 100 }
{
    if let ProgramFault::At { line, .. } = fault {
        add_line_number(chunk, *line);
    }
}

// Adds the file, unless memory ran out.
fn add_file_place(chunk: &mut Chunk, name: &[u8], fault: &FileFault)
    requires room { length chunk.old + 150 ≤ CHUNK_SIZE }
    requires name { length name.now ≤ 100 }
    ensures text { chunk.new ≡ chunk.old ++ file_place name.now fault.now }
    ensures short { length chunk.new ≤ length chunk.old + 100 }
{
    if *fault != FileFault::Memory {
        chunk.add_text(name);
    }
}

fn add_setting(chunk: &mut Chunk, setting: Setting)
    requires { length chunk.old + 20 ≤ CHUNK_SIZE }
    ensures text { chunk.new ≡ chunk.old ++ setting_place setting }
    ensures short { length chunk.new ≤ length chunk.old + 12 }
{
    match setting {
        Setting::Off => chunk.add_text(b" setting off"),
        Setting::On => chunk.add_text(b" setting on"),
    }
}

fn add_command(chunk: &mut Chunk, setting: Setting, command: u32)
    requires { length chunk.old + 80 ≤ CHUNK_SIZE }
    ensures text { chunk.new ≡ chunk.old ++ command_place setting command }
    ensures short { length chunk.new ≤ length chunk.old + 61 }
{
    add_setting(chunk, setting);
    chunk.add_text(b" command ");
    chunk.add_number(command);
}

fn add_fixture(chunk: &mut Chunk, fixture: u32)
    requires { length chunk.old + 60 ≤ CHUNK_SIZE }
    ensures text { chunk.new ≡ chunk.old ++ fixture_place fixture }
    ensures short { length chunk.new ≤ length chunk.old + 49 }
{
    chunk.add_text(b" fixture ");
    chunk.add_number(fixture);
}

fn add_piece(chunk: &mut Chunk, piece: u32, fault: &PieceFault)
    requires { length chunk.old + 120 ≤ CHUNK_SIZE }
    ensures text { chunk.new ≡ chunk.old ++ codes " piece " ++ decimal piece
        ++ piece_place fault.now }
    ensures short { length chunk.new ≤ length chunk.old + 96 }
{
    chunk.add_text(b" piece ");
    chunk.add_number(piece);
    if let PieceFault::MeetsFixture(fixture) = fault {
        add_fixture(chunk, *fixture);
    }
}

fn add_refused(chunk: &mut Chunk, setting: Setting, fault: &ProgramFault)
    requires { length chunk.old + 150 ≤ CHUNK_SIZE }
    ensures text { chunk.new ≡ chunk.old ++ refused_place setting fault.now }
    ensures short { length chunk.new ≤ length chunk.old + 110 }
{
    add_setting(chunk, setting);
    chunk.add_text(b" fault ");
    chunk.add_number(fault.number());
    if let ProgramFault::At { line, .. } = fault {
        add_line_number(chunk, *line);
    }
}

fn add_make_place(chunk: &mut Chunk, fault: &MakeFault)
    requires { length chunk.old + 80 ≤ CHUNK_SIZE }
    ensures text { chunk.new ≡ chunk.old ++ make_place fault.now }
    ensures short { length chunk.new ≤ length chunk.old + 61 }
{
    if let MakeFault::NotCleared { setting, command } = fault {
        add_command(chunk, *setting, *command);
    }
}

fn add_check_place(chunk: &mut Chunk, fault: &CheckFault)
    requires { length chunk.old + 250 ≤ CHUNK_SIZE }
    ensures text { chunk.new ≡ chunk.old ++ check_place fault.now }
    ensures short { length chunk.new ≤ length chunk.old + 200 }
{
    match fault {
        CheckFault::Program { setting, fault } => add_refused(chunk, *setting, fault),
        CheckFault::MotionsDiffer { setting, command } | CheckFault::Divided { setting, command } =>
            add_command(chunk, *setting, *command),
        CheckFault::Start { fixture } => add_fixture(chunk, *fixture),
        CheckFault::Piece {
            setting,
            command,
            piece,
            fault,
        } => {
            add_command(chunk, *setting, *command);
            add_piece(chunk, *piece, fault);
        }
        CheckFault::ToolChange {
            setting,
            command,
            fixture,
        } => {
            add_command(chunk, *setting, *command);
            add_fixture(chunk, *fixture);
        }
        CheckFault::Memory => {}
    }
}

fn add_text_line(chunk: &mut Chunk, line: Option<u32>)
    requires { length chunk.old + 100 ≤ CHUNK_SIZE }
    ensures text { chunk.new ≡ chunk.old ++ line_of_text line }
    ensures short { length chunk.new ≤ length chunk.old + 58 }
{
    if let Some(line) = line {
        chunk.add_text(b" certificate line ");
        chunk.add_number(line);
    }
}

fn add_events_place(chunk: &mut Chunk, fault: &EventsFault)
    requires { length chunk.old + 100 ≤ CHUNK_SIZE }
    ensures text { chunk.new ≡ chunk.old ++ events_place fault.now }
    ensures short { length chunk.new ≤ length chunk.old + 53 }
{
    if let EventsFault::BadLine(line) = fault {
        chunk.add_text(b" events line ");
        chunk.add_number(*line);
    }
}

fn add_place(chunk: &mut Chunk, fault: &AnswerFault)
    requires { length chunk.old + 400 ≤ CHUNK_SIZE }
    ensures text { chunk.new ≡ chunk.old ++ answer_place fault.now }
    ensures short { length chunk.new ≤ length chunk.old + 300 }
{
    match fault {
        AnswerFault::Machine(fault) => add_file_place(chunk, b" machine", fault),
        AnswerFault::Tools(fault) => add_file_place(chunk, b" tools", fault),
        AnswerFault::Read(fault) => add_reading_place(chunk, fault),
        AnswerFault::Program(fault) => add_program_place(chunk, fault),
        AnswerFault::Refused { setting, fault } => add_refused(chunk, *setting, fault),
        AnswerFault::Make(fault) => add_make_place(chunk, fault),
        AnswerFault::Certificate(fault) => add_text_line(chunk, fault.line()),
        AnswerFault::Check(fault) => add_check_place(chunk, fault),
        AnswerFault::Events(fault) => add_events_place(chunk, fault),
        AnswerFault::Input(_)
        | AnswerFault::Memory
        | AnswerFault::Write(_)
        | AnswerFault::UnknownFault
        | AnswerFault::UnknownCommand
        | AnswerFault::UnknownView
        | AnswerFault::UnknownControl
        | AnswerFault::NoFigures
        | AnswerFault::UnknownForm
        | AnswerFault::UnknownSystem
        | AnswerFault::NoMaterial
        | AnswerFault::NoMap => {}
    }
}

/// Adds the line of a fault, as it is written to standard error.
pub fn add_fault_line(chunk: &mut Chunk, fault: &AnswerFault)
    requires { length chunk.old + 500 ≤ CHUNK_SIZE }
    ensures { chunk.new ≡ chunk.old ++ fault_line fault.now }
{
    chunk.add_text(b"ngc: fault ");
    chunk.add_number(fault.number());
    add_place(chunk, fault);
    chunk.add_text(b"\n");
}
