//! The machine of a file of version 3.
ghost use Rattle.std.specs.Prelude.{◌≡◌, IfOk, Some};
ghost use Rattle.toml.specs.View.{view};
ghost use Rattle.ngc_machine_files.specs.Machine.{file_of};
ghost use Rattle.ngc_machine_figures.specs.Files.{values_of as sheet_values};
ghost use Rattle.ngc_machine_maker.specs.InFile.{AreInFile};
ghost use Rattle.ngc_motor_scale.specs.Scales.{IsScale};
ghost use Rattle.ngc_written_machines.specs.Machines as spec;
ghost use Rattle.ngc_written_machines.specs.Motors.{AreScales};
ghost use Rattle.ngc_written_machines.specs.Written.{tree_figures, written_figures as figures_of_head};

use crate::contents::contents_of;
use crate::figures::figures_of;
use crate::motors::grid_of;
use crate::refusal::{WrittenFault, WrittenRefusal};
use crate::written::written_figures;
use ngc_file_figures::MachineFigures;
use ngc_machine_figures::{
    AxesSheet, AxisName, AxisSheet, HeadSheet, Sheet, SheetFault, read_sheet,
};
use ngc_machine_files::{FileFault, Machine};
use ngc_machine_maker::{MachineNumbers, numbers_of};
use ngc_motor_scale::scale_of;
use ngc_motors::{MotorStep, MotorSteps};
use std::alloc::Global;
use toml::Value;

/// A machine, and the figures of its file as they are written.
#[derive(Drop)]
pub struct WrittenMachine {
    pub machine: Machine<Global>,
    /// `None` unless the file has version 3.
    pub figures: Option<MachineFigures>,
}

fn motor_of(name: AxisName, axis: &AxisSheet) -> Result<MotorStep, WrittenRefusal>
    ensures value { result ≡ spec.motor_of name axis.now }
    ensures range { IfOk result IsScale }
{
    match scale_of(&axis.motor) {
        Ok(scale) => Ok(scale),
        Err(refusal) => Err(WrittenRefusal::Motor(name, refusal)),
    }
}

#[tactic(auto, unfolding(crate::specs::Machines::motors_of))]
fn motors_of(axes: &AxesSheet) -> Result<MotorSteps, WrittenRefusal>
    ensures value { result ≡ spec.motors_of axes.now }
    ensures range { IfOk result AreScales }
{
    Ok(MotorSteps {
        x: motor_of(AxisName::X, &axes.x)?,
        y: motor_of(AxisName::Y, &axes.y)?,
        z: motor_of(AxisName::Z, &axes.z)?,
    })
}

// Returns the step and the rates of what is written.
#[tactic(auto, unfolding(crate::specs::Machines::rates_with))]
fn rates_with(head: &HeadSheet, motors: &MotorSteps) -> Result<MachineNumbers, WrittenRefusal>
    requires { AreScales motors.now }
    ensures value { result ≡ spec.rates_with head.now motors.now }
    ensures range { IfOk result AreInFile }
{
    match numbers_of(&figures_of(head, grid_of(motors))) {
        Ok(rates) => Ok(rates),
        Err(refusal) => Err(WrittenRefusal::Figure(refusal)),
    }
}

fn fault_by(fault: FileFault) -> WrittenFault
    ensures { result ≡ spec.fault_by fault }
{
    match fault {
        FileFault::Memory => WrittenFault::Memory,
        fault => WrittenFault::Refused(WrittenRefusal::Range(fault)),
    }
}

fn machine_by(alloc: Global, sheet: &Sheet) -> Result<Machine<Global>, WrittenFault>
    ensures { spec.WrittenResultIs file_of result (spec.machine_by (sheet_values sheet.now)) }
{
    let motors = match motors_of(&sheet.head.axes) {
        Ok(motors) => motors,
        Err(refusal) => return Err(WrittenFault::Refused(refusal)),
    };
    let rates = match rates_with(&sheet.head, &motors) {
        Ok(rates) => rates,
        Err(refusal) => return Err(WrittenFault::Refused(refusal)),
    };
    let contents = match contents_of(alloc, sheet, &motors, &rates) {
        Ok(contents) => contents,
        Err(_) => return Err(WrittenFault::Memory),
    };
    match contents.checked_machine(alloc) {
        Ok(machine) => Ok(machine),
        Err(fault) => Err(fault_by(fault)),
    }
}

fn file_by(alloc: Global, sheet: &Sheet) -> Result<WrittenMachine, WrittenFault>
    ensures machine { spec.WrittenResultIs (λ w. file_of w.machine) result
        (spec.machine_by (sheet_values sheet.now)) }
    ensures figures { IfOk result
        (λ w. w.figures ≡ Some (figures_of_head (sheet_values sheet.now).head)) }
{
    let machine = machine_by(alloc, sheet)?;
    let figures = Some(written_figures(&sheet.head));
    Ok(WrittenMachine { machine, figures })
}

/// Returns the machine that a file of version 3 describes, by the file's tree, or the first mistake
/// of the file.
#[tactic(auto, unfolding(crate::specs::Machines::written_machine))]
pub fn written_machine(alloc: Global, tree: &Value) -> Result<WrittenMachine, WrittenFault>
    ensures machine { spec.WrittenResultIs (λ w. file_of w.machine) result
        (spec.written_machine (view tree.now)) }
    ensures figures { IfOk result (λ w. w.figures ≡ tree_figures (view tree.now)) }
{
    match read_sheet(alloc, tree) {
        Ok(sheet) => file_by(alloc, &sheet),
        Err(SheetFault::Refused(refusal)) => {
            Err(WrittenFault::Refused(WrittenRefusal::Sheet(refusal)))
        }
        Err(SheetFault::Memory) => Err(WrittenFault::Memory),
    }
}
