//! Why a machine file of version 3 is refused.
ghost use Rattle.std.specs.Prelude.{◌≡◌};
ghost use Rattle.ngc_written_machines.specs.Refusals as spec;

use ngc_machine_figures::{AxisName, FileRefusal};
use ngc_machine_files::FileFault;
use ngc_machine_maker::FigureRefusal;
use ngc_motor_scale::ScaleRefusal;

/// Why a machine file of version 3 is refused.
#[derive(Clone, Copy)]
pub enum WrittenRefusal {
    /// A key is unknown, missing or can't be read.
    Sheet(FileRefusal),
    /// An axis' motor has no step that a machine can have.
    Motor(AxisName, ScaleRefusal),
    /// A figure gives no rate.
    Figure(FigureRefusal),
    /// A number is out of its range.
    Range(FileFault),
}

/// Why there is no machine of a file.
#[derive(Clone, Copy)]
pub enum WrittenFault {
    /// Memory was refused.
    Memory,
    /// The file has a mistake.
    Refused(WrittenRefusal),
}

fn figure_fault(refusal: FigureRefusal) -> FileFault
    ensures { result ≡ spec.figure_fault refusal }
{
    match refusal {
        FigureRefusal::Step => FileFault::Step,
        FigureRefusal::Travel(_) | FigureRefusal::FarTravel(_) => FileFault::Travel,
        _ => FileFault::Rates,
    }
}

impl WrittenRefusal {
    /// Returns the fault of a machine file that it is.
    pub fn fault(self) -> FileFault
        ensures { result ≡ spec.fault_of self }
    {
        match self {
            WrittenRefusal::Sheet(_) => FileFault::Document,
            WrittenRefusal::Motor(..) => FileFault::Step,
            WrittenRefusal::Figure(refusal) => figure_fault(refusal),
            WrittenRefusal::Range(fault) => fault,
        }
    }
}
