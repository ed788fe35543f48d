ghost use Rattle.std.specs.Prelude.{◌≡◌};

use thiserror::Error;

/// Why a machine file or a tool table is refused.
#[derive(Clone, Copy, Debug, PartialEq, Eq, Error)]
pub enum FileFault {
    /// 261: the version is not 1, and not 2 where the format has a version 2.
    #[error("the version is unknown")]
    Version,
    /// 262: the step length is not 500 to 50,000 nm.
    #[error("the step length is out of range")]
    Step,
    /// 263: the ticks per second are not 1 to 1,000,000.
    #[error("the ticks per second are out of range")]
    TicksPerSecond,
    /// 264: a rate is not 1 to 1,000,000, the bound for arcs not 1 to 10^12, a jump over 1,000,000,
    /// a ring not 16 to 1,024, a feed of arcs not 0 to 2, or a tool changer not 0 or 1.
    #[error("a rate is out of range")]
    Rates,
    /// 265: a travel limit is over 10^9 nm in size, in version 3 over 3,999,000,000 nm, a low limit is
    /// above its high one, or the start point is beyond the limits or off the grid, or the margin isn't
    /// 0 to 10^8 nm.
    #[error("the travel limits or the start point are out of range")]
    Travel,
    /// 266: a home position or an origin is over 10^9 nm in size, in version 3 over 4*10^9 nm.
    #[error("a home position or an origin is out of range")]
    Places,
    /// 267: a corner is over 4*10^9 nm in size, a low corner is not below the high one, a name
    /// isn't 1 to 40 printable ASCII characters, there are over 256 fixtures, or the margin isn't 0
    /// to 10^8 nm.
    #[error("a fixture is out of range, or there are too many")]
    Fixtures,
    /// 267: a corner of the block of material is over 10^9 nm in size, its low corner is not below the
    /// high one, or its coordinate system is not 0 to 9.
    #[error("the block of material is out of range")]
    Stock,
    /// 268: a number is out of range, a tool's number occurs twice, a tool has no parts or over
    /// four, a name isn't 1 to 40 printable ASCII characters, or there are over 1,000 tools.
    #[error("a tool is out of range or given twice, or there are too many")]
    Tools,
    /// 269: the file is not a TOML document, or a key is unknown, missing or of the wrong kind or
    /// length.
    #[error("the file is not of the form that is asked")]
    Document,
    /// 900: memory was refused.
    #[error("out of memory")]
    Memory,
}

impl FileFault {
    ghost use Rattle.ngc_machine_files.specs.Faults.{number_of};

    /// Returns the fault's number.
    pub fn number(&self) -> u16
        ensures { result ≡ number_of self.now }
    {
        match self {
            FileFault::Version => 261,
            FileFault::Step => 262,
            FileFault::TicksPerSecond => 263,
            FileFault::Rates => 264,
            FileFault::Travel => 265,
            FileFault::Places => 266,
            FileFault::Fixtures => 267,
            FileFault::Stock => 267,
            FileFault::Tools => 268,
            FileFault::Document => 269,
            FileFault::Memory => 900,
        }
    }
}
