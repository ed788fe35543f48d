//! Laws about the definitions only.
ghost use Rattle.ngc_machine_model.specs.Headline.{AcceptedRunsSafely, EndsInTime, Headline, KeepPaths};
ghost use Rattle.ngc_machine_model.specs.Headline.{KeepRatesAlways, MachinesRunInTime};
ghost use Rattle.ngc_machine_model.specs.RateRules.{AllBrakeByDistance};
ghost use Rattle.ngc_machine_model.specs.Shares.{LinesKeepShares};

/// States that if the checker refuses nothing, every run of the machine is safe, at either setting
/// of block delete and for every list of events. Each position is within travel, and the tool
/// mounted then is clear of every fixture. Rates and pulses keep their rules. The positions begin a
/// path of the program, and the end is reported only after a whole one.
pub fn headline()
    ensures { Headline }
{}

/// States that every accepted program runs safely.
pub fn accepted_runs_safely()
    ensures { AcceptedRunsSafely }
{}

/// States that every tick of every run keeps the rules of rates on a machine within its ranges,
/// also if nothing was accepted.
pub fn rates()
    ensures { KeepRatesAlways }
{}

/// States that on a machine without limits of each axis a rate that the machine may have brakes on the
/// loaded path by the machine's change, and is at least the pace if the path is free for it.
pub fn brake_by_distance()
    ensures { AllBrakeByDistance }
{}

/// States that on a machine with limits of each axis, on the path of a line, the share of each axis in
/// the rate is at most the axis' own rate, and its share in the change is at most its own change.
pub fn lines_keep_shares()
    ensures { LinesKeepShares }
{}

/// States that in every run a command has the same path whenever it is at the head, and that the
/// command may take this path.
pub fn keep_paths()
    ensures { KeepPaths }
{}

/// States that a motion that reaches the head of a machine within its ranges is done within a
/// bounded number of free ticks. A tick is free if the machine is neither held nor stopped, at an
/// override of at least 1; each free tick travels at least at the motion's least rate.
pub fn ends_in_time()
    ensures { EndsInTime }
{}

/// States that this holds for every motion on such a machine: its least rate is at least 1.
pub fn machines_run_in_time()
    ensures { MachinesRunInTime }
{}
