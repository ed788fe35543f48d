ghost use Rattle.std.specs.Prelude.{◌≡◌, ◌<ℤ◌, ◌-◌, ◌/◌, ◌-ℤ◌, pos, unsigned_abs, Ok};
ghost use Rattle.ngc_canned_cycles.specs.Heights.{clear_at};
ghost use Rattle.ngc_dialect_cycles.specs.Levels.{levels as levels_of, site_of};
ghost use Rattle.ngc_dialect_cycles.specs.Holes.{peck_count};
ghost use Rattle.ngc_dialect_cycles.specs.Refusals.{check};
ghost use Rattle.ngc_dialect_cycles.specs.Walk.{plan_of, IsPlan};

use crate::line::{CycleLine, HoleKind, Levels, Series};
use ngc_canned_cycles::heights::{higher, length};
use ngc_fixed_length::{Nm, RetractMode};

/// A line's cycle that isn't refused, with what all of its holes share.
#[derive(Clone, Copy)]
pub(crate) struct Plan {
    pub(crate) series: Series,
    pub(crate) line: CycleLine,
    pub(crate) levels: Levels,
    /// The number of pecks of a hole that end above the bottom.
    pub(crate) pecks: u64,
}

fn clear_height(mode: RetractMode, level: Nm, retract: Nm) -> Nm
    ensures { result ≡ clear_at mode level retract }
{
    match mode {
        RetractMode::Series => higher(level, retract),
        RetractMode::Retract => retract,
    }
}

// Returns the number of pecks that end above the bottom.
fn pecks_over(levels: &Levels, peck: Nm) -> u64
    requires { pos 0 <ℤ peck }
    ensures { result ≡ (unsigned_abs (levels.now.retract -ℤ levels.now.bottom) - 1)
        / unsigned_abs peck }
{
    let distance = levels
        .retract
        .nanometres()
        .abs_diff(levels.bottom.nanometres());
    distance.saturating_sub(1) / peck.nanometres().unsigned_abs()
}

// Returns the number of pecks of a hole that end above the bottom.
fn peck_count(series: &Series, line: &CycleLine, levels: &Levels) -> u64
    requires sound { check series.now line.now ≡ Ok tt }
    requires levels { levels.now ≡ levels_of series.now line.now }
    ensures { result ≡ peck_count series.now.kind (site_of series.now line.now 0) }
{
    match &series.kind {
        HoleKind::Peck(pecks) => pecks_over(levels, pecks.depth),
        HoleKind::BreakChips(pecks) => pecks_over(levels, pecks.depth),
        _ => 0,
    }
}

impl Series {
    // Returns the heights of a line's holes.
    fn levels(&self, line: &CycleLine) -> Levels
        requires { check self.now line.now ≡ Ok tt }
        ensures { result ≡ levels_of self.now line.now }
    {
        let retract = length(self.retract_height(line));
        let bottom = length(self.bottom_height(line));
        Levels {
            retract,
            bottom,
            clear: clear_height(line.clear, self.level, retract),
        }
    }
}

impl Plan {
    /// Returns the plan of a line's cycle, which must not be refused.
    pub(crate) fn new(series: &Series, line: &CycleLine) -> Plan
        requires { check series.now line.now ≡ Ok tt }
        ensures value { result ≡ plan_of series.now line.now }
        ensures plan { IsPlan result }
    {
        let levels = series.levels(line);
        let pecks = peck_count(series, line, &levels);
        Plan {
            series: *series,
            line: *line,
            levels,
            pecks,
        }
    }
}
