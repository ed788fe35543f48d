ghost use Rattle.std.specs.Prelude.{◌≡◌, ◌≤ℤ◌, IfSome, MatchResult, Ok, Err, pos, unwrap_or};
ghost use Rattle.std.specs.Int.{int_max};
ghost use Rattle.ngc_machine_files.specs.Machine.{file_of};
ghost use Rattle.ngc_machine_files.specs.Ranges.{AreMargins, IsFrom, MARGIN_LIMIT};
ghost use Rattle.ngc_margins.specs.Demands.{no_demands};
ghost use Rattle.ngc_margins.specs.Margins.{demanded};

use crate::growth::{all_fit, grow, is_between, lowered, raised};
use ngc_fixed_length::Nm;
use ngc_machine_files::{FileFault, Machine, Margins, Rapids};
use std::alloc::Allocator;
use std::marker::Model;

/// The margins and the way of traverses that replace those of a machine file, each of them or none.
/// A margin is 0 to 100,000,000 nm.
#[derive(Clone, Copy)]
pub struct Demands {
    margin: Option<Nm>,
    travel_margin: Option<Nm>,
    rapids: Option<Rapids>,
}

impl Model for Demands {
    ghost use Rattle.ngc_margins.specs.Demands.{AreDemands, Demand};

    ghost Value = { Demand };

    ghost view = { λ d. record { margin = d.margin; travel_margin = d.travel_margin; rapids = d.rapids } };

    ghost invariant = { λ d. AreDemands (record { margin = d.margin; travel_margin = d.travel_margin; rapids = d.rapids }) };

    ghost inverse = { λ d. record { margin = d.margin; travel_margin = d.travel_margin; rapids = d.rapids } };
}

fn margin_or(demanded: Option<Nm>, own: Nm) -> Nm
    ensures { result ≡ unwrap_or demanded own }
{
    match demanded {
        Some(margin) => margin,
        None => own,
    }
}

fn greater(a: Nm, b: Nm) -> Nm
    requires a { IsFrom (pos 0) MARGIN_LIMIT a }
    requires b { IsFrom (pos 0) MARGIN_LIMIT b }
    ensures value { result ≡ int_max a b }
    ensures range { IsFrom (pos 0) MARGIN_LIMIT result }
{
    if b < a { a } else { b }
}

fn rapids_or(demanded: Option<Rapids>, own: Rapids) -> Rapids
    ensures { result ≡ unwrap_or demanded own }
{
    match demanded {
        Some(rapids) => rapids,
        None => own,
    }
}

impl Demands {
    /// Returns no demands: the keys of the machine file stay.
    pub fn none() -> Demands
        ensures { result ≡ no_demands }
    {
        Demands {
            margin: None,
            travel_margin: None,
            rapids: None,
        }
    }

    // Returns these demands.
    pub(crate) fn of(
        margin: Option<Nm>,
        travel_margin: Option<Nm>,
        rapids: Option<Rapids>,
    ) -> Demands
        requires margin { IfSome margin (IsFrom (pos 0) MARGIN_LIMIT) }
        requires travel { IfSome travel_margin (IsFrom (pos 0) MARGIN_LIMIT) }
        ensures { result ≡ record { margin = margin; travel_margin = travel_margin; rapids = rapids } }
    {
        Demands {
            margin,
            travel_margin,
            rapids,
        }
    }

    // Returns these margins, or those of a machine. That to fixtures is at least the slack of the
    // machine's motors.
    fn margins(&self, slack: Nm, own: &Margins) -> Margins
        requires least { pos 0 ≤ℤ slack }
        requires most { slack ≤ℤ pos 500000 }
        requires own { AreMargins own.now }
        ensures value { result ≡ record {
          fixtures = int_max slack (unwrap_or self.now.margin own.now.fixtures);
          travel = unwrap_or self.now.travel_margin own.now.travel;
        } }
        ensures range { AreMargins result }
    {
        Margins {
            fixtures: greater(slack, margin_or(self.margin, own.fixtures)),
            travel: margin_or(self.travel_margin, own.travel),
        }
    }

    /// Returns the machine with these values in place of its own, and with its margins kept: each
    /// fixture is larger by the margin on all six sides, and the travel limits are nearer by the
    /// travel margin. The margin to fixtures is at least how far a motor may stand from the path.
    ///
    /// Returns 265 if the start is outside the limits then, and otherwise 267 if a corner of a
    /// fixture is over 4*10^9 nm in size.
    pub fn meet<A: Allocator>(&self, machine: Machine<A>) -> Result<Machine<A>, FileFault>
        ensures { MatchResult result
            (λ met. demanded self.now (file_of machine) ≡ Ok (file_of met))
            (λ fault. demanded self.now (file_of machine) ≡ Err fault) }
    {
        let margins = self.margins(machine.motors().slack(), &machine.margins);
        let low = raised(margins.travel, &machine.low);
        let high = lowered(margins.travel, &machine.high);
        if !is_between(&low, &machine.start, &high) {
            return Err(FileFault::Travel);
        }
        if !all_fit(margins.fixtures, machine.fixtures.as_slice()) {
            return Err(FileFault::Fixtures);
        }
        let rapids = rapids_or(self.rapids, machine.rapids);
        let mut machine = machine;
        grow(margins.fixtures, &mut machine.fixtures);
        machine.low = low;
        machine.high = high;
        machine.margins = margins;
        machine.rapids = rapids;
        Ok(machine)
    }
}
