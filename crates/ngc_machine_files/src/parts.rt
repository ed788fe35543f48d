ghost use Rattle.std.specs.Prelude.{◌≡◌, ◌≤◌, ◌<◌, ◌∷◌, [], ◌++◌, length};

use crate::part_length::PartLength;
use std::marker::Model;

/// A part of a tool: a box of this length along Z, whose sides along X and Y are twice the radius.
/// Lengths are in nanometres.
#[derive(Clone, Copy, PartialEq, Eq)]
pub struct Part {
    pub length: PartLength,
    pub radius: PartLength,
}

/// One to four parts, the lowest first. Each part begins where the one below it ends.
#[derive(Clone, Copy, PartialEq, Eq)]
pub struct Parts {
    /// The places that aren't used hold zeros, so that equal parts have equal places.
    places: [Part; 4],
    count: usize,
}

impl Model for Parts {
    ghost use Rattle.std.specs.Prelude.{List};
    ghost use Rattle.ngc_machine_files.specs.declared.parts.Part.{Part};

    ghost Value = { List Part };

    ghost use Rattle.ngc_machine_files.specs.Parts.{used, AreKept, kept, kept-used};

    ghost view = { used };

    ghost invariant = { AreKept };

    ghost inverse = { kept };

    ghost inverse_ok = { kept-used };
}

impl Part {
    ghost use Rattle.ngc_machine_files.specs.Parts.{unused};

    // Returns the value of a place that isn't used.
    fn unused() -> Part
        ensures { result ≡ unused }
    {
        Part {
            length: PartLength::new(0),
            radius: PartLength::new(0),
        }
    }
}

impl Parts {
    ghost use Rattle.ngc_machine_files.specs.Parts.{one_to_four};

    /// Returns a list of one part.
    pub fn one(part: Part) -> Parts
        ensures { result ≡ part ∷ [] }
    {
        let mut places = [Part::unused(); 4];
        places[0] = part;
        Parts { places, count: 1 }
    }

    /// Returns these parts, or `None` if they aren't one to four.
    pub fn of(parts: &[Part]) -> Option<Parts>
        ensures { result ≡ one_to_four parts.now }
    {
        if parts.is_empty() || parts.len() > 4 {
            return None;
        }
        let mut made = Parts::one(parts[0]);
        for part in &parts[1..] {
            made.push(*part);
        }
        Some(made)
    }

    /// Adds a part on top.
    pub(crate) fn push(&mut self, part: Part)
        requires { length self.old < 4 }
        ensures { self.new ≡ self.old ++ part ∷ [] }
    {
        self.places[self.count] = part;
        self.count += 1;
    }

    /// Returns the parts, the lowest first.
    pub fn as_slice(&self) -> &[Part]
        ensures parts { result.now ≡ self.now }
        ensures least { 1 ≤ length self.now }
        ensures greatest { length self.now ≤ 4 }
    {
        &self.places[..self.count]
    }
}
