//! Which chords follow an arc.
ghost use Rattle.std.specs.Prelude.{◌≡◌, ◌≤◌, ◌*◌, ◌&&◌, IfSome};
ghost use Rattle.ngc_material.specs.Chords.{IsSector, leads, is_in, is_within, is_beyond, is_chord};

use crate::spoke::Spoke;
use ngc_arc_geometry::Arc;
use ngc_fixed_length::{Plane, Turn};

/// The sector of an arc in the plane of X and Y: from one spoke to another in a direction of turning.
#[derive(Clone, Copy)]
pub(crate) struct Sector {
    pub(crate) turn: Turn,
    pub(crate) start: Spoke,
    pub(crate) end: Spoke,
    pub(crate) is_full: bool,
}

/// Distances from an arc's centre, in nanometres.
#[derive(Clone, Copy)]
pub(crate) struct Band {
    pub(crate) least: u64,
    pub(crate) most: u64,
}

/// Returns the square of an area, or of a distance.
fn squared(x: u128) -> u128
    requires { x ≤ 11520000000000000000 }
    ensures { result ≡ x * x }
{
    x * x
}

/// Returns the product of two squares.
fn product(x: u128, y: u128) -> u128
    requires x { x ≤ 5760000000000000000 }
    requires y { y ≤ 46080000000000000000 }
    ensures { result ≡ x * y }
{
    x * y
}

impl Sector {
    /// Returns an arc's sector, or `None` if the arc is in another plane.
    pub(crate) fn of(arc: &Arc) -> Option<Sector>
        ensures { IfSome result (IsSector arc.now) }
    {
        match arc.plane() {
            Plane::XY => Sector::in_plane(arc),
            _ => None,
        }
    }

    fn in_plane(arc: &Arc) -> Option<Sector>
        requires { arc.now.plane ≡ Plane.XY }
        ensures { IfSome result (IsSector arc.now) }
    {
        let centre = arc.centre();
        let start = Spoke::to(&centre, &arc.start().in_plane(arc.plane()))?;
        let end = Spoke::to(&centre, &arc.end().in_plane(arc.plane()))?;
        Some(Sector {
            turn: arc.turn(),
            start,
            end,
            is_full: arc.is_full_circle(),
        })
    }

    /// Returns whether two spokes are both at most half a turn after the sector's start.
    fn is_after(&self, first: &Spoke, last: &Spoke) -> bool
        ensures { result ≡ (leads self.now.turn self.now.start first.now && leads self.now.turn self.now.start last.now) }
    {
        self.start.leads_to(self.turn, first) && self.start.leads_to(self.turn, last)
    }

    /// Returns whether two spokes are both at most half a turn before the sector's end.
    fn is_before(&self, first: &Spoke, last: &Spoke) -> bool
        ensures { result ≡ (leads self.now.turn first.now self.now.end && leads self.now.turn last.now self.now.end) }
    {
        first.leads_to(self.turn, &self.end) && last.leads_to(self.turn, &self.end)
    }

    /// Returns whether the line between the ends of two spokes is in the sector. Beyond half a turn the
    /// sector is two half planes together, and then the line must be in one of them.
    fn holds(&self, first: &Spoke, last: &Spoke) -> bool
        ensures { result ≡ is_in self.now first.now last.now }
    {
        if self.is_full {
            true
        } else if self.start.leads_to(self.turn, &self.end) {
            self.is_after(first, last) && self.is_before(first, last)
        } else {
            self.is_after(first, last) || self.is_before(first, last)
        }
    }
}

impl Band {
    /// Returns whether the line between the ends of two spokes is within the greater distance.
    fn is_within(&self, first: &Spoke, last: &Spoke) -> bool
        requires { self.now.most ≤ 2400000000 }
        ensures { result ≡ is_within self.now.most first.now last.now }
    {
        let most = i128::from(self.most);
        first.dot(first) <= most * most && last.dot(last) <= most * most
    }

    /// Returns whether the line through the ends of two spokes is beyond the lesser distance.
    fn is_beyond(&self, first: &Spoke, last: &Spoke) -> bool
        requires { self.now.least ≤ 2400000000 }
        ensures { result ≡ is_beyond self.now.least first.now last.now }
    {
        let least = squared(u128::from(self.least));
        let area = first.cross(last).unsigned_abs();
        let length = first.squared_distance(last).unsigned_abs();
        0 < length && product(least, length) <= squared(area)
    }

    /// Returns whether the line between the ends of two spokes is in a sector and between the distances.
    pub(crate) fn has(&self, sector: &Sector, first: &Spoke, last: &Spoke) -> bool
        requires least { self.now.least ≤ 2400000000 }
        requires most { self.now.most ≤ 2400000000 }
        ensures { result ≡ is_chord sector.now self.now first.now last.now }
    {
        self.is_within(first, last) && (self.is_beyond(first, last) && sector.holds(first, last))
    }
}
