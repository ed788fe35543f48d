ghost use Rattle.std.specs.Prelude.{◌≡◌, ◌<◌, ◌+ℤ◌, ◌-ℤ◌, ◌*ℤ◌, ◌<ℤ◌, pos, slice_get, IfSome};
ghost use Rattle.ngc_fixed_length.specs.Limits.{IsLength};
ghost use Rattle.ngc_fixed_length.specs.Places.{in_plane, at_height};
ghost use Rattle.ngc_canned_cycles.specs.Holes.{traverse_to, feed_to, peck_depth as depth_of};
ghost use Rattle.ngc_dialect_cycles.specs.Levels.{retract_of, site_of};
ghost use Rattle.ngc_dialect_cycles.specs.Holes.{peck_moves, ending as ending_moves};
ghost use Rattle.ngc_dialect_cycles.specs.Moves.{rises, stays, arrival_height, arrival as arrival_moves};
ghost use Rattle.ngc_dialect_cycles.specs.Walk.{IsPlan};

use crate::heights::sum;
use crate::line::{HoleKind, Pecks};
use crate::moves::nth;
use crate::plan::Plan;
use ngc_canned_cycles::heights::{is_below, length, times};
use ngc_canned_cycles::{CycleMove, Site};
use ngc_fixed_length::{Nm, Point2};

fn traverse(site: &Site, height: Nm) -> CycleMove
    ensures { result ≡ traverse_to site.now height }
{
    CycleMove::Traverse(site.place.at_height(site.plane, height))
}

fn feed(site: &Site, height: Nm) -> CycleMove
    ensures { result ≡ feed_to site.now height }
{
    CycleMove::Feed(site.place.at_height(site.plane, height))
}

// Returns the height of `index` pecks below R, in nanometres.
fn pecks_below(site: &Site, peck: Nm, index: u64) -> i128
    requires { pos 0 <ℤ peck }
    ensures value { result ≡ site.now.retract -ℤ (pos index *ℤ peck) }
    ensures length { IsLength site.now.retract }
{
    i128::from(site.retract.nanometres()) - times(index, peck)
}

// Returns the height that a peck reaches, at most down to the bottom; pecks count from 1.
fn peck_depth(site: &Site, peck: Nm, index: u64) -> Nm
    requires { pos 0 <ℤ peck }
    ensures { result ≡ depth_of site.now peck index }
{
    let reached = pecks_below(site, peck, index);
    if i128::from(site.bottom.nanometres()) < reached {
        length(reached)
    } else {
        site.bottom
    }
}

// Returns the height above a peck to which the tool goes back.
fn back_height(site: &Site, pecks: &Pecks, index: u64) -> Nm
    requires length { IsLength (depth_of site.now pecks.now.depth index +ℤ pecks.now.back) }
    requires peck { pos 0 <ℤ pecks.now.depth }
    ensures { result ≡ depth_of site.now pecks.now.depth index +ℤ pecks.now.back }
{
    length(sum(peck_depth(site, pecks.depth, index), pecks.back))
}

// Returns a move of a peck of G83, or `None` after the last.
fn peck_out(site: &Site, pecks: &Pecks, peck: u64, index: usize) -> Option<CycleMove>
    requires length { IsLength (depth_of site.now pecks.now.depth peck +ℤ pecks.now.back) }
    requires peck { pos 0 <ℤ pecks.now.depth }
    ensures value { result ≡ slice_get (peck_moves (HoleKind.Peck pecks.now) site.now peck) index }
    ensures few { IfSome result (λ _. index < 5) }
{
    let moves = [
        feed(site, peck_depth(site, pecks.depth, peck)),
        traverse(site, site.retract),
        traverse(site, back_height(site, pecks, peck)),
    ];
    nth(&moves, index)
}

// Returns a move of a peck of G73, or `None` after the last.
fn peck_back(site: &Site, pecks: &Pecks, peck: u64, index: usize) -> Option<CycleMove>
    requires length { IsLength (depth_of site.now pecks.now.depth peck +ℤ pecks.now.back) }
    requires peck { pos 0 <ℤ pecks.now.depth }
    ensures value { result ≡ slice_get (peck_moves (HoleKind.BreakChips pecks.now) site.now peck)
        index }
    ensures few { IfSome result (λ _. index < 5) }
{
    let moves = [
        feed(site, peck_depth(site, pecks.depth, peck)),
        traverse(site, back_height(site, pecks, peck)),
    ];
    nth(&moves, index)
}

impl HoleKind {
    // Returns a move of the feed to the bottom and the way up, or `None` after the last.
    fn ending(&self, site: &Site, index: usize) -> Option<CycleMove>
        ensures value { result ≡ slice_get (ending_moves self.now site.now) index }
        ensures few { IfSome result (λ _. index < 5) }
    {
        let cut = feed(site, site.bottom);
        let up = traverse(site, site.clear);
        match self {
            HoleKind::DrillWithDwell(dwell) => {
                let moves = [cut, CycleMove::Dwell(*dwell), up];
                nth(&moves, index)
            }
            HoleKind::Bore => {
                let moves = [cut, feed(site, site.retract), up];
                nth(&moves, index)
            }
            HoleKind::BoreWithStop(dwell) => {
                let moves = [
                    cut,
                    CycleMove::Dwell(*dwell),
                    CycleMove::StopSpindle,
                    up,
                    CycleMove::StartSpindle,
                ];
                nth(&moves, index)
            }
            HoleKind::BoreWithDwell(dwell) => {
                let moves = [cut, CycleMove::Dwell(*dwell), feed(site, site.clear)];
                nth(&moves, index)
            }
            HoleKind::Drill | HoleKind::Peck(_) | HoleKind::BreakChips(_) => {
                let moves = [cut, up];
                nth(&moves, index)
            }
        }
    }
}

impl Plan {
    // Returns the site of a hole; holes count from 0.
    fn site(&self, hole: u32) -> Site
        requires plan { IsPlan self.now }
        requires hole { hole < self.now.line.repeats }
        ensures { result ≡ site_of self.now.series self.now.line hole }
    {
        let (u, v) = self.line.hole_coordinates(hole);
        Site {
            plane: self.line.plane,
            place: Point2 {
                u: length(u),
                v: length(v),
            },
            retract: self.levels.retract,
            bottom: self.levels.bottom,
            clear: self.levels.clear,
        }
    }

    fn rises(&self) -> bool
        requires { IsPlan self.now }
        ensures { result ≡ rises self.now.series self.now.line }
    {
        is_below(self.series.level, self.levels.retract)
    }

    // Returns the move to R where the tool is.
    fn rise(&self) -> CycleMove
        requires { IsPlan self.now }
        ensures { result ≡ CycleMove.Traverse (at_height self.now.line.plane
            (in_plane self.now.line.plane self.now.line.place)
            (retract_of self.now.series self.now.line)) }
    {
        let plane = self.line.plane;
        let place = self.line.place.in_plane(plane);
        CycleMove::Traverse(place.at_height(plane, self.levels.retract))
    }

    // Returns whether the tool stands above R, and doesn't go to R first.
    fn stays(&self) -> bool
        requires { IsPlan self.now }
        ensures { result ≡ stays self.now.series self.now.line }
    {
        !self.rises() && is_below(self.levels.retract, self.line.place.height(self.line.plane))
    }

    // Returns the height at which the tool goes to a hole.
    fn arrival_height(&self, hole: u32) -> Nm
        requires { IsPlan self.now }
        ensures { result ≡ arrival_height self.now.series self.now.line hole }
    {
        if hole == 0 && self.stays() {
            self.line.place.height(self.line.plane)
        } else {
            self.levels.clear
        }
    }

    /// Returns a move of the way to a hole, or `None` after the last.
    pub(crate) fn arrival(&self, hole: u32, index: usize) -> Option<CycleMove>
        requires plan { IsPlan self.now }
        requires hole { hole < self.now.line.repeats }
        ensures value { result ≡ slice_get (arrival_moves self.now.series self.now.line hole) index }
        ensures few { IfSome result (λ _. index < 5) }
    {
        let site = self.site(hole);
        let over = traverse(&site, self.arrival_height(hole));
        let down = traverse(&site, site.retract);
        if hole == 0 && self.rises() {
            let moves = [self.rise(), over, down];
            nth(&moves, index)
        } else {
            let moves = [over, down];
            nth(&moves, index)
        }
    }

    /// Returns a move of a peck that ends above the bottom, or `None` after the last; pecks count
    /// from 1.
    pub(crate) fn peck(&self, hole: u32, peck: u64, index: usize) -> Option<CycleMove>
        requires plan { IsPlan self.now }
        requires hole { hole < self.now.line.repeats }
        ensures value { result ≡ slice_get (peck_moves self.now.series.kind
            (site_of self.now.series self.now.line hole) peck) index }
        ensures few { IfSome result (λ _. index < 5) }
    {
        let site = self.site(hole);
        match &self.series.kind {
            HoleKind::Peck(pecks) => peck_out(&site, pecks, peck, index),
            HoleKind::BreakChips(pecks) => peck_back(&site, pecks, peck, index),
            _ => None,
        }
    }

    /// Returns a move of the feed to the bottom and the way up, or `None` after the last.
    pub(crate) fn ending(&self, hole: u32, index: usize) -> Option<CycleMove>
        requires plan { IsPlan self.now }
        requires hole { hole < self.now.line.repeats }
        ensures value { result ≡ slice_get (ending_moves self.now.series.kind
            (site_of self.now.series self.now.line hole)) index }
        ensures few { IfSome result (λ _. index < 5) }
    {
        self.series.kind.ending(&self.site(hole), index)
    }
}
