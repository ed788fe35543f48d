//! The distances between the bodies of tools and fixtures.
ghost use Rattle.std.specs.Prelude.{◌≡◌, ◌<◌, ◌≤◌, ◌^◌, unsigned_abs, length, fold, flat_map, take};
ghost use Rattle.std.specs.Prelude.{drop};
ghost use Rattle.ngc_certificate_text.specs.Certificate.{entry_at};
ghost use Rattle.ngc_collision.specs.Inside.{solid_of};
ghost use Rattle.ngc_machine_files.specs.Machine.{file_of};
ghost use Rattle.ngc_findings.specs.Nearing.{is_nearer, nearer, distances, around, over_motion};
ghost use Rattle.ngc_findings.specs.Nearing.{fixture_name, nearest_name};

use crate::gaps::gap;
use ngc_certificate_text::MotionList;
use ngc_collision::Solid;
use ngc_fixed_length::GridBox;
use ngc_machine_files::{Machine, Name, Tool};
use std::alloc::Allocator;

/// The nearest fixture, by its number from 0, and its distance in nanometres. The distance is below
/// zero if the two overlap.
#[derive(Clone, Copy)]
pub struct Nearest {
    pub fixture: u32,
    pub distance: i128,
}

fn is_nearer(fixture: u32, distance: i128, other: &Nearest) -> bool
    requires { unsigned_abs distance < 2 ^ 70 }
    ensures { result ≡ is_nearer (record { fixture = fixture; distance = distance }) other.now }
{
    distance < other.distance || distance == other.distance && fixture < other.fixture
}

fn nearer(best: Option<Nearest>, fixture: u32, distance: i128) -> Option<Nearest>
    requires { unsigned_abs distance < 2 ^ 70 }
    ensures { result ≡ nearer best (record { fixture = fixture; distance = distance }) }
{
    match best {
        Some(other) if !is_nearer(fixture, distance, &other) => Some(other),
        _ => Some(Nearest { fixture, distance }),
    }
}

/// Returns the nearest of the nearest so far and every fixture.
fn nearest_to<A: Allocator>(
    machine: &Machine<A>,
    solid: &Solid,
    best: Option<Nearest>,
) -> Option<Nearest>
    ensures { result ≡ fold nearer best
        (distances 0 (file_of machine.now).fixtures (solid_of solid.now)) }
{
    let mut nearest = best;
    for (i, fixture) in machine.fixtures.iter().enumerate() {
        nearest = nearer(nearest, i as u32, gap(fixture, solid));
    }
    nearest
}

fn nearest_around<A: Allocator>(
    machine: &Machine<A>,
    tool: Option<Tool>,
    bounds: &GridBox,
    best: Option<Nearest>,
) -> Option<Nearest>
    ensures { result ≡ fold nearer best (around (file_of machine.now) tool bounds.now) }
{
    let parts = Solid::swept(machine.step, tool, bounds);
    let mut nearest = best;
    for solid in parts.as_slice() {
        nearest = nearest_to(machine, solid, nearest);
    }
    nearest
}

/// Returns the nearest of the nearest so far and every fixture, over the pieces of motion `i`.
fn nearest_over<A: Allocator, M: MotionList>(
    machine: &Machine<A>,
    tool: &Option<Tool>,
    motions: &M,
    i: usize,
    best: Option<Nearest>,
) -> Option<Nearest>
    requires { i < length (M.entries motions.now) }
    ensures { result ≡ fold nearer best (over_motion (file_of machine.now) tool.now
        (entry_at (M.entries motions.now) i)) }
{
    let mut nearest = best;
    for k in 0..motions.piece_count(i) {
        nearest = nearest_around(machine, *tool, &motions.piece(i, k).bounds, nearest);
    }
    nearest
}

fn fixture_name<A: Allocator>(machine: &Machine<A>, number: u32) -> Name
    ensures { result ≡ fixture_name (file_of machine.now) number }
{
    match machine.fixtures.get(number as usize) {
        Some(fixture) => fixture.name,
        None => Name::none(),
    }
}

/// Returns the name of the nearest fixture, empty if there is none.
pub fn nearest_name<A: Allocator>(machine: &Machine<A>, nearest: &Option<Nearest>) -> Name
    ensures { result ≡ nearest_name (file_of machine.now) nearest.now }
{
    match nearest {
        Some(nearest) => fixture_name(machine, nearest.fixture),
        None => Name::none(),
    }
}

impl Nearest {
    ghost use Rattle.ngc_findings.specs.Nearing.{nearest};

    /// Returns the nearest fixture over all pieces of the motions from `first` to before `end`,
    /// which are made with this tool. Of fixtures at the same distance it is the one with the
    /// lowest number. It is `None` without fixtures or without motions.
    ///
    /// `end` is at most the number of motions.
    pub fn over<A: Allocator, M: MotionList>(
        machine: &Machine<A>,
        tool: &Option<Tool>,
        motions: &M,
        first: usize,
        end: usize,
    ) -> Option<Nearest>
        requires { end ≤ length (M.entries motions.now) }
        ensures { result ≡ nearest (file_of machine.now) tool.now
            (drop first (take end (M.entries motions.now))) }
    {
        let mut nearest = None;
        for i in first..end {
            nearest = nearest_over(machine, tool, motions, i, nearest);
        }
        nearest
    }
}
