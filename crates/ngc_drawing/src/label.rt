//! Labels that don't overlap.
ghost use Rattle.std.specs.Prelude.{◌≡◌, ◌≤◌, ◌<◌, ◌+◌, ◌*◌, ◌^◌, ◌+ℤ◌, ◌-ℤ◌, ◌*ℤ◌, pos, unsigned_abs};
ghost use Rattle.std.specs.Prelude.{◌++◌, ◌∷◌, [], length, IfOk, option_map};
ghost use Rattle.std.specs.List.{list_any};
ghost use Rattle.ngc_machine_files.specs.Machine.{file_of};
ghost use Rattle.ngc_drawing.specs.Labels.{anchor, width, place_across, room, overlap, meets, meets_space};
ghost use Rattle.ngc_drawing.specs.Labels.{meets_placed, height, lowered, settle, tries, settled};
ghost use Rattle.ngc_drawing.specs.Labels.{HIDDEN, settled_in, with_mark, origin_label, digits};
ghost use Rattle.ngc_drawing.specs.Labels.{fixture_characters, with_fixtures, mark_labels, labels};
ghost use Rattle.ngc_drawing.specs.Labels.{lines_at, lines_of};
ghost use Rattle.ngc_picture_shapes.specs.Views.{spot};
ghost use Rattle.ngc_drawing.specs.declared.label.Kind.TheVariants as kinds;

use crate::origin::WorkOrigin;
use ngc_machine_files::{Fixture, Machine, Name};
use ngc_picture_shapes::{Rectangle, Spot, Unit, View};
use std::alloc::{AllocError, Allocator};

/// What a label names.
#[derive(Clone, Copy)]
pub(crate) enum Kind {
    Fixture,
    Start,
    Home,
    SecondHome,
    Origin,
}

/// Where a label's text is, seen from its spot, in tenths of units: where it begins, or ends, and how
/// far below the spot its base line is.
#[derive(Clone, Copy)]
pub(crate) struct Anchor {
    pub across: i32,
    pub down: i32,
    pub is_end: bool,
}

/// The rectangle of a label's text, in tenths of micrometres; top and bottom count downwards.
#[derive(Clone, Copy)]
pub(crate) struct Room {
    pub left: i128,
    pub right: i128,
    pub top: i128,
    pub bottom: i128,
}

/// By how many lines a label is moved down, and its rectangle then; none if it isn't drawn.
#[derive(Clone, Copy, Drop)]
pub(crate) struct Placed {
    pub lines: usize,
    pub room: Option<Room>,
}

fn anchor_of(kind: Kind) -> Anchor
    ensures value { result ≡ anchor kind }
    ensures across { unsigned_abs result.across ≤ 100 }
    ensures down { unsigned_abs result.down ≤ 100 }
{
    match kind {
        Kind::Fixture => Anchor {
            across: 5,
            down: -5,
            is_end: false,
        },
        Kind::Start => Anchor {
            across: 10,
            down: -10,
            is_end: false,
        },
        Kind::Home => Anchor {
            across: 10,
            down: 24,
            is_end: false,
        },
        Kind::SecondHome => Anchor {
            across: -10,
            down: 24,
            is_end: true,
        },
        Kind::Origin => Anchor {
            across: -6,
            down: 20,
            is_end: true,
        },
    }
}

/// Returns the length of `count` tenths of a unit.
fn tenths(unit: &Unit, count: i32) -> i128
    ensures value { result ≡ count *ℤ unit.now.micrometres }
    ensures bound { unsigned_abs result < 2 ^ 92 }
{
    i128::from(count) * i128::from(unit.micrometres)
}

fn width(unit: &Unit, characters: u8) -> i128
    ensures value { result ≡ width unit.now.micrometres characters }
    ensures bound { unsigned_abs result < 2 ^ 92 }
{
    tenths(unit, 12 * i32::from(characters))
}

fn tenfold(micrometres: i64) -> i128
    ensures value { result ≡ pos 10 *ℤ micrometres }
    ensures bound { unsigned_abs result < 2 ^ 92 }
{
    10 * i128::from(micrometres)
}

fn place_across(unit: &Unit, anchor: &Anchor, at: &Spot) -> i128
    ensures value { result ≡ place_across unit.now.micrometres anchor.now at.now }
    ensures bound { unsigned_abs result < 2 ^ 93 }
{
    tenfold(at.across) + tenths(unit, anchor.across)
}

/// Returns a height of a label, in tenths of units from its spot.
fn place_down(unit: &Unit, down: i32, at: &Spot) -> i128
    ensures value { result ≡ (down *ℤ unit.now.micrometres) -ℤ (pos 10 *ℤ at.now.up) }
    ensures bound { unsigned_abs result < 2 ^ 93 }
{
    tenths(unit, down) - tenfold(at.up)
}

fn left(unit: &Unit, anchor: &Anchor, at: &Spot, characters: u8) -> i128
    ensures { result ≡ (room unit.now.micrometres anchor.now at.now characters).left }
{
    let across = place_across(unit, anchor, at);
    if anchor.is_end {
        across - width(unit, characters)
    } else {
        across
    }
}

fn right(unit: &Unit, anchor: &Anchor, at: &Spot, characters: u8) -> i128
    ensures { result ≡ (room unit.now.micrometres anchor.now at.now characters).right }
{
    let across = place_across(unit, anchor, at);
    if anchor.is_end {
        across
    } else {
        across + width(unit, characters)
    }
}

fn top(unit: &Unit, anchor: &Anchor, at: &Spot) -> i128
    requires { unsigned_abs anchor.now.down ≤ 100 }
    ensures value { result ≡ ((anchor.now.down -ℤ pos 15) *ℤ unit.now.micrometres)
        -ℤ (pos 10 *ℤ at.now.up) }
    ensures bound { unsigned_abs result < 2 ^ 93 }
{
    place_down(unit, anchor.down - 15, at)
}

fn bottom(unit: &Unit, anchor: &Anchor, at: &Spot) -> i128
    requires { unsigned_abs anchor.now.down ≤ 100 }
    ensures value { result ≡ ((anchor.now.down +ℤ pos 5) *ℤ unit.now.micrometres)
        -ℤ (pos 10 *ℤ at.now.up) }
    ensures bound { unsigned_abs result < 2 ^ 93 }
{
    place_down(unit, anchor.down + 5, at)
}

fn room_at(unit: &Unit, kind: Kind, at: &Spot, characters: u8) -> Room
    ensures value { result ≡ room unit.now.micrometres (anchor kind) at.now characters }
    ensures top { unsigned_abs result.top < 2 ^ 93 }
    ensures bottom { unsigned_abs result.bottom < 2 ^ 93 }
{
    let anchor = anchor_of(kind);
    Room {
        left: left(unit, &anchor, at, characters),
        right: right(unit, &anchor, at, characters),
        top: top(unit, &anchor, at),
        bottom: bottom(unit, &anchor, at),
    }
}

impl Room {
    fn overlaps_across(&self, other: &Room) -> bool
        ensures { result ≡ overlap self.now.left self.now.right other.now.left other.now.right }
    {
        self.left < other.right && other.left < self.right
    }

    fn overlaps_down(&self, other: &Room) -> bool
        ensures { result ≡ overlap self.now.top self.now.bottom other.now.top other.now.bottom }
    {
        self.top < other.bottom && other.top < self.bottom
    }

    fn meets(&self, other: &Room) -> bool
        ensures { result ≡ meets self.now other.now }
    {
        self.overlaps_across(other) && self.overlaps_down(other)
    }

    fn meets_placed(&self, placed: &Placed) -> bool
        ensures { result ≡ meets_placed self.now placed.now }
    {
        match &placed.room {
            None => false,
            Some(room) => self.meets(room),
        }
    }

    fn meets_any(&self, placed: &[Placed]) -> bool
        ensures { result ≡ list_any (meets_placed self.now) placed.now }
    {
        placed.iter().any(|other| self.meets_placed(other))
    }

    fn lowered_top(&self, height: i128) -> i128
        requires height { unsigned_abs height < 2 ^ 92 }
        requires top { unsigned_abs self.now.top < 2 ^ 120 }
        ensures { result ≡ self.now.top +ℤ height }
    {
        self.top + height
    }

    fn lowered_bottom(&self, height: i128) -> i128
        requires height { unsigned_abs height < 2 ^ 92 }
        requires bottom { unsigned_abs self.now.bottom < 2 ^ 120 }
        ensures { result ≡ self.now.bottom +ℤ height }
    {
        self.bottom + height
    }

    fn lowered(&self, height: i128) -> Room
        requires height { unsigned_abs height < 2 ^ 92 }
        requires top { unsigned_abs self.now.top < 2 ^ 120 }
        requires bottom { unsigned_abs self.now.bottom < 2 ^ 120 }
        ensures { result ≡ lowered height self.now }
    {
        Room {
            left: self.left,
            right: self.right,
            top: self.lowered_top(height),
            bottom: self.lowered_bottom(height),
        }
    }
}

// Moves a label down, at most `tries` times, until it overlaps none of those placed before it.
fn settle(placed: &[Placed], height: i128, tries: usize, lines: usize, room: &Room) -> Placed
    requires height { unsigned_abs height < 2 ^ 92 }
    requires few { lines + tries ≤ 2000 }
    requires top { unsigned_abs room.now.top + tries * 2 ^ 92 < 2 ^ 120 }
    requires bottom { unsigned_abs room.now.bottom + tries * 2 ^ 92 < 2 ^ 120 }
    ensures { result ≡ settle placed.now height tries lines room.now }
{
    if tries == 0 || !room.meets_any(placed) {
        return Placed {
            lines,
            room: Some(*room),
        };
    }
    settle(placed, height, tries - 1, lines + 1, &room.lowered(height))
}

fn tries(placed: &[Placed]) -> usize
    ensures value { result ≡ tries placed.now }
    ensures few { result ≤ 2000 }
{
    2 * placed.len().min(1_000)
}

fn settled(unit: &Unit, placed: &[Placed], kind: Kind, at: &Spot, characters: u8) -> Placed
    ensures { result ≡ settled unit.now.micrometres placed.now kind at.now characters }
{
    let room = room_at(unit, kind, at, characters);
    settle(placed, tenths(unit, 20), tries(placed), 0, &room)
}

fn hidden() -> Placed
    ensures { result ≡ HIDDEN }
{
    Placed {
        lines: 0,
        room: None,
    }
}

fn settled_in(
    unit: &Unit,
    area: &Rectangle,
    placed: &[Placed],
    kind: Kind,
    at: &Spot,
    characters: u8,
) -> Placed
    ensures { result ≡ settled_in unit.now.micrometres area.now placed.now kind at.now characters }
{
    if area.has(at) {
        settled(unit, placed, kind, at, characters)
    } else {
        hidden()
    }
}

#[tactic(auto, unfolding(crate::specs::Labels::origin_label))]
fn origin_label(unit: &Unit, view: View, area: &Rectangle, origin: &WorkOrigin) -> Placed
    ensures { result ≡ origin_label unit.now.micrometres view area.now origin.now }
{
    if origin.is_at_zero() {
        return hidden();
    }
    let at = view.sees(&origin.place());
    settled_in(unit, area, &[], Kind::Origin, &at, origin.characters())
}

fn push<A: Allocator>(placed: &mut Vec<Placed, A>, one: Placed) -> Result<(), AllocError>
    ensures { IfOk result (λ _. placed.new.items ≡ placed.old.items ++ one ∷ []) }
{
    match placed.push(one) {
        Ok(()) => Ok(()),
        Err(_) => Err(AllocError),
    }
}

#[tactic(auto, unfolding(crate::specs::Labels::with_mark))]
fn add_mark<A: Allocator>(
    placed: &mut Vec<Placed, A>,
    unit: &Unit,
    area: &Rectangle,
    kind: Kind,
    at: &Spot,
    characters: u8,
) -> Result<(), AllocError>
    ensures { IfOk result (λ _. placed.new.items
        ≡ with_mark unit.now.micrometres area.now kind at.now characters placed.old.items) }
{
    let one = settled_in(unit, area, placed.as_slice(), kind, at, characters);
    push(placed, one)
}

fn digits(number: usize) -> u8
    ensures value { result ≡ digits number }
    ensures few { result ≤ 3 }
{
    if number < 10 {
        1
    } else if number < 100 {
        2
    } else {
        3
    }
}

fn fixture_characters(number: usize, name: &Name) -> u8
    ensures { result ≡ fixture_characters number name.now }
{
    let name = name.as_bytes();
    if name.is_empty() {
        digits(number)
    } else {
        digits(number) + (name.len() as u8 + 1)
    }
}

fn add_fixture<A: Allocator>(
    placed: &mut Vec<Placed, A>,
    unit: &Unit,
    view: View,
    number: usize,
    fixture: &Fixture,
) -> Result<(), AllocError>
    ensures { IfOk result (λ _. placed.new.items ≡ placed.old.items
        ++ settled unit.now.micrometres placed.old.items kinds.Fixture (spot view fixture.now.low)
        (fixture_characters number fixture.now.name) ∷ []) }
{
    let at = view.spot(&fixture.low);
    let characters = fixture_characters(number, &fixture.name);
    let one = settled(unit, placed.as_slice(), Kind::Fixture, &at, characters);
    push(placed, one)
}

fn add_fixtures<A: Allocator>(
    placed: &mut Vec<Placed, A>,
    unit: &Unit,
    view: View,
    fixtures: &[Fixture],
) -> Result<(), AllocError>
    ensures { IfOk result (λ _. placed.new.items
        ≡ with_fixtures unit.now.micrometres view 0 placed.old.items fixtures.now) }
{
    for (i, fixture) in fixtures.iter().enumerate() {
        add_fixture(placed, unit, view, i, fixture)?;
    }
    Ok(())
}

fn mark_labels<A: Allocator, B: Allocator>(
    alloc: A,
    unit: &Unit,
    view: View,
    area: &Rectangle,
    machine: &Machine<B>,
    origin: &WorkOrigin,
) -> Result<Vec<Placed, A>, AllocError>
    ensures { IfOk result (λ v. v.items
        ≡ mark_labels unit.now.micrometres view area.now (file_of machine.now) origin.now) }
{
    let mut placed = Vec::new(alloc);
    push(&mut placed, origin_label(unit, view, area, origin))?;
    let start = view.spot(&machine.start);
    add_mark(&mut placed, unit, area, Kind::Start, &start, 5)?;
    let home = view.spot(&machine.home28);
    add_mark(&mut placed, unit, area, Kind::Home, &home, 3)?;
    let second = view.spot(&machine.home30);
    add_mark(&mut placed, unit, area, Kind::SecondHome, &second, 3)?;
    Ok(placed)
}

/// Returns the labels of a picture in the order in which they are placed: work origin, start, G28,
/// G30 and the fixtures. It fails where memory is refused.
pub(crate) fn labels<A: Allocator, B: Allocator>(
    alloc: A,
    unit: &Unit,
    view: View,
    area: &Rectangle,
    machine: &Machine<B>,
    origin: &WorkOrigin,
) -> Result<Vec<Placed, A>, AllocError>
    ensures { IfOk result (λ v. v.items
        ≡ labels unit.now.micrometres view area.now (file_of machine.now) origin.now) }
{
    let mut placed = mark_labels(alloc, unit, view, area, machine, origin)?;
    add_fixtures(&mut placed, unit, view, machine.fixtures.as_slice())?;
    Ok(placed)
}

/// Returns by how many lines a label is moved down.
pub(crate) fn lines_at(placed: &[Placed], index: usize) -> usize
    ensures { result ≡ lines_at placed.now index }
{
    match placed.get(index) {
        None => 0,
        Some(one) => one.lines,
    }
}
