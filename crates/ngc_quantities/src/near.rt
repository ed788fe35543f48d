//! The unit that a word means.
ghost use Rattle.std.specs.Prelude.{◌≡◌, ◌≤◌, find, length};
ghost use Rattle.std.specs.List.{count_by};
ghost use Rattle.ngc_quantities.specs.Near as spec;

use crate::text::without_first;
use crate::unit::{Unit, known};

#[tactic(auto, unfolding(crate::specs::Near::is_same_letter))]
fn is_same_letter(a: u8, b: u8) -> bool
    ensures { result ≡ spec.is_same_letter a b }
{
    a.eq_ignore_ascii_case(&b)
}

#[tactic(auto, unfolding(crate::specs::Near::is_same))]
fn is_same(a: &[u8], b: &[u8]) -> bool
    ensures { result ≡ spec.is_same a.now b.now }
{
    a.eq_ignore_ascii_case(b)
}

fn shared_length(word: &[u8], name: &[u8]) -> usize
    ensures value { result ≡ spec.shared_length word.now name.now }
    ensures word { result ≤ length word.now }
    ensures name { result ≤ length name.now }
{
    let mut shared = 0;
    while shared < word.len() && shared < name.len() {
        if !is_same_letter(word[shared], name[shared]) {
            return shared;
        }
        shared += 1;
    }
    shared
}

fn is_swapped(word: &[u8], name: &[u8]) -> bool
    ensures { result ≡ spec.is_swapped word.now name.now }
{
    match (word, name) {
        ([a, b, rest @ ..], [c, d, others @ ..]) => {
            is_same_letter(*a, *d) && is_same_letter(*b, *c) && is_same(rest, others)
        }
        _ => false,
    }
}

fn is_one_off(word: &[u8], name: &[u8]) -> bool
    ensures { result ≡ spec.is_one_off word.now name.now }
{
    let (shorter, other) = (without_first(word), without_first(name));
    is_same(shorter, other)
        || is_same(shorter, name)
        || is_same(word, other)
        || is_swapped(word, name)
}

/// Returns whether a word is a name but for capitals and one letter more, less or other, or two letters in
/// each other's place.
#[tactic(auto, unfolding(crate::specs::Near::is_nearly))]
pub fn is_nearly(word: &[u8], name: &[u8]) -> bool
    ensures { result ≡ spec.is_nearly word.now name.now }
{
    let shared = shared_length(word, name);
    is_one_off(&word[shared..], &name[shared..])
}

fn is_near(word: &[u8], unit: Unit) -> bool
    ensures { result ≡ spec.is_near word.now unit }
{
    is_nearly(word, unit.name())
}

fn near_count(word: &[u8], units: &[Unit]) -> usize
    ensures { result ≡ count_by (spec.is_near word.now) units.now }
{
    units.iter().filter(|unit| is_near(word, **unit)).count()
}

fn find_near(word: &[u8], units: &[Unit]) -> Option<Unit>
    ensures { result ≡ find (spec.is_near word.now) units.now }
{
    units.iter().copied().find(|unit| is_near(word, *unit))
}

fn nearest(word: &[u8], units: &[Unit]) -> Option<Unit>
    ensures { result ≡ spec.nearest word.now units.now }
{
    if near_count(word, units) == 1 {
        find_near(word, units)
    } else {
        None
    }
}

/// Returns the unit of a table that a word means: it is another name of it, or it is its name but for
/// capitals and one letter more, less or other, or two letters in each other's place.
pub(crate) fn meant(word: &[u8], units: &[Unit]) -> Option<Unit>
    ensures { result ≡ spec.meant word.now units.now }
{
    match known(word, units) {
        Some(unit) => Some(unit),
        None => nearest(word, units),
    }
}
