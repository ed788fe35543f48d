//! The key that a word means.
ghost use Rattle.std.specs.Prelude.{◌≡◌, find};
ghost use Rattle.std.specs.List.{count_by};
ghost use Rattle.ngc_machine_figures.specs.Near as spec;

use crate::key::Key;
use ngc_quantities::is_nearly;

#[tactic(auto, unfolding(crate::specs::Near::is_called))]
fn is_called(word: &[u8], key: Key) -> bool
    ensures { result ≡ spec.is_called word.now key }
{
    word.eq_ignore_ascii_case(key.name().as_bytes())
        || word.eq_ignore_ascii_case(key.other_name().as_bytes())
}

fn is_near(word: &[u8], key: Key) -> bool
    ensures { result ≡ spec.is_near word.now key }
{
    is_nearly(word, key.name().as_bytes())
}

fn called(word: &[u8], keys: &[Key]) -> Option<Key>
    ensures { result ≡ find (spec.is_called word.now) keys.now }
{
    keys.iter().copied().find(|key| is_called(word, *key))
}

fn near_count(word: &[u8], keys: &[Key]) -> usize
    ensures { result ≡ count_by (spec.is_near word.now) keys.now }
{
    keys.iter().filter(|key| is_near(word, **key)).count()
}

fn find_near(word: &[u8], keys: &[Key]) -> Option<Key>
    ensures { result ≡ find (spec.is_near word.now) keys.now }
{
    keys.iter().copied().find(|key| is_near(word, *key))
}

fn nearest(word: &[u8], keys: &[Key]) -> Option<Key>
    ensures { result ≡ spec.nearest word.now keys.now }
{
    if near_count(word, keys) == 1 {
        find_near(word, keys)
    } else {
        None
    }
}

/// Returns the key that a word means: it is a name of the key but for capitals, or the key's own name also
/// but for one letter more, less or other, or two letters in each other's place.
#[tactic(auto, unfolding(crate::specs::Near::meant))]
pub(crate) fn meant(word: &str, keys: &[Key]) -> Option<Key>
    ensures { result ≡ spec.meant word.now keys.now }
{
    let word = word.as_bytes();
    match called(word, keys) {
        Some(key) => Some(key),
        None => nearest(word, keys),
    }
}
