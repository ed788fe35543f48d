ghost use Rattle.std.specs.Prelude.{◌≡◌, ◌<◌, ◌≤◌, length, drop, map, IfSome, MatchResult};
ghost use Rattle.std.specs.Prelude.{Ok, Err};
ghost use Rattle.std.specs.List.{prefix_len};
ghost use Rattle.ngc_origins.specs.Texts as spec;

use crate::coordinate::place_in;
use crate::origins::Origins;
use ngc_fixed_length::Point3;

/// The reason why a text isn't an origin.
#[derive(Clone, Copy, Debug, PartialEq, Eq)]
pub enum OriginMistake {
    /// No coordinate system has the code.
    NoSystem,
    /// The place isn't three lengths from -1000 to 1000 mm: numbers with at most six decimals, or
    /// with a unit.
    NoPlace,
    /// An earlier text has an origin of the same system.
    Twice,
}

/// A text that isn't an origin, and the reason.
#[derive(Clone, Copy)]
pub struct Refused<'a> {
    pub text: &'a str,
    pub mistake: OriginMistake,
}

fn is_no_equals(byte: u8) -> bool
    ensures { result ≡ spec.is_no_equals byte }
{
    byte != b'='
}

#[tactic(auto, using(ngc_machine_maker::proofs::Digits::counted))]
fn count_to_equals(text: &[u8]) -> usize
    ensures count { result ≡ prefix_len spec.is_no_equals text.now }
    ensures within { result ≤ length text.now }
{
    text.iter().take_while(|b| is_no_equals(**b)).count()
}

fn without_first(text: &[u8]) -> &[u8]
    ensures { result.now ≡ drop 1 text.now }
{
    match text {
        [_, rest @ ..] => rest,
        [] => text,
    }
}

// Returns the texts before and after the first equals sign.
fn split_equals(text: &[u8]) -> (&[u8], &[u8])
    ensures before { result.0.now ≡ spec.before_equals text.now }
    ensures after { result.1.now ≡ spec.after_equals text.now }
{
    let (before, rest) = text.split_at(count_to_equals(text));
    (before, without_first(rest))
}

// Returns a code without the G that it may begin with.
fn number_of(code: &[u8]) -> &[u8]
    ensures { result.now ≡ spec.number_of code.now }
{
    match code {
        [b'G' | b'g', number @ ..] => number,
        _ => code,
    }
}

fn numbered(code: &[u8]) -> Option<usize>
    ensures value { result ≡ spec.numbered code.now }
    ensures nine { IfSome result (λ system. system < 9) }
{
    match code {
        b"54" => Some(0),
        b"55" => Some(1),
        b"56" => Some(2),
        b"57" => Some(3),
        b"58" => Some(4),
        b"59" => Some(5),
        b"59.1" => Some(6),
        b"59.2" => Some(7),
        b"59.3" => Some(8),
        _ => None,
    }
}

/// Returns the position of a coordinate system among the nine of a machine file, 0 to 8, by its code,
/// with the G or without: `54` to `59`, `59.1`, `59.2` or `59.3`.
pub fn system_in(code: &[u8]) -> Option<usize>
    ensures value { result ≡ spec.system_in code.now }
    ensures nine { IfSome result (λ system. system < 9) }
{
    numbered(number_of(code))
}

fn with_text(origins: Origins, text: &[u8]) -> Result<Origins, OriginMistake>
    ensures { result ≡ spec.with_text origins text.now }
{
    let (code, place) = split_equals(text);
    let Some(system) = system_in(code) else {
        return Err(OriginMistake::NoSystem);
    };
    let Some(place) = place_in(place) else {
        return Err(OriginMistake::NoPlace);
    };
    if origins.is_given(system) {
        return Err(OriginMistake::Twice);
    }
    Ok(origins.with_origin(system, place))
}

/// Returns the origins that these texts write, each for a system of its own, as `54=60,40,-140` in
/// millimetres, or as `G54=2.5, 1, -3 in`; or the first text that is no such origin.
pub fn read_origins<'a>(list: &[&'a str]) -> Result<Origins, Refused<'a>>
    ensures { MatchResult result
        (λ origins. spec.parsed_origins (map (λ t. t.now) list.now) ≡ Ok origins)
        (λ refused. spec.parsed_origins (map (λ t. t.now) list.now) ≡ Err refused.mistake) }
{
    let mut origins = Origins::none();
    for text in list {
        match with_text(origins, text.as_bytes()) {
            Ok(more) => origins = more,
            Err(mistake) => return Err(Refused { text, mistake }),
        }
    }
    Ok(origins)
}
