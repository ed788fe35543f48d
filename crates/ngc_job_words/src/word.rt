//! What a word of a command line is.
ghost use Rattle.std.specs.Prelude.{◌≡◌, map, option_map};
ghost use Rattle.std.specs.List.{list_any};
ghost use Rattle.ngc_job_words.specs.Words as spec;

/// Returns what is after a prefix.
pub(crate) fn after<'a>(prefix: &str, word: &'a str) -> Option<&'a str>
    ensures { option_map (λ v. v.now) result ≡ spec.after prefix.now word.entry.now }
{
    match word.strip_prefix(prefix) {
        Some(rest) => Some(rest),
        None => None,
    }
}

/// Returns the value of an option that is in the same word, as in `--machine=mill.toml`.
pub(crate) fn value_in<'a>(name: &str, word: &'a str) -> Option<&'a str>
    ensures { option_map (λ v. v.now) result ≡ spec.value_in name.now word.entry.now }
{
    after("=", after(name, word)?)
}

/// Returns whether a word is an option, by itself or with its value.
pub(crate) fn is_option(name: &str, word: &str) -> bool
    ensures { result ≡ spec.is_option name.now word.now }
{
    word == name || value_in(name, word).is_some()
}

fn is_flag(word: &str) -> bool
    ensures { result ≡ spec.is_flag word.now }
{
    word == "--delete"
        || word == "--all"
        || word == "--json"
        || word == "--bodies"
        || word == "--whole"
        || word == "--map"
        || word == "--warnings"
        || word == "--feed-ring"
        || word == "--abort"
}

fn is_equals(byte: u8) -> bool
    ensures { result ≡ spec.is_equals byte }
{
    byte == b'='
}

fn has_equals(word: &[u8]) -> bool
    ensures { result ≡ list_any spec.is_equals word.now }
{
    word.iter().any(|byte| is_equals(*byte))
}

/// Returns whether the next word is the value of this one.
pub(crate) fn takes_value(word: &str) -> bool
    ensures { result ≡ spec.takes_value word.now }
{
    word.starts_with("--") && !has_equals(word.as_bytes()) && !is_flag(word)
}

/// Returns whether a word that isn't the value of another one is no option.
pub(crate) fn is_plain(word: &str) -> bool
    ensures { result ≡ spec.is_plain word.now }
{
    match word.as_bytes() {
        [first, ..] => *first != b'-',
        [] => false,
    }
}

fn has_option_in(name: &str, words: &[&str]) -> bool
    ensures { result ≡ list_any (λ w. spec.is_option name.now w.now) words.now }
{
    words.iter().any(|word| is_option(name, word))
}

/// Returns whether an option is among the words.
pub(crate) fn has(name: &str, words: &[&str]) -> bool
    ensures { result ≡ spec.has name.now (map (λ w. w.now) words.now) }
{
    has_option_in(name, words)
}
