//! The lines of a file.
ghost use Rattle.std.specs.Prelude.{◌≡◌};
ghost use Rattle.ngc_file_lines.specs.Lines as spec;

/// Returns the first line and the bytes after it.
pub(crate) fn split_line(bytes: &[u8]) -> (&[u8], &[u8])
    ensures line { result.0.now ≡ spec.line_of bytes.now }
    ensures afterwards { result.1.now ≡ spec.rest_after_line bytes.now }
{
    for (i, byte) in bytes.iter().enumerate() {
        if *byte == b'\n' {
            return (&bytes[..i], &bytes[i + 1..]);
        }
    }
    (bytes, &[])
}

/// Returns a text without the spaces and tabs at its beginning.
pub(crate) fn unindented(line: &[u8]) -> &[u8]
    ensures { result.now ≡ spec.unindented line.now }
{
    for (i, byte) in line.iter().enumerate() {
        if *byte != b' ' && *byte != b'\t' {
            return &line[i..];
        }
    }
    &[]
}

fn ends_key(afterwards: &[u8]) -> bool
    ensures { result ≡ spec.ends_key afterwards.now }
{
    match afterwards {
        [byte, ..] => *byte == b' ' || *byte == b'\t' || *byte == b'=',
        [] => false,
    }
}

/// Returns whether a line begins with a word, after spaces and tabs.
pub(crate) fn begins(word: &[u8], line: &[u8]) -> bool
    ensures { result ≡ spec.begins word.now line.now }
{
    unindented(line).starts_with(word)
}

/// Returns whether a line begins with a key, which a space, a tab or an equals sign follows.
pub fn gives(key: &[u8], line: &[u8]) -> bool
    ensures { result ≡ spec.gives key.now line.now }
{
    let line = unindented(line);
    line.starts_with(key) && ends_key(&line[key.len()..])
}

/// Returns whether a line is the header of a table.
pub(crate) fn is_header(line: &[u8]) -> bool
    ensures { result ≡ spec.is_header line.now }
{
    match unindented(line) {
        [first, second, ..] => *first == b'[' && (*second == b'[' || second.is_ascii_alphabetic()),
        _ => false,
    }
}
