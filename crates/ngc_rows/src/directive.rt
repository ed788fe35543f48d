/// The role of a text.
#[derive(Clone, Copy, PartialEq, Eq)]
pub enum Role {
    /// All later rows share it.
    Shared,
    /// It is a file of the row.
    File,
    /// It is all that must be printed.
    Is,
    /// Each of its lines must be a part of what is printed.
    Has,
    /// None of its lines may be a part of what is printed.
    Lacks,
}

/// The first line of a text.
#[derive(Clone, Copy)]
pub struct Beginning<'a> {
    pub role: Role,
    pub name: &'a str,
    /// The shared text with which it begins; without one it begins empty.
    pub base: Option<&'a str>,
    /// Whether the lines that follow are changes.
    pub has_changes: bool,
}

/// The meaning of a line that begins with `@`.
#[derive(Clone, Copy)]
pub enum Directive<'a> {
    /// A row begins, with the words of a command line.
    Words(&'a str),
    /// A text begins.
    Text(Beginning<'a>),
    /// The lines that follow are repeated, each with its line feed.
    Lines(u32),
    /// The lines that follow are repeated, with escapes and without line feeds.
    Bytes(u32),
    /// The text ends.
    End,
    /// The exit status.
    Status(u8),
    /// From then on, the row's output is a shared text.
    Keep(&'a str),
    /// The row's output is a JSON document.
    Json,
    /// Reading the file fails in place of this byte; writing fails after this number of bytes.
    Fails(&'a str, usize),
    /// The file can be opened once.
    Once(&'a str),
}

impl<'a> Directive<'a> {
    /// Reads the text after the `@` of a line, or returns `None` if it isn't a directive.
    pub fn read(line: &'a str) -> Option<Directive<'a>> {
        let (word, rest) = line.split_once(' ').unwrap_or((line, ""));
        match word {
            "ngc" => Some(Directive::Words(rest)),
            "lines" => Some(Directive::Lines(rest.parse().ok()?)),
            "bytes" => Some(Directive::Bytes(rest.parse().ok()?)),
            "end" => Some(Directive::End),
            "status" => Some(Directive::Status(rest.parse().ok()?)),
            "keep" => Some(Directive::Keep(rest)),
            "json" => Some(Directive::Json),
            "once" => Some(Directive::Once(rest)),
            "fails" => {
                let (name, number) = rest.split_once(' ')?;
                Some(Directive::Fails(name, number.parse().ok()?))
            }
            _ => Some(Directive::Text(Beginning::read(word, rest)?)),
        }
    }
}

impl<'a> Beginning<'a> {
    fn read(word: &str, rest: &'a str) -> Option<Beginning<'a>> {
        match word {
            "shared" => Some(match rest.split_once(' ') {
                Some((name, base)) => Beginning::copy(Role::Shared, name, base),
                None => Beginning::empty(Role::Shared, rest),
            }),
            "text" => Some(Beginning::empty(Role::File, rest)),
            "input" => Some(Beginning::copy(Role::File, "input", rest)),
            "added" => Some(Beginning::copy(Role::File, rest, rest)),
            "changed" => Some(Beginning {
                has_changes: true,
                ..Beginning::copy(Role::File, rest, rest)
            }),
            "output" if rest.is_empty() => Some(Beginning::empty(Role::Is, "output")),
            "output" => Some(Beginning::copy(Role::Is, "output", rest)),
            "errors" if rest.is_empty() => Some(Beginning::empty(Role::Is, "errors")),
            "has" => Some(Beginning::empty(Role::Has, rest)),
            "lacks" => Some(Beginning::empty(Role::Lacks, rest)),
            _ => None,
        }
    }

    fn empty(role: Role, name: &'a str) -> Beginning<'a> {
        Beginning {
            role,
            name,
            base: None,
            has_changes: false,
        }
    }

    fn copy(role: Role, name: &'a str, base: &'a str) -> Beginning<'a> {
        Beginning {
            role,
            name,
            base: Some(base),
            has_changes: false,
        }
    }
}
