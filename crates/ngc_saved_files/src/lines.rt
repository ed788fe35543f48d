//! Which files of a command are texts in lines of a fixed form.
ghost use Rattle.std.specs.Prelude.{◌≡◌, option_map};
ghost use Rattle.ngc_saved_files.specs.Lines.{is_in_lines, is_named, lines_of};

use ngc_command_line::Options;

/// The files of a command that are texts in lines of a fixed form: the certificate, the events, and the standard
/// input of `live`.
#[derive(Clone, Copy)]
pub struct FilesInLines<'a> {
    pub certificate: Option<&'a str>,
    pub events: Option<&'a str>,
    pub is_input: bool,
}

fn is_named(name: Option<&str>, other: &str) -> bool
    ensures { result ≡ is_named (option_map (λ n. n.now) name.entry) other.now }
{
    match name {
        Some(name) => name == other,
        None => false,
    }
}

impl FilesInLines<'_> {
    /// Returns whether the named file, or standard input, is such a text.
    pub fn has(&self, name: Option<&str>) -> bool
        ensures { result ≡ is_in_lines self.now (option_map (λ n. n.now) name.entry) }
    {
        match name {
            None => self.is_input,
            Some(name) => is_named(self.certificate, name) || is_named(self.events, name),
        }
    }
}

/// Returns the files of a command that are such texts.
pub fn files_in_lines<'a>(options: &Options<'a>) -> FilesInLines<'a>
    ensures { result ≡ lines_of options.now }
{
    let (certificate, events, is_input) = match options {
        Options::Check(options) => (Some(options.certificate), None, false),
        Options::Run(options) => (Some(options.certificate), Some(options.events), false),
        Options::RunThrough(options) => (Some(options.certificate), None, false),
        Options::Live(options) => (Some(options.certificate), None, true),
        Options::Draw(options) => (options.certificate, None, false),
        _ => (None, None, false),
    };
    FilesInLines {
        certificate,
        events,
        is_input,
    }
}
