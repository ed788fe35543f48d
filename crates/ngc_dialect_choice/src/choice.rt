//! The options that name a machine file and a language.
ghost use Rattle.std.specs.Prelude.{◌≡◌, option_map};
ghost use Rattle.ngc_dialect_choice.specs.Choice.{deciding_file, given_name, other_name, unless_given, with_dialect};

use ngc_command_line::{
    CertifyOptions, CheckOptions, DrawOptions, ListOptions, LiveOptions, Options, PlaceOptions,
    ReportOptions, RunOptions, RunThroughOptions,
};

// Returns the machine file, unless the command line names a language.
fn unless_given<'a>(dialect: Option<&'a str>, machine: Option<&'a str>) -> Option<&'a str>
    ensures { option_map (λ n. n.now) result ≡ unless_given dialect.entry
        (option_map (λ n. n.now) machine.entry) }
{
    match dialect {
        Some(_) => None,
        None => machine,
    }
}

/// Returns the machine file whose key decides in which language the program is read, if there is one.
pub fn deciding_file<'a>(options: &Options<'a>) -> Option<&'a str>
    ensures { option_map (λ n. n.now) result ≡ deciding_file options.now }
{
    match options {
        Options::List(options) => unless_given(options.dialect, options.machine),
        Options::Certify(options) => unless_given(options.dialect, Some(options.machine)),
        Options::Check(options) => unless_given(options.dialect, Some(options.machine)),
        Options::Run(options) => unless_given(options.dialect, Some(options.machine)),
        Options::RunThrough(options) => unless_given(options.dialect, Some(options.machine)),
        Options::Live(options) => unless_given(options.dialect, Some(options.machine)),
        Options::Draw(options) => unless_given(options.dialect, Some(options.machine)),
        Options::Report(options) => unless_given(options.dialect, Some(options.machine)),
        Options::Place(options) => unless_given(options.dialect, Some(options.machine)),
        _ => None,
    }
}

// Returns the options of `ngc certify` with this language.
fn certify_in<'a>(options: &CertifyOptions<'a>, dialect: Option<&'a str>) -> CertifyOptions<'a>
    ensures { result ≡ record options.now { dialect = dialect.entry } }
{
    CertifyOptions {
        machine: options.machine,
        tools: options.tools,
        program: options.program,
        cuts: options.cuts,
        format: options.format,
        changes: options.changes,
        dialect,
    }
}

// Returns the options of `ngc report` with this language.
fn report_in<'a>(options: &ReportOptions<'a>, dialect: Option<&'a str>) -> ReportOptions<'a>
    ensures { result ≡ record options.now { dialect = dialect.entry } }
{
    ReportOptions {
        machine: options.machine,
        tools: options.tools,
        program: options.program,
        cuts: options.cuts,
        all: options.all,
        json: options.json,
        changes: options.changes,
        cells: options.cells,
        dialect,
    }
}

// Returns the options of `ngc place` with this language.
fn place_in<'a>(options: &PlaceOptions<'a>, dialect: Option<&'a str>) -> PlaceOptions<'a>
    ensures { result ≡ record options.now { dialect = dialect.entry } }
{
    PlaceOptions {
        machine: options.machine,
        tools: options.tools,
        program: options.program,
        system: options.system,
        cuts: options.cuts,
        json: options.json,
        changes: options.changes,
        dialect,
    }
}

/// Returns the options with this language. Those of a command that doesn't choose one are unchanged.
pub fn with_dialect<'a>(options: &Options<'a>, dialect: Option<&'a str>) -> Options<'a>
    ensures { result ≡ with_dialect dialect.entry options.now }
{
    match options {
        Options::List(options) => Options::List(ListOptions {
            dialect,
            ..*options
        }),
        Options::Certify(options) => Options::Certify(certify_in(options, dialect)),
        Options::Check(options) => Options::Check(CheckOptions {
            dialect,
            ..*options
        }),
        Options::Run(options) => Options::Run(RunOptions {
            dialect,
            ..*options
        }),
        Options::RunThrough(options) => Options::RunThrough(RunThroughOptions {
            dialect,
            ..*options
        }),
        Options::Live(options) => Options::Live(LiveOptions {
            dialect,
            ..*options
        }),
        Options::Draw(options) => Options::Draw(DrawOptions {
            dialect,
            ..*options
        }),
        Options::Show(options) => Options::Show(*options),
        Options::Report(options) => Options::Report(report_in(options, dialect)),
        Options::Place(options) => Options::Place(place_in(options, dialect)),
        Options::Adapt(options) => Options::Adapt(*options),
        Options::Machine(options) => Options::Machine(*options),
        Options::Explain(number) => Options::Explain(*number),
        Options::Help(command) => Options::Help(*command),
        Options::Version => Options::Version,
    }
}

// Returns the language that the command line names.
fn given_name<'a>(options: &Options<'a>) -> Option<&'a str>
    ensures { option_map (λ n. n.now) result ≡ given_name options.now }
{
    match options {
        Options::List(options) => options.dialect,
        Options::Certify(options) => options.dialect,
        Options::Check(options) => options.dialect,
        Options::Run(options) => options.dialect,
        Options::RunThrough(options) => options.dialect,
        Options::Live(options) => options.dialect,
        Options::Draw(options) => options.dialect,
        Options::Report(options) => options.dialect,
        Options::Place(options) => options.dialect,
        _ => None,
    }
}

/// Returns the language of another control that the command line names: `ngc` names our own.
pub fn other_name<'a>(options: &Options<'a>) -> Option<&'a str>
    ensures { option_map (λ n. n.now) result ≡ other_name (given_name options.now) }
{
    match given_name(options) {
        Some(name) => if name == "ngc" { None } else { Some(name) },
        None => None,
    }
}
