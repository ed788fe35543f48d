//! The commands, and which options of a job file each of them has.
ghost use Rattle.std.specs.Prelude.{◌≡◌, map};
ghost use Rattle.ngc_job_words.specs.Commands as spec;

/// What a command may take from a job file.
#[derive(Clone, Copy)]
pub enum Family {
    /// Everything.
    Judging,
    /// No margins and no boxes.
    Listing,
    /// The files, and the control that the program is written for.
    Adapting,
    /// The files, and it has no program.
    Showing,
    /// Nothing.
    Other,
}

/// An option that a job file can add.
#[derive(Clone, Copy)]
pub enum JobOption {
    Machine,
    Tools,
    Dialect,
    From,
    Origin,
    Margin,
    TravelMargin,
    Rapids,
    Fixture,
    Stock,
}

impl JobOption {
    /// Returns the option as it is written, as `--machine`.
    pub fn name(self) -> &'static str
        ensures { result.now ≡ spec.name_of self }
    {
        match self {
            JobOption::Machine => "--machine",
            JobOption::Tools => "--tools",
            JobOption::Dialect => "--dialect",
            JobOption::From => "--from",
            JobOption::Origin => "--origin",
            JobOption::Margin => "--margin",
            JobOption::TravelMargin => "--travel-margin",
            JobOption::Rapids => "--rapids",
            JobOption::Fixture => "--fixture",
            JobOption::Stock => "--stock",
        }
    }
}

fn is_judging(command: &str) -> bool
    ensures { result ≡ spec.is_judging command.now }
{
    command == "report"
        || command == "place"
        || command == "draw"
        || command == "certify"
        || command == "check"
        || command == "run"
        || command == "pulses"
        || command == "live"
}

fn family_named(command: &str) -> Family
    ensures { result ≡ spec.family_named command.now }
{
    if is_judging(command) {
        Family::Judging
    } else if command == "list" {
        Family::Listing
    } else if command == "adapt" {
        Family::Adapting
    } else if command == "show" {
        Family::Showing
    } else {
        Family::Other
    }
}

/// Returns what the command in the words may take from a job file.
pub(crate) fn family_of(words: &[&str]) -> Family
    ensures { result ≡ spec.family_of (map (λ w. w.now) words.now) }
{
    match words {
        [] => Family::Other,
        [command, ..] => family_named(command),
    }
}

impl Family {
    /// Returns whether the commands have an option.
    pub(crate) fn has(self, option: JobOption) -> bool
        ensures { result ≡ spec.has_option self option }
    {
        match (self, option) {
            (_, JobOption::Machine | JobOption::Tools) => !self.is_other(),
            (Family::Adapting, JobOption::From) => true,
            (Family::Listing, JobOption::Dialect | JobOption::Origin) => true,
            (Family::Judging, JobOption::From) => false,
            (Family::Judging, _) => true,
            _ => false,
        }
    }

    /// Returns whether no job file changes the commands.
    pub(crate) fn is_other(self) -> bool
        ensures { result ≡ spec.is_other self }
    {
        matches!(self, Family::Other)
    }

    /// Returns whether the commands read a program.
    pub(crate) fn has_program(self) -> bool
        ensures { result ≡ spec.has_program self }
    {
        matches!(self, Family::Judging | Family::Listing | Family::Adapting)
    }
}
