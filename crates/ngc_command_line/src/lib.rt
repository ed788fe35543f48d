//! The command line of the program `ngc`.
//!
//! `clap` reads the words, and `read_options` returns the options. Help and refusals are texts of
//! `clap`.
#![tactic(auto)]

ghost use Rattle.std.specs.Prelude.{◌≡◌, Bool, Err, IfOk, IsOkUnless, MatchResult, OnOk};
ghost use Rattle.std.specs.Prelude.{Option, Some, ℕ, codes, ◌∷◌, []};
ghost use Rattle.clap.specs.Words.{Text, found_of, kind_of, rows_of, subcommand_of};
ghost use Rattle.clap.specs.Walk.{texts};
ghost use Rattle.ngc_command_line.specs.CommandLine.{certify_words, check_words, draw_words};
ghost use Rattle.ngc_command_line.specs.CommandLine.{help_words, list_words, show_words};
ghost use Rattle.ngc_command_line.specs.CommandLine.{ngc_app, run_words};
ghost use Rattle.ngc_command_line.specs.CommandLine.{MachineSource, adapt_words, machine_words};
ghost use Rattle.ngc_command_line.specs.CommandLine.{live_words, place_words, report_words};
ghost use Rattle.ngc_command_line.specs.Meant.{AreCutsInRange, AreOptions, IsCertifyRequest};
ghost use Rattle.ngc_command_line.specs.Meant.{IsCheckRequest, IsDrawRequest, IsListRequest, IsRunRequest};
ghost use Rattle.ngc_command_line.specs.Meant.{IsLiveRequest, IsShowRequest, IsHelpRequest};
ghost use Rattle.ngc_command_line.specs.Meant.{AreCommands, IsPlaceRequest, IsReportRequest};
ghost use Rattle.ngc_command_line.specs.Meant.{IsAdaptRequest, IsMachineRequest, HaveChanges, IsTaken};
ghost use Rattle.ngc_command_line.specs.Meant.{IsWhole, changes_in};
ghost use Rattle.ngc_command_line.specs.Meant.{help_fault_number, usage_fault_number};

mod adapt;
mod arguments;
mod certify;
mod changes;
mod check;
mod commands;
mod draw;
mod explain;
mod guide;
mod list;
mod live;
mod machine;
mod options;
mod place;
mod report;
mod run;
mod show;
mod table;

use adapt::adapt_options;
use certify::certify_options;
use changes::{change_fault, changes_of};
use check::check_options;
use clap::ArgMatches;
use clap::error::ErrorKind;
use commands::ngc_command;
use draw::draw_options;
use explain::explained_number;
use guide::topic;
use list::list_options;
use live::live_options;
use machine::machine_options;
use ngc_margins::Changes;
pub use options::{
    AdaptOptions, CertifyOptions, CheckOptions, DrawOptions, Format, ListOptions, LiveOptions,
    MachineOptions, Options, PlaceOptions, Recording, ReportOptions, RunOptions, RunThroughOptions,
    ShowOptions,
};
use place::place_options;
use report::report_options;
use run::run_options;
use show::show_options;
use std::alloc::Global;
use thiserror::Error;

/// The reason why no options were read.
#[derive(Debug, Drop, Error)]
pub enum UsageFault {
    /// The words aren't a command line, or they request help. The text is for the user, and its
    /// last line ends with a line feed.
    #[error("{0}")]
    Usage(String),
    /// Memory ran out.
    #[error("out of memory")]
    Memory,
}

impl UsageFault {
    /// Returns the number of the fault.
    pub fn number(&self) -> u16
        ensures { result ≡ usage_fault_number self.now }
    {
        match self {
            UsageFault::Usage(_) => 720,
            UsageFault::Memory => 900,
        }
    }
}

/// The reason why no help is returned.
#[derive(Clone, Copy, Debug, PartialEq, Eq, Error)]
pub enum HelpFault {
    /// No command has the name: 722.
    #[error("no command has this name")]
    Unknown,
    /// Memory ran out: 900.
    #[error("out of memory")]
    Memory,
}

impl HelpFault {
    /// Returns the number of the fault.
    pub fn number(&self) -> u16
        ensures { result ≡ help_fault_number self.now }
    {
        match self {
            HelpFault::Unknown => 722,
            HelpFault::Memory => 900,
        }
    }
}

fn usage_fault(alloc: Global, error: clap::Error) -> UsageFault
    ensures { kind_of error ≡ ErrorKind.OutOfMemory → result ≡ UsageFault.Memory }
{
    if error.kind() == ErrorKind::OutOfMemory {
        return UsageFault::Memory;
    }
    match format!(in alloc; "{error}") {
        Ok(text) => UsageFault::Usage(text),
        Err(_) => UsageFault::Memory,
    }
}

// Returns the options of a subcommand from its matches. A new subcommand is one more arm here.
fn options_of<'a>(name: &str, found: &ArgMatches<'a>, changes: Changes) -> Options<'a>
    requires whole { IsWhole name.now (rows_of (found_of found.now)) }
    requires changes { changes_in (rows_of (found_of found.now)) ≡ Some changes }
    ensures { AreOptions (Some (name.now, rows_of (found_of found.now))) result }
{
    match name {
        "list" => Options::List(list_options(found, changes)),
        "certify" => Options::Certify(certify_options(found, changes)),
        "check" => Options::Check(check_options(found, changes)),
        "run" => run_options(Recording::Log, found, changes),
        "pulses" => run_options(Recording::Pulses, found, changes),
        "live" => Options::Live(live_options(found, changes)),
        "draw" => Options::Draw(draw_options(found, changes)),
        "show" => Options::Show(show_options(found)),
        "report" => Options::Report(report_options(found, changes)),
        "place" => Options::Place(place_options(found, changes)),
        "adapt" => Options::Adapt(adapt_options(found)),
        "machine" => Options::Machine(machine_options(found)),
        "explain" => Options::Explain(explained_number(found)),
        "help" => Options::Help(topic(found)),
        "version" => Options::Version,
        _ => unreachable!(),
    }
}

/// Reads the words after the program's name.
///
/// The result is `Usage` only if `clap` finds a fault in the words, or if a value of `--origin`,
/// `--margin`, `--travel-margin` or `--rapids` isn't one; a request for help counts as a fault. If there is one and memory runs out as well, the
/// result may be either fault. The texts are shown by tests.
pub fn read_options<'a>(alloc: Global, words: &'a [&'a str]) -> Result<Options<'a>, UsageFault>
    // The options are those of the subcommand that the words name. Words that name none are never
    // `Ok`.
    ensures options { IfOk result (AreOptions (subcommand_of ngc_app (texts words.entry.now))) }
    // Words are `Ok` only where `clap` finds no fault in them. Those in which it finds none, and
    // whose origins, margins and way of traverses can be read, are refused only for lack of memory.
    ensures taken { OnOk result (IsTaken (texts words.entry.now)) }
    ensures refused { IsTaken (texts words.entry.now) →
        HaveChanges (subcommand_of ngc_app (texts words.entry.now)) →
        IsOkUnless result UsageFault.Memory }
    // `list --program=FILE --machine=FILE --tools=FILE --delete` is read as it is written, where
    // each option may be left out.
    ensures spelled { (program machine tools : Option Text) (delete : Bool)
        → texts words.entry.now ≡ list_words program machine tools delete
        → MatchResult result (IsListRequest program machine tools delete)
        (λ fault. fault ≡ UsageFault.Memory) }
    // `certify --machine=FILE --tools=FILE --program=FILE --cuts=N --format=VERSION` is read as it
    // is written, where the last three may be left out.
    ensures spelled_certify { (machine tools : Text) (program : Option Text) (cuts : Option ℕ)
        (format : Option Format)
        → AreCutsInRange cuts
        → texts words.entry.now ≡ certify_words machine tools program cuts format
        → MatchResult result (IsCertifyRequest machine tools program cuts format)
        (λ fault. fault ≡ UsageFault.Memory) }
    // `check --machine=FILE --tools=FILE --certificate=FILE --program=FILE` is read as it is
    // written, where the last may be left out.
    ensures spelled_check { (machine tools certificate : Text) (program : Option Text)
        → texts words.entry.now ≡ check_words machine tools certificate program
        → MatchResult result (IsCheckRequest machine tools certificate program)
        (λ fault. fault ≡ UsageFault.Memory) }
    // `run --machine=FILE --tools=FILE --certificate=FILE --events=FILE --program=FILE --delete
    // --output=FORM` is read as it is written, where the last four may be left out, and so is
    // `pulses` with the same options.
    ensures spelled_run { (recording : Recording) (machine tools certificate : Text)
        (events program : Option Text) (delete : Bool) (output : Option Text)
        → texts words.entry.now
        ≡ run_words recording machine tools certificate events program delete output
        → MatchResult result
        (IsRunRequest recording machine tools certificate events program delete output)
        (λ fault. fault ≡ UsageFault.Memory) }
    // `live --machine=FILE --tools=FILE --certificate=FILE --program=FILE --delete --output=FORM
    // --feed-ring` is read as it is written, where the last three may be left out.
    ensures spelled_live { (machine tools certificate program : Text) (delete : Bool)
        (output : Option Text) (feed_ring : Bool)
        → texts words.entry.now
        ≡ live_words machine tools certificate program delete output feed_ring
        → MatchResult result
        (IsLiveRequest machine tools certificate program delete output feed_ring)
        (λ fault. fault ≡ UsageFault.Memory) }
    // `draw --machine=FILE --tools=FILE --certificate=FILE --program=FILE --view=VIEW --delete
    // --bodies --whole` is read as it is written, where the last six may be left out. Without `--map` no
    // map is requested.
    ensures spelled_draw { (machine tools : Text) (certificate program : Option Text)
        (view : Option Text) (delete bodies whole : Bool)
        → texts words.entry.now
        ≡ draw_words machine tools certificate program view delete bodies whole
        → MatchResult result
        (IsDrawRequest machine tools certificate program view delete bodies whole)
        (λ fault. fault ≡ UsageFault.Memory) }
    // `show --machine=FILE --tools=FILE --warnings` is read as it is written, where the last two
    // may be left out.
    ensures spelled_show { (machine : Text) (tools : Option Text) (warnings : Bool)
        → texts words.entry.now ≡ show_words machine tools warnings
        → MatchResult result (IsShowRequest machine tools warnings)
        (λ fault. fault ≡ UsageFault.Memory) }
    // `report --machine=FILE --tools=FILE --program=FILE --cuts=N --all --json` is read as it is
    // written, where the last four may be left out.
    ensures spelled_report { (machine tools : Text) (program : Option Text) (cuts : Option ℕ)
        (all json : Bool)
        → AreCutsInRange cuts
        → texts words.entry.now ≡ report_words machine tools program cuts all json
        → MatchResult result (IsReportRequest machine tools program cuts all json)
        (λ fault. fault ≡ UsageFault.Memory) }
    // `place --machine=FILE --tools=FILE --program=FILE --system=SYSTEM --cuts=N --json` is read as
    // it is written, where the last four may be left out.
    ensures spelled_place { (machine tools : Text) (program system : Option Text)
        (cuts : Option ℕ) (json : Bool)
        → AreCutsInRange cuts
        → texts words.entry.now ≡ place_words machine tools program system cuts json
        → MatchResult result (IsPlaceRequest machine tools program system cuts json)
        (λ fault. fault ≡ UsageFault.Memory) }
    // `adapt --from=CONTROL --machine=FILE --tools=FILE --program=FILE --delete` is read as it is
    // written, where the last four may be left out.
    ensures spelled_adapt { (from : Text) (machine tools program : Option Text) (delete : Bool)
        → texts words.entry.now ≡ adapt_words from machine tools program delete
        → MatchResult result (IsAdaptRequest from machine tools program delete)
        (λ fault. fault ≡ UsageFault.Memory) }
    // `machine --grbl=FILE --corner=SPEED --ticks=N --frame=END` is read as it is written, where
    // the last three may be left out, and so is `machine --steps-per-mm=N --travel=X,Y,Z
    // --feed=X,Y,Z --acceleration=X,Y,Z` with the same three. Its other options are left to tests.
    ensures spelled_machine { (source : MachineSource) (corner ticks frame : Option Text)
        → texts words.entry.now ≡ machine_words source corner ticks frame
        → MatchResult result (IsMachineRequest source corner ticks frame)
        (λ fault. fault ≡ UsageFault.Memory) }
    // So are `help`, `help COMMAND` with the name of a command, and `version`.
    ensures spelled_help { (command : Option Text) → AreCommands command
        → texts words.entry.now ≡ help_words command
        → MatchResult result (IsHelpRequest command) (λ fault. fault ≡ UsageFault.Memory) }
    ensures spelled_version { texts words.entry.now ≡ codes "version" ∷ []
        → MatchResult result (λ options. options ≡ Options.Version)
        (λ fault. fault ≡ UsageFault.Memory) }
{
    let Ok(command) = ngc_command(alloc) else {
        return Err(UsageFault::Memory);
    };
    let matches = match command.try_get_matches_from(words) {
        Ok(matches) => matches,
        Err(error) => return Err(usage_fault(alloc, error)),
    };
    match matches.subcommand() {
        Some((name, found)) => match changes_of(found) {
            Ok(changes) => Ok(options_of(name, found, changes)),
            Err(refused) => Err(change_fault(alloc, found, &refused)),
        },
        None => unreachable!(),
    }
}

fn text_of_help(alloc: Global, error: clap::Error) -> Result<String, HelpFault> {
    if error.kind() == ErrorKind::OutOfMemory {
        return Err(HelpFault::Memory);
    }
    if error.kind() != ErrorKind::DisplayHelp {
        return Err(HelpFault::Unknown);
    }
    match format!(in alloc; "{error}") {
        Ok(text) => Ok(text),
        Err(_) => Err(HelpFault::Memory),
    }
}

// Returns the help that these words request.
fn help_of<'a>(alloc: Global, words: &'a [&'a str]) -> Result<String, HelpFault> {
    let Ok(command) = ngc_command(alloc) else {
        return Err(HelpFault::Memory);
    };
    match command.try_get_matches_from(words) {
        Ok(_matches) => Err(HelpFault::Unknown),
        Err(error) => text_of_help(alloc, error),
    }
}

/// Returns the help of a command, or of the program if no command is named: the text of `--help`
/// after the command's name.
///
/// The texts are shown by tests.
pub fn help_text(alloc: Global, command: Option<&str>) -> Result<String, HelpFault> {
    match command {
        // An option isn't the name of a command.
        Some(name) if name.starts_with("-") => Err(HelpFault::Unknown),
        Some(name) => help_of(alloc, &[name, "--help"]),
        None => help_of(alloc, &["--help"]),
    }
}
