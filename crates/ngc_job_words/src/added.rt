//! The words that a job file adds to a call.
ghost use Rattle.std.specs.Prelude.{◌≡◌, ◌++◌, ◌∷◌, [], IfOk, OnOk, map, option_map, string_bytes};
ghost use Rattle.std.specs.List.{list_any};
ghost use Rattle.ngc_dialect_names.specs.Names.{name_of as dialect_name};
ghost use Rattle.ngc_text.specs.Millimetres.{length_text};
ghost use Rattle.ngc_job_files.specs.Jobs.{values_of};
ghost use Rattle.ngc_job_files.specs.Paths.{paths_in};
ghost use Rattle.ngc_job_words.specs.Added as spec;
ghost use Rattle.ngc_job_words.specs.Folders.{path_in};
ghost use Rattle.ngc_job_words.specs.Texts.{stock_text};

use crate::command::{JobOption, family_of};
use crate::folder::path_in;
use crate::text::{fixture_text, millimetres, origin_text, stock_text, system_code};
use crate::values::values_of;
use crate::word::{has, after, value_in};
use ngc_dialect_names::Dialect;
use ngc_job_files::{JobFixture, JobHead, JobPaths, JobSheet};
use ngc_machine_figures::{Length, StockSheet};
use ngc_machine_files::Rapids;
use ngc_quantities::Place;
use std::alloc::{AllocError, Global};

// Returns an option with a value, as one word.
fn word_of(alloc: Global, option: JobOption, value: &str) -> Result<String, AllocError>
    ensures { IfOk result (λ word. string_bytes word ≡ spec.word_of option value.now) }
{
    let mut word = String::from_str(alloc, option.name())?;
    word.push_str("=")?;
    word.push_str(value)?;
    Ok(word)
}

// Returns whether the command has an option, and the words don't.
fn wants(words: &[&str], option: JobOption) -> bool
    ensures { result ≡ spec.wants (map (λ w. w.now) words.now) option }
{
    family_of(words).has(option) && !has(option.name(), words)
}

fn add_word(
    added: &mut Vec<String>,
    alloc: Global,
    option: JobOption,
    value: &str,
) -> Result<(), AllocError>
    ensures { OnOk result (map string_bytes added.new.items ≡ map string_bytes added.old.items ++ spec.word_of option value.now ∷ []) }
{
    added.push(word_of(alloc, option, value)?)?;
    Ok(())
}

// Adds an option with this value, if there is one, the command has the option and the words don't.
fn add_option(
    added: &mut Vec<String>,
    alloc: Global,
    words: &[&str],
    option: JobOption,
    value: Option<String>,
) -> Result<(), AllocError>
    ensures { OnOk result (map string_bytes added.new.items ≡ map string_bytes added.old.items
        ++ spec.option_words (map (λ w. w.now) words.now) option (option_map string_bytes value)) }
{
    match value {
        Some(value) if wants(words, option) => add_word(added, alloc, option, value.as_str()),
        _ => Ok(()),
    }
}

// ---- values

fn path_value(alloc: Global, folder: &str, path: Option<&str>) -> Result<Option<String>, AllocError>
    ensures { IfOk result (λ value. option_map string_bytes value
        ≡ option_map (path_in folder.now) (option_map (λ p. p.now) path.entry)) }
{
    match path {
        Some(path) => Ok(Some(path_in(alloc, folder, path)?)),
        None => Ok(None),
    }
}

fn dialect_value(alloc: Global, dialect: Option<Dialect>) -> Result<Option<String>, AllocError>
    ensures { IfOk result (λ value. option_map string_bytes value ≡ option_map dialect_name dialect) }
{
    match dialect {
        Some(dialect) => Ok(Some(String::from_str(alloc, dialect.name())?)),
        None => Ok(None),
    }
}

fn length_value(alloc: Global, length: Option<Length>) -> Result<Option<String>, AllocError>
    ensures { IfOk result (λ value. option_map string_bytes value
        ≡ option_map (λ l. length_text l.nanometres) length) }
{
    match length {
        Some(length) => Ok(Some(millimetres(alloc, length.nanometres)?)),
        None => Ok(None),
    }
}

fn rapids_name(rapids: Rapids) -> &'static str
    ensures { result.now ≡ spec.rapids_name rapids }
{
    match rapids {
        Rapids::Straight => "straight",
        Rapids::Free => "free",
    }
}

fn rapids_value(alloc: Global, rapids: Option<Rapids>) -> Result<Option<String>, AllocError>
    ensures { IfOk result (λ value. option_map string_bytes value ≡ option_map spec.rapids_name rapids) }
{
    match rapids {
        Some(rapids) => Ok(Some(String::from_str(alloc, rapids_name(rapids))?)),
        None => Ok(None),
    }
}

fn stock_value(alloc: Global, stock: &Option<StockSheet>) -> Result<Option<String>, AllocError>
    ensures { IfOk result (λ value. option_map string_bytes value ≡ option_map stock_text stock.now) }
{
    match stock {
        Some(stock) => Ok(Some(stock_text(alloc, stock)?)),
        None => Ok(None),
    }
}

// ---- words

#[tactic(auto, unfolding(crate::specs::Added::file_words))]
fn add_files(
    added: &mut Vec<String>,
    alloc: Global,
    words: &[&str],
    folder: &str,
    paths: &JobPaths<'_>,
) -> Result<(), AllocError>
    ensures { OnOk result (map string_bytes added.new.items ≡ map string_bytes added.old.items
        ++ spec.file_words (map (λ w. w.now) words.now) folder.now (paths_in paths.now)) }
{
    let machine = path_value(alloc, folder, paths.machine)?;
    let tools = path_value(alloc, folder, paths.tools)?;
    add_option(added, alloc, words, JobOption::Machine, machine)?;
    add_option(added, alloc, words, JobOption::Tools, tools)
}

#[tactic(auto, unfolding(crate::specs::Added::dialect_words))]
fn add_dialect(
    added: &mut Vec<String>,
    alloc: Global,
    words: &[&str],
    dialect: Option<Dialect>,
) -> Result<(), AllocError>
    ensures { OnOk result (map string_bytes added.new.items ≡ map string_bytes added.old.items
        ++ spec.dialect_words (map (λ w. w.now) words.now) dialect) }
{
    let option = dialect_value(alloc, dialect)?;
    let from = dialect_value(alloc, dialect)?;
    add_option(added, alloc, words, JobOption::Dialect, option)?;
    add_option(added, alloc, words, JobOption::From, from)
}

// Returns the value of `--origin` without the G that its code may begin with.
fn without_g(value: &str) -> &str
    ensures { result.now ≡ spec.without_g value.now }
{
    match after("G", value) {
        Some(rest) => rest,
        None => after("g", value).unwrap_or(value),
    }
}

fn begins_code(code: &str, value: &str) -> bool
    ensures { result ≡ spec.begins_code code.now value.now }
{
    value_in(code, without_g(value)).is_some()
}

fn has_system_in(code: &str, values: &[&str]) -> bool
    ensures { result ≡ list_any (λ v. spec.begins_code code.now v.now) values.now }
{
    values.iter().any(|value| begins_code(code, value))
}

// Returns whether one of the values of `--origin` is for this system.
fn has_system(system: u8, values: &[&str]) -> bool
    ensures { result ≡ spec.has_system (map (λ v. v.now) values.now) system }
{
    has_system_in(system_code(system), values)
}

fn add_origin(
    added: &mut Vec<String>,
    alloc: Global,
    values: &[&str],
    system: u8,
    origin: &Option<Place>,
) -> Result<(), AllocError>
    ensures { OnOk result (map string_bytes added.new.items ≡ map string_bytes added.old.items
        ++ spec.origin_words (map (λ v. v.now) values.now) system origin.now) }
{
    match origin {
        Some(place) if !has_system(system, values) => {
            let value = origin_text(alloc, system, place)?;
            add_word(added, alloc, JobOption::Origin, value.as_str())
        }
        _ => Ok(()),
    }
}

fn add_each_origin(
    added: &mut Vec<String>,
    alloc: Global,
    values: &[&str],
    origins: &[Option<Place>; 9],
) -> Result<(), AllocError>
    ensures { OnOk result (map string_bytes added.new.items ≡ map string_bytes added.old.items
        ++ spec.origins_from (map (λ v. v.now) values.now) 1 origins.now) }
{
    for (i, origin) in origins.iter().enumerate() {
        add_origin(added, alloc, values, i as u8 + 1, origin)?;
    }
    Ok(())
}

#[tactic(auto, unfolding(crate::specs::Added::all_origin_words))]
fn add_origins(
    added: &mut Vec<String>,
    alloc: Global,
    words: &[&str],
    origins: &[Option<Place>; 9],
) -> Result<(), AllocError>
    ensures { OnOk result (map string_bytes added.new.items ≡ map string_bytes added.old.items
        ++ spec.all_origin_words (map (λ w. w.now) words.now) origins.now) }
{
    if !family_of(words).has(JobOption::Origin) {
        return Ok(());
    }
    let values = values_of(alloc, "--origin", words)?;
    add_each_origin(added, alloc, values.as_slice(), origins)
}

#[tactic(auto, unfolding(crate::specs::Added::margin_words))]
fn add_margins(
    added: &mut Vec<String>,
    alloc: Global,
    words: &[&str],
    head: &JobHead,
) -> Result<(), AllocError>
    ensures { OnOk result (map string_bytes added.new.items ≡ map string_bytes added.old.items
        ++ spec.margin_words (map (λ w. w.now) words.now) head.now) }
{
    let margin = length_value(alloc, head.margin)?;
    let travel_margin = length_value(alloc, head.travel_margin)?;
    let rapids = rapids_value(alloc, head.rapids)?;
    add_option(added, alloc, words, JobOption::Margin, margin)?;
    add_option(added, alloc, words, JobOption::TravelMargin, travel_margin)?;
    add_option(added, alloc, words, JobOption::Rapids, rapids)
}

fn add_each_fixture(
    added: &mut Vec<String>,
    alloc: Global,
    fixtures: &[JobFixture],
) -> Result<(), AllocError>
    ensures { OnOk result (map string_bytes added.new.items ≡ map string_bytes added.old.items ++ map spec.fixture_word fixtures.now) }
{
    for fixture in fixtures {
        let value = fixture_text(alloc, fixture)?;
        add_word(added, alloc, JobOption::Fixture, value.as_str())?;
    }
    Ok(())
}

// Adds the fixtures, also if the words have some.
#[tactic(auto, unfolding(crate::specs::Added::fixture_words))]
fn add_fixtures(
    added: &mut Vec<String>,
    alloc: Global,
    words: &[&str],
    fixtures: &[JobFixture],
) -> Result<(), AllocError>
    ensures { OnOk result (map string_bytes added.new.items ≡ map string_bytes added.old.items
        ++ spec.fixture_words (map (λ w. w.now) words.now) fixtures.now) }
{
    if family_of(words).has(JobOption::Fixture) {
        add_each_fixture(added, alloc, fixtures)
    } else {
        Ok(())
    }
}

#[tactic(auto, unfolding(crate::specs::Added::stock_words))]
fn add_stock(
    added: &mut Vec<String>,
    alloc: Global,
    words: &[&str],
    stock: &Option<StockSheet>,
) -> Result<(), AllocError>
    ensures { OnOk result (map string_bytes added.new.items ≡ map string_bytes added.old.items
        ++ spec.stock_words (map (λ w. w.now) words.now) stock.now) }
{
    let value = stock_value(alloc, stock)?;
    add_option(added, alloc, words, JobOption::Stock, value)
}

#[tactic(auto, unfolding(crate::specs::Added::box_words))]
fn add_boxes(
    added: &mut Vec<String>,
    alloc: Global,
    words: &[&str],
    job: &JobSheet<'_>,
) -> Result<(), AllocError>
    ensures { OnOk result (map string_bytes added.new.items ≡ map string_bytes added.old.items
        ++ spec.box_words (map (λ w. w.now) words.now) (values_of job.now)) }
{
    add_fixtures(added, alloc, words, job.fixtures.as_slice())?;
    add_stock(added, alloc, words, &job.head.stock)
}

/// Returns the words that a job file in this folder adds to the words of a call: an option with its
/// value for each key, if the command has the option and the words don't. Fixtures are added in any
/// case.
#[tactic(auto, unfolding(crate::specs::Added::added_words))]
pub fn added_words(
    alloc: Global,
    folder: &str,
    job: &JobSheet<'_>,
    words: &[&str],
) -> Result<Vec<String>, AllocError>
    ensures { IfOk result (λ added. map string_bytes added.items
        ≡ spec.added_words folder.now (values_of job.now) (map (λ w. w.now) words.now)) }
{
    let mut added = Vec::new(alloc);
    add_files(&mut added, alloc, words, folder, &job.paths)?;
    add_dialect(&mut added, alloc, words, job.head.dialect)?;
    add_origins(&mut added, alloc, words, &job.head.origins)?;
    add_margins(&mut added, alloc, words, &job.head)?;
    add_boxes(&mut added, alloc, words, job)?;
    Ok(added)
}
