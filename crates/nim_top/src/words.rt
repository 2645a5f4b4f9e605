ghost use Rattle.std.specs.Prelude.{◌≡◌, ◌≢◌, [], true, false, codes, IfOk, IsErrOf, OnOk};
ghost use Rattle.clap.specs.Words.{app_of, first_of, rule_of};
ghost use Rattle.nim_top.specs.Words.{app_for, bare_app, check_app, data_given, driver_name, faults, flag_rule, clap_found, is_accepted, is_file_name, is_optional, is_set, option_rule, positional_rule, replay_app, schedule_given, setup_of, sums_up, sums_up_by, texts_of, word_of};

use crate::setup::setup;
use crate::verb::Verb;
use clap::error::ErrorKind;
use clap::{Arg, ArgAction, Command};
use nim_course::Setup;
use std::alloc::{AllocError, Global};

/// What the words of a command say: the names of the files that it reads, how a job is run, and whether its summary is
/// told.
#[derive(Clone, Copy)]
pub struct Request<'a> {
    pub driver: &'a str,
    pub data_file: Option<&'a str>,
    pub schedule: Option<&'a str>,
    pub setup: Setup,
    pub summary: bool,
}

/// Why the words say nothing.
#[derive(Clone, Copy, Debug, PartialEq, Eq)]
pub enum WordsFault {
    /// They aren't in the grammar of the command.
    Refused,
    /// Memory was refused.
    NoMemory,
}

impl From<AllocError> for WordsFault {
    ghost use Rattle.nim_top.specs.declared.words.WordsFault.TheVariants.{NoMemory};

    ghost from_gives = { λ _ fault. fault ≡ NoMemory };

    fn from(_refused: AllocError) -> WordsFault {
        WordsFault::NoMemory
    }
}

/// What the words of this command say. Which are accepted is `is_accepted` of `specs/Words.antt`.
pub fn given<'a>(alloc: Global, verb: Verb, words: &'a [String]) -> Result<Request<'a>, WordsFault>
    ensures accepted { OnOk result (is_accepted verb (texts_of words.now) ≡ true) }
    ensures refused { IsErrOf result WordsFault.Refused → is_accepted verb (texts_of words.now) ≡ false }
    ensures driver { IfOk result (λ request. request.driver.now ≡ driver_name verb (texts_of words.now)) }
    ensures data { IfOk result (λ request. word_of request.data_file ≡ data_given verb (texts_of words.now)) }
    ensures schedule { IfOk result (λ request. word_of request.schedule ≡ schedule_given verb (texts_of words.now)) }
    ensures setup { IfOk result (λ request. request.setup ≡ setup_of verb (texts_of words.now)) }
    ensures summary { IfOk result (λ request. request.summary ≡ sums_up verb (texts_of words.now)) }
{
    let Some((first, rest)) = words.split_first() else {
        return Err(WordsFault::Refused);
    };
    if first.as_str() != verb.name() {
        return Err(WordsFault::Refused);
    }
    let found = parse(alloc, verb, rest)?;
    let (Some(driver), Some(setup)) = (found.driver, setup(found.workers, found.place)) else {
        return Err(WordsFault::Refused);
    };
    if is_file_name(driver) && is_optional(found.data_file) && is_optional(found.schedule) {
        Ok(Request {
            driver,
            data_file: found.data_file,
            schedule: found.schedule,
            setup,
            summary: sums_up(verb, found.summary),
        })
    } else {
        Err(WordsFault::Refused)
    }
}

/// Whether a word is the name of a file.
fn is_file_name(word: &str) -> bool
    ensures { result ≡ is_file_name word.now }
{
    match word.as_bytes() {
        [] => false,
        [first, ..] => *first != b'-',
    }
}

/// Whether a word is the name of a file, where there is one.
fn is_optional(word: Option<&str>) -> bool
    ensures { result ≡ is_optional (word_of word.entry) }
{
    match word {
        Some(word) => is_file_name(word),
        None => true,
    }
}

/// Whether a command asks for the summary, by what clap says of the flag.
fn sums_up(verb: Verb, flag: Option<&str>) -> bool
    ensures { result ≡ sums_up_by verb (word_of flag.entry) }
{
    match verb {
        Verb::Check => false,
        Verb::Replay => is_set(flag),
    }
}

/// Whether the words have a flag: clap gives it a value of its own, `true` or `false`.
fn is_set(flag: Option<&str>) -> bool
    ensures { result ≡ is_set (word_of flag.entry) }
{
    match flag {
        Some(said) => said == "true",
        None => false,
    }
}

/// What clap finds behind the command, before it is tested.
#[derive(Clone, Copy)]
struct Found<'a> {
    driver: Option<&'a str>,
    data_file: Option<&'a str>,
    schedule: Option<&'a str>,
    workers: Option<&'a str>,
    place: Option<&'a str>,
    summary: Option<&'a str>,
}

/// Takes the words behind the command apart.
#[tactic(auto, unfolding(crate::specs::Words::faults, crate::specs::Words::clap_found))]
fn parse<'a>(alloc: Global, verb: Verb, rest: &'a [String]) -> Result<Found<'a>, WordsFault>
    ensures taken { OnOk result (faults verb (texts_of rest.now) ≡ []) }
    ensures refused { IsErrOf result WordsFault.Refused → faults verb (texts_of rest.now) ≢ [] }
    ensures driver { IfOk result (λ words. word_of words.driver
        ≡ first_of (codes "driver") (clap_found verb (texts_of rest.now))) }
    ensures data { IfOk result (λ words. word_of words.data_file
        ≡ first_of (codes "data") (clap_found verb (texts_of rest.now))) }
    ensures schedule { IfOk result (λ words. word_of words.schedule
        ≡ first_of (codes "schedule") (clap_found verb (texts_of rest.now))) }
    ensures workers { IfOk result (λ words. word_of words.workers
        ≡ first_of (codes "workers") (clap_found verb (texts_of rest.now))) }
    ensures place { IfOk result (λ words. word_of words.place
        ≡ first_of (codes "place") (clap_found verb (texts_of rest.now))) }
    ensures summary { IfOk result (λ words. word_of words.summary
        ≡ first_of (codes "summary") (clap_found verb (texts_of rest.now))) }
{
    match command(alloc, verb)?.try_get_matches_from(rest) {
        Ok(found) => Ok(Found {
            driver: found.get_str("driver"),
            data_file: found.get_str("data"),
            schedule: found.get_str("schedule"),
            workers: found.get_str("workers"),
            place: found.get_str("place"),
            summary: found.get_str("summary"),
        }),
        Err(fault) if fault.kind() == ErrorKind::OutOfMemory => Err(WordsFault::NoMemory),
        Err(_) => Err(WordsFault::Refused),
    }
}

/// What a command takes.
fn command<'a>(alloc: Global, verb: Verb) -> Result<Command<'a>, AllocError>
    ensures { IfOk result (λ command. app_of command ≡ app_for verb) }
{
    match verb {
        Verb::Check => check_command(alloc),
        Verb::Replay => replay_command(alloc),
    }
}

/// A driver, and a data file if it is named.
fn check_command<'a>(alloc: Global) -> Result<Command<'a>, AllocError>
    ensures { IfOk result (λ command. app_of command ≡ check_app) }
{
    bare_command(alloc)
        .arg(option(alloc, "data"))?
        .arg(positional(alloc, "driver"))
}

/// These, how the job is run, and whether its summary is told.
fn replay_command<'a>(alloc: Global) -> Result<Command<'a>, AllocError>
    ensures { IfOk result (λ command. app_of command ≡ replay_app) }
{
    bare_command(alloc)
        .arg(option(alloc, "data"))?
        .arg(option(alloc, "workers"))?
        .arg(option(alloc, "place"))?
        .arg(option(alloc, "schedule"))?
        .arg(flag(alloc, "summary"))?
        .arg(positional(alloc, "driver"))
}

/// A command without a name of its own, and without help and version.
fn bare_command<'a>(alloc: Global) -> Command<'a>
    ensures { app_of result ≡ bare_app }
{
    Command::new(alloc, "nimbus")
        .no_binary_name(true)
        .disable_help_flag(true)
        .disable_version_flag(true)
}

/// An option with a value.
fn option<'a>(alloc: Global, name: &'a str) -> Arg<'a>
    ensures rule { rule_of result ≡ option_rule name.entry.now }
    ensures local { result.global ≡ false }
{
    Arg::new(alloc, name).long(name)
}

/// An option without a value.
fn flag<'a>(alloc: Global, name: &'a str) -> Arg<'a>
    ensures rule { rule_of result ≡ flag_rule name.entry.now }
    ensures local { result.global ≡ false }
{
    Arg::new(alloc, name).long(name).action(ArgAction::SetTrue)
}

/// A word that has to be there.
fn positional<'a>(alloc: Global, name: &'a str) -> Arg<'a>
    ensures rule { rule_of result ≡ positional_rule name.entry.now }
    ensures local { result.global ≡ false }
{
    Arg::new(alloc, name).required(true)
}
