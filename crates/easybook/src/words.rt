ghost use Rattle.std.specs.Prelude.{◌≡◌, ◌≤◌, IfOk, IfErr, IfSome, Some, Err, false, [], codes, map, vec_len};
ghost use Rattle.std.specs.Option.{option_map};
ghost use Rattle.clap.specs.Words.{app_of, fault_of, first_value, found_of, kind_of, matches_of, rows_of, rule_of, with_rule};
ghost use Rattle.clap.specs.declared.error.kind.ErrorKind.TheVariants.{OutOfMemory};
ghost use Rattle.scenarios.specs.Limits.{procs_limit};
ghost use Rattle.checkpoints.specs.Spacing.{spacing_limit};
ghost use Rattle.workers.specs.Callers.{callers_limit};
ghost use Rattle.easybook.specs.Words.{IsWordsFault, choice_of, chosen, command_line, found_scripts, is_allowed, is_live, live_rule, option_rule, procs_of, script_rule, spacing_of, with_numbers, workers_of};
ghost use Rattle.easybook.specs.declared.words.WordsFault.TheVariants.{BadWords, Memory};
ghost use Rattle.easybook.specs.Texts.{words_line};

use crate::options::Options;
use checkpoints::MAX_SPACING;
use clap::error::ErrorKind;
use clap::{Arg, ArgAction, ArgMatches, Command};
use commands::number_between;
use scenarios::MAX_PROCS;
use std::alloc::{AllocError, Global};
use std::fmt;
use thiserror::Error;
use workers::MAX_CALLERS;

/// The spacing where the words give none.
const SPACING: u32 = 256;

/// The workers where the words give none.
const WORKERS: u32 = 2;

/// Why the program's words choose nothing.
#[derive(Clone, Copy, Debug, PartialEq, Eq, Error)]
pub enum WordsFault {
    /// A word is unknown, stands twice (but `--script`), lacks its value, or is outside the limits; there
    /// are over 64 scripts; or a conversation is asked for without a LOG or beside a script.
    BadWords,
    /// A growth was refused.
    Memory,
}

impl fmt::Display for WordsFault {
    ghost output = { λ fault. Some (words_line fault) };

    fn fmt<W: fmt::Write>(&self, f: &mut fmt::Formatter<W>) -> fmt::Result {
        match self {
            WordsFault::BadWords => f.write_str("bad arguments"),
            WordsFault::Memory => f.write_str("out of memory"),
        }
    }
}

impl From<AllocError> for WordsFault {
    ghost from_gives = { λ _ fault. fault ≡ Memory };

    fn from(_error: AllocError) -> WordsFault {
        WordsFault::Memory
    }
}

/// What the program's words say.
#[derive(Drop)]
pub struct Words<'a> {
    /// The file that holds the log; none: the log is on standard input.
    pub log: Option<&'a str>,
    pub options: Options,
    /// The files that hold the scripts, in order.
    pub scripts: Vec<&'a str>,
    /// Whether a conversation is held.
    pub live: bool,
}

fn refused(error: clap::Error) -> WordsFault
    ensures { result ≡ BadWords → kind_of error ≡ OutOfMemory → ⊥ }
{
    if error.kind() == ErrorKind::OutOfMemory {
        WordsFault::Memory
    } else {
        WordsFault::BadWords
    }
}

fn option<'a>(alloc: Global, name: &'a str) -> Arg<'a>
    ensures rule { rule_of result ≡ option_rule name.now }
    ensures local { result.global ≡ false }
{
    Arg::new(alloc, name).long(name).action(ArgAction::Set)
}

fn script<'a>(alloc: Global) -> Arg<'a>
    ensures rule { rule_of result ≡ script_rule }
    ensures local { result.global ≡ false }
{
    Arg::new(alloc, "script")
        .long("script")
        .action(ArgAction::Append)
}

fn live<'a>(alloc: Global) -> Arg<'a>
    ensures rule { rule_of result ≡ live_rule }
    ensures local { result.global ≡ false }
{
    Arg::new(alloc, "live")
        .long("live")
        .action(ArgAction::SetTrue)
}

fn with_argument<'a>(command: Command<'a>, arg: Arg<'a>) -> Result<Command<'a>, AllocError>
    requires { arg.global ≡ false }
    ensures { IfOk result (λ c. app_of c ≡ with_rule (app_of command.entry) (rule_of arg.entry)) }
{
    command.arg(arg)
}

fn with_numbers<'a>(alloc: Global, command: Command<'a>) -> Result<Command<'a>, AllocError>
    ensures { IfOk result (λ c. app_of c ≡ with_numbers (app_of command.entry)) }
{
    let command = with_argument(command, option(alloc, "procs"))?;
    let command = with_argument(command, option(alloc, "spacing"))?;
    with_argument(command, option(alloc, "workers"))
}

fn command<'a>(alloc: Global) -> Result<Command<'a>, AllocError>
    ensures { IfOk result (λ command. app_of command ≡ command_line) }
{
    let log = Arg::new(alloc, "LOG").action(ArgAction::Set);
    let command = with_argument(Command::new(alloc, "easybook"), log)?;
    let command = with_numbers(alloc, command)?;
    let command = with_argument(command, script(alloc))?;
    with_argument(command, live(alloc))
}

fn matched<'a>(alloc: Global, words: &'a [&'a str]) -> Result<ArgMatches<'a>, WordsFault>
    ensures taken { IfOk result (λ _. fault_of command_line (map (λ w. w.now) words.now) ≡ []) }
    ensures rows { IfOk result (λ m. rows_of (found_of m) ≡ matches_of command_line (map (λ w. w.now) words.now)) }
    ensures refused { result ≡ Err BadWords → fault_of command_line (map (λ w. w.now) words.now) ≡ [] → ⊥ }
{
    match command(alloc)?.try_get_matches_from(words) {
        Ok(matches) => Ok(matches),
        Err(error) => Err(refused(error)),
    }
}

fn machine(matches: &ArgMatches<'_>) -> Option<Option<u64>>
    ensures value { result ≡ procs_of (first_value (found_of matches.now) (codes "procs")) }
    ensures within { IfSome result (λ procs. IfSome procs (λ n. (1 ≤ n) × (n ≤ procs_limit))) }
{
    match matches.get_str("procs") {
        None => Some(None),
        Some(text) => number_between(text.as_bytes(), 1, MAX_PROCS).map(Some),
    }
}

fn spacing(matches: &ArgMatches<'_>) -> Option<u32>
    ensures value { result ≡ spacing_of (first_value (found_of matches.now) (codes "spacing")) }
    ensures within { IfSome result (λ n. (1 ≤ n) × (n ≤ spacing_limit)) }
{
    let Some(text) = matches.get_str("spacing") else {
        return Some(SPACING);
    };
    let spacing = number_between(text.as_bytes(), 1, u64::from(MAX_SPACING))?;
    Some(spacing as u32)
}

fn workers(matches: &ArgMatches<'_>) -> Option<u32>
    ensures value { result ≡ workers_of (first_value (found_of matches.now) (codes "workers")) }
    ensures within { IfSome result (λ n. (1 ≤ n) × (n ≤ callers_limit)) }
{
    let Some(text) = matches.get_str("workers") else {
        return Some(WORKERS);
    };
    let workers = number_between(text.as_bytes(), 1, MAX_CALLERS)?;
    Some(workers as u32)
}

fn scripts<'a>(alloc: Global, matches: &ArgMatches<'a>) -> Result<Vec<&'a str>, AllocError>
    ensures { IfOk result (λ paths. map (λ p. p.now) paths.items ≡ found_scripts (found_of matches.now)) }
{
    match matches.get_strs("script") {
        Some(paths) => Ok(Vec::from_slice(alloc, paths)?),
        None => Ok(Vec::new(alloc)),
    }
}

fn is_live(matches: &ArgMatches<'_>) -> bool
    ensures { result ≡ is_live (first_value (found_of matches.now) (codes "live")) }
{
    match matches.get_str("live") {
        None => false,
        Some(text) => text == "true",
    }
}

fn is_allowed(live: bool, log: Option<&str>, scripts: usize) -> bool
    ensures { result ≡ is_allowed live (option_map (λ t. t.now) log.entry) scripts }
{
    !live || (log.is_some() && scripts == 0)
}

/// Reads the program's words, its name first.
///
/// LOG, a word that is no option and no option's value, is the file that holds the log. `--procs N`
/// gives the machine's processors, digits from 1 to 16,777,216, and `--spacing N` the most event
/// seconds to a segment of a run, digits from 1 to 65,536; it is 256 where none is given.
/// `--workers N` gives the workers, digits from 1 to 64; they are 2 where none is given. Each
/// `--script FILE` names a file that holds a script; they are at most 64. `--live` asks for a
/// conversation, on a LOG and with no script. Any other word is a bad argument, as is one but `--script`
/// that is given twice. Out of memory is never reported as bad words.
pub fn read_words<'a>(alloc: Global, words: &'a [&'a str]) -> Result<Words<'a>, WordsFault>
    ensures chosen { IfOk result (λ w. chosen (map (λ w. w.now) words.now) ≡ Some (choice_of w)) }
    ensures refused { IfErr result (IsWordsFault (map (λ w. w.now) words.now)) }
    ensures machine { IfOk result (λ w. IfSome w.options.procs (λ n. (1 ≤ n) × (n ≤ procs_limit))) }
    ensures workers { IfOk result (λ w. (1 ≤ w.options.workers) × (w.options.workers ≤ callers_limit)) }
    ensures scripts { IfOk result (λ w. vec_len w.scripts ≤ callers_limit) }
{
    let matches = matched(alloc, words)?;
    let procs = machine(&matches).ok_or(WordsFault::BadWords)?;
    let spacing = spacing(&matches).ok_or(WordsFault::BadWords)?;
    let workers = workers(&matches).ok_or(WordsFault::BadWords)?;
    let scripts = scripts(alloc, &matches)?;
    if scripts.len() as u64 > MAX_CALLERS {
        return Err(WordsFault::BadWords);
    }
    let log = matches.get_str("LOG");
    let live = is_live(&matches);
    if !is_allowed(live, log, scripts.len()) {
        return Err(WordsFault::BadWords);
    }
    Ok(Words {
        log,
        options: Options {
            procs,
            spacing,
            workers,
        },
        scripts,
        live,
    })
}
