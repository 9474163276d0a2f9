//! The command line.

ghost use Rattle.std.specs.Prelude.{◌≡◌, IfErr, IfOk, List, OnOk, [], codes, false, map, string_bytes};
ghost use Rattle.clap.specs.Words.{FailsBy, Text, app_of, found_of, new_app, one_text, rule_of};
ghost use Rattle.wasmhost_program.specs.Accepted.{MeansArguments, CountsWorkers, IsRefusedBy, RefusesBy, command_line, line_faults, script_rule, settings_rule, with_version, workers_rule};
ghost use Rattle.wasmhost_program.specs.ParsedArguments.{FindsIn};

use clap::builder::ValueParser;
use clap::error::ErrorKind;
use clap::{Arg, ArgMatches, Command, Error};
use std::alloc::{AllocError, Global};
use wh_settings::{VERSION, Workers};

/// Why a command line isn't accepted.
#[derive(Debug, Drop)]
pub enum ArgumentsError {
    /// There was no memory to read it.
    Memory,
    /// It isn't one of this program, or asks for help or the version: the parser's text.
    Line(Error),
}

impl From<Error> for ArgumentsError {
    ghost from_gives = { RefusesBy };

    fn from(error: Error) -> ArgumentsError {
        if error.kind() == ErrorKind::OutOfMemory {
            return ArgumentsError::Memory;
        }
        ArgumentsError::Line(error)
    }
}

/// What a command line asks for.
#[derive(Clone, Copy, Debug)]
pub struct Arguments<'a> {
    /// The path of the settings. Without one they are as they are by default.
    pub settings: Option<&'a str>,
    /// How many threads run calls.
    pub workers: Workers,
    /// The path of the script. Without one it is standard input.
    pub script: Option<&'a str>,
}

/// How many threads run calls by these matches; 4 where they don't say it. The parser let no number but 1 to 64 through.
fn workers_of(matches: &ArgMatches<'_>) -> Workers
    ensures { (words : List Text) → FindsIn words matches.now
        → CountsWorkers (one_text (found_of matches.now) (codes "workers")) result.number }
{
    let number = matches.get_one::<u8>("workers");
    number.and_then(Workers::new).unwrap_or(Workers::default())
}

/// The option that names a file of settings.
fn settings_option<'a>(alloc: Global) -> Arg<'a>
    ensures rule { rule_of result ≡ settings_rule }
    ensures local { result.global ≡ false }
{
    Arg::new(alloc, "settings")
        .long("settings")
        .value_name("FILE")
        .help("A file of settings, in TOML; without it they are as they are by default")
}

/// The option that says how many threads run calls.
fn workers_option<'a>(alloc: Global) -> Arg<'a>
    ensures rule { rule_of result ≡ workers_rule }
    ensures local { result.global ≡ false }
{
    Arg::new(alloc, "workers")
        .long("workers")
        .value_name("N")
        .value_parser(ValueParser::unsigned(1, 64))
        .help("How many threads run calls, 1 to 64; without it they are 4")
}

/// The word that names a script.
fn script_word<'a>(alloc: Global) -> Arg<'a>
    ensures rule { rule_of result ≡ script_rule }
    ensures local { result.global ≡ false }
{
    Arg::new(alloc, "SCRIPT").help("A file of requests; standard input without it")
}

/// A command of this name that tells its version.
fn named<'a>(alloc: Global, name: &'a str) -> Command<'a>
    ensures { app_of result ≡ with_version (new_app name.entry.now) }
{
    Command::new(alloc, name).version(VERSION)
}

/// What the program accepts.
fn accepted<'a>(alloc: Global) -> Result<Command<'a>, AllocError>
    ensures { IfOk result (λ command. app_of command ≡ command_line) }
{
    named(alloc, "wasmhost")
        .about("Runs WebAssembly modules as a script of requests asks for it")
        .arg(settings_option(alloc))?
        .arg(workers_option(alloc))?
        .arg(script_word(alloc))
}

/// What these words match of what the program accepts.
fn matches_of<'a>(alloc: Global, words: &'a [String]) -> Result<ArgMatches<'a>, Error>
    ensures finds { IfOk result (FindsIn (map string_bytes words.entry.now)) }
    ensures fails { FailsBy (line_faults (map string_bytes words.entry.now)) result }
{
    accepted(alloc)?.try_get_matches_from(words)
}

/// What these matches ask for.
fn arguments_of<'a>(matches: &ArgMatches<'a>) -> Arguments<'a>
    ensures { (words : List Text) → FindsIn words matches.now → MeansArguments words result }
{
    Arguments {
        settings: matches.get_str("settings"),
        workers: workers_of(matches),
        script: matches.get_str("SCRIPT"),
    }
}

/// Parses a command line, the first word of which is the program's name.
///
/// # Errors
/// `Line` for words that the program doesn't accept, `--help` and `--version` among them; `Memory` if an allocation
/// fails.
pub fn read_args<'a>(alloc: Global, words: &'a [String]) -> Result<Arguments<'a>, ArgumentsError>
    ensures accepts { OnOk result (line_faults (map string_bytes words.entry.now) ≡ []) }
    ensures asks { IfOk result (MeansArguments (map string_bytes words.entry.now)) }
    ensures refuses { IfErr result (IsRefusedBy (line_faults (map string_bytes words.entry.now))) }
{
    let matches = matches_of(alloc, words)?;
    Ok(arguments_of(&matches))
}
