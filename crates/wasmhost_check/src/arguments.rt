//! The command line.

use clap::builder::ValueParser;
use clap::{Arg, ArgAction, ArgMatches, Command, Error};
use std::alloc::{AllocError, Global};
use wh_settings::VERSION;

/// What a file is looked at as.
#[derive(Clone, Copy, Debug, PartialEq, Eq)]
pub enum Kind {
    /// A module.
    Module,
    /// Settings.
    Settings,
    /// A script.
    Script,
}

static KINDS: [&str; 3] = ["module", "settings", "script"];

/// What a command line asks for.
#[derive(Clone, Copy, Debug)]
pub struct CheckArguments<'a> {
    /// What the file is looked at as.
    pub kind: Kind,
    /// The path of the file.
    pub file: &'a str,
    /// Whether the verdict is written as JSON.
    pub is_json: bool,
}

/// The option that asks for JSON.
fn json_option<'a>(alloc: Global) -> Arg<'a> {
    Arg::new(alloc, "json")
        .long("json")
        .action(ArgAction::SetTrue)
        .help("Write the verdict as JSON")
}

/// The word that says what the file is.
fn kind_word<'a>(alloc: Global) -> Arg<'a> {
    Arg::new(alloc, "KIND")
        .required(true)
        .value_parser(ValueParser::from(KINDS.as_slice()))
        .help("What the file is")
}

/// The word that names the file.
fn file_word<'a>(alloc: Global) -> Arg<'a> {
    Arg::new(alloc, "FILE")
        .required(true)
        .help("The file to look at")
}

/// What the program accepts.
fn accepted<'a>(alloc: Global) -> Result<Command<'a>, AllocError> {
    Command::new(alloc, "wasmhost_check")
        .version(VERSION)
        .about("Tells why wasmhost refuses a module, settings or lines of a script")
        .arg(json_option(alloc))?
        .arg(kind_word(alloc))?
        .arg(file_word(alloc))
}

/// What these words match of what the program accepts.
fn matches_of<'a>(alloc: Global, words: &'a [String]) -> Result<ArgMatches<'a>, Error> {
    accepted(alloc)?.try_get_matches_from(words)
}

/// What these matches ask for. The parser let none through without both words.
fn arguments_of<'a>(matches: &ArgMatches<'a>) -> CheckArguments<'a> {
    let kind = match matches.get_str("KIND") {
        Some("settings") => Kind::Settings,
        Some("script") => Kind::Script,
        _ => Kind::Module,
    };
    CheckArguments {
        kind,
        file: matches.get_str("FILE").unwrap_or(""),
        is_json: matches.get_flag("json"),
    }
}

/// Parses a command line, the first word of which is the program's name.
///
/// # Errors
/// Words that the program doesn't accept; a failed allocation; and `--help` and `--version`, whose text goes to
/// standard output.
pub fn read_args<'a>(alloc: Global, words: &'a [String]) -> Result<CheckArguments<'a>, Error> {
    let matches = matches_of(alloc, words)?;
    Ok(arguments_of(&matches))
}
