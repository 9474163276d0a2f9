//! The lines of tables.

use anyhow::{Result, bail};
use std::alloc::Global;

/// A line of a table.
#[derive(Clone, Copy)]
pub enum Line<'a> {
    /// It means nothing.
    Nothing,
    /// A file for `load`.
    File {
        /// Its path.
        path: &'a str,
        /// Its bytes as hexadecimal digits.
        digits: &'a str,
    },
    /// The name of a document of settings, whose lines follow.
    Settings(&'a str),
    /// A line of that document.
    Setting(&'a str),
    /// A script, whose lines follow.
    Script {
        /// Its name.
        name: &'a str,
        /// The name of its settings.
        settings: &'a str,
        /// Whether its last line ends as the others do.
        is_ended: bool,
        /// Whether it was made for rounds.
        is_for_rounds: bool,
    },
    /// A line of the script.
    Given(&'a str),
    /// A reply that it is to get.
    Wanted(&'a str),
}

/// A line that begins with a word, by its words.
fn parse_words<'a>(words: &[&'a str]) -> Result<Line<'a>> {
    match words {
        ["file", path] => Ok(Line::File { path, digits: "" }),
        ["file", path, digits] => Ok(Line::File { path, digits }),
        ["settings", name] => Ok(Line::Settings(name)),
        ["script", name, settings] => Ok(Line::Script {
            name,
            settings,
            is_ended: true,
            is_for_rounds: false,
        }),
        ["script", name, settings, "unended"] => Ok(Line::Script {
            name,
            settings,
            is_ended: false,
            is_for_rounds: false,
        }),
        ["script", name, settings, "rounds"] => Ok(Line::Script {
            name,
            settings,
            is_ended: true,
            is_for_rounds: true,
        }),
        _ => bail!("the line isn't understood"),
    }
}

impl<'a> Line<'a> {
    /// Parses a line.
    pub fn parse(alloc: Global, text: &'a str) -> Result<Line<'a>> {
        if text.is_empty() || text.starts_with('#') {
            return Ok(Line::Nothing);
        }
        if let Some(rest) = text.strip_prefix(':') {
            return Ok(Line::Setting(rest));
        }
        if let Some(rest) = text.strip_prefix('>') {
            return Ok(Line::Given(rest));
        }
        if let Some(rest) = text.strip_prefix('<') {
            return Ok(Line::Wanted(rest));
        }
        let words: Vec<&'a str> = text.split(' ').collect(alloc)?;
        parse_words(&words)
    }
}
