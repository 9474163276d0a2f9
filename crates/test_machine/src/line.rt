//! The lines of tables.

use crate::expected::Expected;
use anyhow::{Result, bail};
use std::alloc::Global;

/// A line of a table.
#[derive(Drop)]
pub enum Line<'a> {
    /// The module that the lines after it speak of.
    Module {
        /// Its name.
        name: &'a str,
        /// Its bytes as hexadecimal digits, where it hasn't been named before.
        digits: Option<&'a str>,
        /// How it is refused, if it is.
        refusal: Option<&'a str>,
    },
    /// What the host gives the instance.
    Host {
        /// The value of `base`.
        base: u32,
        /// The value of `salt`.
        salt: u64,
        /// The words that `input` reads.
        inputs: Vec<u64>,
    },
    /// To how many pages the memory may grow.
    Pages(u32),
    /// A call.
    Call {
        /// The name of the exported function.
        export: &'a str,
        /// The words that it is passed.
        arguments: Vec<u64>,
        /// How many charges it may take.
        fuel: u64,
        /// What it is to come to.
        expected: Expected,
    },
    /// The call before goes on.
    More {
        /// How many charges more it may take.
        fuel: u64,
        /// What it is to come to.
        expected: Expected,
    },
    /// What has been put out by now, as hexadecimal digits; `-` for nothing.
    Output(&'a str),
}

fn parse_words(alloc: Global, words: &[&str]) -> Result<Vec<u64>> {
    let mut numbers = Vec::new(alloc);
    for word in words {
        numbers.push(word.parse()?)?;
    }
    Ok(numbers)
}

fn parse_call<'a>(
    alloc: Global,
    export: &'a str,
    arguments: &[&str],
    fuel: u64,
    outcome: &[&str],
) -> Result<Line<'a>> {
    Ok(Line::Call {
        export,
        arguments: parse_words(alloc, arguments)?,
        fuel,
        expected: Expected::parse(outcome)?,
    })
}

/// A line with an arrow, by the words before and after it.
fn parse_expectation<'a>(alloc: Global, words: &[&'a str], outcome: &[&str]) -> Result<Line<'a>> {
    match words {
        ["call", export, arguments @ .., "fuel", fuel] => {
            parse_call(alloc, export, arguments, fuel.parse()?, outcome)
        }
        ["call", export, arguments @ ..] => {
            parse_call(alloc, export, arguments, u64::MAX, outcome)
        }
        ["more", fuel] => Ok(Line::More {
            fuel: fuel.parse()?,
            expected: Expected::parse(outcome)?,
        }),
        _ => bail!("the line isn't understood"),
    }
}

/// A line without an arrow, by its words.
fn parse_plain<'a>(alloc: Global, words: &[&'a str]) -> Result<Line<'a>> {
    match words {
        ["module", name, digits @ ..] if digits.len() < 2 => Ok(Line::Module {
            name,
            digits: digits.first().copied(),
            refusal: None,
        }),
        ["host", base, salt, inputs @ ..] => Ok(Line::Host {
            base: base.parse()?,
            salt: salt.parse()?,
            inputs: parse_words(alloc, inputs)?,
        }),
        ["pages", count] => Ok(Line::Pages(count.parse()?)),
        ["output", digits] => Ok(Line::Output(digits)),
        _ => bail!("the line isn't understood"),
    }
}

impl<'a> Line<'a> {
    /// Parses a line.
    pub fn parse(alloc: Global, text: &'a str) -> Result<Line<'a>> {
        let Some((before, behind)) = text.split_once(" -> ") else {
            let words: Vec<&'a str> = text.split(' ').collect(alloc)?;
            return parse_plain(alloc, &words);
        };
        let words: Vec<&'a str> = before.split(' ').collect(alloc)?;
        if let ["module", name, digits] = *words.as_slice() {
            return Ok(Line::Module {
                name,
                digits: Some(digits),
                refusal: Some(behind),
            });
        }
        let outcome: Vec<&str> = behind.split(' ').collect(alloc)?;
        parse_expectation(alloc, &words, &outcome)
    }
}
