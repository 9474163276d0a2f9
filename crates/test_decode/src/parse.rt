//! How cases are written.
//!
//! A module is words one after the other: bytes as hexadecimal digits, `6a0b`; the same bytes a number of times,
//! `01*300`; and once at most a range of bytes, `28..35`, which makes as many cases, each with one byte of the range in
//! its place.

use crate::answer::Answer;
use anyhow::{Result, bail};
use std::alloc::Global;

/// Modules that differ in one byte at most.
#[derive(Drop)]
pub struct Pattern {
    /// The first byte of the range.
    pub first: u8,
    /// The last byte of the range.
    pub last: u8,
    before: Vec<u8>,
    after: Vec<u8>,
    ranged: bool,
}

impl Pattern {
    /// Returns the module with this byte of the range.
    pub fn bytes(&self, alloc: Global, byte: u8) -> Result<Vec<u8>> {
        let mut bytes = Vec::from_slice(alloc, &self.before)?;
        if self.ranged {
            bytes.push(byte)?;
        }
        bytes.extend_from_slice(&self.after)?;
        Ok(bytes)
    }
}

/// Parses a decimal number.
pub fn parse_number(word: &str) -> Result<usize> {
    match word.parse::<usize>() {
        Ok(number) => Ok(number),
        Err(_) => bail!("{word:?} is no number"),
    }
}

fn parse_byte(word: &str) -> Result<u8> {
    let mut byte = [0u8; 1];
    match hex::decode_to_slice(word, &mut byte) {
        Ok(()) => Ok(byte[0]),
        Err(_) => bail!("{word:?} is no byte"),
    }
}

fn add_repeated(alloc: Global, bytes: &mut Vec<u8>, digits: &str, times: usize) -> Result<()> {
    match hex::decode(alloc, digits) {
        Ok(list) => {
            for _ in 0..times {
                bytes.extend_from_slice(&list)?;
            }
            Ok(())
        }
        Err(error) => bail!("{digits:?}: {error}"),
    }
}

fn add_word(alloc: Global, bytes: &mut Vec<u8>, word: &str) -> Result<()> {
    match word.split_once('*') {
        Some((digits, times)) => add_repeated(alloc, bytes, digits, parse_number(times)?),
        None => add_repeated(alloc, bytes, word, 1),
    }
}

/// Parses the pattern of modules that a text spells.
pub fn parse_pattern(alloc: Global, text: &str) -> Result<Pattern> {
    let mut first = 0u8;
    let mut last = 0u8;
    let mut ranged = false;
    let mut before = Vec::new(alloc);
    let mut after = Vec::new(alloc);
    for word in text.split_whitespace() {
        if let Some((low, high)) = word.split_once("..") {
            if ranged {
                bail!("a second range");
            }
            first = parse_byte(low)?;
            last = parse_byte(high)?;
            ranged = true;
        } else if ranged {
            add_word(alloc, &mut after, word)?;
        } else {
            add_word(alloc, &mut before, word)?;
        }
    }
    Ok(Pattern {
        first,
        last,
        before,
        after,
        ranged,
    })
}

/// Parses an answer as cases name it.
pub fn parse_answer(text: &str) -> Result<Answer> {
    if text == "ok" {
        return Ok(Answer::Module);
    }
    let Some((kind, offset)) = text.split_once(' ') else {
        bail!("{text:?} is no answer");
    };
    match kind.strip_prefix('D') {
        Some(number) => Ok(Answer::Fault {
            number: parse_number(number)?,
            offset: parse_number(offset)?,
        }),
        None => bail!("{text:?} is no answer"),
    }
}
