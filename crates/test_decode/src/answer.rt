//! What decoding answers, as cases name it.

use crate::parse::parse_number;
use anyhow::{Result, bail};
use std::fmt;
use wh_model::{DecodeError, FaultKind};
use wh_syntax::Module;

/// What decoding answers.
#[derive(Clone, Copy, Debug, PartialEq, Eq)]
pub enum Answer {
    /// A module.
    Module,
    /// A fault.
    Fault {
        /// The number of its kind.
        number: usize,
        /// The offset of the byte that it is found at.
        offset: usize,
    },
}

impl fmt::Display for Answer {
    fn fmt<W: fmt::Write>(&self, f: &mut fmt::Formatter<W>) -> fmt::Result {
        match self {
            Answer::Module => write!(f, "ok"),
            Answer::Fault { number, offset } => write!(f, "D{number} {offset}"),
        }
    }
}

/// Returns the answer that a result is; fails if an allocation failed.
pub fn answer_of(decoded: &Result<Module, DecodeError>) -> Result<Answer> {
    match decoded {
        Ok(_) => Ok(Answer::Module),
        Err(error) => {
            if error.kind == FaultKind::Memory {
                bail!("memory was refused");
            }
            Ok(Answer::Fault {
                number: usize::from(error.kind.number()),
                offset: error.offset,
            })
        }
    }
}

/// Returns what a list of cuts, as `ok 8 15 D12 19 26`, says of the beginning of this length.
pub fn expected_at(list: &str, length: usize) -> Result<Answer> {
    let mut answer = Answer::Module;
    for word in list.split_whitespace() {
        if word == "ok" {
            answer = Answer::Module;
        } else if let Some(number) = word.strip_prefix('D') {
            answer = Answer::Fault {
                number: parse_number(number)?,
                offset: length,
            };
        } else if parse_number(word)? == length {
            return Ok(answer);
        }
    }
    Ok(Answer::Fault {
        number: usize::from(FaultKind::Truncated.number()),
        offset: length,
    })
}
