//! What a table wants of a call.

use crate::found::Found;
use anyhow::{Result, bail};
use wh_alone::Outcome;

/// How a call is to end.
#[derive(Clone, Copy)]
enum Ending {
    /// It returns this word.
    Word(u64),
    /// It returns without a result.
    Done,
    /// It traps, by the number of the trap.
    Trap(u8),
    /// It waits for fuel.
    Fuel,
}

impl Ending {
    /// Whether a call has ended so.
    fn is_of(self, outcome: Outcome) -> bool {
        match (self, outcome) {
            (Ending::Word(wanted), Outcome::Returned(Some(word))) => wanted == word,
            (Ending::Done, Outcome::Returned(None)) => true,
            (Ending::Trap(wanted), Outcome::Trapped(trap)) => wanted == trap.number(),
            (Ending::Fuel, Outcome::OutOfFuel) => true,
            _ => false,
        }
    }
}

/// What a call is to come to.
#[derive(Clone, Copy)]
pub struct Expected {
    ending: Ending,
    charges: Option<u64>,
}

/// What is said of charges and depth after an ending. The depth isn't kept.
fn parse_charges(words: &[&str]) -> Result<Option<u64>> {
    match *words {
        [] => Ok(None),
        ["charges", charges] => Ok(Some(charges.parse()?)),
        ["charges", charges, "depth", depth] => {
            depth.parse::<u32>()?;
            Ok(Some(charges.parse()?))
        }
        _ => bail!("what stands behind the outcome isn't understood"),
    }
}

fn parse_trap(word: &str) -> Result<u8> {
    match word.strip_prefix('T') {
        Some(number) => Ok(number.parse()?),
        None => bail!("{word:?} is no trap"),
    }
}

impl Expected {
    /// Parses the words of an outcome.
    pub fn parse(words: &[&str]) -> Result<Expected> {
        let (ending, rest) = match words {
            ["i32", word, rest @ ..] => (Ending::Word(u64::from(word.parse::<u32>()?)), rest),
            ["i64", word, rest @ ..] => (Ending::Word(word.parse()?), rest),
            ["done", rest @ ..] => (Ending::Done, rest),
            ["trap", trap, rest @ ..] => (Ending::Trap(parse_trap(trap)?), rest),
            ["fuel", rest @ ..] => (Ending::Fuel, rest),
            _ => bail!("the outcome isn't understood"),
        };
        Ok(Expected {
            ending,
            charges: parse_charges(rest)?,
        })
    }

    /// Tells whether this is the outcome of a call.
    pub fn agrees(self, found: Found) -> bool {
        let Found::Ended(outcome, taken) = found else {
            return false;
        };
        self.ending.is_of(outcome) && self.charges.unwrap_or(taken) == taken
    }
}
