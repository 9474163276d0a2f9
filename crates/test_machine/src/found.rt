//! What comes of a call.

use std::fmt;
use wh_alone::{CallError, Outcome};
use wh_load::LoadError;

/// What comes of a call.
#[derive(Clone, Copy)]
pub enum Found {
    /// It has ended so, or waits, with this many charges from its beginning.
    Ended(Outcome, u64),
    /// The module has no instance.
    Refused(CallError),
    /// No function is exported under this name, or it takes other arguments.
    NoCall,
    /// No call waits for fuel.
    NotStanding,
}

fn write_outcome<W: fmt::Write>(f: &mut fmt::Formatter<W>, outcome: Outcome) -> fmt::Result {
    match outcome {
        Outcome::Returned(Some(word)) => write!(f, "word {word}"),
        Outcome::Returned(None) => write!(f, "done"),
        Outcome::Trapped(trap) => write!(f, "trap T{}", trap.number()),
        Outcome::OutOfFuel => write!(f, "fuel"),
    }
}

fn write_refusal<W: fmt::Write>(f: &mut fmt::Formatter<W>, error: CallError) -> fmt::Result {
    match error {
        CallError::Load(LoadError::Decode(error)) => {
            write!(f, "D{} at {}", error.kind.number(), error.offset)
        }
        CallError::Load(LoadError::Valid(error)) => {
            let kind = error.kind.number();
            match error.func {
                Some(func) => write!(f, "V{kind} func {func} instr {}", error.instr),
                None => write!(f, "V{kind} module"),
            }
        }
        CallError::Load(LoadError::Link(error)) => write!(f, "{error}"),
        CallError::Instantiate(error) => write!(f, "{error}"),
        CallError::Memory => write!(f, "{error}"),
    }
}

impl fmt::Display for Found {
    fn fmt<W: fmt::Write>(&self, f: &mut fmt::Formatter<W>) -> fmt::Result {
        match *self {
            Found::Ended(outcome, charges) => {
                write_outcome(f, outcome)?;
                write!(f, " charges {charges}")
            }
            Found::Refused(error) => {
                write!(f, "refused ")?;
                write_refusal(f, error)
            }
            Found::NoCall => write!(f, "no such call"),
            Found::NotStanding => write!(f, "no call that stands for fuel"),
        }
    }
}
