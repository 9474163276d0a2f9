//! What is said on standard error.

use crate::fault::ProgramFault;
use std::fmt::{Display, Write as WriteText};
use std::io::{Error, ErrorKind, Result as IoResult, Write};
use wh_script::ScriptFault;

/// Keeps why something can't be used: its path, or what else it is called, and what is wrong with it. Where there is no memory
/// for that, a part is kept.
pub fn keep_reason(reason: &mut String, place: &str, wrong: impl Display + Drop) {
    let _ = write!(reason, ": {place}: {wrong}");
}

/// Keeps why a call for a path failed, if it did for another cause than want of memory.
pub fn note<T>(outcome: &IoResult<T>, path: &str, reason: &mut String) {
    if let Err(error) = outcome
        && error.kind() != ErrorKind::OutOfMemory
    {
        keep_reason(reason, path, *error);
    }
}

/// Keeps why a stream failed for which the program stops, if that isn't kept yet.
pub fn keep_failure(
    reason: &mut String,
    fault: ProgramFault,
    input: Option<Error>,
    output: Option<Error>,
) {
    let (place, failure) = match fault {
        ProgramFault::Script(ScriptFault::Script) => ("standard input", input),
        ProgramFault::Script(ScriptFault::Output) => ("standard output", output),
        _ => return,
    };
    if let Some(error) = failure
        && reason.is_empty()
    {
        keep_reason(reason, place, error);
    }
}

/// Standard error, as a writer of texts.
#[derive(Drop)]
pub struct Errors<'a, E> {
    pub rt: &'a E,
}

impl<E: Eprint> Write for Errors<'_, E> {
    fn write(&mut self, buf: &[u8]) -> IoResult<usize> {
        match str::from_utf8(buf) {
            Ok(text) => {
                self.rt.eprint(text)?;
                Ok(buf.len())
            }
            Err(_) => Err(Error::from(ErrorKind::InvalidData)),
        }
    }

    fn flush(&mut self) -> IoResult<()> {
        Ok(())
    }
}
